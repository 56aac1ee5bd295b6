//! Finds the first place of a node that isn't built, or of a read that may be unset.

ghost use Rattle.std.specs.Prelude.{◌≡◌, ◌&&◌, [], IfOk, OnOk};
ghost use Rattle.std.specs.Option.{option_map};
ghost use Rattle.py_meaning.specs.Built as built;
ghost use Rattle.py_meaning.specs.Rules.{has_name};
ghost use Rattle.py_syntax.specs.Tree.{ECompare};
ghost use Rattle.py_lexer.specs.PlainTokens.{plain_place};
ghost use Rattle.py_ast.specs.PlainOperators.{plain_comparison};
ghost use Rattle.py_ast.specs.PlainExprs.{plain_expr, plain_exprs, plain_links};
ghost use Rattle.py_ast.specs.PlainTrees.{plain_stmt, plain_body};
ghost use Rattle.py_built.specs.First as first;
ghost use Rattle.py_built.specs.Names.{texts, Alike};

use crate::forms::{assigned, printed};
use crate::names::{bind, has, variable};
use crate::operators::{build_binary, build_comparison};
use indexmap::IndexSet;
use py_ast::{ComparisonOperator, Expr, Stmt, UnaryOperator};
use py_lexer::is_before;
use shed_base::{Name, Names, Place};
use std::alloc::{AllocError, Global};

// The earlier of two places; the first of them where both are one.
fn earliest(place: Option<Place>, other: Option<Place>) -> Option<Place>
    ensures { option_map plain_place result ≡ first.earliest (option_map plain_place place) (option_map plain_place other) }
{
    match place {
        None => other,
        Some(place) => match other {
            None => Some(place),
            Some(other) => {
                if is_before(other, place) {
                    Some(other)
                } else {
                    Some(place)
                }
            }
        },
    }
}

// Whether a name is a variable that is sure to be bound.
fn is_sure(names: &Names, sure: &IndexSet<String>, name: Name) -> bool
    ensures { result ≡ (built.is_variable (built.text_at names.now name.0) && has_name (texts sure.now) (built.text_at names.now name.0)) }
{
    match variable(names, name) {
        Some(text) => has(sure, text),
        None => false,
    }
}

// In an expression that is a value.
#[cycle(values)]
#[tactic(auto, using(py_ast::specs::PlainExprs::plain_exprs_by_variant, crate::proofs::FirstPlaces::firsts))]
fn unbuilt_expr(names: &Names, sure: &IndexSet<String>, expr: &Expr) -> Option<Place>
    ensures { option_map plain_place result ≡ built.first_place (built.unbuilt_expr names.now (texts sure.now) (plain_expr expr.now)) }
{
    match expr {
        Expr::Name(place, name) => {
            if is_sure(names, sure, *name) {
                None
            } else {
                Some(*place)
            }
        }
        Expr::Number(..) => None,
        Expr::Unary(place, operator, operand) => match operator {
            UnaryOperator::Negative => unbuilt_expr(names, sure, operand.get()),
            UnaryOperator::Positive => Some(*place),
            UnaryOperator::Invert => Some(*place),
        },
        Expr::Binary(place, operator, left, right) => {
            let inner = unbuilt_expr(names, sure, left.get());
            match build_binary(*operator) {
                Some(_) => earliest(inner, unbuilt_expr(names, sure, right.get())),
                None => earliest(Some(*place), inner),
            }
        }
        Expr::Tuple(place, items) => {
            earliest(Some(*place), unbuilt_first(names, sure, items.as_slice()))
        }
        Expr::Attribute(place, inner, _)
        | Expr::Call(place, inner, _, _)
        | Expr::Subscript(place, inner, _)
        | Expr::Slice(place, inner, _, _)
        | Expr::Compare(place, _, inner, _, _)
        | Expr::And(place, inner, _, _)
        | Expr::Or(place, inner, _, _)
        | Expr::Conditional(place, inner, _, _) => {
            earliest(Some(*place), unbuilt_expr(names, sure, inner.get()))
        }
        Expr::Parenthesis(place, _)
        | Expr::Text(place, _)
        | Expr::True(place)
        | Expr::False(place)
        | Expr::None(place)
        | Expr::EmptyTuple(place)
        | Expr::List(place, _, _)
        | Expr::ListComprehension(place, _, _)
        | Expr::Dict(place, _)
        | Expr::Set(place, _)
        | Expr::Not(place, _) => Some(*place),
    }
}

#[cycle(values)]
fn unbuilt_first(names: &Names, sure: &IndexSet<String>, items: &[Expr]) -> Option<Place>
    ensures { option_map plain_place result ≡ built.first_place (built.unbuilt_first names.now (texts sure.now) (plain_exprs items.now)) }
{
    match items {
        [] => None,
        [first, ..] => unbuilt_expr(names, sure, first),
    }
}

// In a comparison that is tested; the last are further comparisons of a chain.
fn unbuilt_comparison(
    names: &Names,
    sure: &IndexSet<String>,
    place: Place,
    operator: ComparisonOperator,
    left: &Expr,
    right: &Expr,
    links: &[(Place, ComparisonOperator, Expr)],
) -> Option<Place>
    ensures { option_map plain_place result ≡ built.first_place (built.unbuilt_condition names.now (texts sure.now)
        (ECompare (plain_place place) (plain_comparison operator) (plain_expr left.now) (plain_expr right.now) (plain_links links.now))) }
{
    let inner = unbuilt_expr(names, sure, left);
    if links.len() != 0 {
        return earliest(Some(place), earliest(Some(place), inner));
    }
    match build_comparison(operator) {
        Some(_) => earliest(inner, unbuilt_expr(names, sure, right)),
        None => earliest(Some(place), inner),
    }
}

// In what an `if` or a `while` tests.
#[tactic(auto, using(py_ast::specs::PlainExprs::plain_exprs_by_variant))]
fn unbuilt_condition(names: &Names, sure: &IndexSet<String>, expr: &Expr) -> Option<Place>
    ensures { option_map plain_place result ≡ built.first_place (built.unbuilt_condition names.now (texts sure.now) (plain_expr expr.now)) }
{
    match expr {
        Expr::Compare(place, operator, left, right, links) => unbuilt_comparison(
            names,
            sure,
            *place,
            *operator,
            left.get(),
            right.get(),
            links.as_slice(),
        ),
        Expr::Name(place, _)
        | Expr::Number(place, _)
        | Expr::Text(place, _)
        | Expr::True(place)
        | Expr::False(place)
        | Expr::None(place)
        | Expr::Parenthesis(place, _)
        | Expr::EmptyTuple(place)
        | Expr::Tuple(place, _)
        | Expr::List(place, _, _)
        | Expr::ListComprehension(place, _, _)
        | Expr::Dict(place, _)
        | Expr::Set(place, _)
        | Expr::Attribute(place, _, _)
        | Expr::Call(place, _, _, _)
        | Expr::Subscript(place, _, _)
        | Expr::Slice(place, _, _, _)
        | Expr::Unary(place, _, _)
        | Expr::Binary(place, _, _, _)
        | Expr::Not(place, _)
        | Expr::And(place, _, _, _)
        | Expr::Or(place, _, _, _)
        | Expr::Conditional(place, _, _, _) => {
            earliest(Some(*place), unbuilt_expr(names, sure, expr))
        }
    }
}

// In a statement.
#[cycle(statements)]
#[tactic(auto, using(py_ast::specs::PlainTrees::plain_stmts_by_variant, crate::proofs::FirstPlaces::firsts))]
fn unbuilt_stmt(names: &Names, sure: &IndexSet<String>, stmt: &Stmt) -> Option<Place>
    ensures { option_map plain_place result ≡ built.first_place (built.unbuilt_stmt names.now (texts sure.now) (plain_stmt stmt.now)) }
{
    match stmt {
        Stmt::Assign(place, targets, value) => match assigned(names, targets.as_slice()) {
            Some(_) => unbuilt_expr(names, sure, value),
            None => Some(*place),
        },
        Stmt::Expr(place, expr) => match printed(names, expr) {
            Some((_, value)) => unbuilt_expr(names, sure, value),
            None => Some(*place),
        },
        Stmt::If(_, test, body, other) => {
            let inner = earliest(
                unbuilt_block(names, sure, body.as_slice()),
                unbuilt_block(names, sure, other.as_slice()),
            );
            earliest(unbuilt_condition(names, sure, test), inner)
        }
        Stmt::While(_, test, body) => earliest(
            unbuilt_condition(names, sure, test),
            unbuilt_block(names, sure, body.as_slice()),
        ),
        Stmt::Augmented(place, _, _, _)
        | Stmt::Pass(place)
        | Stmt::Break(place)
        | Stmt::Continue(place)
        | Stmt::Return(place, _)
        | Stmt::Raise(place, _)
        | Stmt::Yield(place, _)
        | Stmt::Global(place, _)
        | Stmt::Assert(place, _, _)
        | Stmt::Delete(place, _, _, _)
        | Stmt::For(place, _, _, _)
        | Stmt::Try(place, _, _)
        | Stmt::Def(place, _, _, _)
        | Stmt::Class(place, _, _, _)
        | Stmt::Import(place, _)
        | Stmt::FromImport(place, _, _) => Some(*place),
    }
}

// In the statements of a block.
#[cycle(statements)]
fn unbuilt_block(names: &Names, sure: &IndexSet<String>, body: &[Stmt]) -> Option<Place>
    ensures { option_map plain_place result ≡ built.first_place (built.unbuilt_block names.now (texts sure.now) (plain_body body.now)) }
{
    let mut place = None;
    for stmt in body {
        place = earliest(place, unbuilt_stmt(names, sure, stmt));
    }
    place
}

// Adds the name that a statement of the module itself assigns to.
#[tactic(auto, using(py_ast::specs::PlainTrees::plain_stmts_by_variant))]
fn bind_assigned(
    alloc: Global,
    names: &Names,
    sure: &mut IndexSet<String>,
    stmt: &Stmt,
) -> Result<(), AllocError>
    ensures { OnOk result (Alike (texts sure.new) (built.sure_behind names.now (plain_stmt stmt.now) (texts sure.old))) }
{
    match stmt {
        Stmt::Assign(_, targets, _) => match assigned(names, targets.as_slice()) {
            Some(name) => {
                bind(alloc, sure, name)?;
                Ok(())
            }
            None => Ok(()),
        },
        Stmt::Expr(..)
        | Stmt::If(..)
        | Stmt::While(..)
        | Stmt::Augmented(..)
        | Stmt::Pass(..)
        | Stmt::Break(..)
        | Stmt::Continue(..)
        | Stmt::Return(..)
        | Stmt::Raise(..)
        | Stmt::Yield(..)
        | Stmt::Global(..)
        | Stmt::Assert(..)
        | Stmt::Delete(..)
        | Stmt::For(..)
        | Stmt::Try(..)
        | Stmt::Def(..)
        | Stmt::Class(..)
        | Stmt::Import(..)
        | Stmt::FromImport(..) => Ok(()),
    }
}

/// The first place in the statements of a module.
pub(crate) fn first_unbuilt(
    alloc: Global,
    names: &Names,
    body: &[Stmt],
) -> Result<Option<Place>, AllocError>
    ensures { IfOk result (λ place. option_map plain_place place ≡ built.first_place (built.unbuilt names.now [] (plain_body body.now))) }
{
    let mut sure: IndexSet<String> = IndexSet::new(alloc);
    let mut place = None;
    for stmt in body {
        place = earliest(place, unbuilt_stmt(names, &sure, stmt));
        bind_assigned(alloc, names, &mut sure, stmt)?;
    }
    Ok(place)
}
