//! Expressions that turn out to be targets of assignments.

ghost use Rattle.std.specs.Prelude.{◌≡◌, [], ◌∷◌, Some, IfOk};
ghost use Rattle.py_syntax.specs.Build as build;
ghost use Rattle.py_lexer.specs.PlainTokens.{plain_place};
ghost use Rattle.py_ast.specs.PlainExprs.{plain_expr, plain_exprs};
ghost use Rattle.py_ast.specs.PlainTrees.{plain_target, plain_target_list, plain_targets};
ghost use Rattle.parser_targets.specs.PlainTargets.{all_around, peeled_targets};

use py_ast::{Expr, NameAt, Target, Targets};
use shed_base::Place;
use sqlite_items::{Boxed, Items};
use std::alloc::{AllocError, Global};

/// The place of an expression's first token.
#[tactic(auto, using(py_ast::specs::PlainExprs::plain_exprs_by_variant, crate::proofs::TargetLemmas::slices))]
pub fn start_of(expr: &Expr) -> Result<Place, AllocError>
    ensures { IfOk result (λ p. plain_place p ≡ build.start_of (plain_expr expr.now)) }
{
    let mut inner = expr;
    for _turn in 0..u64::MAX {
        match inner {
            Expr::Name(place, _)
            | Expr::Number(place, _)
            | Expr::Text(place, _)
            | Expr::True(place)
            | Expr::False(place)
            | Expr::None(place)
            | Expr::Parenthesis(place, _)
            | Expr::EmptyTuple(place)
            | Expr::List(place, _, _)
            | Expr::ListComprehension(place, _, _)
            | Expr::Dict(place, _)
            | Expr::Set(place, _)
            | Expr::Unary(place, _, _)
            | Expr::Not(place, _) => return Ok(*place),
            Expr::Tuple(place, items) => match items.as_slice().first() {
                Some(first) => inner = first,
                None => return Ok(*place),
            },
            Expr::Attribute(_, first, _)
            | Expr::Call(_, first, _, _)
            | Expr::Subscript(_, first, _)
            | Expr::Slice(_, first, _, _)
            | Expr::Binary(_, _, first, _)
            | Expr::Compare(_, _, first, _, _)
            | Expr::And(_, first, _, _)
            | Expr::Or(_, first, _, _)
            | Expr::Conditional(_, first, _, _) => inner = first.get(),
        }
    }
    Err(AllocError)
}

/// The target that an expression is; want of memory where it is none.
#[tactic(auto, using(py_ast::specs::PlainExprs::plain_exprs_by_variant, crate::proofs::TargetLemmas::slices))]
pub fn target_of(expr: Expr) -> Result<Target, AllocError>
    ensures { IfOk result (λ t. build.target_of (plain_expr expr) ≡ Some (plain_target t)) }
{
    match expr {
        Expr::Name(place, name) => Ok(Target::Name(NameAt { place, name })),
        Expr::Attribute(place, object, name) => Ok(Target::Attribute(place, object, name)),
        Expr::Subscript(place, object, index) => Ok(Target::Subscript(place, object, index)),
        _other => Err(AllocError),
    }
}

/// Whether an expression is a name.
#[tactic(auto, using(py_ast::specs::PlainExprs::plain_exprs_by_variant, crate::proofs::TargetLemmas::slices))]
pub fn is_name(expr: &Expr) -> bool
    ensures { result ≡ build.is_name_last (build.PExpr (plain_expr expr.now) ∷ []) }
{
    match expr {
        Expr::Name(_, _) => true,
        Expr::Number(_, _)
        | Expr::Text(_, _)
        | Expr::True(_)
        | Expr::False(_)
        | Expr::None(_)
        | Expr::Parenthesis(_, _)
        | Expr::EmptyTuple(_)
        | Expr::Tuple(_, _)
        | Expr::List(_, _, _)
        | Expr::ListComprehension(_, _, _)
        | Expr::Dict(_, _)
        | Expr::Set(_, _)
        | Expr::Attribute(_, _, _)
        | Expr::Call(_, _, _, _)
        | Expr::Subscript(_, _, _)
        | Expr::Slice(_, _, _, _)
        | Expr::Unary(_, _, _)
        | Expr::Binary(_, _, _, _)
        | Expr::Compare(_, _, _, _, _)
        | Expr::Not(_, _)
        | Expr::And(_, _, _, _)
        | Expr::Or(_, _, _, _)
        | Expr::Conditional(_, _, _, _) => false,
    }
}

/// Whether an expression is a target.
#[tactic(auto, using(py_ast::specs::PlainExprs::plain_exprs_by_variant, crate::proofs::TargetLemmas::slices))]
pub fn is_target(expr: &Expr) -> bool
    ensures { result ≡ build.is_some (build.target_of (plain_expr expr.now)) }
{
    match expr {
        Expr::Name(_, _) | Expr::Attribute(_, _, _) | Expr::Subscript(_, _, _) => true,
        Expr::Number(_, _)
        | Expr::Text(_, _)
        | Expr::True(_)
        | Expr::False(_)
        | Expr::None(_)
        | Expr::Parenthesis(_, _)
        | Expr::EmptyTuple(_)
        | Expr::Tuple(_, _)
        | Expr::List(_, _, _)
        | Expr::ListComprehension(_, _, _)
        | Expr::Dict(_, _)
        | Expr::Set(_, _)
        | Expr::Call(_, _, _, _)
        | Expr::Slice(_, _, _, _)
        | Expr::Unary(_, _, _)
        | Expr::Binary(_, _, _, _)
        | Expr::Compare(_, _, _, _, _)
        | Expr::Not(_, _)
        | Expr::And(_, _, _, _)
        | Expr::Or(_, _, _, _)
        | Expr::Conditional(_, _, _, _) => false,
    }
}

/// The targets that expressions are; want of memory where one is none.
#[tactic(auto, using(crate::proofs::TargetLemmas::lists))]
pub fn target_list_of(alloc: Global, exprs: Items<Expr>) -> Result<Items<Target>, AllocError>
    ensures { IfOk result (λ ts. build.target_list_of (plain_exprs exprs) ≡ Some (plain_target_list ts)) }
{
    let mut rest = exprs;
    let mut targets = Vec::new(alloc);
    for _turn in 0..u64::MAX {
        match rest.pop() {
            Some(expr) => targets.push(target_of(expr)?)?,
            None => {
                targets.reverse();
                return Ok(Items::from_vec(targets));
            }
        }
    }
    Err(AllocError)
}

/// Whether expressions are targets.
pub fn are_all_targets(exprs: &[Expr]) -> bool
    ensures { result ≡ build.is_some (build.target_list_of (plain_exprs exprs.now)) }
{
    for expr in exprs {
        if !is_target(expr) {
            return false;
        }
    }
    true
}

/// A bracket around targets.
#[derive(Clone, Copy, Debug, PartialEq, Eq)]
enum Around {
    Parenthesis(Place),
    Bracket(Place),
}

/// Targets in brackets, the outermost of which is the first.
#[tactic(auto, using(py_ast::specs::PlainTrees::plain_targets_by_variant, crate::proofs::TargetLemmas::around))]
fn in_brackets(
    alloc: Global,
    brackets: Vec<Around>,
    targets: Targets,
) -> Result<Targets, AllocError>
    ensures { IfOk result (λ r. Some (plain_targets r) ≡ all_around brackets.items (Some (plain_targets targets))) }
{
    let mut left = brackets;
    let mut inner = targets;
    for _turn in 0..u64::MAX {
        match left.pop() {
            Some(Around::Parenthesis(place)) => {
                inner = Targets::Parenthesis(place, Boxed::new(alloc, inner)?);
            }
            Some(Around::Bracket(place)) => {
                inner = Targets::Bracket(place, Boxed::new(alloc, inner)?);
            }
            None => return Ok(inner),
        }
    }
    Err(AllocError)
}

/// An expression without its outermost bracket.
#[derive(Debug, Drop)]
enum Peeled {
    /// The bracket, and the one expression in it.
    Within(Around, Expr),
    /// Targets that stand in no bracket, or with commas in one.
    Whole(Targets),
}

/// The only item; want of memory where there is none or another.
fn only_item(items: Items<Expr>) -> Result<Expr, AllocError>
    ensures { IfOk result (λ e. items ≡ e ∷ []) }
{
    let mut rest = items;
    let Some(item) = rest.pop() else {
        return Err(AllocError);
    };
    if !rest.is_empty() {
        return Err(AllocError);
    }
    Ok(item)
}

#[tactic(auto, using(py_ast::specs::PlainExprs::plain_exprs_by_variant, py_ast::specs::PlainTrees::plain_targets_by_variant))]
fn peel(alloc: Global, expr: Expr) -> Result<Peeled, AllocError>
    ensures { IfOk result (λ p. build.targets_of (plain_expr expr) ≡ peeled_targets p) }
{
    match expr {
        Expr::Parenthesis(place, within) => {
            Ok(Peeled::Within(Around::Parenthesis(place), within.into_inner()))
        }
        Expr::List(place, comma, items) => match comma {
            None => Ok(Peeled::Within(Around::Bracket(place), only_item(items)?)),
            Some(first) => {
                let targets = target_list_of(alloc, items)?;
                let inner = Boxed::new(alloc, Targets::Several(first, targets))?;
                Ok(Peeled::Whole(Targets::Bracket(place, inner)))
            }
        },
        Expr::Tuple(place, items) => {
            let targets = target_list_of(alloc, items)?;
            Ok(Peeled::Whole(Targets::Several(place, targets)))
        }
        Expr::Name(place, name) => {
            let target = Target::Name(NameAt { place, name });
            Ok(Peeled::Whole(Targets::One(target)))
        }
        Expr::Attribute(place, object, name) => {
            let target = Target::Attribute(place, object, name);
            Ok(Peeled::Whole(Targets::One(target)))
        }
        Expr::Subscript(place, object, index) => {
            let target = Target::Subscript(place, object, index);
            Ok(Peeled::Whole(Targets::One(target)))
        }
        _ => Err(AllocError),
    }
}

/// The targets that an expression is; want of memory where it is none.
#[tactic(auto, using(crate::proofs::TargetLemmas::around))]
pub fn targets_of(alloc: Global, expr: Expr) -> Result<Targets, AllocError>
    ensures { IfOk result (λ t. build.targets_of (plain_expr expr) ≡ Some (plain_targets t)) }
{
    let mut inner = expr;
    let mut brackets = Vec::new(alloc);
    for _turn in 0..u64::MAX {
        match peel(alloc, inner)? {
            Peeled::Within(bracket, within) => {
                brackets.push(bracket)?;
                inner = within;
            }
            Peeled::Whole(targets) => return in_brackets(alloc, brackets, targets),
        }
    }
    Err(AllocError)
}

/// Whether an expression is targets.
#[tactic(auto, using(py_ast::specs::PlainExprs::plain_exprs_by_variant, crate::proofs::TargetLemmas::slices, crate::proofs::TargetLemmas::around))]
pub fn are_targets(expr: &Expr) -> Result<bool, AllocError>
    ensures { IfOk result (λ b. b ≡ build.is_some (build.targets_of (plain_expr expr.now))) }
{
    let mut inner = expr;
    for _turn in 0..u64::MAX {
        match inner {
            Expr::Parenthesis(_, within) => inner = within.get(),
            Expr::List(_, comma, items) => match comma {
                Some(_) => return Ok(are_all_targets(items.as_slice())),
                None => match items.as_slice() {
                    [item] => inner = item,
                    _ => return Ok(false),
                },
            },
            Expr::Tuple(_, items) => return Ok(are_all_targets(items.as_slice())),
            Expr::Name(_, _) | Expr::Attribute(_, _, _) | Expr::Subscript(_, _, _) => {
                return Ok(true);
            }
            Expr::Number(_, _)
            | Expr::Text(_, _)
            | Expr::True(_)
            | Expr::False(_)
            | Expr::None(_)
            | Expr::EmptyTuple(_)
            | Expr::ListComprehension(_, _, _)
            | Expr::Dict(_, _)
            | Expr::Set(_, _)
            | Expr::Call(_, _, _, _)
            | Expr::Slice(_, _, _, _)
            | Expr::Unary(_, _, _)
            | Expr::Binary(_, _, _, _)
            | Expr::Compare(_, _, _, _, _)
            | Expr::Not(_, _)
            | Expr::And(_, _, _, _)
            | Expr::Or(_, _, _, _)
            | Expr::Conditional(_, _, _, _) => {
                return Ok(false);
            }
        }
    }
    Err(AllocError)
}
