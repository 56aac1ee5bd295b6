//! The forms of statements that are built: what is assigned to, and what is printed.

ghost use Rattle.std.specs.Prelude.{◌≡◌, [], ◌∷◌, option_copied};
ghost use Rattle.std.specs.Option.{option_map};
ghost use Rattle.py_meaning.specs.Built as built;
ghost use Rattle.py_built.specs.Forms.{name_of};
ghost use Rattle.py_syntax.specs.Tree.{ECall};
ghost use Rattle.py_lexer.specs.PlainTokens.{plain_place};
ghost use Rattle.py_ast.specs.PlainExprs.{plain_expr, plain_exprs, plain_keywords};
ghost use Rattle.py_ast.specs.PlainTrees.{plain_targets, plain_target_lists};

use crate::names::{is_print, variable};
use py_ast::{Expr, NameAt, Target, Targets};
use shed_base::{Name, Names, Place};

// The name that a target is, if it is one and a variable.
#[tactic(auto, using(py_ast::specs::PlainTrees::plain_targets_by_variant))]
fn target<'a>(names: &'a Names, targets: &Targets) -> Option<&'a str>
    ensures { option_copied result ≡ built.assigned names.now (plain_targets targets.now ∷ []) }
{
    match targets {
        Targets::One(target) => match target {
            Target::Name(name) => variable(names, name.name),
            Target::Attribute(..) => None,
            Target::Subscript(..) => None,
        },
        Targets::Several(..) => None,
        Targets::Parenthesis(..) => None,
        Targets::Bracket(..) => None,
    }
}

/// The one name that is assigned to, if it is one and a variable.
pub(crate) fn assigned<'a>(names: &'a Names, targets: &[Targets]) -> Option<&'a str>
    ensures { option_copied result ≡ built.assigned names.now (plain_target_lists targets.now) }
{
    if targets.len() != 1 {
        return None;
    }
    target(names, &targets[0])
}

// The name that an expression is.
#[tactic(auto, using(py_ast::specs::PlainExprs::plain_exprs_by_variant))]
fn named(expr: &Expr) -> Option<Name>
    ensures { option_map (λ name. name.0) result ≡ name_of (plain_expr expr.now) }
{
    match expr {
        Expr::Name(_, name) => Some(*name),
        Expr::Number(..)
        | Expr::Text(..)
        | Expr::True(..)
        | Expr::False(..)
        | Expr::None(..)
        | Expr::Parenthesis(..)
        | Expr::EmptyTuple(..)
        | Expr::Tuple(..)
        | Expr::List(..)
        | Expr::ListComprehension(..)
        | Expr::Dict(..)
        | Expr::Set(..)
        | Expr::Attribute(..)
        | Expr::Call(..)
        | Expr::Subscript(..)
        | Expr::Slice(..)
        | Expr::Unary(..)
        | Expr::Binary(..)
        | Expr::Compare(..)
        | Expr::Not(..)
        | Expr::And(..)
        | Expr::Or(..)
        | Expr::Conditional(..) => None,
    }
}

// The one argument of a call, if it is one of `print`, with the place of the call.
fn printed_by<'a>(
    names: &Names,
    place: Place,
    callee: &Expr,
    arguments: &'a [Expr],
    keywords: &[(NameAt, Expr)],
) -> Option<(Place, &'a Expr)>
    ensures { option_map (λ call. (plain_place call.0, plain_expr call.1.now)) result
        ≡ built.printed names.now (ECall (plain_place place) (plain_expr callee.now) (plain_exprs arguments.now) (plain_keywords keywords.now)) }
{
    let Some(name) = named(callee) else {
        return None;
    };
    if arguments.len() != 1 {
        return None;
    }
    if keywords.len() != 0 {
        return None;
    }
    if is_print(names, name) {
        Some((place, &arguments[0]))
    } else {
        None
    }
}

/// The one argument of a call of `print`, with the place of the call.
#[tactic(auto, using(py_ast::specs::PlainExprs::plain_exprs_by_variant))]
pub(crate) fn printed<'a>(names: &Names, expr: &'a Expr) -> Option<(Place, &'a Expr)>
    ensures { option_map (λ call. (plain_place call.0, plain_expr call.1.now)) result ≡ built.printed names.now (plain_expr expr.now) }
{
    match expr {
        Expr::Call(place, callee, arguments, keywords) => printed_by(
            names,
            *place,
            callee.get(),
            arguments.as_slice(),
            keywords.as_slice(),
        ),
        Expr::Name(..)
        | Expr::Number(..)
        | Expr::Text(..)
        | Expr::True(..)
        | Expr::False(..)
        | Expr::None(..)
        | Expr::Parenthesis(..)
        | Expr::EmptyTuple(..)
        | Expr::Tuple(..)
        | Expr::List(..)
        | Expr::ListComprehension(..)
        | Expr::Dict(..)
        | Expr::Set(..)
        | Expr::Attribute(..)
        | Expr::Subscript(..)
        | Expr::Slice(..)
        | Expr::Unary(..)
        | Expr::Binary(..)
        | Expr::Compare(..)
        | Expr::Not(..)
        | Expr::And(..)
        | Expr::Or(..)
        | Expr::Conditional(..) => None,
    }
}
