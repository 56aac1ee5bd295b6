//! The actions that build atoms, the loops of comprehensions among them, and what loops bind. Each takes what it needs from the
//! top of the stack; where that is not there, which never comes, the answer is want of memory.

ghost use Rattle.std.specs.Prelude.{ℕ, ◌≡◌, List, OnOk};
ghost use Rattle.py_syntax.specs.Build as build;
ghost use Rattle.parser_parts.specs.PlainParts.{parts_of};

use parser_parts::{
    Part, box_value, one, pop_binding, pop_expr, pop_loop, pop_loop_target, pop_name, pop_operands,
    pop_token, pop_two, pop_value, push,
};
use py_ast::{Expr, LoopTarget};
use py_lexer::token::TokenKind;
use sqlite_items::{Boxed, Items};
use std::alloc::{AllocError, Global};

/// A name, a number or a text becomes an expression.
#[tactic(auto, using(py_ast::specs::PlainExprs::plain_exprs_by_variant))]
pub fn make_leaf(alloc: Global, parts: &mut Vec<Part<'_>>) -> Result<(), AllocError>
    ensures { OnOk result ((texts : List (List ℕ)) → parts_of texts parts.new.items ≡ build.make_leaf (parts_of texts parts.old.items)) }
{
    let token = pop_token(parts)?;
    let place = token.place;
    let leaf = match &token.kind {
        TokenKind::Name(name) => Expr::Name(place, *name),
        TokenKind::Number(value) => Expr::Number(place, *value),
        TokenKind::Text(text) => Expr::Text(place, Items::from_slice(alloc, text.as_slice())?),
        _ => return Err(AllocError),
    };
    push(parts, Part::Expr(leaf))
}

/// A token of which nothing is kept.
#[tactic(auto, using(py_ast::specs::PlainExprs::plain_exprs_by_variant, py_ast::specs::PlainExprs::plain_loop_targets, py_ast::proofs::Pushes::pushes))]
pub fn drop_token(parts: &mut Vec<Part<'_>>) -> Result<(), AllocError>
    ensures { OnOk result ((texts : List (List ℕ)) → parts_of texts parts.new.items ≡ build.drop (parts_of texts parts.old.items)) }
{
    pop_token(parts)?;
    Ok(())
}

/// `True`
#[tactic(auto, using(py_ast::specs::PlainExprs::plain_exprs_by_variant, py_ast::specs::PlainExprs::plain_loop_targets, py_ast::proofs::Pushes::pushes))]
pub fn make_true(parts: &mut Vec<Part<'_>>) -> Result<(), AllocError>
    ensures { OnOk result ((texts : List (List ℕ)) → parts_of texts parts.new.items ≡ build.make_true (parts_of texts parts.old.items)) }
{
    let word = pop_token(parts)?;
    push(parts, Part::Expr(Expr::True(word.place)))
}

/// `False`
#[tactic(auto, using(py_ast::specs::PlainExprs::plain_exprs_by_variant, py_ast::specs::PlainExprs::plain_loop_targets, py_ast::proofs::Pushes::pushes))]
pub fn make_false(parts: &mut Vec<Part<'_>>) -> Result<(), AllocError>
    ensures { OnOk result ((texts : List (List ℕ)) → parts_of texts parts.new.items ≡ build.make_false (parts_of texts parts.old.items)) }
{
    let word = pop_token(parts)?;
    push(parts, Part::Expr(Expr::False(word.place)))
}

/// `None`
#[tactic(auto, using(py_ast::specs::PlainExprs::plain_exprs_by_variant, py_ast::specs::PlainExprs::plain_loop_targets, py_ast::proofs::Pushes::pushes))]
pub fn make_none(parts: &mut Vec<Part<'_>>) -> Result<(), AllocError>
    ensures { OnOk result ((texts : List (List ℕ)) → parts_of texts parts.new.items ≡ build.make_none (parts_of texts parts.old.items)) }
{
    let word = pop_token(parts)?;
    push(parts, Part::Expr(Expr::None(word.place)))
}

/// `()`
#[tactic(auto, using(py_ast::specs::PlainExprs::plain_exprs_by_variant, py_ast::specs::PlainExprs::plain_loop_targets, py_ast::proofs::Pushes::pushes))]
pub fn make_empty_tuple(parts: &mut Vec<Part<'_>>) -> Result<(), AllocError>
    ensures { OnOk result ((texts : List (List ℕ)) → parts_of texts parts.new.items ≡ build.make_empty_tuple (parts_of texts parts.old.items)) }
{
    pop_token(parts)?;
    let opening = pop_token(parts)?;
    push(parts, Part::Expr(Expr::EmptyTuple(opening.place)))
}

/// `(e)`
#[tactic(auto, using(py_ast::specs::PlainExprs::plain_exprs_by_variant, py_ast::specs::PlainExprs::plain_loop_targets, py_ast::proofs::Pushes::pushes))]
pub fn make_parenthesis(alloc: Global, parts: &mut Vec<Part<'_>>) -> Result<(), AllocError>
    ensures { OnOk result ((texts : List (List ℕ)) → parts_of texts parts.new.items ≡ build.make_parenthesis (parts_of texts parts.old.items)) }
{
    pop_token(parts)?;
    let (opening, inner) = box_value(alloc, parts)?;
    push(parts, Part::Expr(Expr::Parenthesis(opening.place, inner)))
}

/// `e,`
#[tactic(auto, using(py_ast::specs::PlainExprs::plain_exprs_by_variant, py_ast::specs::PlainExprs::plain_loop_targets, py_ast::proofs::Pushes::pushes))]
pub fn make_tuple(alloc: Global, parts: &mut Vec<Part<'_>>) -> Result<(), AllocError>
    ensures { OnOk result ((texts : List (List ℕ)) → parts_of texts parts.new.items ≡ build.make_tuple (parts_of texts parts.old.items)) }
{
    let comma = pop_token(parts)?;
    let item = pop_expr(parts)?;
    push(
        parts,
        Part::Expr(Expr::Tuple(comma.place, one(alloc, item)?)),
    )
}

/// One more item of a tuple.
#[tactic(auto, using(py_ast::specs::PlainExprs::plain_exprs_by_variant, py_ast::specs::PlainExprs::plain_loop_targets, py_ast::proofs::Pushes::pushes))]
pub fn add_item(parts: &mut Vec<Part<'_>>) -> Result<(), AllocError>
    ensures { OnOk result ((texts : List (List ℕ)) → parts_of texts parts.new.items ≡ build.add_item (parts_of texts parts.old.items)) }
{
    let (tuple, item) = pop_two(parts)?;
    match tuple {
        Expr::Tuple(place, mut items) => {
            items.push(item)?;
            push(parts, Part::Expr(Expr::Tuple(place, items)))
        }
        other => {
            drop(other);
            drop(item);
            Err(AllocError)
        }
    }
}

/// `[]`
#[tactic(auto, using(py_ast::specs::PlainExprs::plain_exprs_by_variant, py_ast::specs::PlainExprs::plain_loop_targets, py_ast::proofs::Pushes::pushes))]
pub fn make_empty_list(alloc: Global, parts: &mut Vec<Part<'_>>) -> Result<(), AllocError>
    ensures { OnOk result ((texts : List (List ℕ)) → parts_of texts parts.new.items ≡ build.make_empty_list (parts_of texts parts.old.items)) }
{
    pop_token(parts)?;
    let opening = pop_token(parts)?;
    push(
        parts,
        Part::Expr(Expr::List(opening.place, None, Items::new(alloc))),
    )
}

/// `[e]`
#[tactic(auto, using(py_ast::specs::PlainExprs::plain_exprs_by_variant, py_ast::specs::PlainExprs::plain_loop_targets, py_ast::proofs::Pushes::pushes))]
pub fn make_list_of_one(alloc: Global, parts: &mut Vec<Part<'_>>) -> Result<(), AllocError>
    ensures { OnOk result ((texts : List (List ℕ)) → parts_of texts parts.new.items ≡ build.make_list_of_one (parts_of texts parts.old.items)) }
{
    pop_token(parts)?;
    let (opening, item) = pop_value(parts)?;
    push(
        parts,
        Part::Expr(Expr::List(opening.place, None, one(alloc, item)?)),
    )
}

/// `[a, b]`, whose items stand in a tuple so far.
#[tactic(auto, using(py_ast::specs::PlainExprs::plain_exprs_by_variant, py_ast::specs::PlainExprs::plain_loop_targets, py_ast::proofs::Pushes::pushes))]
pub fn make_list(parts: &mut Vec<Part<'_>>) -> Result<(), AllocError>
    ensures { OnOk result ((texts : List (List ℕ)) → parts_of texts parts.new.items ≡ build.make_list (parts_of texts parts.old.items)) }
{
    pop_token(parts)?;
    let (opening, tuple) = pop_value(parts)?;
    match tuple {
        Expr::Tuple(comma, items) => push(
            parts,
            Part::Expr(Expr::List(opening.place, Some(comma), items)),
        ),
        other => {
            drop(other);
            Err(AllocError)
        }
    }
}

/// `[e`, before its loops.
#[tactic(auto, using(py_ast::specs::PlainExprs::plain_exprs_by_variant, py_ast::specs::PlainExprs::plain_loop_targets, py_ast::proofs::Pushes::pushes))]
pub fn begin_comprehension(alloc: Global, parts: &mut Vec<Part<'_>>) -> Result<(), AllocError>
    ensures { OnOk result ((texts : List (List ℕ)) → parts_of texts parts.new.items ≡ build.begin_comprehension (parts_of texts parts.old.items)) }
{
    let (opening, element) = box_value(alloc, parts)?;
    push(
        parts,
        Part::Expr(Expr::ListComprehension(opening.place, element, Items::new(alloc))),
    )
}

/// `for x in e`, before its conditions.
#[tactic(auto, using(py_ast::specs::PlainExprs::plain_exprs_by_variant, py_ast::specs::PlainExprs::plain_loop_targets, py_ast::proofs::Pushes::pushes))]
pub fn begin_loop(alloc: Global, parts: &mut Vec<Part<'_>>) -> Result<(), AllocError>
    ensures { OnOk result ((texts : List (List ℕ)) → parts_of texts parts.new.items ≡ build.begin_loop (parts_of texts parts.old.items)) }
{
    let (word, target, _in, iterable) = pop_binding(parts)?;
    push(
        parts,
        Part::Loop(word.place, target, iterable, Items::new(alloc)),
    )
}

/// `if e`, one more condition of a loop.
#[tactic(auto, using(parser_parts::proofs::Stacks::stacks, py_ast::specs::PlainExprs::plain_exprs_by_variant, py_ast::specs::PlainExprs::plain_loop_targets, py_ast::proofs::Pushes::pushes))]
pub fn add_condition(parts: &mut Vec<Part<'_>>) -> Result<(), AllocError>
    ensures { OnOk result ((texts : List (List ℕ)) → parts_of texts parts.new.items ≡ build.add_condition (parts_of texts parts.old.items)) }
{
    let (_word, condition) = pop_value(parts)?;
    match pop_loop(parts) {
        Ok((place, target, iterable, mut conditions)) => match conditions.push(condition) {
            Ok(()) => push(parts, Part::Loop(place, target, iterable, conditions)),
            Err(error) => {
                drop(target);
                drop(iterable);
                Err(error)
            }
        },
        Err(error) => {
            drop(condition);
            Err(error)
        }
    }
}

/// One more loop of a comprehension.
#[tactic(auto, using(parser_parts::proofs::Stacks::stacks, py_ast::specs::PlainExprs::plain_exprs_by_variant, py_ast::specs::PlainExprs::plain_loop_targets, py_ast::proofs::Pushes::pushes))]
pub fn add_loop(parts: &mut Vec<Part<'_>>) -> Result<(), AllocError>
    ensures { OnOk result ((texts : List (List ℕ)) → parts_of texts parts.new.items ≡ build.add_loop (parts_of texts parts.old.items)) }
{
    let clause = pop_loop(parts)?;
    match pop_expr(parts) {
        Ok(comprehension) => match comprehension {
            Expr::ListComprehension(place, element, mut loops) => {
                loops.push(clause)?;
                push(
                    parts,
                    Part::Expr(Expr::ListComprehension(place, element, loops)),
                )
            }
            other => {
                drop(other);
                drop(clause);
                Err(AllocError)
            }
        },
        Err(error) => {
            drop(clause);
            Err(error)
        }
    }
}

/// `{}`
#[tactic(auto, using(py_ast::specs::PlainExprs::plain_exprs_by_variant, py_ast::specs::PlainExprs::plain_loop_targets, py_ast::proofs::Pushes::pushes))]
pub fn make_empty_dict(alloc: Global, parts: &mut Vec<Part<'_>>) -> Result<(), AllocError>
    ensures { OnOk result ((texts : List (List ℕ)) → parts_of texts parts.new.items ≡ build.make_empty_dict (parts_of texts parts.old.items)) }
{
    pop_token(parts)?;
    let opening = pop_token(parts)?;
    push(
        parts,
        Part::Expr(Expr::Dict(opening.place, Items::new(alloc))),
    )
}

/// `{k: e`
#[tactic(auto, using(py_ast::specs::PlainExprs::plain_exprs_by_variant, py_ast::specs::PlainExprs::plain_loop_targets, py_ast::proofs::Pushes::pushes))]
pub fn begin_dict(alloc: Global, parts: &mut Vec<Part<'_>>) -> Result<(), AllocError>
    ensures { OnOk result ((texts : List (List ℕ)) → parts_of texts parts.new.items ≡ build.begin_dict (parts_of texts parts.old.items)) }
{
    let (key, _colon, value) = pop_operands(parts)?;
    let pairs = one(alloc, (key, value))?;
    let opening = pop_token(parts)?;
    push(parts, Part::Expr(Expr::Dict(opening.place, pairs)))
}

/// `k: e`, one more of a dictionary.
#[tactic(auto, using(py_ast::specs::PlainExprs::plain_exprs_by_variant, py_ast::specs::PlainExprs::plain_loop_targets, py_ast::proofs::Pushes::pushes))]
pub fn add_pair(parts: &mut Vec<Part<'_>>) -> Result<(), AllocError>
    ensures { OnOk result ((texts : List (List ℕ)) → parts_of texts parts.new.items ≡ build.add_pair (parts_of texts parts.old.items)) }
{
    let (key, _colon, value) = pop_operands(parts)?;
    match pop_expr(parts) {
        Ok(dict) => match dict {
            Expr::Dict(place, mut pairs) => {
                pairs.push((key, value))?;
                push(parts, Part::Expr(Expr::Dict(place, pairs)))
            }
            other => {
                drop(other);
                drop(key);
                drop(value);
                Err(AllocError)
            }
        },
        Err(error) => {
            drop(key);
            drop(value);
            Err(error)
        }
    }
}

/// `{e}`
#[tactic(auto, using(py_ast::specs::PlainExprs::plain_exprs_by_variant, py_ast::specs::PlainExprs::plain_loop_targets, py_ast::proofs::Pushes::pushes))]
pub fn make_set_of_one(alloc: Global, parts: &mut Vec<Part<'_>>) -> Result<(), AllocError>
    ensures { OnOk result ((texts : List (List ℕ)) → parts_of texts parts.new.items ≡ build.make_set_of_one (parts_of texts parts.old.items)) }
{
    pop_token(parts)?;
    let (opening, item) = pop_value(parts)?;
    push(
        parts,
        Part::Expr(Expr::Set(opening.place, one(alloc, item)?)),
    )
}

/// `{a, b}`, whose items stand in a tuple so far.
#[tactic(auto, using(py_ast::specs::PlainExprs::plain_exprs_by_variant, py_ast::specs::PlainExprs::plain_loop_targets, py_ast::proofs::Pushes::pushes))]
pub fn make_set(parts: &mut Vec<Part<'_>>) -> Result<(), AllocError>
    ensures { OnOk result ((texts : List (List ℕ)) → parts_of texts parts.new.items ≡ build.make_set (parts_of texts parts.old.items)) }
{
    pop_token(parts)?;
    let (opening, tuple) = pop_value(parts)?;
    match tuple {
        Expr::Tuple(_comma, items) => push(parts, Part::Expr(Expr::Set(opening.place, items))),
        other => {
            drop(other);
            Err(AllocError)
        }
    }
}

/// `x`, which a loop binds.
#[tactic(auto, using(py_ast::specs::PlainExprs::plain_exprs_by_variant, py_ast::specs::PlainExprs::plain_loop_targets, py_ast::proofs::Pushes::pushes))]
pub fn make_loop_name(parts: &mut Vec<Part<'_>>) -> Result<(), AllocError>
    ensures { OnOk result ((texts : List (List ℕ)) → parts_of texts parts.new.items ≡ build.make_loop_name (parts_of texts parts.old.items)) }
{
    let name = pop_name(parts)?;
    push(parts, Part::LoopTarget(LoopTarget::Name(name)))
}

/// `x,`, which a loop binds.
#[tactic(auto, using(py_ast::specs::PlainExprs::plain_exprs_by_variant, py_ast::specs::PlainExprs::plain_loop_targets, py_ast::proofs::Pushes::pushes))]
pub fn make_loop_names(alloc: Global, parts: &mut Vec<Part<'_>>) -> Result<(), AllocError>
    ensures { OnOk result ((texts : List (List ℕ)) → parts_of texts parts.new.items ≡ build.make_loop_names (parts_of texts parts.old.items)) }
{
    let comma = pop_token(parts)?;
    match pop_loop_target(parts)? {
        LoopTarget::Name(name) => push(
            parts,
            Part::LoopTarget(LoopTarget::Names(comma.place, one(alloc, name)?)),
        ),
        _other => Err(AllocError),
    }
}

/// One more name that a loop binds.
#[tactic(auto, using(py_ast::specs::PlainExprs::plain_exprs_by_variant, py_ast::specs::PlainExprs::plain_loop_targets, py_ast::proofs::Pushes::pushes))]
pub fn add_loop_name(parts: &mut Vec<Part<'_>>) -> Result<(), AllocError>
    ensures { OnOk result ((texts : List (List ℕ)) → parts_of texts parts.new.items ≡ build.add_loop_name (parts_of texts parts.old.items)) }
{
    let name = pop_name(parts)?;
    match pop_loop_target(parts)? {
        LoopTarget::Names(place, mut names) => {
            names.push(name)?;
            push(parts, Part::LoopTarget(LoopTarget::Names(place, names)))
        }
        _other => Err(AllocError),
    }
}

/// `(x)`, which a loop binds.
#[tactic(auto, using(py_ast::specs::PlainExprs::plain_exprs_by_variant, py_ast::specs::PlainExprs::plain_loop_targets, py_ast::proofs::Pushes::pushes))]
pub fn make_loop_parenthesis(alloc: Global, parts: &mut Vec<Part<'_>>) -> Result<(), AllocError>
    ensures { OnOk result ((texts : List (List ℕ)) → parts_of texts parts.new.items ≡ build.make_loop_parenthesis (parts_of texts parts.old.items)) }
{
    pop_token(parts)?;
    let target = Boxed::new(alloc, pop_loop_target(parts)?)?;
    let opening = pop_token(parts)?;
    push(
        parts,
        Part::LoopTarget(LoopTarget::Parenthesis(opening.place, target)),
    )
}
