//! The actions that build statements without bodies. Each takes what it needs from the top of the stack; where that is not there, which never
//! comes, the answer is want of memory.

ghost use Rattle.std.specs.Prelude.{ℕ, ◌≡◌, List, Some, IfOk, OnOk};
ghost use Rattle.py_syntax.specs.Build as build;
ghost use Rattle.py_lexer.specs.PlainTokens.{plain_place};
ghost use Rattle.py_ast.specs.PlainOperators.{plain_binary};
ghost use Rattle.py_ast.specs.PlainExprs.{plain_expr};
ghost use Rattle.py_ast.specs.PlainTrees.{plain_target};
ghost use Rattle.parser_parts.specs.PlainParts.{parts_of};

use parser_parts::{
    Part, one, pop_expr, pop_name, pop_operands, pop_stmt, pop_targets, pop_token, pop_value, push,
};
use parser_targets::{start_of, target_of, targets_of};
use py_ast::{BinaryOperator, Expr, Stmt, Target};
use shed_base::Place;
use sqlite_items::Items;
use std::alloc::{AllocError, Global};

/// An expression becomes a statement.
#[tactic(auto, using(py_ast::specs::PlainTrees::plain_stmts_by_variant, py_ast::specs::PlainExprs::plain_exprs_by_variant, py_ast::proofs::Pushes::pushes))]
pub fn make_expr_stmt(parts: &mut Vec<Part<'_>>) -> Result<(), AllocError>
    ensures { OnOk result ((texts : List (List ℕ)) → parts_of texts parts.new.items ≡ build.make_expr_stmt (parts_of texts parts.old.items)) }
{
    let expr = pop_expr(parts)?;
    match start_of(&expr) {
        Ok(place) => push(parts, Part::Stmt(Stmt::Expr(place, expr))),
        Err(error) => {
            drop(expr);
            Err(error)
        }
    }
}

/// `e =`, where e is targets.
#[tactic(auto, using(py_ast::specs::PlainTrees::plain_stmts_by_variant, py_ast::specs::PlainExprs::plain_exprs_by_variant, py_ast::proofs::Pushes::pushes))]
pub fn make_targets(alloc: Global, parts: &mut Vec<Part<'_>>) -> Result<(), AllocError>
    ensures { OnOk result ((texts : List (List ℕ)) → parts_of texts parts.new.items ≡ build.make_targets (parts_of texts parts.old.items)) }
{
    pop_token(parts)?;
    let expr = pop_expr(parts)?;
    let place = start_of(&expr);
    let targets = one(alloc, targets_of(alloc, expr)?)?;
    push(parts, Part::Targets(place?, targets))
}

/// `e =` behind other targets.
#[tactic(auto, using(parser_parts::proofs::Stacks::stacks, py_ast::specs::PlainTrees::plain_stmts_by_variant, py_ast::specs::PlainExprs::plain_exprs_by_variant, py_ast::proofs::Pushes::pushes))]
pub fn add_targets(alloc: Global, parts: &mut Vec<Part<'_>>) -> Result<(), AllocError>
    ensures { OnOk result ((texts : List (List ℕ)) → parts_of texts parts.new.items ≡ build.add_targets (parts_of texts parts.old.items)) }
{
    pop_token(parts)?;
    let expr = pop_expr(parts)?;
    match pop_targets(parts) {
        Ok((place, mut targets)) => {
            targets.push(targets_of(alloc, expr)?)?;
            push(parts, Part::Targets(place, targets))
        }
        Err(error) => {
            drop(expr);
            Err(error)
        }
    }
}

/// The value of an assignment.
#[tactic(auto, using(parser_parts::proofs::Stacks::stacks, py_ast::specs::PlainTrees::plain_stmts_by_variant, py_ast::specs::PlainExprs::plain_exprs_by_variant, py_ast::proofs::Pushes::pushes))]
pub fn make_assign(parts: &mut Vec<Part<'_>>) -> Result<(), AllocError>
    ensures { OnOk result ((texts : List (List ℕ)) → parts_of texts parts.new.items ≡ build.make_assign (parts_of texts parts.old.items)) }
{
    let value = pop_expr(parts)?;
    match pop_targets(parts) {
        Ok((place, targets)) => push(parts, Part::Stmt(Stmt::Assign(place, targets, value))),
        Err(error) => {
            drop(value);
            Err(error)
        }
    }
}

/// A target, and where it begins.
fn target_at(expr: Expr) -> Result<(Place, Target), AllocError>
    ensures { IfOk result (λ r. plain_place r.0 ≡ build.start_of (plain_expr expr) × build.target_of (plain_expr expr) ≡ Some (plain_target r.1)) }
{
    match start_of(&expr) {
        Ok(place) => Ok((place, target_of(expr)?)),
        Err(error) => {
            drop(expr);
            Err(error)
        }
    }
}

/// `e += value`, where e is a target.
#[tactic(auto, using(py_ast::specs::PlainTrees::plain_stmts_by_variant, py_ast::specs::PlainExprs::plain_exprs_by_variant, py_ast::proofs::Pushes::pushes))]
pub fn make_augmented(operator: BinaryOperator, parts: &mut Vec<Part<'_>>) -> Result<(), AllocError>
    ensures { OnOk result ((texts : List (List ℕ)) → parts_of texts parts.new.items ≡ build.make_augmented (plain_binary operator) (parts_of texts parts.old.items)) }
{
    let (expr, _sign, value) = pop_operands(parts)?;
    match target_at(expr) {
        Ok((place, target)) => push(
            parts,
            Part::Stmt(Stmt::Augmented(place, operator, target, value)),
        ),
        Err(error) => {
            drop(value);
            Err(error)
        }
    }
}

/// `pass`
#[tactic(auto, using(py_ast::specs::PlainTrees::plain_stmts_by_variant, py_ast::specs::PlainExprs::plain_exprs_by_variant, py_ast::proofs::Pushes::pushes))]
pub fn make_pass(parts: &mut Vec<Part<'_>>) -> Result<(), AllocError>
    ensures { OnOk result ((texts : List (List ℕ)) → parts_of texts parts.new.items ≡ build.make_pass (parts_of texts parts.old.items)) }
{
    let word = pop_token(parts)?;
    push(parts, Part::Stmt(Stmt::Pass(word.place)))
}

/// `break`
#[tactic(auto, using(py_ast::specs::PlainTrees::plain_stmts_by_variant, py_ast::specs::PlainExprs::plain_exprs_by_variant, py_ast::proofs::Pushes::pushes))]
pub fn make_break(parts: &mut Vec<Part<'_>>) -> Result<(), AllocError>
    ensures { OnOk result ((texts : List (List ℕ)) → parts_of texts parts.new.items ≡ build.make_break (parts_of texts parts.old.items)) }
{
    let word = pop_token(parts)?;
    push(parts, Part::Stmt(Stmt::Break(word.place)))
}

/// `continue`
#[tactic(auto, using(py_ast::specs::PlainTrees::plain_stmts_by_variant, py_ast::specs::PlainExprs::plain_exprs_by_variant, py_ast::proofs::Pushes::pushes))]
pub fn make_continue(parts: &mut Vec<Part<'_>>) -> Result<(), AllocError>
    ensures { OnOk result ((texts : List (List ℕ)) → parts_of texts parts.new.items ≡ build.make_continue (parts_of texts parts.old.items)) }
{
    let word = pop_token(parts)?;
    push(parts, Part::Stmt(Stmt::Continue(word.place)))
}

/// `return`
#[tactic(auto, using(py_ast::specs::PlainTrees::plain_stmts_by_variant, py_ast::specs::PlainExprs::plain_exprs_by_variant, py_ast::proofs::Pushes::pushes))]
pub fn make_return(parts: &mut Vec<Part<'_>>) -> Result<(), AllocError>
    ensures { OnOk result ((texts : List (List ℕ)) → parts_of texts parts.new.items ≡ build.make_return (parts_of texts parts.old.items)) }
{
    let word = pop_token(parts)?;
    push(parts, Part::Stmt(Stmt::Return(word.place, None)))
}

/// `return e`
#[tactic(auto, using(py_ast::specs::PlainTrees::plain_stmts_by_variant, py_ast::specs::PlainExprs::plain_exprs_by_variant, py_ast::proofs::Pushes::pushes))]
pub fn make_return_value(parts: &mut Vec<Part<'_>>) -> Result<(), AllocError>
    ensures { OnOk result ((texts : List (List ℕ)) → parts_of texts parts.new.items ≡ build.make_return_value (parts_of texts parts.old.items)) }
{
    let (word, value) = pop_value(parts)?;
    push(parts, Part::Stmt(Stmt::Return(word.place, Some(value))))
}

/// `raise e`
#[tactic(auto, using(py_ast::specs::PlainTrees::plain_stmts_by_variant, py_ast::specs::PlainExprs::plain_exprs_by_variant, py_ast::proofs::Pushes::pushes))]
pub fn make_raise(parts: &mut Vec<Part<'_>>) -> Result<(), AllocError>
    ensures { OnOk result ((texts : List (List ℕ)) → parts_of texts parts.new.items ≡ build.make_raise (parts_of texts parts.old.items)) }
{
    let (word, exception) = pop_value(parts)?;
    push(parts, Part::Stmt(Stmt::Raise(word.place, exception)))
}

/// `yield e`
#[tactic(auto, using(py_ast::specs::PlainTrees::plain_stmts_by_variant, py_ast::specs::PlainExprs::plain_exprs_by_variant, py_ast::proofs::Pushes::pushes))]
pub fn make_yield(parts: &mut Vec<Part<'_>>) -> Result<(), AllocError>
    ensures { OnOk result ((texts : List (List ℕ)) → parts_of texts parts.new.items ≡ build.make_yield (parts_of texts parts.old.items)) }
{
    let (word, value) = pop_value(parts)?;
    push(parts, Part::Stmt(Stmt::Yield(word.place, value)))
}

/// `global`, before its names.
#[tactic(auto, using(py_ast::specs::PlainTrees::plain_stmts_by_variant, py_ast::specs::PlainExprs::plain_exprs_by_variant, py_ast::proofs::Pushes::pushes))]
pub fn begin_global(alloc: Global, parts: &mut Vec<Part<'_>>) -> Result<(), AllocError>
    ensures { OnOk result ((texts : List (List ℕ)) → parts_of texts parts.new.items ≡ build.begin_global (parts_of texts parts.old.items)) }
{
    let word = pop_token(parts)?;
    push(
        parts,
        Part::Stmt(Stmt::Global(word.place, Items::new(alloc))),
    )
}

/// One more name of `global`.
#[tactic(auto, using(py_ast::specs::PlainTrees::plain_stmts_by_variant, py_ast::specs::PlainExprs::plain_exprs_by_variant, py_ast::proofs::Pushes::pushes))]
pub fn add_global(parts: &mut Vec<Part<'_>>) -> Result<(), AllocError>
    ensures { OnOk result ((texts : List (List ℕ)) → parts_of texts parts.new.items ≡ build.add_global (parts_of texts parts.old.items)) }
{
    let name = pop_name(parts)?;
    match pop_stmt(parts)? {
        Stmt::Global(place, mut names) => {
            names.push(name)?;
            push(parts, Part::Stmt(Stmt::Global(place, names)))
        }
        _other => Err(AllocError),
    }
}

/// `assert e`
#[tactic(auto, using(py_ast::specs::PlainTrees::plain_stmts_by_variant, py_ast::specs::PlainExprs::plain_exprs_by_variant, py_ast::proofs::Pushes::pushes))]
pub fn make_assert(parts: &mut Vec<Part<'_>>) -> Result<(), AllocError>
    ensures { OnOk result ((texts : List (List ℕ)) → parts_of texts parts.new.items ≡ build.make_assert (parts_of texts parts.old.items)) }
{
    let (word, test) = pop_value(parts)?;
    push(parts, Part::Stmt(Stmt::Assert(word.place, test, None)))
}

/// The message of an `assert`.
#[tactic(auto, using(py_ast::specs::PlainTrees::plain_stmts_by_variant, py_ast::specs::PlainExprs::plain_exprs_by_variant, py_ast::proofs::Pushes::pushes))]
pub fn make_assert_message(parts: &mut Vec<Part<'_>>) -> Result<(), AllocError>
    ensures { OnOk result ((texts : List (List ℕ)) → parts_of texts parts.new.items ≡ build.make_assert_message (parts_of texts parts.old.items)) }
{
    let (test, _comma, message) = pop_operands(parts)?;
    match pop_token(parts) {
        Ok(word) => push(
            parts,
            Part::Stmt(Stmt::Assert(word.place, test, Some(message))),
        ),
        Err(error) => {
            drop(test);
            drop(message);
            Err(error)
        }
    }
}

/// `del e[i]`
#[tactic(auto, using(py_ast::specs::PlainTrees::plain_stmts_by_variant, py_ast::specs::PlainExprs::plain_exprs_by_variant, py_ast::proofs::Pushes::pushes))]
pub fn make_delete(parts: &mut Vec<Part<'_>>) -> Result<(), AllocError>
    ensures { OnOk result ((texts : List (List ℕ)) → parts_of texts parts.new.items ≡ build.make_delete (parts_of texts parts.old.items)) }
{
    let (word, expr) = pop_value(parts)?;
    match expr {
        Expr::Subscript(place, object, index) => push(
            parts,
            Part::Stmt(Stmt::Delete(word.place, place, object, index)),
        ),
        other => {
            drop(other);
            Err(AllocError)
        }
    }
}
