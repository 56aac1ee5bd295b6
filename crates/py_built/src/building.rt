//! Builds the small trees.
//!
//! A pass before has looked for the first place that isn't built. So the arms for what isn't never come, and answer want of
//! memory.

ghost use Rattle.std.specs.Prelude.{◌≡◌, [], true, Some, IfOk, IfErr};
ghost use Rattle.py_meaning.specs.Built.{built_expr, built_condition, built_stmt, built_body, unbuilt, first_place};
ghost use Rattle.py_meaning.specs.Rules.{are_reads_sure};
ghost use Rattle.py_lexer.specs.PlainTokens.{plain_place};
ghost use Rattle.py_ast.specs.PlainExprs as whole_exprs;
ghost use Rattle.py_ast.specs.PlainTrees as whole_trees;
ghost use Rattle.py_built.specs.PlainTrees.{plain_expr, plain_condition, plain_stmt, plain_body, plain};

use crate::forms::{assigned, printed};
use crate::names::variable;
use crate::operators::{build_binary, build_comparison};
use crate::tree::{Condition, Expr, Module, Stmt, UnaryOperator};
use crate::unbuilt::first_unbuilt;
use py_ast as whole;
use shed_base::{Names, NoMemory, Place};
use sqlite_items::{Boxed, Items};
use std::alloc::Global;

#[tactic(auto, using(py_ast::specs::PlainExprs::plain_exprs_by_variant, crate::specs::PlainTrees::plains))]
fn build_expr(alloc: Global, names: &Names, expr: &whole::Expr) -> Result<Expr, NoMemory>
    ensures { IfOk result (λ e. built_expr names.now (whole_exprs.plain_expr expr.now) ≡ Some (plain_expr e)) }
{
    match expr {
        whole::Expr::Name(place, name) => match variable(names, *name) {
            Some(text) => Ok(Expr::Name(*place, String::from_str(alloc, text)?)),
            None => Err(NoMemory),
        },
        whole::Expr::Number(place, value) => match u32::try_from(*value) {
            Ok(value) => Ok(Expr::Number(*place, value)),
            Err(_) => Err(NoMemory),
        },
        whole::Expr::Unary(place, operator, operand) => match operator {
            whole::UnaryOperator::Negative => {
                let operand = Boxed::new(alloc, build_expr(alloc, names, operand.get())?)?;
                Ok(Expr::Unary(*place, UnaryOperator::Negative, operand))
            }
            _ => Err(NoMemory),
        },
        whole::Expr::Binary(place, operator, left, right) => {
            let Some(operator) = build_binary(*operator) else {
                return Err(NoMemory);
            };
            let left = build_expr(alloc, names, left.get())?;
            let right = build_expr(alloc, names, right.get())?;
            Ok(Expr::Binary(
                *place,
                operator,
                Boxed::new(alloc, left)?,
                Boxed::new(alloc, right)?,
            ))
        }
        _ => Err(NoMemory),
    }
}

#[tactic(auto, using(py_ast::specs::PlainExprs::plain_exprs_by_variant))]
fn build_condition(alloc: Global, names: &Names, expr: &whole::Expr) -> Result<Condition, NoMemory>
    ensures { IfOk result (λ c. built_condition names.now (whole_exprs.plain_expr expr.now) ≡ Some (plain_condition c)) }
{
    match expr {
        whole::Expr::Compare(place, operator, left, right, links) => {
            if !links.is_empty() {
                return Err(NoMemory);
            }
            let Some(operator) = build_comparison(*operator) else {
                return Err(NoMemory);
            };
            let left = build_expr(alloc, names, left.get())?;
            let right = build_expr(alloc, names, right.get())?;
            Ok(Condition {
                place: *place,
                operator,
                left,
                right,
            })
        }
        _ => Err(NoMemory),
    }
}

#[cycle(statements)]
#[tactic(auto, using(py_ast::specs::PlainTrees::plain_stmts_by_variant, crate::specs::PlainTrees::plain_stmts))]
fn build_stmt(alloc: Global, names: &Names, stmt: &whole::Stmt) -> Result<Stmt, NoMemory>
    ensures { IfOk result (λ s. built_stmt names.now (whole_trees.plain_stmt stmt.now) ≡ Some (plain_stmt s)) }
{
    match stmt {
        whole::Stmt::Assign(place, targets, value) => {
            let Some(name) = assigned(names, targets.as_slice()) else {
                return Err(NoMemory);
            };
            let value = build_expr(alloc, names, value)?;
            Ok(Stmt::Assign(*place, String::from_str(alloc, name)?, value))
        }
        whole::Stmt::Expr(place, expr) => {
            let Some((call, value)) = printed(names, expr) else {
                return Err(NoMemory);
            };
            Ok(Stmt::Print(*place, call, build_expr(alloc, names, value)?))
        }
        whole::Stmt::If(place, test, body, other) => {
            let test = build_condition(alloc, names, test)?;
            let body = build_body(alloc, names, body.as_slice())?;
            let other = build_body(alloc, names, other.as_slice())?;
            Ok(Stmt::If(*place, test, body, other))
        }
        whole::Stmt::While(place, test, body) => {
            let test = build_condition(alloc, names, test)?;
            let body = build_body(alloc, names, body.as_slice())?;
            Ok(Stmt::While(*place, test, body))
        }
        _ => Err(NoMemory),
    }
}

#[cycle(statements)]
fn build_body(alloc: Global, names: &Names, body: &[whole::Stmt]) -> Result<Items<Stmt>, NoMemory>
    ensures { IfOk result (λ built. built_body names.now (whole_trees.plain_body body.now) ≡ Some (plain_body built)) }
{
    let mut built = Items::new(alloc);
    for stmt in body {
        built.push(build_stmt(alloc, names, stmt)?)?;
    }
    Ok(built)
}

/// The part of the language that is built, of a module whose names stand for these texts; or the first place where
/// something is unbuilt, or where a name is read that may be unset.
pub fn build(
    alloc: Global,
    names: &Names,
    module: &whole::Module,
) -> Result<Result<Module, Place>, NoMemory>
    ensures built { IfOk result (λ r. IfOk r (λ m.
        (built_body names.now (whole_trees.plain «module».now) ≡ Some (plain m)) × (are_reads_sure [] (plain m) ≡ true))) }
    ensures place { IfOk result (λ r. IfErr r (λ p.
        first_place (unbuilt names.now [] (whole_trees.plain «module».now)) ≡ Some (plain_place p))) }
{
    match first_unbuilt(alloc, names, module.body.as_slice())? {
        Some(place) => Ok(Err(place)),
        None => {
            let body = build_body(alloc, names, module.body.as_slice())?;
            Ok(Ok(Module { body }))
        }
    }
}
