//! The actions that build bodies and the statements that have some. Each takes what it needs from the top of the stack; where that is not there, which never
//! comes, the answer is want of memory.

ghost use Rattle.std.specs.Prelude.{ℕ, ◌≡◌, List, OnOk};
ghost use Rattle.py_syntax.specs.Build as build;
ghost use Rattle.parser_parts.specs.PlainParts.{parts_of};

use parser_parts::{
    Part, one, pop_binding, pop_body, pop_branch, pop_class, pop_name, pop_stmt, pop_token, push,
};
use py_ast::{Caught, Stmt};
use sqlite_items::Items;
use std::alloc::{AllocError, Global};

/// A body without statements so far.
#[tactic(auto, using(py_ast::specs::PlainTrees::plain_stmts_by_variant, py_ast::specs::PlainExprs::plain_exprs_by_variant, py_ast::proofs::Pushes::pushes))]
pub fn begin_body(alloc: Global, parts: &mut Vec<Part<'_>>) -> Result<(), AllocError>
    ensures { OnOk result ((texts : List (List ℕ)) → parts_of texts parts.new.items ≡ build.begin_body (parts_of texts parts.old.items)) }
{
    push(parts, Part::Body(Items::new(alloc)))
}

/// One more statement of a body.
#[tactic(auto, using(py_ast::specs::PlainTrees::plain_stmts_by_variant, py_ast::specs::PlainExprs::plain_exprs_by_variant, py_ast::proofs::Pushes::pushes))]
pub fn add_stmt(parts: &mut Vec<Part<'_>>) -> Result<(), AllocError>
    ensures { OnOk result ((texts : List (List ℕ)) → parts_of texts parts.new.items ≡ build.add_stmt (parts_of texts parts.old.items)) }
{
    let statement = pop_stmt(parts)?;
    let mut body = pop_body(parts)?;
    body.push(statement)?;
    push(parts, Part::Body(body))
}

/// `if e:` with its body.
#[tactic(auto, using(py_ast::specs::PlainTrees::plain_stmts_by_variant, py_ast::specs::PlainExprs::plain_exprs_by_variant, py_ast::proofs::Pushes::pushes))]
pub fn make_if(parts: &mut Vec<Part<'_>>) -> Result<(), AllocError>
    ensures { OnOk result ((texts : List (List ℕ)) → parts_of texts parts.new.items ≡ build.make_if (parts_of texts parts.old.items)) }
{
    let otherwise = pop_body(parts)?;
    let (word, test, _colon, body) = pop_branch(parts)?;
    push(
        parts,
        Part::Stmt(Stmt::If(word.place, test, body, otherwise)),
    )
}

/// `elif e:` with its body, and what is done otherwise.
#[tactic(auto, using(py_ast::specs::PlainTrees::plain_stmts_by_variant, py_ast::specs::PlainExprs::plain_exprs_by_variant, py_ast::proofs::Pushes::pushes))]
pub fn make_elif(alloc: Global, parts: &mut Vec<Part<'_>>) -> Result<(), AllocError>
    ensures { OnOk result ((texts : List (List ℕ)) → parts_of texts parts.new.items ≡ build.make_elif (parts_of texts parts.old.items)) }
{
    let otherwise = pop_body(parts)?;
    let (word, test, _colon, body) = pop_branch(parts)?;
    let branch = Stmt::If(word.place, test, body, otherwise);
    push(parts, Part::Body(one(alloc, branch)?))
}

/// `else:` with its body.
#[tactic(auto, using(py_ast::specs::PlainTrees::plain_stmts_by_variant, py_ast::specs::PlainExprs::plain_exprs_by_variant, py_ast::proofs::Pushes::pushes))]
pub fn make_else(parts: &mut Vec<Part<'_>>) -> Result<(), AllocError>
    ensures { OnOk result ((texts : List (List ℕ)) → parts_of texts parts.new.items ≡ build.make_else (parts_of texts parts.old.items)) }
{
    let body = pop_body(parts)?;
    pop_token(parts)?;
    pop_token(parts)?;
    push(parts, Part::Body(body))
}

/// `while e:` with its body.
#[tactic(auto, using(py_ast::specs::PlainTrees::plain_stmts_by_variant, py_ast::specs::PlainExprs::plain_exprs_by_variant, py_ast::proofs::Pushes::pushes))]
pub fn make_while(parts: &mut Vec<Part<'_>>) -> Result<(), AllocError>
    ensures { OnOk result ((texts : List (List ℕ)) → parts_of texts parts.new.items ≡ build.make_while (parts_of texts parts.old.items)) }
{
    let (word, test, _colon, body) = pop_branch(parts)?;
    push(parts, Part::Stmt(Stmt::While(word.place, test, body)))
}

/// `for x in e:` with its body.
#[tactic(auto, using(py_ast::specs::PlainTrees::plain_stmts_by_variant, py_ast::specs::PlainExprs::plain_exprs_by_variant, py_ast::proofs::Pushes::pushes))]
pub fn make_for(parts: &mut Vec<Part<'_>>) -> Result<(), AllocError>
    ensures { OnOk result ((texts : List (List ℕ)) → parts_of texts parts.new.items ≡ build.make_for (parts_of texts parts.old.items)) }
{
    let body = pop_body(parts)?;
    pop_token(parts)?;
    let (word, target, _in, iterable) = pop_binding(parts)?;
    push(
        parts,
        Part::Stmt(Stmt::For(word.place, target, iterable, body)),
    )
}

/// `try:` with its body, before its handlers.
#[tactic(auto, using(py_ast::specs::PlainTrees::plain_stmts_by_variant, py_ast::specs::PlainExprs::plain_exprs_by_variant, py_ast::proofs::Pushes::pushes))]
pub fn begin_try(alloc: Global, parts: &mut Vec<Part<'_>>) -> Result<(), AllocError>
    ensures { OnOk result ((texts : List (List ℕ)) → parts_of texts parts.new.items ≡ build.begin_try (parts_of texts parts.old.items)) }
{
    let body = pop_body(parts)?;
    pop_token(parts)?;
    let word = pop_token(parts)?;
    push(
        parts,
        Part::Stmt(Stmt::Try(word.place, body, Items::new(alloc))),
    )
}

/// `except:` with its body.
pub fn catch_all(parts: &mut Vec<Part<'_>>) -> Result<(), AllocError>
    ensures { OnOk result ((texts : List (List ℕ)) → parts_of texts parts.new.items ≡ build.catch_all (parts_of texts parts.old.items)) }
{
    let body = pop_body(parts)?;
    pop_token(parts)?;
    let word = pop_token(parts)?;
    let Stmt::Try(place, tried, mut handlers) = pop_stmt(parts)? else {
        return Err(AllocError);
    };
    handlers.push((word.place, Caught::Everything, body))?;
    push(parts, Part::Stmt(Stmt::Try(place, tried, handlers)))
}

/// `except C:` with its body.
pub fn catch(parts: &mut Vec<Part<'_>>) -> Result<(), AllocError>
    ensures { OnOk result ((texts : List (List ℕ)) → parts_of texts parts.new.items ≡ build.catch (parts_of texts parts.old.items)) }
{
    let body = pop_body(parts)?;
    pop_token(parts)?;
    let class = pop_class(parts)?;
    let word = pop_token(parts)?;
    let Stmt::Try(place, tried, mut handlers) = pop_stmt(parts)? else {
        return Err(AllocError);
    };
    handlers.push((word.place, Caught::Exceptions(class, None), body))?;
    push(parts, Part::Stmt(Stmt::Try(place, tried, handlers)))
}

/// `except C as x:` with its body.
pub fn catch_as(parts: &mut Vec<Part<'_>>) -> Result<(), AllocError>
    ensures { OnOk result ((texts : List (List ℕ)) → parts_of texts parts.new.items ≡ build.catch_as (parts_of texts parts.old.items)) }
{
    let body = pop_body(parts)?;
    pop_token(parts)?;
    let name = pop_name(parts)?;
    pop_token(parts)?;
    let class = pop_class(parts)?;
    let word = pop_token(parts)?;
    let Stmt::Try(place, tried, mut handlers) = pop_stmt(parts)? else {
        return Err(AllocError);
    };
    handlers.push((word.place, Caught::Exceptions(class, Some(name)), body))?;
    push(parts, Part::Stmt(Stmt::Try(place, tried, handlers)))
}
