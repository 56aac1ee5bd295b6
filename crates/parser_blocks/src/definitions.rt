//! The actions that build definitions and classes. Each takes what it needs from the top of the stack; where that is not there, which never
//! comes, the answer is want of memory.

ghost use Rattle.std.specs.Prelude.{ℕ, ◌≡◌, List, OnOk};
ghost use Rattle.py_syntax.specs.Build as build;
ghost use Rattle.parser_parts.specs.PlainParts.{parts_of};

use parser_parts::{Part, pop_body, pop_class, pop_name, pop_stmt, pop_token, pop_value, push};
use py_ast::{ClassName, Parameter, Stmt};
use sqlite_items::Items;
use std::alloc::{AllocError, Global};

/// `C`
#[tactic(auto, using(py_ast::specs::PlainTrees::plain_stmts_by_variant, py_ast::proofs::Pushes::pushes))]
pub fn make_class_name(parts: &mut Vec<Part<'_>>) -> Result<(), AllocError>
    ensures { OnOk result ((texts : List (List ℕ)) → parts_of texts parts.new.items ≡ build.make_class_name (parts_of texts parts.old.items)) }
{
    let name = pop_name(parts)?;
    push(parts, Part::Class(ClassName::Bare(name)))
}

/// `m.C`
#[tactic(auto, using(py_ast::specs::PlainTrees::plain_stmts_by_variant, py_ast::proofs::Pushes::pushes))]
pub fn make_class_within(parts: &mut Vec<Part<'_>>) -> Result<(), AllocError>
    ensures { OnOk result ((texts : List (List ℕ)) → parts_of texts parts.new.items ≡ build.make_class_within (parts_of texts parts.old.items)) }
{
    let name = pop_name(parts)?;
    pop_token(parts)?;
    let ClassName::Bare(outer) = pop_class(parts)? else {
        return Err(AllocError);
    };
    push(parts, Part::Class(ClassName::Within(outer, name)))
}

/// `def f(`, before its parameters.
#[tactic(auto, using(py_ast::specs::PlainTrees::plain_stmts_by_variant, py_ast::proofs::Pushes::pushes))]
pub fn begin_def(alloc: Global, parts: &mut Vec<Part<'_>>) -> Result<(), AllocError>
    ensures { OnOk result ((texts : List (List ℕ)) → parts_of texts parts.new.items ≡ build.begin_def (parts_of texts parts.old.items)) }
{
    pop_token(parts)?;
    let name = pop_name(parts)?;
    let word = pop_token(parts)?;
    push(
        parts,
        Part::Stmt(Stmt::Def(word.place, name, Items::new(alloc), Items::new(alloc))),
    )
}

/// One more parameter.
#[tactic(auto, using(py_ast::specs::PlainTrees::plain_stmts_by_variant, py_ast::proofs::Pushes::pushes))]
pub fn add_parameter(parts: &mut Vec<Part<'_>>) -> Result<(), AllocError>
    ensures { OnOk result ((texts : List (List ℕ)) → parts_of texts parts.new.items ≡ build.add_parameter (parts_of texts parts.old.items)) }
{
    let name = pop_name(parts)?;
    match pop_stmt(parts)? {
        Stmt::Def(place, function, mut parameters, body) => {
            parameters.push(Parameter {
                name,
                default: None,
            })?;
            push(
                parts,
                Part::Stmt(Stmt::Def(place, function, parameters, body)),
            )
        }
        _other => Err(AllocError),
    }
}

/// `x=e`, one more parameter with its default.
#[tactic(auto, using(py_ast::specs::PlainTrees::plain_stmts_by_variant, py_ast::proofs::Pushes::pushes))]
pub fn add_default(parts: &mut Vec<Part<'_>>) -> Result<(), AllocError>
    ensures { OnOk result ((texts : List (List ℕ)) → parts_of texts parts.new.items ≡ build.add_default (parts_of texts parts.old.items)) }
{
    let (_equals, default) = pop_value(parts)?;
    let name = pop_name(parts)?;
    match pop_stmt(parts)? {
        Stmt::Def(place, function, mut parameters, body) => {
            parameters.push(Parameter {
                name,
                default: Some(default),
            })?;
            push(
                parts,
                Part::Stmt(Stmt::Def(place, function, parameters, body)),
            )
        }
        _other => Err(AllocError),
    }
}

/// The body of a function.
#[tactic(auto, using(py_ast::specs::PlainTrees::plain_stmts_by_variant, py_ast::proofs::Pushes::pushes))]
pub fn end_def(parts: &mut Vec<Part<'_>>) -> Result<(), AllocError>
    ensures { OnOk result ((texts : List (List ℕ)) → parts_of texts parts.new.items ≡ build.end_def (parts_of texts parts.old.items)) }
{
    let body = pop_body(parts)?;
    pop_token(parts)?;
    pop_token(parts)?;
    match pop_stmt(parts)? {
        Stmt::Def(place, function, parameters, before) => {
            if !before.is_empty() {
                return Err(AllocError);
            }
            push(
                parts,
                Part::Stmt(Stmt::Def(place, function, parameters, body)),
            )
        }
        _other => Err(AllocError),
    }
}

/// `class C`, before its base.
#[tactic(auto, using(py_ast::specs::PlainTrees::plain_stmts_by_variant, py_ast::proofs::Pushes::pushes))]
pub fn begin_class(alloc: Global, parts: &mut Vec<Part<'_>>) -> Result<(), AllocError>
    ensures { OnOk result ((texts : List (List ℕ)) → parts_of texts parts.new.items ≡ build.begin_class (parts_of texts parts.old.items)) }
{
    let name = pop_name(parts)?;
    let word = pop_token(parts)?;
    push(
        parts,
        Part::Stmt(Stmt::Class(word.place, name, None, Items::new(alloc))),
    )
}

/// The base of a class.
#[tactic(auto, using(py_ast::specs::PlainTrees::plain_stmts_by_variant, py_ast::proofs::Pushes::pushes))]
pub fn add_base(parts: &mut Vec<Part<'_>>) -> Result<(), AllocError>
    ensures { OnOk result ((texts : List (List ℕ)) → parts_of texts parts.new.items ≡ build.add_base (parts_of texts parts.old.items)) }
{
    pop_token(parts)?;
    let base = pop_class(parts)?;
    pop_token(parts)?;
    match pop_stmt(parts)? {
        Stmt::Class(place, name, _none, body) => push(
            parts,
            Part::Stmt(Stmt::Class(place, name, Some(base), body)),
        ),
        _other => Err(AllocError),
    }
}

/// The body of a class.
#[tactic(auto, using(py_ast::specs::PlainTrees::plain_stmts_by_variant, py_ast::proofs::Pushes::pushes))]
pub fn end_class(parts: &mut Vec<Part<'_>>) -> Result<(), AllocError>
    ensures { OnOk result ((texts : List (List ℕ)) → parts_of texts parts.new.items ≡ build.end_class (parts_of texts parts.old.items)) }
{
    let body = pop_body(parts)?;
    pop_token(parts)?;
    match pop_stmt(parts)? {
        Stmt::Class(place, name, base, before) => {
            if !before.is_empty() {
                return Err(AllocError);
            }
            push(parts, Part::Stmt(Stmt::Class(place, name, base, body)))
        }
        _other => Err(AllocError),
    }
}
