//! The actions that build imports. Each takes what it needs from the top of the stack; where that is not there, which never
//! comes, the answer is want of memory.

ghost use Rattle.std.specs.Prelude.{ℕ, ◌≡◌, List, OnOk, IfOk};
ghost use Rattle.py_syntax.specs.Build as build;
ghost use Rattle.py_ast.specs.PlainTrees.{plain_stmt, plain_imported};
ghost use Rattle.parser_parts.specs.PlainParts.{parts_of};

use parser_parts::{Part, pop_name, pop_stmt, pop_token, push};
use py_ast::{Imported, Stmt};
use sqlite_items::Items;
use std::alloc::{AllocError, Global};

/// An import with one more name.
#[tactic(auto, using(py_ast::specs::PlainTrees::plain_stmts_by_variant, py_ast::proofs::Pushes::pushes))]
fn with_imported(statement: Stmt, imported: Imported) -> Result<Stmt, AllocError>
    ensures { IfOk result (λ s. plain_stmt s ≡ build.with_imported (plain_stmt statement) (plain_imported imported)) }
{
    match statement {
        Stmt::Import(place, mut modules) => {
            modules.push(imported)?;
            Ok(Stmt::Import(place, modules))
        }
        Stmt::FromImport(place, module, mut names) => {
            names.push(imported)?;
            Ok(Stmt::FromImport(place, module, names))
        }
        _other => Err(AllocError),
    }
}

/// `import`, before its modules.
#[tactic(auto, using(py_ast::specs::PlainTrees::plain_stmts_by_variant, py_ast::proofs::Pushes::pushes))]
pub fn begin_import(alloc: Global, parts: &mut Vec<Part<'_>>) -> Result<(), AllocError>
    ensures { OnOk result ((texts : List (List ℕ)) → parts_of texts parts.new.items ≡ build.begin_import (parts_of texts parts.old.items)) }
{
    let word = pop_token(parts)?;
    push(
        parts,
        Part::Stmt(Stmt::Import(word.place, Items::new(alloc))),
    )
}

/// `from m import`, before its names.
#[tactic(auto, using(py_ast::specs::PlainTrees::plain_stmts_by_variant, py_ast::proofs::Pushes::pushes))]
pub fn begin_from(alloc: Global, parts: &mut Vec<Part<'_>>) -> Result<(), AllocError>
    ensures { OnOk result ((texts : List (List ℕ)) → parts_of texts parts.new.items ≡ build.begin_from (parts_of texts parts.old.items)) }
{
    pop_token(parts)?;
    let name = pop_name(parts)?;
    let word = pop_token(parts)?;
    push(
        parts,
        Part::Stmt(Stmt::FromImport(word.place, name, Items::new(alloc))),
    )
}

/// One more that is imported.
#[tactic(auto, using(py_ast::specs::PlainTrees::plain_stmts_by_variant, py_ast::proofs::Pushes::pushes))]
pub fn add_imported(parts: &mut Vec<Part<'_>>) -> Result<(), AllocError>
    ensures { OnOk result ((texts : List (List ℕ)) → parts_of texts parts.new.items ≡ build.add_imported (parts_of texts parts.old.items)) }
{
    let name = pop_name(parts)?;
    let statement = pop_stmt(parts)?;
    let statement = with_imported(statement, Imported { name, alias: None })?;
    push(parts, Part::Stmt(statement))
}

/// `x as y`, one more that is imported.
#[tactic(auto, using(py_ast::specs::PlainTrees::plain_stmts_by_variant, py_ast::proofs::Pushes::pushes))]
pub fn add_imported_as(parts: &mut Vec<Part<'_>>) -> Result<(), AllocError>
    ensures { OnOk result ((texts : List (List ℕ)) → parts_of texts parts.new.items ≡ build.add_imported_as (parts_of texts parts.old.items)) }
{
    let alias = pop_name(parts)?;
    pop_token(parts)?;
    let name = pop_name(parts)?;
    let statement = pop_stmt(parts)?;
    let statement = with_imported(
        statement,
        Imported {
            name,
            alias: Some(alias),
        },
    )?;
    push(parts, Part::Stmt(statement))
}
