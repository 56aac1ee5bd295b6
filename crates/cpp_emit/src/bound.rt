//! The names that a module binds.

ghost use Rattle.std.specs.Prelude.{◌≡◌, [], IfOk, OnOk};
ghost use Rattle.py_meaning.specs.Binding.{targets_of, targets, names_bound as names_bound_by};
ghost use Rattle.py_built.specs.PlainTrees.{plain, plain_stmt, plain_body};
ghost use Rattle.py_built.specs.Names.{texts};
ghost use Rattle.cpp_emit.specs.Names.{with_names};

use indexmap::IndexSet;
use py_built::bind;
use py_built::tree::{Module, Stmt};
use std::alloc::{AllocError, Global};

/// The global names of a module, each once, in the order of their first bindings.
pub fn names_bound(alloc: Global, module: &Module) -> Result<IndexSet<String>, AllocError>
    ensures { IfOk result (λ names. texts names ≡ names_bound_by (plain «module».now)) }
{
    let mut names = IndexSet::new(alloc);
    bind_targets(alloc, &mut names, module.body.as_slice())?;
    Ok(names)
}

// Adds the names that statements bind.
#[cycle(targets)]
fn bind_targets(
    alloc: Global,
    names: &mut IndexSet<String>,
    body: &[Stmt],
) -> Result<(), AllocError>
    ensures { OnOk result (texts names.new ≡ with_names (texts names.old) (targets (plain_body body.now))) }
{
    for stmt in body {
        bind_targets_of(alloc, names, stmt)?;
    }
    Ok(())
}

// Adds the names that a statement binds.
#[cycle(targets)]
#[tactic(auto, using(crate::proofs::NamesKept::lists, py_built::specs::PlainTrees::plain_stmts))]
fn bind_targets_of(
    alloc: Global,
    names: &mut IndexSet<String>,
    stmt: &Stmt,
) -> Result<(), AllocError>
    ensures { OnOk result (texts names.new ≡ with_names (texts names.old) (targets_of (plain_stmt stmt.now))) }
{
    match stmt {
        Stmt::Assign(_, name, _) => bind(alloc, names, name),
        Stmt::Print(..) => Ok(()),
        Stmt::If(_, _, body, other) => {
            bind_targets(alloc, names, body.as_slice())?;
            bind_targets(alloc, names, other.as_slice())
        }
        Stmt::While(_, _, body) => bind_targets(alloc, names, body.as_slice()),
    }
}
