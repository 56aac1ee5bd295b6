//! The texts that stand beside the C++ files: the types table and the makefile.

ghost use Rattle.std.specs.Prelude.{◌≡◌, ◌++◌, codes, map, IfOk, OnOk, string_bytes};
ghost use Rattle.runs.specs.Number.{W32};
ghost use Rattle.py_built.specs.PlainTrees.{plain};
ghost use Rattle.shed_meaning.specs.Table.{global_line, global_lines, table, makefile};
ghost use Rattle.cpp_text.specs.Plain.{plain_file};

use cpp_emit::names_bound;
use cpp_text::file::File;
use cpp_text::file_name;
use py_built::tree::Module;
use std::alloc::{AllocError, Global};

/// The types table of a module: one line for each global.
pub fn types_table(alloc: Global, module: &Module, name: &str) -> Result<File, AllocError>
    ensures { IfOk result (λ file. plain_file file ≡ table (record { main = record { name = name.now; body = plain «module».now }; width = W32 })) }
{
    let names = names_bound(alloc, module)?;
    let head = format!(in alloc;
        "shed types 1\nrounds 1\ntemplate T0 {name} ()\nfamily F0\ngroup G0 T0\n"
    )?;
    let mut bytes = head.into_bytes();
    push_globals(&mut bytes, name, names.as_slice())?;
    let name = file_name(alloc, name, ".types")?;
    Ok(File { name, bytes })
}

fn push_globals(out: &mut Vec<u8>, module: &str, names: &[String]) -> Result<(), AllocError>
    ensures { OnOk result (out.new.items ≡ out.old.items ++ global_lines «module».now (map string_bytes names.now)) }
{
    for name in names {
        push_global(out, module, name)?;
    }
    Ok(())
}

fn push_global(out: &mut Vec<u8>, module: &str, name: &str) -> Result<(), AllocError>
    ensures { OnOk result (out.new.items ≡ out.old.items ++ global_line «module».now name.now) }
{
    out.extend_from_slice(b"global ")?;
    out.extend_from_slice(module.as_bytes())?;
    out.extend_from_slice(b".")?;
    out.extend_from_slice(name.as_bytes())?;
    out.extend_from_slice(b" int {int}\n")?;
    Ok(())
}

/// The makefile of a program of this name, whose one source is the module's.
pub fn make_file(alloc: Global, module: &Module, name: &str) -> Result<File, AllocError>
    ensures { IfOk result (λ file. plain_file file ≡ makefile (record { main = record { name = name.now; body = plain «module».now }; width = W32 })) }
{
    let text = format!(in alloc;
        "CXX ?= g++\nCXXFLAGS ?= -O2\n{name}: {name}.cpp\n\t$(CXX) -std=c++20 -fwrapv $(CXXFLAGS) -o {name} {name}.cpp -lshed\n\n"
    )?;
    Ok(File {
        name: String::from_str(alloc, "Makefile")?,
        bytes: text.into_bytes(),
    })
}
