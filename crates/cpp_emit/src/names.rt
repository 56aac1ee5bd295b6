//! The names of emitted C++.

ghost use Rattle.std.specs.Prelude.{◌≡◌, ◌++◌, IfOk, OnOk, string_bytes, true};
ghost use Rattle.cpp_emit.specs.Names.{escaped_character};
ghost use Rattle.shed_meaning.specs.EmittedName.{encoded, global_name as global_name_of, body_name as body_name_of, temporary_name as temporary_name_of};

use std::alloc::{AllocError, Global};

/// The name of a global variable of a module.
pub fn global_name(alloc: Global, owner: u32, name: &str) -> Result<String, AllocError>
    ensures { IfOk result (λ x. string_bytes x ≡ global_name_of owner name.now) }
{
    let mut emitted = format!(in alloc; "g_{owner}_")?;
    push_encoded(&mut emitted, name)?;
    Ok(emitted)
}

/// The name of the function that runs a module's body.
pub fn body_name(alloc: Global, name: &str) -> Result<String, AllocError>
    ensures { IfOk result (λ x. string_bytes x ≡ body_name_of name.now) }
{
    let mut emitted = String::from_str(alloc, "body_")?;
    push_encoded(&mut emitted, name)?;
    Ok(emitted)
}

/// The name of a temporary.
pub fn temporary_name(alloc: Global, number: u32) -> Result<String, AllocError>
    ensures { IfOk result (λ x. string_bytes x ≡ temporary_name_of number) }
{
    format!(in alloc; "t_{number}")
}

// Appends a name of the source behind a `_`, so written that no two become one.
fn push_encoded(emitted: &mut String, name: &str) -> Result<(), AllocError>
    ensures { OnOk result (string_bytes emitted.new ≡ string_bytes emitted.old ++ encoded true name.now) }
{
    let mut after = true;
    for c in name.chars() {
        push_escaped(emitted, after, c)?;
        after = c == '_';
    }
    Ok(())
}

// Appends one character, where `after` says whether the last one written is `_`.
fn push_escaped(emitted: &mut String, after: bool, c: char) -> Result<(), AllocError>
    ensures { OnOk result (string_bytes emitted.new ≡ string_bytes emitted.old ++ escaped_character after c) }
{
    match c {
        'Z' => emitted.push_str("ZZ"),
        '_' if after => emitted.push_str("Z_"),
        _ => emitted.push(c),
    }
}
