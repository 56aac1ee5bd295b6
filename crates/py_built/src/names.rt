//! The texts of names, and sets of them.

ghost use Rattle.std.specs.Prelude.{◌≡◌, bytes_eq, nat_lt, codes, OnOk, option_copied};
ghost use Rattle.std.specs.List.{list_all};
ghost use Rattle.py_meaning.specs.Built as built;
ghost use Rattle.py_meaning.specs.Rules.{has_name};
ghost use Rattle.py_built.specs.Names.{texts, with_name};

use indexmap::IndexSet;
use shed_base::{Name, Names};
use std::alloc::{AllocError, Global};

// The text of a name, which is empty where it has none.
fn text_at<'a>(names: &'a Names, name: Name) -> &'a str
    ensures { result.now ≡ built.text_at names.now name.0 }
{
    match names.text(name) {
        Some(text) => text,
        None => "",
    }
}

// Whether a text is of ASCII characters alone.
fn is_ascii(text: &str) -> bool
    ensures { result ≡ list_all (λ b. nat_lt b 128) text.now }
{
    text.as_bytes().iter().all(|b| b.is_ascii())
}

// Whether a text may be a variable.
fn is_variable(text: &str) -> bool
    ensures { result ≡ built.is_variable text.now }
{
    if text.is_empty() {
        return false;
    }
    if !is_ascii(text) {
        return false;
    }
    if text == "print" {
        return false;
    }
    text != "__name__"
}

/// The text of a name that may be a variable.
pub(crate) fn variable<'a>(names: &'a Names, name: Name) -> Option<&'a str>
    ensures { option_copied result ≡ built.variable (built.text_at names.now name.0) }
{
    let text = text_at(names, name);
    if is_variable(text) { Some(text) } else { None }
}

/// Whether a text is that of `print`.
pub(crate) fn is_print(names: &Names, name: Name) -> bool
    ensures { result ≡ bytes_eq (built.text_at names.now name.0) (codes "print") }
{
    text_at(names, name) == "print"
}

/// Whether a set has a name.
pub(crate) fn has(names: &IndexSet<String>, name: &str) -> bool
    ensures { result ≡ has_name (texts names.now) name.now }
{
    names.contains(name)
}

/// Adds a name, if it is not there.
pub fn bind(alloc: Global, names: &mut IndexSet<String>, name: &str) -> Result<(), AllocError>
    ensures { OnOk result (texts names.new ≡ with_name (texts names.old) name.now) }
{
    if !names.contains(name) {
        names.insert(String::from_str(alloc, name)?)?;
    }
    Ok(())
}
