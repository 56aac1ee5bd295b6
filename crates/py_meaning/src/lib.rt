//! What Python means here: the language that is built today, values, and the machine that runs a module.
//!
//! The crate holds definitions, in `specs/`, and laws about them. The function below has no body: it carries a law, which
//! is proved only where a contract names it.
#![tactic(auto)]

ghost use Rattle.py_meaning.specs.Built.{NothingUnbuilt};

/// A module is of the language that is built just where it has no unbuilt place.
pub fn nothing_unbuilt()
    ensures law { NothingUnbuilt }
{}
