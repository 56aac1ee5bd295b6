//! What the emitted C++ means here: trees, typing, canonical text and the machine that runs a program.
//! The crate holds definitions, in `specs/`, and laws about them; it has hardly any code.
#![tactic(auto)]
