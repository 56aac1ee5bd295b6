//! From the text of a module to what is built of it, or to its fault.
#![tactic(auto)]

pub mod fault;
mod source;

pub use source::read_source;
