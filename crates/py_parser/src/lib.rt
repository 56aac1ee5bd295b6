//! Tokens become the tree of a module.
#![tactic(auto)]

mod building;
mod parser;

pub use parser::parse;
pub use py_ast as tree;
