//! The first place where a module is nested too deep, found without a tree.
#![tactic(auto)]

mod depth;
pub mod event;
pub mod nest;
mod nested;
mod nested_expressions;
mod nested_statements;
pub mod shape;
pub mod walk;

pub use depth::{Depth, find_depth};
