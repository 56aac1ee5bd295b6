//! The emission of C++: straight from a module's tree to the tree of its C++.
#![tactic(auto)]

mod bound;
mod emission;
mod names;

pub use bound::names_bound;
pub use emission::emit;
