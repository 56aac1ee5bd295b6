//! What is done between symbols: each action builds a piece of the tree.
#![tactic(auto)]

mod actions;

pub use actions::act;
