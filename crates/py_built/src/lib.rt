//! The part of the language that is built, taken out of a module's tree.
#![tactic(auto)]

mod building;
mod forms;
mod names;
mod operators;
pub mod tree;
mod unbuilt;

pub use building::build;
pub use names::bind;
