//! Expressions that turn out to be targets of assignments, and where an expression begins.
#![tactic(auto)]

mod targets;

pub use targets::{are_targets, is_name, is_target, start_of, target_of, targets_of};
