//! Whether the tokens of a text are a module of the profile that is not nested too deep. No tree is built.
#![tactic(auto)]

mod recognition;
pub mod refusal;

pub use recognition::recognise;
