//! The command `shed`: reads its words, translates a module and writes the files.
#![tactic(auto)]

mod judgement;
mod status;
mod tables;
mod top;
mod translation;
mod words;
mod writing;

pub use status::Status;
pub use top::shed;

#[cfg(test)]
mod tests;
