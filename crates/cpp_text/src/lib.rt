//! The files of a C++ tree, as texts.
#![tactic(auto)]

pub mod file;
mod text;

pub use text::{cpp_files, file_name};
