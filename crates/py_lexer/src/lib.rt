//! Cuts a module's text into tokens.
#![tactic(auto)]

mod character;
mod contents;
mod escape;
mod lexeme;
#[cfg(test)]
mod lexeme_tests;
mod lexer;
mod lines;
mod literal;
mod name;
mod number;
mod operator;
mod place;
pub mod refusal;
mod space;
pub mod token;

pub use lexer::lex;
pub use place::is_before;

#[cfg(test)]
mod tests;
