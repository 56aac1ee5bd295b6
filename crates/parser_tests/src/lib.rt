//! Tests of the recogniser, of the parser and of what is built of trees. They stand in a crate of their own, since a crate with tests is proved a second time with them.
#![tactic(auto)]

#[cfg(test)]
mod tests;
