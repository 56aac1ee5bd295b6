//! The grammar's table, and the one loop that runs it over the tokens of a text with a stack of symbols. What an action
//! makes is left to an implementation of `Values`.
#![tactic(auto)]

mod compound_rows;
mod kind_numbers;
pub mod kinds;
mod operator_rows;
mod primary_rows;
pub mod rows;
pub mod run;
mod sights;
mod simple_rows;
pub mod symbol;
mod table;
pub mod values;
