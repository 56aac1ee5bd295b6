//! Constructs of Python outside the profile: the profile's grammar with one construct added, as a table, and the search for the
//! construct whose head comes first among tokens that are no module.
#![tactic(auto)]

mod added;
mod added_literals;
mod added_members;
mod added_parts;
mod added_statements;
mod argument_rows;
mod changed_rows;
pub mod construct;
pub mod item;
mod kind_numbers;
pub mod left;
mod made;
mod name_numbers;
mod place_rows;
mod place_sights;
mod profile_sights;
mod rows;
pub mod run;
mod search;
mod statement_rows;
pub mod symbol;
pub mod table;
mod target_rows;
mod targets;
pub mod value;

pub use search::find_outside;
