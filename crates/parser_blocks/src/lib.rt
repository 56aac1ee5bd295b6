//! The actions that build bodies, and the statements that have some.
#![tactic(auto)]

mod blocks;
mod definitions;

pub use blocks::{
    add_stmt, begin_body, begin_try, catch, catch_all, catch_as, make_elif, make_else, make_for,
    make_if, make_while,
};
pub use definitions::{
    add_base, add_default, add_parameter, begin_class, begin_def, end_class, end_def,
    make_class_name, make_class_within,
};
