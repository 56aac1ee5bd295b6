//! The actions that build statements without bodies.
#![tactic(auto)]

mod imports;
mod statements;

pub use imports::{add_imported, add_imported_as, begin_from, begin_import};
pub use statements::{
    add_global, add_targets, begin_global, make_assert, make_assert_message, make_assign,
    make_augmented, make_break, make_continue, make_delete, make_expr_stmt, make_pass, make_raise,
    make_return, make_return_value, make_targets, make_yield,
};
