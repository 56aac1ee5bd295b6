//! What the parser builds: a stack of parts, the last on top.
#![tactic(auto)]

mod parts;

pub use parts::{
    Part, box_operands, box_value, one, pop_binding, pop_body, pop_branch, pop_class, pop_expr,
    pop_loop, pop_loop_target, pop_name, pop_operands, pop_sign, pop_stmt, pop_targets, pop_token,
    pop_two, pop_value, push,
};
