//! The actions that build attributes, calls, subscripts, slices and operators.
#![tactic(auto)]

mod operations;

pub use operations::{
    add_and, add_argument, add_keyword, add_link, add_or, add_upper, begin_call, make_and,
    make_attribute, make_binary, make_compare, make_conditional, make_long_sign, make_not, make_or,
    make_sign, make_slice, make_slice_from, make_subscript, make_unary,
};
