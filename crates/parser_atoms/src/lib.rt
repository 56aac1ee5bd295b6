//! The actions that build atoms: names, literals, parentheses and displays.
#![tactic(auto)]

mod atoms;

pub use atoms::{
    add_condition, add_item, add_loop, add_loop_name, add_pair, begin_comprehension, begin_dict,
    begin_loop, drop_token, make_empty_dict, make_empty_list, make_empty_tuple, make_false,
    make_leaf, make_list, make_list_of_one, make_loop_name, make_loop_names, make_loop_parenthesis,
    make_none, make_parenthesis, make_set, make_set_of_one, make_true, make_tuple,
};
