//! What is done between symbols.

ghost use Rattle.std.specs.Prelude.{ℕ, ◌≡◌, List, OnOk};
ghost use Rattle.py_syntax.specs.Build as build;
ghost use Rattle.py_table.specs.PlainSymbols.{plain_action};
ghost use Rattle.parser_parts.specs.PlainParts.{parts_of};

use parser_atoms::{
    add_condition, add_item, add_loop, add_loop_name, add_pair, begin_comprehension, begin_dict,
    begin_loop, drop_token, make_empty_dict, make_empty_list, make_empty_tuple, make_false,
    make_leaf, make_list, make_list_of_one, make_loop_name, make_loop_names, make_loop_parenthesis,
    make_none, make_parenthesis, make_set, make_set_of_one, make_true, make_tuple,
};
use parser_blocks::{
    add_base, add_default, add_parameter, add_stmt, begin_body, begin_class, begin_def, begin_try,
    catch, catch_all, catch_as, end_class, end_def, make_class_name, make_class_within, make_elif,
    make_else, make_for, make_if, make_while,
};
use parser_operations::{
    add_and, add_argument, add_keyword, add_link, add_or, add_upper, begin_call, make_and,
    make_attribute, make_binary, make_compare, make_conditional, make_long_sign, make_not, make_or,
    make_sign, make_slice, make_slice_from, make_subscript, make_unary,
};
use parser_parts::Part;
use parser_statements::{
    add_global, add_imported, add_imported_as, add_targets, begin_from, begin_global, begin_import,
    make_assert, make_assert_message, make_assign, make_augmented, make_break, make_continue,
    make_delete, make_expr_stmt, make_pass, make_raise, make_return, make_return_value,
    make_targets, make_yield,
};
use py_table::symbol::Action;
use std::alloc::{AllocError, Global};

/// What an action does to the parts.
pub fn act(alloc: Global, action: Action, parts: &mut Vec<Part<'_>>) -> Result<(), AllocError>
    ensures { OnOk result ((texts : List (List ℕ)) → parts_of texts parts.new.items ≡ build.act (plain_action action) (parts_of texts parts.old.items)) }
{
    match action {
        Action::Drop => drop_token(parts),
        Action::MakeLeaf => make_leaf(alloc, parts),
        Action::MakeTrue => make_true(parts),
        Action::MakeFalse => make_false(parts),
        Action::MakeNone => make_none(parts),
        Action::MakeEmptyTuple => make_empty_tuple(parts),
        Action::MakeParenthesis => make_parenthesis(alloc, parts),
        Action::MakeTuple => make_tuple(alloc, parts),
        Action::AddItem => add_item(parts),
        Action::MakeEmptyList => make_empty_list(alloc, parts),
        Action::MakeListOfOne => make_list_of_one(alloc, parts),
        Action::MakeList => make_list(parts),
        Action::BeginComprehension => begin_comprehension(alloc, parts),
        Action::BeginLoop => begin_loop(alloc, parts),
        Action::AddCondition => add_condition(parts),
        Action::AddLoop => add_loop(parts),
        Action::MakeEmptyDict => make_empty_dict(alloc, parts),
        Action::BeginDict => begin_dict(alloc, parts),
        Action::AddPair => add_pair(parts),
        Action::MakeSetOfOne => make_set_of_one(alloc, parts),
        Action::MakeSet => make_set(parts),
        Action::MakeAttribute => make_attribute(alloc, parts),
        Action::BeginCall => begin_call(alloc, parts),
        Action::AddArgument => add_argument(parts),
        Action::AddKeyword => add_keyword(parts),
        Action::MakeSubscript => make_subscript(alloc, parts),
        Action::MakeSliceFrom => make_slice_from(alloc, parts),
        Action::MakeSlice => make_slice(alloc, parts),
        Action::AddUpper => add_upper(alloc, parts),
        Action::MakeUnary(operator) => make_unary(alloc, operator, parts),
        Action::MakeBinary(operator) => make_binary(alloc, operator, parts),
        Action::MakeSign(operator) => make_sign(operator, parts),
        Action::MakeLongSign(operator) => make_long_sign(operator, parts),
        Action::MakeCompare => make_compare(alloc, parts),
        Action::AddLink => add_link(parts),
        Action::MakeNot => make_not(alloc, parts),
        Action::MakeAnd => make_and(alloc, parts),
        Action::AddAnd => add_and(parts),
        Action::MakeOr => make_or(alloc, parts),
        Action::AddOr => add_or(parts),
        Action::MakeConditional => make_conditional(alloc, parts),
        Action::MakeLoopName => make_loop_name(parts),
        Action::MakeLoopNames => make_loop_names(alloc, parts),
        Action::AddLoopName => add_loop_name(parts),
        Action::MakeLoopParenthesis => make_loop_parenthesis(alloc, parts),
        Action::BeginBody => begin_body(alloc, parts),
        Action::AddStmt => add_stmt(parts),
        Action::MakeExprStmt => make_expr_stmt(parts),
        Action::MakeTargets => make_targets(alloc, parts),
        Action::AddTargets => add_targets(alloc, parts),
        Action::MakeAssign => make_assign(parts),
        Action::MakeAugmented(operator) => make_augmented(operator, parts),
        Action::MakePass => make_pass(parts),
        Action::MakeBreak => make_break(parts),
        Action::MakeContinue => make_continue(parts),
        Action::MakeReturn => make_return(parts),
        Action::MakeReturnValue => make_return_value(parts),
        Action::MakeRaise => make_raise(parts),
        Action::MakeYield => make_yield(parts),
        Action::BeginGlobal => begin_global(alloc, parts),
        Action::AddGlobal => add_global(parts),
        Action::MakeAssert => make_assert(parts),
        Action::MakeAssertMessage => make_assert_message(parts),
        Action::MakeDelete => make_delete(parts),
        Action::MakeIf => make_if(parts),
        Action::MakeElif => make_elif(alloc, parts),
        Action::MakeElse => make_else(parts),
        Action::MakeWhile => make_while(parts),
        Action::MakeFor => make_for(parts),
        Action::BeginTry => begin_try(alloc, parts),
        Action::CatchAll => catch_all(parts),
        Action::Catch => catch(parts),
        Action::CatchAs => catch_as(parts),
        Action::MakeClassName => make_class_name(parts),
        Action::MakeClassWithin => make_class_within(parts),
        Action::BeginDef => begin_def(alloc, parts),
        Action::AddParameter => add_parameter(parts),
        Action::AddDefault => add_default(parts),
        Action::EndDef => end_def(parts),
        Action::BeginClass => begin_class(alloc, parts),
        Action::AddBase => add_base(parts),
        Action::EndClass => end_class(parts),
        Action::BeginImport => begin_import(alloc, parts),
        Action::BeginFrom => begin_from(alloc, parts),
        Action::AddImported => add_imported(parts),
        Action::AddImportedAs => add_imported_as(parts),
    }
}
