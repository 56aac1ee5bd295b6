//! What the table's actions do to entries, and the steps that they note.

ghost use Rattle.std.specs.Prelude.{OnOk};
ghost use Rattle.py_table.specs.PlainSymbols.{plain_action};
ghost use Rattle.py_nesting.specs.Effects.{effect_of};
ghost use Rattle.py_depth.specs.Nests.{IsAfter};

use crate::nest::Nest;
use crate::nested_expressions::{
    add_and, add_argument, add_condition, add_item, add_keyword, add_link, add_loop, add_loop_name,
    add_or, add_pair, add_upper, begin_call, begin_comprehension, begin_dict, begin_loop, drop,
    make_attribute, make_bracket, make_compare, make_conditional, make_constant, make_empty_dict,
    make_empty_list, make_empty_tuple, make_infix, make_leaf, make_list, make_long_sign,
    make_loop_name, make_loop_names, make_loop_parenthesis, make_prefix, make_set, make_set_of_one,
    make_sign, make_slice, make_slice_from, make_subscript, make_tuple,
};
use crate::nested_statements::{
    add_base, add_default, add_global, add_imported, add_imported_as, add_parameter, add_stmt,
    add_targets, begin_body, begin_class, begin_def, begin_from, begin_global, begin_try, catch,
    catch_all, catch_as, end_class, end_def, make_assert_message, make_assign, make_augmented,
    make_class_name, make_class_within, make_delete, make_elif, make_else, make_expr_stmt,
    make_for, make_if, make_targets, make_while, make_with_value, make_word,
};
use crate::shape::ExprForm;
use py_table::symbol::Action;
use std::alloc::AllocError;

pub(crate) fn act(action: Action, nest: &mut Nest) -> Result<(), AllocError>
    ensures { OnOk result (IsAfter (effect_of (plain_action action)) nest.old nest.new) }
{
    match action {
        Action::Drop => drop(nest),
        Action::MakeLeaf => make_leaf(nest),
        Action::MakeTrue | Action::MakeFalse | Action::MakeNone => make_constant(nest),
        Action::MakeEmptyTuple => make_empty_tuple(nest),
        Action::MakeParenthesis | Action::MakeListOfOne => make_bracket(nest),
        Action::MakeTuple => make_tuple(nest),
        Action::AddItem => add_item(nest),
        Action::MakeEmptyList => make_empty_list(nest),
        Action::MakeList => make_list(nest),
        Action::BeginComprehension => begin_comprehension(nest),
        Action::BeginLoop => begin_loop(nest),
        Action::AddCondition => add_condition(nest),
        Action::AddLoop => add_loop(nest),
        Action::MakeEmptyDict => make_empty_dict(nest),
        Action::BeginDict => begin_dict(nest),
        Action::AddPair => add_pair(nest),
        Action::MakeSetOfOne => make_set_of_one(nest),
        Action::MakeSet => make_set(nest),
        Action::MakeAttribute => make_attribute(nest),
        Action::BeginCall => begin_call(nest),
        Action::AddArgument => add_argument(nest),
        Action::AddKeyword => add_keyword(nest),
        Action::MakeSubscript => make_subscript(nest),
        Action::MakeSliceFrom => make_slice_from(nest),
        Action::MakeSlice => make_slice(nest),
        Action::AddUpper => add_upper(nest),
        Action::MakeUnary(_) | Action::MakeNot => make_prefix(nest),
        Action::MakeBinary(_) => make_infix(nest, ExprForm::Other),
        Action::MakeSign(_) => make_sign(nest),
        Action::MakeLongSign(_) => make_long_sign(nest),
        Action::MakeCompare => make_compare(nest),
        Action::AddLink => add_link(nest),
        Action::MakeAnd => make_infix(nest, ExprForm::And),
        Action::AddAnd => add_and(nest),
        Action::MakeOr => make_infix(nest, ExprForm::Or),
        Action::AddOr => add_or(nest),
        Action::MakeConditional => make_conditional(nest),
        Action::MakeLoopName => make_loop_name(nest),
        Action::MakeLoopNames => make_loop_names(nest),
        Action::AddLoopName => add_loop_name(nest),
        Action::MakeLoopParenthesis => make_loop_parenthesis(nest),
        Action::BeginBody => begin_body(nest),
        Action::AddStmt => add_stmt(nest),
        Action::MakeExprStmt => make_expr_stmt(nest),
        Action::MakeTargets => make_targets(nest),
        Action::AddTargets => add_targets(nest),
        Action::MakeAssign => make_assign(nest),
        Action::MakeAugmented(_) => make_augmented(nest),
        Action::MakePass
        | Action::MakeBreak
        | Action::MakeContinue
        | Action::MakeReturn
        | Action::BeginImport => make_word(nest),
        Action::MakeReturnValue | Action::MakeRaise | Action::MakeYield | Action::MakeAssert => {
            make_with_value(nest)
        }
        Action::BeginGlobal => begin_global(nest),
        Action::AddGlobal => add_global(nest),
        Action::MakeAssertMessage => make_assert_message(nest),
        Action::MakeDelete => make_delete(nest),
        Action::MakeIf => make_if(nest),
        Action::MakeElif => make_elif(nest),
        Action::MakeElse => make_else(nest),
        Action::MakeWhile => make_while(nest),
        Action::MakeFor => make_for(nest),
        Action::BeginTry => begin_try(nest),
        Action::CatchAll => catch_all(nest),
        Action::Catch => catch(nest),
        Action::CatchAs => catch_as(nest),
        Action::MakeClassName => make_class_name(nest),
        Action::MakeClassWithin => make_class_within(nest),
        Action::BeginDef => begin_def(nest),
        Action::AddParameter => add_parameter(nest),
        Action::AddDefault => add_default(nest),
        Action::EndDef => end_def(nest),
        Action::BeginClass => begin_class(nest),
        Action::AddBase => add_base(nest),
        Action::EndClass => end_class(nest),
        Action::BeginFrom => begin_from(nest),
        Action::AddImported => add_imported(nest),
        Action::AddImportedAs => add_imported_as(nest),
    }
}
