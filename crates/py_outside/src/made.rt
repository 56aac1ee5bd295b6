//! What the actions of the profile's table make of items.

ghost use Rattle.std.specs.Prelude.{◌≡◌, OnOk};
ghost use Rattle.py_constructs.specs.Values.{made as made_of};
ghost use Rattle.py_syntax.specs.Build as build;
ghost use Rattle.py_table.specs.PlainSymbols.{plain_action};
ghost use Rattle.py_outside.specs.PlainValues.{items_of};

use crate::item::{
    CALL, Item, PLAIN, TARGET, forget, in_round, in_square, leaf, one_more, pop, pop_expression,
    pop_token, put, replace, slice, tuple_of,
};
use py_table::symbol::Action;
use std::alloc::AllocError;

fn make_leaf(items: &mut Vec<Item>) -> Result<(), AllocError>
    ensures { OnOk result (items_of items.new.items ≡ made_of build.MakeLeaf (items_of items.old.items)) }
{
    let (sort, _) = pop_token(items)?;
    put(items, leaf(sort))
}

fn make_parenthesis(items: &mut Vec<Item>) -> Result<(), AllocError>
    ensures { OnOk result (items_of items.new.items ≡ made_of build.MakeParenthesis (items_of items.old.items)) }
{
    pop(items)?;
    let reading = pop_expression(items)?;
    let (_, bracket) = pop_token(items)?;
    put(items, in_round(bracket, reading))
}

fn make_tuple(items: &mut Vec<Item>) -> Result<(), AllocError>
    ensures { OnOk result (items_of items.new.items ≡ made_of build.MakeTuple (items_of items.old.items)) }
{
    pop(items)?;
    let reading = pop_expression(items)?;
    put(items, tuple_of(reading))
}

fn add_item(items: &mut Vec<Item>) -> Result<(), AllocError>
    ensures { OnOk result (items_of items.new.items ≡ made_of build.AddItem (items_of items.old.items)) }
{
    let item = pop_expression(items)?;
    let tuple = pop_expression(items)?;
    put(items, one_more(tuple, item))
}

/// A list of one item, or of some.
fn make_list(items: &mut Vec<Item>) -> Result<(), AllocError>
    ensures one { OnOk result (items_of items.new.items ≡ made_of build.MakeListOfOne (items_of items.old.items)) }
    ensures some { OnOk result (items_of items.new.items ≡ made_of build.MakeList (items_of items.old.items)) }
{
    pop(items)?;
    let reading = pop_expression(items)?;
    let (_, bracket) = pop_token(items)?;
    put(items, in_square(bracket, reading))
}

/// A slice that has something before its `:`.
fn make_slice_from(items: &mut Vec<Item>) -> Result<(), AllocError>
    ensures { OnOk result (items_of items.new.items ≡ made_of build.MakeSliceFrom (items_of items.old.items)) }
{
    pop(items)?;
    pop(items)?;
    let (_, bracket) = pop_token(items)?;
    pop(items)?;
    put(items, slice(bracket))
}

fn make_slice(items: &mut Vec<Item>) -> Result<(), AllocError>
    ensures { OnOk result (items_of items.new.items ≡ made_of build.MakeSlice (items_of items.old.items)) }
{
    pop(items)?;
    let (_, bracket) = pop_token(items)?;
    pop(items)?;
    put(items, slice(bracket))
}

/// Does what an action does. Where items are not of the sort that it takes, which never comes, the answer is want of memory.
pub(crate) fn make(items: &mut Vec<Item>, action: Action) -> Result<(), AllocError>
    ensures { OnOk result (items_of items.new.items ≡ made_of (plain_action action) (items_of items.old.items)) }
{
    match action {
        Action::MakeLeaf => make_leaf(items),
        Action::MakeParenthesis => make_parenthesis(items),
        Action::MakeTuple => make_tuple(items),
        Action::AddItem => add_item(items),
        Action::MakeListOfOne | Action::MakeList => make_list(items),
        Action::MakeSliceFrom => make_slice_from(items),
        Action::MakeSlice => make_slice(items),
        Action::Drop => {
            forget(items, 1);
            Ok(())
        }
        Action::AddUpper => {
            forget(items, 2);
            Ok(())
        }
        Action::MakeTrue | Action::MakeFalse | Action::MakeNone => replace(items, 1, PLAIN),
        Action::MakeEmptyTuple
        | Action::MakeEmptyList
        | Action::BeginComprehension
        | Action::AddLoop
        | Action::MakeEmptyDict
        | Action::MakeUnary(_)
        | Action::MakeNot => replace(items, 2, PLAIN),
        Action::BeginLoop
        | Action::MakeAssertMessage
        | Action::MakeWhile
        | Action::CatchAll
        | Action::AddDefault
        | Action::EndDef
        | Action::AddBase
        | Action::AddImportedAs => replace(items, 4, Item::Other),
        Action::AddCondition
        | Action::MakeLoopParenthesis
        | Action::MakeAugmented(_)
        | Action::BeginTry
        | Action::BeginDef
        | Action::EndClass
        | Action::BeginFrom => replace(items, 3, Item::Other),
        Action::BeginDict | Action::AddPair => replace(items, 4, PLAIN),
        Action::MakeSetOfOne
        | Action::MakeSet
        | Action::MakeBinary(_)
        | Action::MakeCompare
        | Action::AddLink
        | Action::MakeAnd
        | Action::AddAnd
        | Action::MakeOr
        | Action::AddOr => replace(items, 3, PLAIN),
        Action::MakeAttribute => replace(items, 3, TARGET),
        Action::BeginCall => replace(items, 2, CALL),
        Action::AddArgument => replace(items, 2, PLAIN),
        Action::AddKeyword => replace(items, 4, PLAIN),
        Action::MakeSubscript => replace(items, 4, TARGET),
        Action::MakeSign(_)
        | Action::MakeLoopName
        | Action::MakeExprStmt
        | Action::MakePass
        | Action::MakeBreak
        | Action::MakeContinue
        | Action::MakeReturn
        | Action::BeginGlobal
        | Action::BeginImport => replace(items, 1, Item::Other),
        Action::MakeLongSign(_)
        | Action::MakeLoopNames
        | Action::AddLoopName
        | Action::MakeAssign
        | Action::MakeReturnValue
        | Action::MakeRaise
        | Action::MakeYield
        | Action::AddGlobal
        | Action::MakeAssert
        | Action::MakeDelete
        | Action::AddParameter
        | Action::BeginClass
        | Action::AddImported => replace(items, 2, Item::Other),
        Action::MakeConditional => replace(items, 5, PLAIN),
        Action::BeginBody => put(items, Item::Base),
        Action::AddStmt | Action::MakeTargets => replace(items, 2, Item::Base),
        Action::AddTargets | Action::MakeElse => replace(items, 3, Item::Base),
        Action::MakeIf | Action::Catch => replace(items, 5, Item::Other),
        Action::MakeElif => replace(items, 5, Item::Base),
        Action::MakeFor => replace(items, 6, Item::Other),
        Action::CatchAs => replace(items, 7, Item::Other),
        Action::MakeClassName => replace(items, 1, Item::Class(true)),
        Action::MakeClassWithin => replace(items, 3, Item::Class(false)),
    }
}
