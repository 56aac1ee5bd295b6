//! What the actions of expressions do to entries. Each takes what it needs from the top of the stack; where that is not there,
//! which never comes, the answer is want of memory.

ghost use Rattle.std.specs.Prelude.{OnOk};
ghost use Rattle.py_nesting.specs.Effects.{effect_drop, effect_make_leaf, effect_constant, effect_make_empty_tuple, effect_bracket, effect_make_tuple, effect_add_item, effect_make_empty_list, effect_make_list, effect_begin_comprehension, effect_begin_loop, effect_add_condition, effect_add_loop, effect_make_empty_dict, effect_begin_dict, effect_add_pair, effect_make_set_of_one, effect_make_set, effect_make_attribute, effect_begin_call, effect_add_argument, effect_add_keyword, effect_make_subscript, effect_make_slice_from, effect_make_slice, effect_add_upper, effect_prefix, effect_infix, effect_make_sign, effect_make_long_sign, effect_make_compare, effect_add_link, effect_add_and, effect_add_or, effect_make_conditional, effect_make_loop_name, effect_make_loop_names, effect_add_loop_name, effect_make_loop_parenthesis};
ghost use Rattle.py_depth.specs.PlainEntries.{plain_form};
ghost use Rattle.py_depth.specs.Nests.{IsAfter};

use crate::event::{Event, Label};
use crate::nest::{
    Nest, note, pop_expr, pop_loop, pop_loop_target, pop_name, pop_sign, pop_token, put, put_expr,
};
use crate::shape::{
    Entry, ExprForm, LoopTargetForm, NOWHERE, Shape, TokenForm, are_targets, is_target,
};
use std::alloc::AllocError;

pub(crate) fn drop(nest: &mut Nest) -> Result<(), AllocError>
    ensures { OnOk result (IsAfter effect_drop nest.old nest.new) }
{
    pop_token(&mut nest.entries)?;
    Ok(())
}

pub(crate) fn make_leaf(nest: &mut Nest) -> Result<(), AllocError>
    ensures { OnOk result (IsAfter effect_make_leaf nest.old nest.new) }
{
    let (form, place) = pop_token(&mut nest.entries)?;
    let form = match form {
        TokenForm::Name => ExprForm::Name,
        TokenForm::Literal => ExprForm::Other,
        TokenForm::Other => return Err(AllocError),
    };
    put_expr(nest, form, place, Event::Over(Label::Plain, place, 0))
}

pub(crate) fn make_constant(nest: &mut Nest) -> Result<(), AllocError>
    ensures { OnOk result (IsAfter effect_constant nest.old nest.new) }
{
    let (_, word) = pop_token(&mut nest.entries)?;
    put_expr(
        nest,
        ExprForm::Other,
        word,
        Event::Over(Label::Plain, word, 0),
    )
}

pub(crate) fn make_empty_tuple(nest: &mut Nest) -> Result<(), AllocError>
    ensures { OnOk result (IsAfter effect_make_empty_tuple nest.old nest.new) }
{
    pop_token(&mut nest.entries)?;
    let (_, opening) = pop_token(&mut nest.entries)?;
    put_expr(
        nest,
        ExprForm::Other,
        opening,
        Event::Over(Label::Plain, opening, 0),
    )
}

pub(crate) fn make_bracket(nest: &mut Nest) -> Result<(), AllocError>
    ensures { OnOk result (IsAfter effect_bracket nest.old nest.new) }
{
    pop_token(&mut nest.entries)?;
    let (form, _, _) = pop_expr(&mut nest.entries)?;
    let (_, opening) = pop_token(&mut nest.entries)?;
    let form = ExprForm::Bracket(are_targets(form));
    put_expr(nest, form, opening, Event::Over(Label::Bracket, opening, 1))
}

pub(crate) fn make_tuple(nest: &mut Nest) -> Result<(), AllocError>
    ensures { OnOk result (IsAfter effect_make_tuple nest.old nest.new) }
{
    let (_, comma) = pop_token(&mut nest.entries)?;
    let (form, _, place) = pop_expr(&mut nest.entries)?;
    let form = ExprForm::Tuple(is_target(form));
    put_expr(nest, form, place, Event::Over(Label::Tuple, comma, 1))
}

#[tactic(auto, using(crate::proofs::Stacks::stacks))]
pub(crate) fn add_item(nest: &mut Nest) -> Result<(), AllocError>
    ensures { OnOk result (IsAfter effect_add_item nest.old nest.new) }
{
    let (form, _, _) = pop_expr(&mut nest.entries)?;
    let Some(
        Entry {
            shape: Shape::Expr(ExprForm::Tuple(targets), false),
            place,
        },
    ) = nest.entries.pop()
    else {
        return Err(AllocError);
    };
    let form = ExprForm::Tuple(targets && is_target(form));
    put_expr(nest, form, place, Event::Join(Label::Tuple))
}

pub(crate) fn make_empty_list(nest: &mut Nest) -> Result<(), AllocError>
    ensures { OnOk result (IsAfter effect_make_empty_list nest.old nest.new) }
{
    pop_token(&mut nest.entries)?;
    let (_, opening) = pop_token(&mut nest.entries)?;
    put_expr(
        nest,
        ExprForm::Bracket(false),
        opening,
        Event::Over(Label::Bracket, opening, 0),
    )
}

#[tactic(auto, using(crate::proofs::Stacks::stacks))]
pub(crate) fn make_list(nest: &mut Nest) -> Result<(), AllocError>
    ensures { OnOk result (IsAfter effect_make_list nest.old nest.new) }
{
    pop_token(&mut nest.entries)?;
    let Some(
        Entry {
            shape: Shape::Expr(ExprForm::Tuple(targets), _),
            ..
        },
    ) = nest.entries.pop()
    else {
        return Err(AllocError);
    };
    let (_, opening) = pop_token(&mut nest.entries)?;
    note(&mut nest.events, Event::Loosen)?;
    put_expr(
        nest,
        ExprForm::Bracket(targets),
        opening,
        Event::Over(Label::Bracket, opening, 1),
    )
}

pub(crate) fn begin_comprehension(nest: &mut Nest) -> Result<(), AllocError>
    ensures { OnOk result (IsAfter effect_begin_comprehension nest.old nest.new) }
{
    pop_expr(&mut nest.entries)?;
    let (_, opening) = pop_token(&mut nest.entries)?;
    put_expr(
        nest,
        ExprForm::Comprehension,
        opening,
        Event::Over(Label::Plain, opening, 1),
    )
}

pub(crate) fn begin_loop(nest: &mut Nest) -> Result<(), AllocError>
    ensures { OnOk result (IsAfter effect_begin_loop nest.old nest.new) }
{
    pop_expr(&mut nest.entries)?;
    pop_token(&mut nest.entries)?;
    pop_loop_target(&mut nest.entries)?;
    pop_token(&mut nest.entries)?;
    put(&mut nest.entries, Shape::Loop, NOWHERE)?;
    note(&mut nest.events, Event::Gather(2))
}

pub(crate) fn add_condition(nest: &mut Nest) -> Result<(), AllocError>
    ensures { OnOk result (IsAfter effect_add_condition nest.old nest.new) }
{
    pop_expr(&mut nest.entries)?;
    pop_token(&mut nest.entries)?;
    pop_loop(&mut nest.entries)?;
    put(&mut nest.entries, Shape::Loop, NOWHERE)?;
    note(&mut nest.events, Event::JoinGroup)
}

#[tactic(auto, using(crate::proofs::Stacks::stacks))]
pub(crate) fn add_loop(nest: &mut Nest) -> Result<(), AllocError>
    ensures { OnOk result (IsAfter effect_add_loop nest.old nest.new) }
{
    pop_loop(&mut nest.entries)?;
    let Some(
        Entry {
            shape: Shape::Expr(ExprForm::Comprehension, _),
            place,
        },
    ) = nest.entries.pop()
    else {
        return Err(AllocError);
    };
    put_expr(
        nest,
        ExprForm::Comprehension,
        place,
        Event::Join(Label::Plain),
    )
}

pub(crate) fn make_empty_dict(nest: &mut Nest) -> Result<(), AllocError>
    ensures { OnOk result (IsAfter effect_make_empty_dict nest.old nest.new) }
{
    pop_token(&mut nest.entries)?;
    let (_, opening) = pop_token(&mut nest.entries)?;
    put_expr(
        nest,
        ExprForm::Dict,
        opening,
        Event::Over(Label::Plain, opening, 0),
    )
}

pub(crate) fn begin_dict(nest: &mut Nest) -> Result<(), AllocError>
    ensures { OnOk result (IsAfter effect_begin_dict nest.old nest.new) }
{
    pop_expr(&mut nest.entries)?;
    pop_token(&mut nest.entries)?;
    pop_expr(&mut nest.entries)?;
    let (_, opening) = pop_token(&mut nest.entries)?;
    note(&mut nest.events, Event::Gather(2))?;
    put_expr(
        nest,
        ExprForm::Dict,
        opening,
        Event::Over(Label::Plain, opening, 1),
    )
}

#[tactic(auto, using(crate::proofs::Stacks::stacks))]
pub(crate) fn add_pair(nest: &mut Nest) -> Result<(), AllocError>
    ensures { OnOk result (IsAfter effect_add_pair nest.old nest.new) }
{
    pop_expr(&mut nest.entries)?;
    pop_token(&mut nest.entries)?;
    pop_expr(&mut nest.entries)?;
    let Some(
        Entry {
            shape: Shape::Expr(ExprForm::Dict, _),
            place,
        },
    ) = nest.entries.pop()
    else {
        return Err(AllocError);
    };
    note(&mut nest.events, Event::Gather(2))?;
    put_expr(nest, ExprForm::Dict, place, Event::Join(Label::Plain))
}

pub(crate) fn make_set_of_one(nest: &mut Nest) -> Result<(), AllocError>
    ensures { OnOk result (IsAfter effect_make_set_of_one nest.old nest.new) }
{
    pop_token(&mut nest.entries)?;
    pop_expr(&mut nest.entries)?;
    let (_, opening) = pop_token(&mut nest.entries)?;
    note(&mut nest.events, Event::Gather(1))?;
    put_expr(
        nest,
        ExprForm::Other,
        opening,
        Event::Over(Label::Plain, opening, 1),
    )
}

#[tactic(auto, using(crate::proofs::Stacks::stacks))]
pub(crate) fn make_set(nest: &mut Nest) -> Result<(), AllocError>
    ensures { OnOk result (IsAfter effect_make_set nest.old nest.new) }
{
    pop_token(&mut nest.entries)?;
    let Some(
        Entry {
            shape: Shape::Expr(ExprForm::Tuple(_), _),
            ..
        },
    ) = nest.entries.pop()
    else {
        return Err(AllocError);
    };
    let (_, opening) = pop_token(&mut nest.entries)?;
    note(&mut nest.events, Event::Loosen)?;
    put_expr(
        nest,
        ExprForm::Other,
        opening,
        Event::Over(Label::Plain, opening, 1),
    )
}

pub(crate) fn make_attribute(nest: &mut Nest) -> Result<(), AllocError>
    ensures { OnOk result (IsAfter effect_make_attribute nest.old nest.new) }
{
    pop_name(&mut nest.entries)?;
    let (_, dot) = pop_token(&mut nest.entries)?;
    let (_, _, place) = pop_expr(&mut nest.entries)?;
    put_expr(
        nest,
        ExprForm::Target,
        place,
        Event::Over(Label::Plain, dot, 1),
    )
}

pub(crate) fn begin_call(nest: &mut Nest) -> Result<(), AllocError>
    ensures { OnOk result (IsAfter effect_begin_call nest.old nest.new) }
{
    let (_, opening) = pop_token(&mut nest.entries)?;
    let (_, _, place) = pop_expr(&mut nest.entries)?;
    put_expr(
        nest,
        ExprForm::Call,
        place,
        Event::Over(Label::Plain, opening, 1),
    )
}

#[tactic(auto, using(crate::proofs::Stacks::stacks))]
pub(crate) fn add_argument(nest: &mut Nest) -> Result<(), AllocError>
    ensures { OnOk result (IsAfter effect_add_argument nest.old nest.new) }
{
    pop_expr(&mut nest.entries)?;
    let Some(
        Entry {
            shape: Shape::Expr(ExprForm::Call, false),
            place,
        },
    ) = nest.entries.pop()
    else {
        return Err(AllocError);
    };
    put_expr(nest, ExprForm::Call, place, Event::Join(Label::Plain))
}

#[tactic(auto, using(crate::proofs::Stacks::stacks))]
pub(crate) fn add_keyword(nest: &mut Nest) -> Result<(), AllocError>
    ensures { OnOk result (IsAfter effect_add_keyword nest.old nest.new) }
{
    pop_expr(&mut nest.entries)?;
    pop_token(&mut nest.entries)?;
    let Some(
        Entry {
            shape: Shape::Expr(ExprForm::Name, _),
            ..
        },
    ) = nest.entries.pop()
    else {
        return Err(AllocError);
    };
    let Some(
        Entry {
            shape: Shape::Expr(ExprForm::Call, _),
            place,
        },
    ) = nest.entries.pop()
    else {
        return Err(AllocError);
    };
    put(&mut nest.entries, Shape::Expr(ExprForm::Call, true), place)?;
    note(&mut nest.events, Event::Forget)?;
    note(&mut nest.events, Event::Join(Label::Plain))
}

pub(crate) fn make_subscript(nest: &mut Nest) -> Result<(), AllocError>
    ensures { OnOk result (IsAfter effect_make_subscript nest.old nest.new) }
{
    pop_token(&mut nest.entries)?;
    pop_expr(&mut nest.entries)?;
    let (_, opening) = pop_token(&mut nest.entries)?;
    let (_, _, place) = pop_expr(&mut nest.entries)?;
    put_expr(
        nest,
        ExprForm::Subscript,
        place,
        Event::Over(Label::Plain, opening, 2),
    )
}

pub(crate) fn make_slice_from(nest: &mut Nest) -> Result<(), AllocError>
    ensures { OnOk result (IsAfter effect_make_slice_from nest.old nest.new) }
{
    pop_token(&mut nest.entries)?;
    pop_expr(&mut nest.entries)?;
    let (_, opening) = pop_token(&mut nest.entries)?;
    let (_, _, place) = pop_expr(&mut nest.entries)?;
    put_expr(
        nest,
        ExprForm::Slice(false),
        place,
        Event::Over(Label::Plain, opening, 2),
    )
}

pub(crate) fn make_slice(nest: &mut Nest) -> Result<(), AllocError>
    ensures { OnOk result (IsAfter effect_make_slice nest.old nest.new) }
{
    pop_token(&mut nest.entries)?;
    let (_, opening) = pop_token(&mut nest.entries)?;
    let (_, _, place) = pop_expr(&mut nest.entries)?;
    put_expr(
        nest,
        ExprForm::Slice(false),
        place,
        Event::Over(Label::Plain, opening, 1),
    )
}

#[tactic(auto, using(crate::proofs::Stacks::stacks))]
pub(crate) fn add_upper(nest: &mut Nest) -> Result<(), AllocError>
    ensures { OnOk result (IsAfter effect_add_upper nest.old nest.new) }
{
    pop_token(&mut nest.entries)?;
    pop_expr(&mut nest.entries)?;
    let Some(
        Entry {
            shape: Shape::Expr(ExprForm::Slice(false), _),
            place,
        },
    ) = nest.entries.pop()
    else {
        return Err(AllocError);
    };
    put_expr(
        nest,
        ExprForm::Slice(true),
        place,
        Event::Join(Label::Plain),
    )
}

pub(crate) fn make_prefix(nest: &mut Nest) -> Result<(), AllocError>
    ensures { OnOk result (IsAfter effect_prefix nest.old nest.new) }
{
    pop_expr(&mut nest.entries)?;
    let (_, sign) = pop_token(&mut nest.entries)?;
    put_expr(
        nest,
        ExprForm::Other,
        sign,
        Event::Over(Label::Plain, sign, 1),
    )
}

pub(crate) fn make_infix(nest: &mut Nest, form: ExprForm) -> Result<(), AllocError>
    ensures { OnOk result (IsAfter (effect_infix (plain_form form)) nest.old nest.new) }
{
    pop_expr(&mut nest.entries)?;
    let (_, sign) = pop_token(&mut nest.entries)?;
    let (_, _, place) = pop_expr(&mut nest.entries)?;
    put_expr(nest, form, place, Event::Over(Label::Plain, sign, 2))
}

pub(crate) fn make_sign(nest: &mut Nest) -> Result<(), AllocError>
    ensures { OnOk result (IsAfter effect_make_sign nest.old nest.new) }
{
    let (_, sign) = pop_token(&mut nest.entries)?;
    put(&mut nest.entries, Shape::Sign, sign)
}

pub(crate) fn make_long_sign(nest: &mut Nest) -> Result<(), AllocError>
    ensures { OnOk result (IsAfter effect_make_long_sign nest.old nest.new) }
{
    pop_token(&mut nest.entries)?;
    let (_, word) = pop_token(&mut nest.entries)?;
    put(&mut nest.entries, Shape::Sign, word)
}

pub(crate) fn make_compare(nest: &mut Nest) -> Result<(), AllocError>
    ensures { OnOk result (IsAfter effect_make_compare nest.old nest.new) }
{
    pop_expr(&mut nest.entries)?;
    let sign = pop_sign(&mut nest.entries)?;
    let (_, _, place) = pop_expr(&mut nest.entries)?;
    put_expr(
        nest,
        ExprForm::Compare,
        place,
        Event::Over(Label::Plain, sign, 2),
    )
}

#[tactic(auto, using(crate::proofs::Stacks::stacks))]
pub(crate) fn add_link(nest: &mut Nest) -> Result<(), AllocError>
    ensures { OnOk result (IsAfter effect_add_link nest.old nest.new) }
{
    pop_expr(&mut nest.entries)?;
    pop_sign(&mut nest.entries)?;
    let Some(
        Entry {
            shape: Shape::Expr(ExprForm::Compare, _),
            place,
        },
    ) = nest.entries.pop()
    else {
        return Err(AllocError);
    };
    put_expr(nest, ExprForm::Compare, place, Event::Join(Label::Plain))
}

#[tactic(auto, using(crate::proofs::Stacks::stacks))]
pub(crate) fn add_and(nest: &mut Nest) -> Result<(), AllocError>
    ensures { OnOk result (IsAfter effect_add_and nest.old nest.new) }
{
    pop_expr(&mut nest.entries)?;
    pop_token(&mut nest.entries)?;
    let Some(
        Entry {
            shape: Shape::Expr(ExprForm::And, _),
            place,
        },
    ) = nest.entries.pop()
    else {
        return Err(AllocError);
    };
    put_expr(nest, ExprForm::And, place, Event::Join(Label::Plain))
}

#[tactic(auto, using(crate::proofs::Stacks::stacks))]
pub(crate) fn add_or(nest: &mut Nest) -> Result<(), AllocError>
    ensures { OnOk result (IsAfter effect_add_or nest.old nest.new) }
{
    pop_expr(&mut nest.entries)?;
    pop_token(&mut nest.entries)?;
    let Some(
        Entry {
            shape: Shape::Expr(ExprForm::Or, _),
            place,
        },
    ) = nest.entries.pop()
    else {
        return Err(AllocError);
    };
    put_expr(nest, ExprForm::Or, place, Event::Join(Label::Plain))
}

pub(crate) fn make_conditional(nest: &mut Nest) -> Result<(), AllocError>
    ensures { OnOk result (IsAfter effect_make_conditional nest.old nest.new) }
{
    pop_expr(&mut nest.entries)?;
    pop_token(&mut nest.entries)?;
    pop_expr(&mut nest.entries)?;
    let (_, word) = pop_token(&mut nest.entries)?;
    let (_, _, place) = pop_expr(&mut nest.entries)?;
    put_expr(
        nest,
        ExprForm::Other,
        place,
        Event::Over(Label::Plain, word, 3),
    )
}

pub(crate) fn make_loop_name(nest: &mut Nest) -> Result<(), AllocError>
    ensures { OnOk result (IsAfter effect_make_loop_name nest.old nest.new) }
{
    let name = pop_name(&mut nest.entries)?;
    put(
        &mut nest.entries,
        Shape::LoopTarget(LoopTargetForm::OneName, true),
        NOWHERE,
    )?;
    note(&mut nest.events, Event::Over(Label::Plain, name, 0))
}

#[tactic(auto, using(crate::proofs::Stacks::stacks))]
pub(crate) fn make_loop_names(nest: &mut Nest) -> Result<(), AllocError>
    ensures { OnOk result (IsAfter effect_make_loop_names nest.old nest.new) }
{
    pop_token(&mut nest.entries)?;
    let Some(
        Entry {
            shape: Shape::LoopTarget(LoopTargetForm::OneName, _),
            ..
        },
    ) = nest.entries.pop()
    else {
        return Err(AllocError);
    };
    put(
        &mut nest.entries,
        Shape::LoopTarget(LoopTargetForm::SomeNames, true),
        NOWHERE,
    )?;
    note(&mut nest.events, Event::Gather(1))
}

#[tactic(auto, using(crate::proofs::Stacks::stacks))]
pub(crate) fn add_loop_name(nest: &mut Nest) -> Result<(), AllocError>
    ensures { OnOk result (IsAfter effect_add_loop_name nest.old nest.new) }
{
    let name = pop_name(&mut nest.entries)?;
    let Some(
        Entry {
            shape: Shape::LoopTarget(LoopTargetForm::SomeNames, true),
            ..
        },
    ) = nest.entries.pop()
    else {
        return Err(AllocError);
    };
    put(
        &mut nest.entries,
        Shape::LoopTarget(LoopTargetForm::SomeNames, true),
        NOWHERE,
    )?;
    note(&mut nest.events, Event::Over(Label::Plain, name, 0))?;
    note(&mut nest.events, Event::JoinGroup)
}

pub(crate) fn make_loop_parenthesis(nest: &mut Nest) -> Result<(), AllocError>
    ensures { OnOk result (IsAfter effect_make_loop_parenthesis nest.old nest.new) }
{
    pop_token(&mut nest.entries)?;
    pop_loop_target(&mut nest.entries)?;
    let (_, opening) = pop_token(&mut nest.entries)?;
    put(
        &mut nest.entries,
        Shape::LoopTarget(LoopTargetForm::InBrackets, true),
        NOWHERE,
    )?;
    note(&mut nest.events, Event::Over(Label::Plain, opening, 1))
}
