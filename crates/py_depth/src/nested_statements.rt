//! What the actions of statements do to entries. Each takes what it needs from the top of the stack; where that is not there,
//! which never comes, the answer is want of memory.

ghost use Rattle.std.specs.Prelude.{OnOk};
ghost use Rattle.py_nesting.specs.Effects.{effect_begin_body, effect_add_stmt, effect_make_expr_stmt, effect_make_targets, effect_add_targets, effect_make_assign, effect_make_augmented, effect_word, effect_with_value, effect_begin_global, effect_add_global, effect_make_assert_message, effect_make_delete, effect_make_if, effect_make_elif, effect_make_else, effect_make_while, effect_make_for, effect_begin_try, effect_catch_all, effect_catch, effect_catch_as, effect_make_class_name, effect_make_class_within, effect_begin_def, effect_add_parameter, effect_add_default, effect_end_def, effect_begin_class, effect_add_base, effect_end_class, effect_begin_from, effect_add_imported, effect_add_imported_as};
ghost use Rattle.py_depth.specs.Nests.{IsAfter};

use crate::event::{Event, Label};
use crate::nest::{
    Nest, note, pop_body, pop_class, pop_expr, pop_loop_target, pop_name, pop_stmt, pop_targets,
    pop_token, put, put_stmt,
};
use crate::shape::{
    ClassNameForm, Entry, ExprForm, NOWHERE, Shape, StmtForm, are_targets, is_target,
};
use std::alloc::AllocError;

pub(crate) fn begin_body(nest: &mut Nest) -> Result<(), AllocError>
    ensures { OnOk result (IsAfter effect_begin_body nest.old nest.new) }
{
    put(&mut nest.entries, Shape::Body(false), NOWHERE)?;
    note(&mut nest.events, Event::Gather(0))
}

pub(crate) fn add_stmt(nest: &mut Nest) -> Result<(), AllocError>
    ensures { OnOk result (IsAfter effect_add_stmt nest.old nest.new) }
{
    pop_stmt(&mut nest.entries)?;
    pop_body(&mut nest.entries)?;
    put(&mut nest.entries, Shape::Body(true), NOWHERE)?;
    note(&mut nest.events, Event::JoinGroup)
}

pub(crate) fn make_expr_stmt(nest: &mut Nest) -> Result<(), AllocError>
    ensures { OnOk result (IsAfter effect_make_expr_stmt nest.old nest.new) }
{
    let (_, _, place) = pop_expr(&mut nest.entries)?;
    put_stmt(nest, StmtForm::Other, Event::Over(Label::Plain, place, 1))
}

pub(crate) fn make_targets(nest: &mut Nest) -> Result<(), AllocError>
    ensures { OnOk result (IsAfter effect_make_targets nest.old nest.new) }
{
    pop_token(&mut nest.entries)?;
    let (form, _, place) = pop_expr(&mut nest.entries)?;
    if !are_targets(form) {
        return Err(AllocError);
    }
    put(&mut nest.entries, Shape::Targets, place)?;
    note(&mut nest.events, Event::Assign)?;
    note(&mut nest.events, Event::Gather(1))
}

pub(crate) fn add_targets(nest: &mut Nest) -> Result<(), AllocError>
    ensures { OnOk result (IsAfter effect_add_targets nest.old nest.new) }
{
    pop_token(&mut nest.entries)?;
    let (form, _, _) = pop_expr(&mut nest.entries)?;
    let place = pop_targets(&mut nest.entries)?;
    if !are_targets(form) {
        return Err(AllocError);
    }
    put(&mut nest.entries, Shape::Targets, place)?;
    note(&mut nest.events, Event::Assign)?;
    note(&mut nest.events, Event::JoinGroup)
}

pub(crate) fn make_assign(nest: &mut Nest) -> Result<(), AllocError>
    ensures { OnOk result (IsAfter effect_make_assign nest.old nest.new) }
{
    pop_expr(&mut nest.entries)?;
    let place = pop_targets(&mut nest.entries)?;
    put_stmt(nest, StmtForm::Other, Event::Over(Label::Plain, place, 2))
}

pub(crate) fn make_augmented(nest: &mut Nest) -> Result<(), AllocError>
    ensures { OnOk result (IsAfter effect_make_augmented nest.old nest.new) }
{
    pop_expr(&mut nest.entries)?;
    pop_token(&mut nest.entries)?;
    let (form, _, place) = pop_expr(&mut nest.entries)?;
    if !is_target(form) {
        return Err(AllocError);
    }
    put_stmt(nest, StmtForm::Other, Event::Over(Label::Plain, place, 2))
}

pub(crate) fn make_word(nest: &mut Nest) -> Result<(), AllocError>
    ensures { OnOk result (IsAfter effect_word nest.old nest.new) }
{
    let (_, word) = pop_token(&mut nest.entries)?;
    put_stmt(nest, StmtForm::Other, Event::Over(Label::Plain, word, 0))
}

pub(crate) fn make_with_value(nest: &mut Nest) -> Result<(), AllocError>
    ensures { OnOk result (IsAfter effect_with_value nest.old nest.new) }
{
    pop_expr(&mut nest.entries)?;
    let (_, word) = pop_token(&mut nest.entries)?;
    put_stmt(nest, StmtForm::Other, Event::Over(Label::Plain, word, 1))
}

pub(crate) fn begin_global(nest: &mut Nest) -> Result<(), AllocError>
    ensures { OnOk result (IsAfter effect_begin_global nest.old nest.new) }
{
    let (_, word) = pop_token(&mut nest.entries)?;
    put_stmt(nest, StmtForm::Global, Event::Over(Label::Plain, word, 0))
}

#[tactic(auto, using(crate::proofs::Stacks::stacks))]
pub(crate) fn add_global(nest: &mut Nest) -> Result<(), AllocError>
    ensures { OnOk result (IsAfter effect_add_global nest.old nest.new) }
{
    pop_name(&mut nest.entries)?;
    let Some(
        Entry {
            shape: Shape::Stmt(StmtForm::Global, _),
            ..
        },
    ) = nest.entries.pop()
    else {
        return Err(AllocError);
    };
    put(
        &mut nest.entries,
        Shape::Stmt(StmtForm::Global, false),
        NOWHERE,
    )
}

pub(crate) fn make_assert_message(nest: &mut Nest) -> Result<(), AllocError>
    ensures { OnOk result (IsAfter effect_make_assert_message nest.old nest.new) }
{
    pop_expr(&mut nest.entries)?;
    pop_token(&mut nest.entries)?;
    pop_expr(&mut nest.entries)?;
    let (_, word) = pop_token(&mut nest.entries)?;
    put_stmt(nest, StmtForm::Other, Event::Over(Label::Plain, word, 2))
}

#[tactic(auto, using(crate::proofs::Stacks::stacks))]
pub(crate) fn make_delete(nest: &mut Nest) -> Result<(), AllocError>
    ensures { OnOk result (IsAfter effect_make_delete nest.old nest.new) }
{
    let Some(
        Entry {
            shape: Shape::Expr(ExprForm::Subscript, _),
            ..
        },
    ) = nest.entries.pop()
    else {
        return Err(AllocError);
    };
    let (_, word) = pop_token(&mut nest.entries)?;
    put_stmt(nest, StmtForm::Other, Event::Over(Label::Plain, word, 1))
}

pub(crate) fn make_if(nest: &mut Nest) -> Result<(), AllocError>
    ensures { OnOk result (IsAfter effect_make_if nest.old nest.new) }
{
    pop_body(&mut nest.entries)?;
    pop_body(&mut nest.entries)?;
    pop_token(&mut nest.entries)?;
    pop_expr(&mut nest.entries)?;
    let (_, word) = pop_token(&mut nest.entries)?;
    put_stmt(nest, StmtForm::Other, Event::Over(Label::Plain, word, 3))
}

pub(crate) fn make_elif(nest: &mut Nest) -> Result<(), AllocError>
    ensures { OnOk result (IsAfter effect_make_elif nest.old nest.new) }
{
    pop_body(&mut nest.entries)?;
    pop_body(&mut nest.entries)?;
    pop_token(&mut nest.entries)?;
    pop_expr(&mut nest.entries)?;
    let (_, word) = pop_token(&mut nest.entries)?;
    put(&mut nest.entries, Shape::Body(true), NOWHERE)?;
    note(&mut nest.events, Event::Over(Label::Plain, word, 3))?;
    note(&mut nest.events, Event::Gather(1))
}

pub(crate) fn make_else(nest: &mut Nest) -> Result<(), AllocError>
    ensures { OnOk result (IsAfter effect_make_else nest.old nest.new) }
{
    let (filled, _) = pop_body(&mut nest.entries)?;
    pop_token(&mut nest.entries)?;
    pop_token(&mut nest.entries)?;
    put(&mut nest.entries, Shape::Body(filled), NOWHERE)
}

pub(crate) fn make_while(nest: &mut Nest) -> Result<(), AllocError>
    ensures { OnOk result (IsAfter effect_make_while nest.old nest.new) }
{
    pop_body(&mut nest.entries)?;
    pop_token(&mut nest.entries)?;
    pop_expr(&mut nest.entries)?;
    let (_, word) = pop_token(&mut nest.entries)?;
    put_stmt(nest, StmtForm::Other, Event::Over(Label::Plain, word, 2))
}

pub(crate) fn make_for(nest: &mut Nest) -> Result<(), AllocError>
    ensures { OnOk result (IsAfter effect_make_for nest.old nest.new) }
{
    pop_body(&mut nest.entries)?;
    pop_token(&mut nest.entries)?;
    pop_expr(&mut nest.entries)?;
    pop_token(&mut nest.entries)?;
    pop_loop_target(&mut nest.entries)?;
    let (_, word) = pop_token(&mut nest.entries)?;
    put_stmt(nest, StmtForm::Other, Event::Over(Label::Plain, word, 3))
}

pub(crate) fn begin_try(nest: &mut Nest) -> Result<(), AllocError>
    ensures { OnOk result (IsAfter effect_begin_try nest.old nest.new) }
{
    pop_body(&mut nest.entries)?;
    pop_token(&mut nest.entries)?;
    let (_, word) = pop_token(&mut nest.entries)?;
    put_stmt(nest, StmtForm::Try, Event::Over(Label::Plain, word, 1))
}

#[tactic(auto, using(crate::proofs::Stacks::stacks))]
pub(crate) fn catch_all(nest: &mut Nest) -> Result<(), AllocError>
    ensures { OnOk result (IsAfter effect_catch_all nest.old nest.new) }
{
    pop_body(&mut nest.entries)?;
    pop_token(&mut nest.entries)?;
    pop_token(&mut nest.entries)?;
    let Some(
        Entry {
            shape: Shape::Stmt(StmtForm::Try, _),
            ..
        },
    ) = nest.entries.pop()
    else {
        return Err(AllocError);
    };
    put_stmt(nest, StmtForm::Try, Event::Join(Label::Plain))
}

#[tactic(auto, using(crate::proofs::Stacks::stacks))]
pub(crate) fn catch(nest: &mut Nest) -> Result<(), AllocError>
    ensures { OnOk result (IsAfter effect_catch nest.old nest.new) }
{
    pop_body(&mut nest.entries)?;
    pop_token(&mut nest.entries)?;
    pop_class(&mut nest.entries)?;
    pop_token(&mut nest.entries)?;
    let Some(
        Entry {
            shape: Shape::Stmt(StmtForm::Try, _),
            ..
        },
    ) = nest.entries.pop()
    else {
        return Err(AllocError);
    };
    put_stmt(nest, StmtForm::Try, Event::Join(Label::Plain))
}

#[tactic(auto, using(crate::proofs::Stacks::stacks))]
pub(crate) fn catch_as(nest: &mut Nest) -> Result<(), AllocError>
    ensures { OnOk result (IsAfter effect_catch_as nest.old nest.new) }
{
    pop_body(&mut nest.entries)?;
    pop_token(&mut nest.entries)?;
    pop_name(&mut nest.entries)?;
    pop_token(&mut nest.entries)?;
    pop_class(&mut nest.entries)?;
    pop_token(&mut nest.entries)?;
    let Some(
        Entry {
            shape: Shape::Stmt(StmtForm::Try, _),
            ..
        },
    ) = nest.entries.pop()
    else {
        return Err(AllocError);
    };
    put_stmt(nest, StmtForm::Try, Event::Join(Label::Plain))
}

pub(crate) fn make_class_name(nest: &mut Nest) -> Result<(), AllocError>
    ensures { OnOk result (IsAfter effect_make_class_name nest.old nest.new) }
{
    pop_name(&mut nest.entries)?;
    put(
        &mut nest.entries,
        Shape::Class(ClassNameForm::Bare),
        NOWHERE,
    )
}

#[tactic(auto, using(crate::proofs::Stacks::stacks))]
pub(crate) fn make_class_within(nest: &mut Nest) -> Result<(), AllocError>
    ensures { OnOk result (IsAfter effect_make_class_within nest.old nest.new) }
{
    pop_name(&mut nest.entries)?;
    pop_token(&mut nest.entries)?;
    let Some(
        Entry {
            shape: Shape::Class(ClassNameForm::Bare),
            ..
        },
    ) = nest.entries.pop()
    else {
        return Err(AllocError);
    };
    put(
        &mut nest.entries,
        Shape::Class(ClassNameForm::Dotted),
        NOWHERE,
    )
}

pub(crate) fn begin_def(nest: &mut Nest) -> Result<(), AllocError>
    ensures { OnOk result (IsAfter effect_begin_def nest.old nest.new) }
{
    pop_token(&mut nest.entries)?;
    pop_name(&mut nest.entries)?;
    let (_, word) = pop_token(&mut nest.entries)?;
    put_stmt(nest, StmtForm::Def, Event::Over(Label::Plain, word, 0))
}

#[tactic(auto, using(crate::proofs::Stacks::stacks))]
pub(crate) fn add_parameter(nest: &mut Nest) -> Result<(), AllocError>
    ensures { OnOk result (IsAfter effect_add_parameter nest.old nest.new) }
{
    pop_name(&mut nest.entries)?;
    let Some(
        Entry {
            shape: Shape::Stmt(StmtForm::Def, filled),
            ..
        },
    ) = nest.entries.pop()
    else {
        return Err(AllocError);
    };
    put(
        &mut nest.entries,
        Shape::Stmt(StmtForm::Def, filled),
        NOWHERE,
    )
}

#[tactic(auto, using(crate::proofs::Stacks::stacks))]
pub(crate) fn add_default(nest: &mut Nest) -> Result<(), AllocError>
    ensures { OnOk result (IsAfter effect_add_default nest.old nest.new) }
{
    pop_expr(&mut nest.entries)?;
    pop_token(&mut nest.entries)?;
    pop_name(&mut nest.entries)?;
    let Some(
        Entry {
            shape: Shape::Stmt(StmtForm::Def, false),
            ..
        },
    ) = nest.entries.pop()
    else {
        return Err(AllocError);
    };
    put_stmt(nest, StmtForm::Def, Event::Join(Label::Plain))
}

#[tactic(auto, using(crate::proofs::Stacks::stacks))]
pub(crate) fn end_def(nest: &mut Nest) -> Result<(), AllocError>
    ensures { OnOk result (IsAfter effect_end_def nest.old nest.new) }
{
    let Some(
        Entry {
            shape: Shape::Body(true),
            ..
        },
    ) = nest.entries.pop()
    else {
        return Err(AllocError);
    };
    pop_token(&mut nest.entries)?;
    pop_token(&mut nest.entries)?;
    let Some(
        Entry {
            shape: Shape::Stmt(StmtForm::Def, false),
            ..
        },
    ) = nest.entries.pop()
    else {
        return Err(AllocError);
    };
    put(&mut nest.entries, Shape::Stmt(StmtForm::Def, true), NOWHERE)?;
    note(&mut nest.events, Event::Join(Label::Plain))
}

pub(crate) fn begin_class(nest: &mut Nest) -> Result<(), AllocError>
    ensures { OnOk result (IsAfter effect_begin_class nest.old nest.new) }
{
    pop_name(&mut nest.entries)?;
    let (_, word) = pop_token(&mut nest.entries)?;
    put_stmt(nest, StmtForm::Class, Event::Over(Label::Plain, word, 0))
}

#[tactic(auto, using(crate::proofs::Stacks::stacks))]
pub(crate) fn add_base(nest: &mut Nest) -> Result<(), AllocError>
    ensures { OnOk result (IsAfter effect_add_base nest.old nest.new) }
{
    pop_token(&mut nest.entries)?;
    pop_class(&mut nest.entries)?;
    pop_token(&mut nest.entries)?;
    let Some(
        Entry {
            shape: Shape::Stmt(StmtForm::Class, filled),
            ..
        },
    ) = nest.entries.pop()
    else {
        return Err(AllocError);
    };
    put(
        &mut nest.entries,
        Shape::Stmt(StmtForm::Class, filled),
        NOWHERE,
    )
}

#[tactic(auto, using(crate::proofs::Stacks::stacks))]
pub(crate) fn end_class(nest: &mut Nest) -> Result<(), AllocError>
    ensures { OnOk result (IsAfter effect_end_class nest.old nest.new) }
{
    let Some(
        Entry {
            shape: Shape::Body(true),
            ..
        },
    ) = nest.entries.pop()
    else {
        return Err(AllocError);
    };
    pop_token(&mut nest.entries)?;
    let Some(
        Entry {
            shape: Shape::Stmt(StmtForm::Class, false),
            ..
        },
    ) = nest.entries.pop()
    else {
        return Err(AllocError);
    };
    put(
        &mut nest.entries,
        Shape::Stmt(StmtForm::Class, true),
        NOWHERE,
    )?;
    note(&mut nest.events, Event::Join(Label::Plain))
}

pub(crate) fn begin_from(nest: &mut Nest) -> Result<(), AllocError>
    ensures { OnOk result (IsAfter effect_begin_from nest.old nest.new) }
{
    pop_token(&mut nest.entries)?;
    pop_name(&mut nest.entries)?;
    let (_, word) = pop_token(&mut nest.entries)?;
    put_stmt(nest, StmtForm::Other, Event::Over(Label::Plain, word, 0))
}

pub(crate) fn add_imported(nest: &mut Nest) -> Result<(), AllocError>
    ensures { OnOk result (IsAfter effect_add_imported nest.old nest.new) }
{
    pop_name(&mut nest.entries)?;
    let (form, filled, _) = pop_stmt(&mut nest.entries)?;
    put(&mut nest.entries, Shape::Stmt(form, filled), NOWHERE)
}

pub(crate) fn add_imported_as(nest: &mut Nest) -> Result<(), AllocError>
    ensures { OnOk result (IsAfter effect_add_imported_as nest.old nest.new) }
{
    pop_name(&mut nest.entries)?;
    pop_token(&mut nest.entries)?;
    pop_name(&mut nest.entries)?;
    let (form, filled, _) = pop_stmt(&mut nest.entries)?;
    put(&mut nest.entries, Shape::Stmt(form, filled), NOWHERE)
}
