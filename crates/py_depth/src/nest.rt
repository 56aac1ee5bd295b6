//! The entries of the parts that stand on a stack, and how their nodes were put together.

ghost use Rattle.std.specs.Prelude.{◌≡◌, false, ◌∷◌, IfOk, OnOk};
ghost use Rattle.py_nesting.specs.Forms.{NameToken};
ghost use Rattle.py_lexer.specs.PlainTokens.{plain_place};
ghost use Rattle.py_nesting.specs.Shapes.{entry, nowhere, TokenShape, ExprShape, SignShape, LoopShape, LoopTargetShape, TargetsShape, ClassShape, StmtShape, BodyShape};
ghost use Rattle.py_depth.specs.PlainEntries.{plain_token_form, plain_form, plain_loop_target_form, plain_class_name_form, plain_stmt_form, plain_shape, plain_event, entries_of, events_of};

use crate::event::Event;
use crate::shape::{
    ClassNameForm, Entry, ExprForm, LoopTargetForm, NOWHERE, Shape, StmtForm, TokenForm,
};
use shed_base::Place;
use std::alloc::AllocError;

/// Entries with the last on top, and the steps in their order.
#[derive(Debug, Drop)]
pub struct Nest {
    pub entries: Vec<Entry>,
    pub events: Vec<Event>,
}

// Each of these takes the last entry, which is of this sort. No other comes: the answer is then want of memory.

#[tactic(auto, using(crate::proofs::Stacks::stacks))]
pub(crate) fn pop_token(entries: &mut Vec<Entry>) -> Result<(TokenForm, Place), AllocError>
    ensures { IfOk result (λ t. entries_of entries.old.items ≡ entry (TokenShape (plain_token_form t.0)) (plain_place t.1) ∷ entries_of entries.new.items) }
{
    match entries.pop() {
        Some(
            Entry {
                shape: Shape::Token(form),
                place,
            },
        ) => Ok((form, place)),
        _ => Err(AllocError),
    }
}

#[tactic(auto, using(crate::proofs::Stacks::stacks))]
pub(crate) fn pop_name(entries: &mut Vec<Entry>) -> Result<Place, AllocError>
    ensures { IfOk result (λ p. entries_of entries.old.items ≡ entry (TokenShape NameToken) (plain_place p) ∷ entries_of entries.new.items) }
{
    match entries.pop() {
        Some(
            Entry {
                shape: Shape::Token(TokenForm::Name),
                place,
            },
        ) => Ok(place),
        _ => Err(AllocError),
    }
}

#[tactic(auto, using(crate::proofs::Stacks::stacks))]
pub(crate) fn pop_expr(entries: &mut Vec<Entry>) -> Result<(ExprForm, bool, Place), AllocError>
    ensures { IfOk result (λ e. entries_of entries.old.items ≡ entry (ExprShape (plain_form e.0) e.1) (plain_place e.2) ∷ entries_of entries.new.items) }
{
    match entries.pop() {
        Some(
            Entry {
                shape: Shape::Expr(form, full),
                place,
            },
        ) => Ok((form, full, place)),
        _ => Err(AllocError),
    }
}

#[tactic(auto, using(crate::proofs::Stacks::stacks))]
pub(crate) fn pop_sign(entries: &mut Vec<Entry>) -> Result<Place, AllocError>
    ensures { IfOk result (λ p. entries_of entries.old.items ≡ entry SignShape (plain_place p) ∷ entries_of entries.new.items) }
{
    match entries.pop() {
        Some(
            Entry {
                shape: Shape::Sign,
                place,
            },
        ) => Ok(place),
        _ => Err(AllocError),
    }
}

#[tactic(auto, using(crate::proofs::Stacks::stacks))]
pub(crate) fn pop_loop(entries: &mut Vec<Entry>) -> Result<Place, AllocError>
    ensures { IfOk result (λ p. entries_of entries.old.items ≡ entry LoopShape (plain_place p) ∷ entries_of entries.new.items) }
{
    match entries.pop() {
        Some(
            Entry {
                shape: Shape::Loop,
                place,
            },
        ) => Ok(place),
        _ => Err(AllocError),
    }
}

#[tactic(auto, using(crate::proofs::Stacks::stacks))]
pub(crate) fn pop_loop_target(
    entries: &mut Vec<Entry>,
) -> Result<(LoopTargetForm, bool, Place), AllocError>
    ensures { IfOk result (λ t. entries_of entries.old.items ≡ entry (LoopTargetShape (plain_loop_target_form t.0) t.1) (plain_place t.2) ∷ entries_of entries.new.items) }
{
    match entries.pop() {
        Some(
            Entry {
                shape: Shape::LoopTarget(form, named),
                place,
            },
        ) => Ok((form, named, place)),
        _ => Err(AllocError),
    }
}

#[tactic(auto, using(crate::proofs::Stacks::stacks))]
pub(crate) fn pop_targets(entries: &mut Vec<Entry>) -> Result<Place, AllocError>
    ensures { IfOk result (λ p. entries_of entries.old.items ≡ entry TargetsShape (plain_place p) ∷ entries_of entries.new.items) }
{
    match entries.pop() {
        Some(
            Entry {
                shape: Shape::Targets,
                place,
            },
        ) => Ok(place),
        _ => Err(AllocError),
    }
}

#[tactic(auto, using(crate::proofs::Stacks::stacks))]
pub(crate) fn pop_class(entries: &mut Vec<Entry>) -> Result<(ClassNameForm, Place), AllocError>
    ensures { IfOk result (λ c. entries_of entries.old.items ≡ entry (ClassShape (plain_class_name_form c.0)) (plain_place c.1) ∷ entries_of entries.new.items) }
{
    match entries.pop() {
        Some(
            Entry {
                shape: Shape::Class(form),
                place,
            },
        ) => Ok((form, place)),
        _ => Err(AllocError),
    }
}

#[tactic(auto, using(crate::proofs::Stacks::stacks))]
pub(crate) fn pop_stmt(entries: &mut Vec<Entry>) -> Result<(StmtForm, bool, Place), AllocError>
    ensures { IfOk result (λ s. entries_of entries.old.items ≡ entry (StmtShape (plain_stmt_form s.0) s.1) (plain_place s.2) ∷ entries_of entries.new.items) }
{
    match entries.pop() {
        Some(
            Entry {
                shape: Shape::Stmt(form, filled),
                place,
            },
        ) => Ok((form, filled, place)),
        _ => Err(AllocError),
    }
}

#[tactic(auto, using(crate::proofs::Stacks::stacks))]
pub(crate) fn pop_body(entries: &mut Vec<Entry>) -> Result<(bool, Place), AllocError>
    ensures { IfOk result (λ b. entries_of entries.old.items ≡ entry (BodyShape b.0) (plain_place b.1) ∷ entries_of entries.new.items) }
{
    match entries.pop() {
        Some(
            Entry {
                shape: Shape::Body(filled),
                place,
            },
        ) => Ok((filled, place)),
        _ => Err(AllocError),
    }
}

/// Puts an entry on top.
#[tactic(auto, using(crate::proofs::Stacks::stacks))]
pub(crate) fn put(entries: &mut Vec<Entry>, shape: Shape, place: Place) -> Result<(), AllocError>
    ensures { OnOk result (entries_of entries.new.items ≡ entry (plain_shape shape) (plain_place place) ∷ entries_of entries.old.items) }
{
    entries.push(Entry { shape, place })?;
    Ok(())
}

/// Notes a step.
#[tactic(auto, using(crate::proofs::Stacks::stacks))]
pub(crate) fn note(events: &mut Vec<Event>, event: Event) -> Result<(), AllocError>
    ensures { OnOk result (events_of events.new.items ≡ plain_event event ∷ events_of events.old.items) }
{
    events.push(event)?;
    Ok(())
}

/// Puts an expression on top, to which a step leads.
pub(crate) fn put_expr(
    nest: &mut Nest,
    form: ExprForm,
    place: Place,
    event: Event,
) -> Result<(), AllocError>
    ensures entries { OnOk result (entries_of nest.new.entries.items ≡ entry (ExprShape (plain_form form) false) (plain_place place) ∷ entries_of nest.old.entries.items) }
    ensures events { OnOk result (events_of nest.new.events.items ≡ plain_event event ∷ events_of nest.old.events.items) }
{
    put(&mut nest.entries, Shape::Expr(form, false), place)?;
    note(&mut nest.events, event)
}

/// Puts a statement on top, to which a step leads.
pub(crate) fn put_stmt(nest: &mut Nest, form: StmtForm, event: Event) -> Result<(), AllocError>
    ensures entries { OnOk result (entries_of nest.new.entries.items ≡ entry (StmtShape (plain_stmt_form form) false) nowhere ∷ entries_of nest.old.entries.items) }
    ensures events { OnOk result (events_of nest.new.events.items ≡ plain_event event ∷ events_of nest.old.events.items) }
{
    put(&mut nest.entries, Shape::Stmt(form, false), NOWHERE)?;
    note(&mut nest.events, event)
}
