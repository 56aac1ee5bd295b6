//! The reading of the parts behind a front in which what may be targets is assigned to.

ghost use Rattle.std.specs.Prelude.{◌≡◌, ◌∷◌, [], Some, map, IfOk, Vec};
ghost use Rattle.std.specs.Option.{option_map};
ghost use Rattle.py_demands.specs.Aims as aiming;
ghost use Rattle.py_demands.specs.Readings as readings;
ghost use Rattle.py_nesting.specs.Asked.{target_last, targets_last};
ghost use Rattle.py_syntax.specs.Build as build;
ghost use Rattle.grammars.specs.Grammar as grammar;
ghost use Rattle.py_table.specs.PlainSymbols.{plain_symbol};
ghost use Rattle.py_table.specs.Steps.{stack_of};
ghost use Rattle.py_depth.specs.PlainDemands.{plain_demand, demands_of};
ghost use Rattle.py_depth.specs.PlainEntries.{plain_entry, entries_of};
ghost use Rattle.py_front_depth.specs.PlainAsks.{plain_ask, plain_aim, asks_of, aims_of};
ghost use Rattle.py_front_depth.specs.Reading.{plain_reading, IsClear};

use crate::aim::Aim;
use crate::ask::{Ask, one_more};
use crate::reading::{aim_before, ask_before, pop_ask, push_asks};
use crate::roles::roles;
use py_depth::shape::{Entry, Shape, are_targets, is_target};
use py_depth::walk::Demand;
use py_table::symbol::{Action, Symbol};
use std::alloc::{AllocError, Global};

/// What is asked of the parts behind a front, the last on top.
#[derive(Debug, Drop)]
pub(crate) enum Reading {
    /// No item is read of a tuple that may be assigned to.
    Settled(Vec<Ask>),
    /// One is, and it is a target.
    Among(Vec<Aim>),
}

/// The same of parts that turn out to be whatever they do.
#[tactic(auto, using(crate::proofs::Stacks::stacks))]
fn simply_all(alloc: Global, asks: &[Ask]) -> Result<Vec<Aim>, AllocError>
    ensures { IfOk result (λ aims. aims_of aims.items ≡ map aiming.Simply (asks_of asks.now)) }
{
    let mut aims = Vec::new(alloc);
    for i in 0..asks.len() {
        aims.push(Aim::Simply(asks[i]))?;
    }
    Ok(aims)
}

/// Where the tuple to which an item is added is assigned to, with at least so many nodes above it.
#[tactic(auto, using(crate::proofs::Stacks::stacks))]
fn among_targets(alloc: Global, asks: &[Ask], above: u32) -> Result<Vec<Aim>, AllocError>
    ensures { IfOk result (λ aims. aims_of aims.items ≡ aiming.Target above ∷ aiming.Targets above ∷ map aiming.Simply (asks_of asks.now)) }
{
    let mut aims = simply_all(alloc, asks)?;
    aims.push(Aim::Targets(above))?;
    aims.push(Aim::Target(above))?;
    Ok(aims)
}

/// Back over the action that adds an item.
#[tactic(auto, using(crate::proofs::Stacks::stacks))]
fn read_before_item(alloc: Global, mut asks: Vec<Ask>) -> Result<Reading, AllocError>
    ensures { IfOk result (λ reading. readings.settled_before (grammar.Do build.AddItem) (asks_of asks.items) ≡ Some (plain_reading reading)) }
{
    let ask = pop_ask(&mut asks)?;
    match ask {
        Ask::OpenAtLeast(above) => Ok(Reading::Among(among_targets(alloc, &asks, above)?)),
        Ask::NoNode | Ask::AtLeast(_) | Ask::WithinAtLeast(_) => {
            push_asks(&mut asks, ask, roles(Action::AddItem))?;
            Ok(Reading::Settled(asks))
        }
    }
}

/// Back over a symbol where no item is read of a tuple that may be assigned to.
fn read_settled_before(
    alloc: Global,
    mut asks: Vec<Ask>,
    symbol: Symbol,
) -> Result<Reading, AllocError>
    ensures { IfOk result (λ reading. readings.settled_before (plain_symbol symbol) (asks_of asks.items) ≡ Some (plain_reading reading)) }
{
    if symbol == Symbol::Do(Action::AddItem) {
        return read_before_item(alloc, asks);
    }
    ask_before(&mut asks, symbol)?;
    Ok(Reading::Settled(asks))
}

/// Back over a symbol, whatever it derives, or nothing where a part stands in no module.
fn read_before(
    alloc: Global,
    reading: Reading,
    symbol: Symbol,
) -> Result<Option<Reading>, AllocError>
    ensures { IfOk result (λ before. IsClear (plain_reading reading) → option_map plain_reading before ≡ readings.reading_before (plain_symbol symbol) (Some (plain_reading reading))) }
{
    match reading {
        Reading::Settled(asks) => Ok(Some(read_settled_before(alloc, asks, symbol)?)),
        Reading::Among(mut aims) => {
            if aim_before(&mut aims, symbol)? {
                return Ok(None);
            }
            Ok(Some(Reading::Among(aims)))
        }
    }
}

/// How these symbols read the parts before them, if what is read may be assigned to.
fn read(alloc: Global, symbols: &[Symbol]) -> Result<Option<Reading>, AllocError>
    ensures { IfOk result (λ reading. option_map plain_reading reading ≡ readings.reading (stack_of symbols.now)) }
{
    let mut asks = Vec::new(alloc);
    asks.push(Ask::AtLeast(0))?;
    let mut reading = Some(Reading::Settled(asks));
    for i in 0..symbols.len() {
        reading = match reading {
            Some(reading) => read_before(alloc, reading, symbols[i])?,
            None => None,
        };
    }
    Ok(reading)
}

/// Whether a part may be targets.
fn may_be_targets(entry: Entry) -> bool
    ensures { result ≡ targets_last (plain_entry entry ∷ []) }
{
    match entry.shape {
        Shape::Expr(form, _) => are_targets(form),
        _ => false,
    }
}

/// Whether a part may be one of several targets.
fn may_be_target(entry: Entry) -> bool
    ensures { result ≡ target_last (plain_entry entry ∷ []) }
{
    match entry.shape {
        Shape::Expr(form, _) => is_target(form),
        _ => false,
    }
}

/// What is asked of a part, as targets where it may be some.
fn of_ask(ask: Ask, entry: Entry) -> Demand
    ensures { plain_demand result ≡ readings.of_ask (plain_ask ask) (plain_entry entry) }
{
    match ask {
        Ask::NoNode => Demand::Nothing,
        Ask::AtLeast(above) => Demand::Whole(above),
        Ask::WithinAtLeast(above) => Demand::Inside(above),
        Ask::OpenAtLeast(above) => {
            if may_be_targets(entry) {
                Demand::Assigned(above)
            } else {
                Demand::Whole(above)
            }
        }
    }
}

/// What is asked of a part, if it can be what it is to be.
fn of_aim(aim: Aim, entry: Entry) -> Result<Option<Demand>, AllocError>
    ensures { IfOk result (λ demand. option_map plain_demand demand ≡ readings.of_aim (plain_aim aim) (plain_entry entry)) }
{
    match aim {
        Aim::Simply(ask) => Ok(Some(of_ask(ask, entry))),
        Aim::Targets(above) => {
            if may_be_targets(entry) {
                Ok(Some(Demand::Assigned(above)))
            } else {
                Ok(None)
            }
        }
        Aim::Target(above) => {
            if may_be_target(entry) {
                Ok(Some(Demand::Whole(above)))
            } else {
                Ok(None)
            }
        }
        Aim::MayTarget(above) => {
            if may_be_target(entry) {
                Ok(Some(Demand::Whole(above)))
            } else {
                Ok(Some(Demand::Whole(one_more(above)?)))
            }
        }
        Aim::Never => Ok(None),
    }
}

/// What is asked of all parts, if each can be what it is to be. There are as many of both.
fn of_aims(
    alloc: Global,
    aims: &[Aim],
    entries: &[Entry],
) -> Result<Option<Vec<Demand>>, AllocError>
    ensures { IfOk result (λ demands. option_map (λ (asked : Vec Demand Global). demands_of asked.items) demands ≡ readings.of_aims (aims_of aims.now) (entries_of entries.now)) }
{
    if aims.len() != entries.len() {
        return Err(AllocError);
    }
    let mut demands = Vec::new(alloc);
    for i in 0..aims.len() {
        match of_aim(aims[i], entries[i])? {
            Some(demand) => demands.push(demand)?,
            None => return Ok(None),
        }
    }
    Ok(Some(demands))
}

/// What is asked of the parts before these symbols where what may be targets is assigned to, if it may be. Fails where memory runs out.
pub(crate) fn read_as_targets(
    alloc: Global,
    symbols: &[Symbol],
    entries: &[Entry],
) -> Result<Option<Vec<Demand>>, AllocError>
    ensures { IfOk result (λ demands. option_map (λ (asked : Vec Demand Global). demands_of asked.items) demands ≡ readings.targets_reading (stack_of symbols.now) (entries_of entries.now)) }
{
    match read(alloc, symbols)? {
        None => Ok(None),
        Some(Reading::Settled(asks)) => of_aims(alloc, &simply_all(alloc, &asks)?, entries),
        Some(Reading::Among(aims)) => of_aims(alloc, &aims, entries),
    }
}
