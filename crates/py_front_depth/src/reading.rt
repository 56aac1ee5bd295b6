//! What is asked of the parts behind a front where a tuple is assigned to that may be.

ghost use Rattle.std.specs.Prelude.{◌≡◌, Some, false, ◌∷◌, ◌++◌, map, IfOk, OnOk};
ghost use Rattle.std.specs.Option.{option_map};
ghost use Rattle.py_demands.specs.Aims as aiming;
ghost use Rattle.py_demands.specs.Least as at_least;
ghost use Rattle.py_demands.specs.Readings.{has_never, reading as reading_of};
ghost use Rattle.py_table.specs.PlainSymbols.{plain_action, plain_symbol};
ghost use Rattle.py_table.specs.Steps.{stack_of};
ghost use Rattle.py_front_depth.specs.PlainAsks.{plain_ask, plain_aim, asks_of, aims_of};
ghost use Rattle.py_front_depth.specs.PlainLeasts.{plain_leasts};
ghost use Rattle.py_front_depth.specs.PlainRoles.{plain_roles};
ghost use Rattle.py_front_depth.specs.Reading.{is_never_so};

use crate::aim::{Aim, aimed_in, gone, made_by, way_of};
use crate::ask::{Ask, asked_in};
use crate::leasts::{Least, aimed_at_least, asked_at_least, leasts};
use crate::role::Role;
use crate::roles::roles;
use py_table::symbol::{Action, Symbol};
use std::alloc::{AllocError, Global};

/// What is asked last. It is there: without it the answer is want of memory.
#[tactic(auto, using(crate::proofs::Stacks::stacks))]
pub(crate) fn pop_ask(asks: &mut Vec<Ask>) -> Result<Ask, AllocError>
    ensures { IfOk result (λ q. asks_of asks.old.items ≡ plain_ask q ∷ asks_of asks.new.items) }
{
    match asks.pop() {
        Some(ask) => Ok(ask),
        None => Err(AllocError),
    }
}

/// Puts what is asked in these roles on top, the first role last.
#[tactic(auto, using(crate::proofs::Stacks::stacks))]
pub(crate) fn push_asks(asks: &mut Vec<Ask>, ask: Ask, roles: &[Role]) -> Result<(), AllocError>
    ensures { OnOk result (asks_of asks.new.items ≡ map (at_least.ask_by (plain_ask ask)) (plain_roles roles.now) ++ asks_of asks.old.items) }
{
    for i in (0..roles.len()).rev() {
        asks.push(asked_in(ask, roles[i])?)?;
    }
    Ok(())
}

/// Puts what a nonterminal asks at least on top.
#[tactic(auto, using(crate::proofs::Stacks::stacks))]
fn push_leasts(asks: &mut Vec<Ask>, ask: Ask, leasts: &[Least]) -> Result<(), AllocError>
    ensures { OnOk result (asks_of asks.new.items ≡ map (at_least.ask_least (plain_ask ask)) (plain_leasts leasts.now) ++ asks_of asks.old.items) }
{
    for i in (0..leasts.len()).rev() {
        asks.push(asked_at_least(ask, leasts[i])?)?;
    }
    Ok(())
}

/// Back over an action.
#[tactic(auto, using(crate::proofs::Stacks::stacks))]
fn ask_before_action(asks: &mut Vec<Ask>, action: Action) -> Result<(), AllocError>
    ensures { OnOk result (at_least.before_action (plain_action action) (asks_of asks.old.items) ≡ Some (asks_of asks.new.items)) }
{
    if action == Action::Drop {
        asks.push(Ask::NoNode)?;
        return Ok(());
    }
    let ask = pop_ask(asks)?;
    push_asks(asks, ask, roles(action))
}

/// Back over a symbol, whatever it derives.
pub(crate) fn ask_before(asks: &mut Vec<Ask>, symbol: Symbol) -> Result<(), AllocError>
    ensures { OnOk result (at_least.before_symbol (plain_symbol symbol) (asks_of asks.old.items) ≡ Some (asks_of asks.new.items)) }
{
    match symbol {
        Symbol::Read(_) => {
            pop_ask(asks)?;
            Ok(())
        }
        Symbol::Do(action) => ask_before_action(asks, action),
        Symbol::Expand(nonterminal) => {
            let ask = pop_ask(asks)?;
            push_leasts(asks, ask, leasts(nonterminal))
        }
    }
}

/// What is to be of the last part. It is there: without it the answer is want of memory.
#[tactic(auto, using(crate::proofs::Stacks::stacks))]
fn pop_aim(aims: &mut Vec<Aim>) -> Result<Aim, AllocError>
    ensures { IfOk result (λ a. aims_of aims.old.items ≡ plain_aim a ∷ aims_of aims.new.items) }
{
    match aims.pop() {
        Some(aim) => Ok(aim),
        None => Err(AllocError),
    }
}

/// Whether a part stands in no module.
fn is_never(aim: Aim) -> bool
    ensures { result ≡ is_never_so (plain_aim aim) }
{
    match aim {
        Aim::Never => true,
        _ => false,
    }
}

/// Puts what the parts in these roles are to be on top, and tells whether none of them may be so.
#[tactic(auto, using(crate::proofs::Stacks::stacks))]
fn push_aims(aims: &mut Vec<Aim>, aim: Aim, roles: &[Role]) -> Result<bool, AllocError>
    ensures aims { OnOk result (aims_of aims.new.items ≡ map (aiming.aim_by (plain_aim aim)) (plain_roles roles.now) ++ aims_of aims.old.items) }
    ensures never { IfOk result (λ never. has_never (aims_of aims.old.items) ≡ false → never ≡ has_never (aims_of aims.new.items)) }
{
    let mut never = false;
    for i in (0..roles.len()).rev() {
        let next = aimed_in(aim, roles[i])?;
        never = never | is_never(next);
        aims.push(next)?;
    }
    Ok(never)
}

/// The same of what a nonterminal takes.
#[tactic(auto, using(crate::proofs::Stacks::stacks))]
fn push_least_aims(aims: &mut Vec<Aim>, aim: Aim, leasts: &[Least]) -> Result<bool, AllocError>
    ensures aims { OnOk result (aims_of aims.new.items ≡ map (aiming.aim_least (plain_aim aim)) (plain_leasts leasts.now) ++ aims_of aims.old.items) }
    ensures never { IfOk result (λ never. has_never (aims_of aims.old.items) ≡ false → never ≡ has_never (aims_of aims.new.items)) }
{
    let mut never = false;
    for i in (0..leasts.len()).rev() {
        let next = aimed_at_least(aim, leasts[i])?;
        never = never | is_never(next);
        aims.push(next)?;
    }
    Ok(never)
}

/// Back over an action that may not be left out, and whether a part stands in no module before it.
#[tactic(auto, using(crate::proofs::Stacks::stacks))]
fn aim_before_action(aims: &mut Vec<Aim>, action: Action) -> Result<bool, AllocError>
    ensures aims { OnOk result (aiming.aims_by (plain_action action) (aims_of aims.old.items) ≡ Some (aims_of aims.new.items)) }
    ensures never { IfOk result (λ never. has_never (aims_of aims.old.items) ≡ false → never ≡ has_never (aims_of aims.new.items)) }
{
    if action == Action::Drop {
        aims.push(Aim::Simply(Ask::NoNode))?;
        return Ok(false);
    }
    let aim = pop_aim(aims)?;
    push_aims(aims, made_by(action, aim)?, roles(action))
}

/// Back over a symbol, whatever it derives.
pub(crate) fn aim_before(aims: &mut Vec<Aim>, symbol: Symbol) -> Result<bool, AllocError>
    ensures aims { OnOk result (aiming.aims_symbol (plain_symbol symbol) (aims_of aims.old.items) ≡ Some (aims_of aims.new.items)) }
    ensures never { IfOk result (λ never. has_never (aims_of aims.old.items) ≡ false → never ≡ has_never (aims_of aims.new.items)) }
{
    match symbol {
        Symbol::Read(_) => {
            pop_aim(aims)?;
            Ok(false)
        }
        Symbol::Do(action) => aim_before_action(aims, action),
        Symbol::Expand(nonterminal) => {
            let aim = pop_aim(aims)?;
            push_least_aims(aims, gone(way_of(nonterminal), aim)?, leasts(nonterminal))
        }
    }
}
