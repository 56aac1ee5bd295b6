//! What is asked of the parts behind a front where its symbols are closed.

ghost use Rattle.std.specs.Prelude.{◌≡◌, Some, [], ◌∷◌, ◌++◌, map, IfOk, OnOk};
ghost use Rattle.py_demands.specs.Closing.{exactly, exactly_by, exactly_symbol};
ghost use Rattle.py_demands.specs.Roles as asking;
ghost use Rattle.py_nesting.specs.Walk as walking;
ghost use Rattle.py_table.specs.PlainSymbols.{plain_action, plain_symbol};
ghost use Rattle.py_table.specs.Steps.{stack_of};
ghost use Rattle.py_depth.specs.PlainDemands.{plain_demand, demands_of};
ghost use Rattle.py_front_depth.specs.PlainRoles.{plain_roles};

use crate::role::{Role, asked_by};
use crate::roles::{closing_roles, roles};
use py_depth::walk::Demand;
use py_table::symbol::{Action, Symbol};
use std::alloc::{AllocError, Global};

/// Puts what is asked in these roles on top, the first role last.
#[tactic(auto, using(crate::proofs::Stacks::stacks))]
fn push_asked(demands: &mut Vec<Demand>, demand: Demand, roles: &[Role]) -> Result<(), AllocError>
    ensures { OnOk result (demands_of demands.new.items ≡ map (asking.asked_by (plain_demand demand)) (plain_roles roles.now) ++ demands_of demands.old.items) }
{
    for i in (0..roles.len()).rev() {
        demands.push(asked_by(demand, roles[i])?)?;
    }
    Ok(())
}

/// What is asked of a part that symbols ask of. Each is there: without one the answer is want of memory.
#[tactic(auto, using(crate::proofs::Stacks::stacks))]
fn pop(demands: &mut Vec<Demand>) -> Result<Demand, AllocError>
    ensures { IfOk result (λ d. demands_of demands.old.items ≡ plain_demand d ∷ demands_of demands.new.items) }
{
    match demands.pop() {
        Some(demand) => Ok(demand),
        None => Err(AllocError),
    }
}

/// Back over an action.
#[tactic(auto, using(crate::proofs::Stacks::stacks))]
fn back_over_action(demands: &mut Vec<Demand>, action: Action) -> Result<(), AllocError>
    ensures { OnOk result (exactly_by (plain_action action) (demands_of demands.old.items) ≡ Some (demands_of demands.new.items)) }
{
    if action == Action::Drop {
        demands.push(Demand::Nothing)?;
        return Ok(());
    }
    let demand = pop(demands)?;
    push_asked(demands, demand, roles(action))
}

/// Back over a symbol that is closed.
fn back_over(demands: &mut Vec<Demand>, symbol: Symbol) -> Result<(), AllocError>
    ensures { OnOk result (exactly_symbol (plain_symbol symbol) (demands_of demands.old.items) ≡ Some (demands_of demands.new.items)) }
{
    match symbol {
        Symbol::Read(_) => {
            pop(demands)?;
            Ok(())
        }
        Symbol::Do(action) => back_over_action(demands, action),
        Symbol::Expand(nonterminal) => {
            let demand = pop(demands)?;
            push_asked(demands, demand, closing_roles(nonterminal))
        }
    }
}

/// What is asked of the parts where these symbols are closed, the last of each on top. Fails where memory runs out.
pub(crate) fn closing_demands(alloc: Global, symbols: &[Symbol]) -> Result<Vec<Demand>, AllocError>
    ensures { IfOk result (λ demands. exactly (stack_of symbols.now) (Some (walking.Whole 0 ∷ [])) ≡ Some (demands_of demands.items)) }
{
    let mut demands = Vec::new(alloc);
    demands.push(Demand::Whole(0))?;
    for i in 0..symbols.len() {
        back_over(&mut demands, symbols[i])?;
    }
    Ok(demands)
}
