//! Back through the steps, from the module to its smallest parts: how many nodes stand above each.

ghost use Rattle.std.specs.Prelude.{◌≡◌, List, suc, IfOk, OnOk};
ghost use Rattle.py_lexer.specs.PlainTokens.{plain_place};
ghost use Rattle.py_nesting.specs.Walk as walking;
ghost use Rattle.py_nesting.specs.First as first_of;
ghost use Rattle.py_depth.specs.PlainEntries.{plain_label, plain_event, events_of};
ghost use Rattle.py_depth.specs.PlainDemands.{plain_demand, demands_of, plain_first, with_met};

use crate::event::{Event, Label};
use py_lexer::is_before;
use shed_base::Place;
use std::alloc::{AllocError, Global};

/// The most nodes that may stand above one.
const MOST_ANCESTORS: u32 = 100;

/// What is asked of an outline: so many nodes stand above it.
#[derive(Clone, Copy, Debug, PartialEq, Eq)]
pub enum Demand {
    Nothing,
    Whole(u32),
    /// Its topmost node is not asked for, and so many stand above what is below.
    Inside(u32),
    /// The same of the targets that it turns out to be.
    Assigned(u32),
    InsideAssigned(u32),
}

/// One more. A text of 2^32 nodes never comes.
fn one_more(above: u32) -> Result<u32, AllocError>
    ensures { IfOk result (λ r. r ≡ suc above) }
{
    match above.checked_add(1) {
        Some(more) => Ok(more),
        None => Err(AllocError),
    }
}

/// What is asked below a node.
pub fn below(label: Label, demand: Demand) -> Result<Demand, AllocError>
    ensures { IfOk result (λ d. plain_demand d ≡ walking.below (plain_label label) (plain_demand demand)) }
{
    let demand = match demand {
        Demand::Nothing => Demand::Nothing,
        Demand::Whole(above) => Demand::Whole(one_more(above)?),
        Demand::Inside(above) => Demand::Whole(above),
        Demand::Assigned(above) => match label {
            Label::Plain => Demand::Whole(one_more(above)?),
            Label::Bracket => Demand::Assigned(one_more(above)?),
            Label::Tuple => Demand::Whole(above),
        },
        Demand::InsideAssigned(above) => match label {
            Label::Bracket => Demand::Assigned(above),
            Label::Plain | Label::Tuple => Demand::Whole(above),
        },
    };
    Ok(demand)
}

/// What is asked below no node.
pub fn within(demand: Demand) -> Demand
    ensures { plain_demand result ≡ walking.within (plain_demand demand) }
{
    match demand {
        Demand::Nothing => Demand::Nothing,
        Demand::Whole(above)
        | Demand::Inside(above)
        | Demand::Assigned(above)
        | Demand::InsideAssigned(above) => Demand::Whole(above),
    }
}

/// What is asked of a node that is none any more.
pub fn loosened(demand: Demand) -> Demand
    ensures { plain_demand result ≡ walking.loosened (plain_demand demand) }
{
    match demand {
        Demand::Nothing => Demand::Nothing,
        Demand::Whole(above)
        | Demand::Inside(above)
        | Demand::Assigned(above)
        | Demand::InsideAssigned(above) => Demand::Inside(above),
    }
}

/// What is asked of an expression that turns out to be targets.
pub fn unassigned(demand: Demand) -> Demand
    ensures { plain_demand result ≡ walking.unassigned (plain_demand demand) }
{
    match demand {
        Demand::Nothing => Demand::Nothing,
        Demand::Whole(above) | Demand::Assigned(above) => Demand::Assigned(above),
        Demand::Inside(above) | Demand::InsideAssigned(above) => Demand::InsideAssigned(above),
    }
}

/// How many nodes stand above the one that comes, if one does.
pub fn comes(label: Label, demand: Demand) -> Option<u32>
    ensures { result ≡ walking.comes (plain_label label) (plain_demand demand) }
{
    match demand {
        Demand::Whole(above) => Some(above),
        Demand::Assigned(above) => match label {
            Label::Plain | Label::Bracket => Some(above),
            Label::Tuple => None,
        },
        Demand::Nothing | Demand::Inside(_) | Demand::InsideAssigned(_) => None,
    }
}

/// Of the places that lie too deep the first, with one more node that has so many above it, if it is one.
pub fn sooner(first: Option<Place>, place: Place, above: Option<u32>) -> Option<Place>
    ensures { plain_first result ≡ first_of.sooner (plain_first first) (plain_place place) above }
{
    match above {
        Some(above) if above > MOST_ANCESTORS => match first {
            Some(other) if !is_before(place, other) => Some(other),
            _ => Some(place),
        },
        _ => first,
    }
}

/// Puts the same demand on top so many times.
#[tactic(auto, using(crate::proofs::Demands::stacks))]
fn push_times(demands: &mut Vec<Demand>, demand: Demand, count: u8) -> Result<(), AllocError>
    ensures { OnOk result (demands_of demands.new.items ≡ walking.times count (plain_demand demand) (demands_of demands.old.items)) }
{
    for _ in 0..count {
        demands.push(demand)?;
    }
    Ok(())
}

/// One step back, and the node that is met there, if one is: its place, and how many others stand above it. Fails where memory runs out.
#[tactic(auto, using(crate::proofs::Demands::stacks))]
pub fn step_back(
    event: Event,
    demands: &mut Vec<Demand>,
) -> Result<Option<(Place, u32)>, AllocError>
    ensures back { OnOk result (demands_of demands.new.items ≡ walking.back (plain_event event) (demands_of demands.old.items)) }
    ensures met { IfOk result (λ node. (nodes : List walking.Met) → walking.brought (plain_event event) (demands_of demands.old.items) nodes ≡ with_met node nodes) }
{
    let Some(demand) = demands.pop() else {
        return Ok(None);
    };
    match event {
        Event::Over(label, place, count) => {
            push_times(demands, below(label, demand)?, count)?;
            return match comes(label, demand) {
                Some(above) => Ok(Some((place, above))),
                None => Ok(None),
            };
        }
        Event::Gather(count) => push_times(demands, within(demand), count)?,
        Event::Join(label) => {
            demands.push(demand)?;
            demands.push(below(label, demand)?)?;
        }
        Event::JoinGroup => {
            demands.push(demand)?;
            demands.push(within(demand))?;
        }
        Event::Loosen => demands.push(loosened(demand))?,
        Event::Assign => demands.push(unassigned(demand))?,
        Event::Forget => {
            demands.push(Demand::Nothing)?;
            demands.push(demand)?;
        }
    }
    Ok(None)
}

/// One step back, with the earlier of a place and of the node that is met, if it lies too deep.
fn go_back(
    event: Event,
    demands: &mut Vec<Demand>,
    first: Option<Place>,
) -> Result<Option<Place>, AllocError>
    ensures back { OnOk result (demands_of demands.new.items ≡ walking.back (plain_event event) (demands_of demands.old.items)) }
    ensures first { IfOk result (λ f. (nodes : List walking.Met) → first_of.first_of (plain_first first) (walking.brought (plain_event event) (demands_of demands.old.items) nodes) ≡ first_of.first_of (plain_first f) nodes) }
{
    match step_back(event, demands)? {
        Some((place, above)) => Ok(sooner(first, place, Some(above))),
        None => Ok(first),
    }
}

/// The first of this place and of those of nodes that have too many others above them, in what these steps put together, of which these
/// demands are made.
pub fn first_from(
    events: &[Event],
    mut demands: Vec<Demand>,
    mut first: Option<Place>,
) -> Result<Option<Place>, AllocError>
    ensures { IfOk result (λ f. plain_first f ≡ first_of.first_of (plain_first first) (walking.walk (events_of events.now) (demands_of demands.items))) }
{
    for i in (0..events.len()).rev() {
        first = go_back(events[i], &mut demands, first)?;
    }
    Ok(first)
}

/// The first place with too many nodes above it, if there is one, in what these steps put together.
#[tactic(auto, using(crate::proofs::Demands::stacks))]
pub(crate) fn first_too_deep(alloc: Global, events: &[Event]) -> Result<Option<Place>, AllocError>
    ensures { IfOk result (λ f. plain_first f ≡ first_of.first_in (events_of events.now)) }
{
    let mut demands = Vec::new(alloc);
    demands.push(Demand::Whole(0))?;
    first_from(events, demands, None)
}
