//! The first node that lies too deep, of those behind a front.

ghost use Rattle.std.specs.Prelude.{◌≡◌, ℕ, length, List, None, IfOk};
ghost use Rattle.py_demands.specs.Asks.{has_outline, of_outlines};
ghost use Rattle.py_demands.specs.FrontDepth.{entry_met, front_met, tokens_met};
ghost use Rattle.py_nesting.specs.First.{first_of};
ghost use Rattle.py_nesting.specs.Walk as walking;
ghost use Rattle.py_lexer.specs.PlainTokens.{plain_place};
ghost use Rattle.py_depth.specs.PlainEntries.{plain_entry, entries_of, events_of};
ghost use Rattle.py_depth.specs.PlainDemands.{plain_demand, demands_of, plain_first};

use py_depth::event::Label;
use py_depth::nest::Nest;
use py_depth::shape::{Entry, Shape};
use py_depth::walk::{Demand, comes, first_from, sooner};
use shed_base::Place;
use std::alloc::{AllocError, Global};

/// Whether a part has nodes of its own: tokens, operators of comparisons and names of classes have none.
fn is_outlined(entry: Entry) -> bool
    ensures { result ≡ has_outline (plain_entry entry) }
{
    match entry.shape {
        Shape::Token(_) => false,
        Shape::Sign => false,
        Shape::Class(_) => false,
        _ => true,
    }
}

/// How many nodes stand above the one that comes to stand at a token, if one does.
pub(crate) fn depth_at_token(entry: Entry, demand: Demand) -> Option<u32>
    ensures { (nodes : List walking.Met) → entry_met (plain_entry entry) (plain_demand demand) nodes ≡ walking.met (plain_place entry.place) result nodes }
{
    match entry.shape {
        Shape::Token(_) | Shape::Sign => comes(Label::Plain, demand),
        _ => None,
    }
}

/// The earlier of a place and of the node that comes to stand at a token, if it lies too deep.
fn first_with(first: Option<Place>, entry: Entry, demand: Demand) -> Option<Place>
    ensures { (nodes : List walking.Met) → first_of (plain_first first) (entry_met (plain_entry entry) (plain_demand demand) nodes) ≡ first_of (plain_first result) nodes }
{
    sooner(first, entry.place, depth_at_token(entry, demand))
}

/// The first too deep of the nodes that come to stand at tokens.
fn first_at_tokens(entries: &[Entry], demands: &[Demand]) -> Result<Option<Place>, AllocError>
    ensures { IfOk result (λ f. (nodes : List walking.Met) → first_of None (tokens_met (entries_of entries.now) (demands_of demands.now) nodes) ≡ first_of (plain_first f) nodes) }
{
    if entries.len() != demands.len() {
        return Err(AllocError);
    }
    let mut first = None;
    for i in (0..entries.len()).rev() {
        first = first_with(first, entries[i], demands[i]);
    }
    Ok(first)
}

/// What is asked of the parts that have nodes.
#[tactic(auto, using(crate::proofs::Stacks::stacks))]
pub(crate) fn asked_of_outlines(
    alloc: Global,
    entries: &[Entry],
    demands: &[Demand],
) -> Result<Vec<Demand>, AllocError>
    ensures { IfOk result (λ asked. demands_of asked.items ≡ of_outlines (entries_of entries.now) (demands_of demands.now)) }
{
    if entries.len() != demands.len() {
        return Err(AllocError);
    }
    let mut asked = Vec::new(alloc);
    for i in 0..entries.len() {
        if is_outlined(entries[i]) {
            asked.push(demands[i])?;
        }
    }
    Ok(asked)
}

/// The first place of a node that lies too deep, where this is asked of the parts and of their tokens. Fails where memory runs out.
pub(crate) fn first_too_deep(
    alloc: Global,
    nest: &Nest,
    demands: &[Demand],
) -> Result<Option<Place>, AllocError>
    ensures { IfOk result (λ f. plain_first f ≡ first_of None (front_met (entries_of nest.now.entries.items) (events_of nest.now.events.items) (demands_of demands.now))) }
{
    let first = first_at_tokens(&nest.entries, demands)?;
    let asked = asked_of_outlines(alloc, &nest.entries, demands)?;
    first_from(&nest.events, asked, first)
}
