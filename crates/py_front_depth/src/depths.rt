//! How deep the deepest node at each place stands, of those behind a front.

ghost use Rattle.std.specs.Prelude.{ℕ, ◌≡◌, suc, max, List, OnOk, IfOk};
ghost use Rattle.py_lexer.specs.PlainTokens.{plain_place};
ghost use Rattle.py_tokens.specs.Token as token;
ghost use Rattle.py_nesting.specs.Depths.{here};
ghost use Rattle.py_nesting.specs.TooDeep.{same_place};
ghost use Rattle.py_nesting.specs.Walk as walking;
ghost use Rattle.py_demands.specs.BothFirst as both;
ghost use Rattle.py_demands.specs.FrontDepth.{front_met, tokens_met};
ghost use Rattle.py_table.specs.PlainTokens.{plain_tokens};
ghost use Rattle.py_depth.specs.PlainDemands.{demands_of, plain_first};
ghost use Rattle.py_depth.specs.PlainEntries.{entries_of, events_of};
ghost use Rattle.py_front_depth.specs.Noted.{depth_at, AreNoted};

use crate::ask::one_more;
use crate::nodes::{asked_of_outlines, depth_at_token};
use indexmap::IndexMap;
use py_depth::event::Event;
use py_depth::nest::Nest;
use py_depth::shape::Entry;
use py_depth::walk::{Demand, step_back};
use py_lexer::token::Token;
use shed_base::Place;
use std::alloc::{AllocError, Global};

/// What is noted at a place: 0 where no node is.
fn depth_noted(depths: &IndexMap<Place, u32>, place: Place) -> u32
    ensures { result ≡ depth_at depths.now.entries (plain_place place) }
{
    match depths.get(&place) {
        Some(depth) => *depth,
        None => 0,
    }
}

/// Notes a node that has so many others above it.
fn note(depths: &mut IndexMap<Place, u32>, place: Place, above: u32) -> Result<(), AllocError>
    ensures { OnOk result ((at : token.Place) → depth_at depths.new.entries at ≡ max (walking.raise above (here (same_place at (plain_place place)))) (depth_at depths.old.entries at)) }
{
    let depth = one_more(above)?;
    if depth_noted(depths, place) < depth {
        depths.insert(place, depth)?;
    }
    Ok(())
}

/// The nodes in what these steps put together, of which this is asked.
fn note_steps(
    alloc: Global,
    events: &[Event],
    mut demands: Vec<Demand>,
) -> Result<IndexMap<Place, u32>, AllocError>
    ensures { IfOk result (λ depths. AreNoted depths.entries (walking.walk (events_of events.now) (demands_of demands.items))) }
{
    let mut depths = IndexMap::new(alloc);
    for i in (0..events.len()).rev() {
        match step_back(events[i], &mut demands)? {
            Some((place, above)) => note(&mut depths, place, above)?,
            None => (),
        }
    }
    Ok(depths)
}

/// And those that come to stand at tokens.
fn note_tokens(
    depths: &mut IndexMap<Place, u32>,
    entries: &[Entry],
    demands: &[Demand],
) -> Result<(), AllocError>
    ensures { OnOk result ((nodes : List walking.Met) → AreNoted depths.old.entries nodes → AreNoted depths.new.entries (tokens_met (entries_of entries.now) (demands_of demands.now) nodes)) }
{
    if entries.len() != demands.len() {
        return Err(AllocError);
    }
    for i in 0..entries.len() {
        match depth_at_token(entries[i], demands[i]) {
            Some(above) => note(depths, entries[i].place, above)?,
            None => (),
        }
    }
    Ok(())
}

/// How deep the deepest node at each place stands, where this is asked of the parts and of their tokens. Fails where memory runs out.
pub(crate) fn note_all(
    alloc: Global,
    nest: &Nest,
    demands: &[Demand],
) -> Result<IndexMap<Place, u32>, AllocError>
    ensures { IfOk result (λ depths. AreNoted depths.entries (front_met (entries_of nest.now.entries.items) (events_of nest.now.events.items) (demands_of demands.now))) }
{
    let asked = asked_of_outlines(alloc, &nest.entries, demands)?;
    let mut depths = note_steps(alloc, &nest.events, asked)?;
    note_tokens(&mut depths, &nest.entries, demands)?;
    Ok(depths)
}

/// The most nodes on a way down to one that does not lie too deep, itself among them.
const DEEPEST: u32 = 101;

/// Whether no node is there, or one that lies too deep.
fn is_clear(depth: u32) -> bool
    ensures { (nodes : List walking.Met) (at : token.Place) → depth ≡ walking.met_depth (same_place at) nodes → result ≡ both.is_clear_at nodes at }
{
    depth == 0 || depth > DEEPEST
}

/// Whether a node is there in one reading, and one that lies too deep in each that has one.
fn is_deep_in_both(depth: u32, other: u32) -> bool
    ensures { (nodes others : List walking.Met) (at : token.Place) → depth ≡ walking.met_depth (same_place at) nodes → other ≡ walking.met_depth (same_place at) others → result ≡ both.is_deep_in_both nodes others at }
{
    (depth > 0 || other > 0) && (is_clear(depth) && is_clear(other))
}

/// The place of the first of these tokens at which nodes lie too deep in both readings.
pub(crate) fn first_in_both(
    tokens: &[Token],
    depths: &IndexMap<Place, u32>,
    others: &IndexMap<Place, u32>,
) -> Option<Place>
    ensures { (texts : List (List ℕ)) (nodes more : List walking.Met) → AreNoted depths.now.entries nodes → AreNoted others.now.entries more → plain_first result ≡ both.first_in_both nodes more (plain_tokens texts tokens.now) }
{
    for i in 0..tokens.len() {
        let place = tokens[i].place;
        if is_deep_in_both(depth_noted(depths, place), depth_noted(others, place)) {
            return Some(place);
        }
    }
    None
}
