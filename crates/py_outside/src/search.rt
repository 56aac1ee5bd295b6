//! The search for the construct whose head comes first.

ghost use Rattle.std.specs.Prelude.{◌≡◌, true, List, [], IfOk};
ghost use Rattle.std.specs.Option.{option_map};
ghost use Rattle.py_syntax.specs.Token.{Token as PlainToken};
ghost use Rattle.py_constructs.specs.Construct.{construct_order};
ghost use Rattle.py_constructs.specs.OneStep.{OnWay};
ghost use Rattle.py_constructs.specs.Reached.{head_at as head_told_at, IsHead};
ghost use Rattle.py_constructs.specs.Search.{IsBest, better as better_of, found as found_of};
ghost use Rattle.py_constructs.specs.Standing.{IsFinding};
ghost use Rattle.py_constructs.specs.Table.{additions, goal as goal_symbols};
ghost use Rattle.py_table.specs.PlainTokens.{plain_tokens};
ghost use Rattle.py_outside.specs.PlainConstructs.{plain_construct};
ghost use Rattle.py_outside.specs.PlainValues.{plain_numbered, plain_value};
ghost use Rattle.py_outside.specs.Steps.{stack_of};
ghost use Rattle.py_outside.specs.Ways.{OnAllWays, HasEnded, plain_best, plain_finding};

use crate::construct::Construct;
use crate::item::Numbered;
use crate::run::{Next, allows_row, step};
use crate::symbol::{Action, Name, Symbol};
use crate::table::row_at;
use crate::value::Value;
use py_lexer::token::Token;
use py_table::kinds::sight;
use py_table::symbol as profile;
use shed_base::{Names, Place};
use std::alloc::{AllocError, Global};

/// Where a run stands.
#[derive(Debug, Drop)]
pub(crate) struct Way<'a> {
    pub(crate) symbols: Vec<Symbol>,
    pub(crate) value: Value,
    pub(crate) rest: &'a [Token],
}

/// The symbols at the beginning.
fn goal(alloc: Global) -> Result<Vec<Symbol>, AllocError>
    ensures { IfOk result (λ symbols. stack_of symbols.items ≡ goal_symbols) }
{
    let mut symbols = Vec::new(alloc);
    symbols.push(Symbol::Expand(Name::Profile(profile::Nonterminal::Module)))?;
    symbols.push(Symbol::Do(Action::Own(profile::Action::BeginBody)))?;
    Ok(symbols)
}

/// The run with no construct, to where it ends.
fn run_own<'a>(alloc: Global, tokens: &'a [Token], names: &Names) -> Result<Way<'a>, AllocError>
    ensures way { IfOk result (λ way. OnAllWays (plain_tokens names.now tokens.now) (stack_of way.symbols.items) (plain_value way.value) (plain_tokens names.now way.rest.now)) }
    ensures ended { IfOk result (λ way. HasEnded [] (stack_of way.symbols.items) (plain_value way.value) (plain_tokens names.now way.rest.now)) }
{
    let mut symbols = goal(alloc)?;
    let mut value = Value::new(alloc);
    let mut rest = tokens;
    for _turn in 0..u64::MAX {
        match step(None, &mut symbols, &mut value, rest, names)? {
            Next::Goes(more) => rest = more,
            Next::Done => return Ok(Way {
                symbols,
                value,
                rest,
            }),
            Next::Stuck => return Ok(Way {
                symbols,
                value,
                rest,
            }),
        }
    }
    Err(AllocError)
}

/// The head that was told, if the first bad token has been read.
fn head_at(value: &Value, first: usize) -> Option<Numbered>
    ensures { option_map plain_numbered result ≡ head_told_at first (plain_value value.now) }
{
    if (first as u64) < value.read {
        match value.told {
            Some(told) => Some(told.head),
            None => None,
        }
    } else {
        None
    }
}

/// The head of a construct, by a run that goes on from here.
fn run_with(
    construct: Construct,
    way: Way<'_>,
    first: usize,
    names: &Names,
) -> Result<Option<Numbered>, AllocError>
    ensures { IfOk result (λ head. (ts : List PlainToken) → OnWay (plain_construct construct) ts (stack_of way.entry.symbols.items) (plain_value way.entry.value) (plain_tokens names.now way.entry.rest.now) → IsHead (plain_construct construct) ts first (option_map plain_numbered head)) }
{
    let Way {
        mut symbols,
        mut value,
        mut rest,
    } = way;
    for _turn in 0..u64::MAX {
        if let Some(head) = head_at(&value, first) {
            return Ok(Some(head));
        }
        match step(Some(construct), &mut symbols, &mut value, rest, names)? {
            Next::Goes(more) => rest = more,
            Next::Done => return Ok(None),
            Next::Stuck => return Ok(None),
        }
    }
    Err(AllocError)
}

/// A run that stands at the same place.
fn copied<'a>(alloc: Global, way: &Way<'a>) -> Result<Way<'a>, AllocError>
    ensures symbols { IfOk result (λ copy. copy.symbols.items ≡ way.now.symbols.items) }
    ensures value { IfOk result (λ copy. plain_value copy.value ≡ plain_value way.now.value) }
    ensures rest { IfOk result (λ copy. copy.rest.now ≡ way.now.rest.now) }
{
    Ok(Way {
        symbols: Vec::from_slice(alloc, &way.symbols)?,
        value: way.value.copied(alloc)?,
        rest: way.rest,
    })
}

/// Whether a run that has ended with no construct ends there with this one too.
fn ends_with(construct: Construct, way: &Way<'_>, names: &Names) -> bool
    ensures { result ≡ true → HasEnded [] (stack_of way.now.symbols.items) (plain_value way.now.value) (plain_tokens names.now way.now.rest.now) → HasEnded (additions (plain_construct construct)) (stack_of way.now.symbols.items) (plain_value way.now.value) (plain_tokens names.now way.now.rest.now) }
{
    match way.symbols.split_last() {
        Some((Symbol::Expand(name), _)) => {
            match row_at(Some(construct), *name, sight(way.rest, names)) {
                Some(row) => !allows_row(Some(construct), &way.value, row),
                None => true,
            }
        }
        Some((Symbol::Read(_), _)) => true,
        Some((Symbol::Do(_), _)) => true,
        None => true,
    }
}

/// The head of a construct, where the run with none has ended.
fn head_of(
    alloc: Global,
    construct: Construct,
    way: &Way<'_>,
    first: usize,
    names: &Names,
) -> Result<Option<Numbered>, AllocError>
    ensures { IfOk result (λ head. (ts : List PlainToken) → OnAllWays ts (stack_of way.now.symbols.items) (plain_value way.now.value) (plain_tokens names.now way.now.rest.now) → HasEnded [] (stack_of way.now.symbols.items) (plain_value way.now.value) (plain_tokens names.now way.now.rest.now) → IsHead (plain_construct construct) ts first (option_map plain_numbered head)) }
{
    if ends_with(construct, way, names) {
        return Ok(head_at(&way.value, first));
    }
    run_with(construct, copied(alloc, way)?, first, names)
}

/// The earlier head of the best so far and of the next construct.
fn better(
    best: Option<(Construct, Numbered)>,
    construct: Construct,
    head: Option<Numbered>,
) -> Option<(Construct, Numbered)>
    ensures { plain_best result ≡ better_of (plain_best best) (plain_construct construct) (option_map plain_numbered head) }
{
    match (best, head) {
        (best, None) => best,
        (None, Some(head)) => Some((construct, head)),
        (Some((earlier, other)), Some(head)) => {
            if head.number < other.number {
                Some((construct, head))
            } else {
                Some((earlier, other))
            }
        }
    }
}

/// The construct that stands among tokens, of which the one with this number is the first with which no front of a module goes on, and
/// the place of its head.
///
/// A construct stands there where the profile's grammar with this one construct added has a module that begins with some of the
/// tokens, among them the head and that first token. Of several it is the one whose head comes first. Fails where memory runs out.
pub fn find_outside(
    alloc: Global,
    tokens: &[Token],
    first: usize,
    names: &Names,
) -> Result<Option<(Construct, Place)>, AllocError>
    ensures { IfOk result (λ found. IsFinding (plain_tokens names.now tokens.now) first (plain_finding found)) }
{
    let way = run_own(alloc, tokens, names)?;
    let mut best = None;
    let mut construct = Construct::Float;
    for _turn in 0..u64::MAX {
        best = better(
            best,
            construct,
            head_of(alloc, construct, &way, first, names)?,
        );
        match construct.next() {
            Some(next) => construct = next,
            None => return Ok(place_of(best)),
        }
    }
    Err(AllocError)
}

/// The construct with the place of its head.
fn place_of(best: Option<(Construct, Numbered)>) -> Option<(Construct, Place)>
    ensures { plain_finding result ≡ found_of (plain_best best) }
{
    match best {
        Some((construct, head)) => Some((construct, head.place)),
        None => None,
    }
}
