//! What is kept of parts, and the stack of them.

ghost use Rattle.std.specs.Prelude.{◌≡◌, ◌∷◌, IfOk, OnOk};
ghost use Rattle.py_constructs.specs.Values.{Token, Expression, a_slice, leaf as leaf_of, in_round as reading_in_round, in_square as reading_in_square, tuple_of as reading_of_tuple, one_more as reading_of_more, less};
ghost use Rattle.py_lexer.specs.PlainTokens.{plain_place};
ghost use Rattle.py_outside.specs.PlainValues.{plain_sort, plain_reading, plain_numbered, plain_item, items_of};

use crate::targets::{Targets, among, are_own, together};
use shed_base::Place;
use std::alloc::AllocError;

#[derive(Clone, Copy, Debug)]
pub(crate) enum TokenSort {
    Name,
    /// A round or a square bracket that opens.
    Open,
    /// The `for` of a loop.
    Loop,
    Other,
}

/// What an expression may be.
#[derive(Clone, Copy, Debug)]
pub(crate) struct Reading {
    pub(crate) name: bool,
    /// What it is as one of several targets.
    pub(crate) item: Targets,
    /// What it is as all of them.
    pub(crate) whole: Targets,
    /// An annotation may come behind it.
    pub(crate) annotable: bool,
    /// All in it are names, in brackets or not.
    pub(crate) names: bool,
    /// It is a call that has no arguments yet.
    pub(crate) fresh: bool,
}

/// A token, by how many came before it.
#[derive(Clone, Copy, Debug)]
pub struct Numbered {
    pub number: u64,
    pub place: Place,
}

#[derive(Clone, Copy, Debug)]
pub(crate) enum Item {
    Token(TokenSort, Numbered),
    Expression(Reading),
    /// The name of a class, and whether it has no point.
    Class(bool),
    /// The body of a block or of the module, or targets behind which an assignment goes on.
    Base,
    Other,
}

/// A call that begins.
pub(crate) const CALL: Item = Item::Expression(Reading {
    name: false,
    item: Targets::No,
    whole: Targets::No,
    annotable: false,
    names: false,
    fresh: true,
});

/// An expression that is no target.
pub(crate) const PLAIN: Item = Item::Expression(Reading {
    name: false,
    item: Targets::No,
    whole: Targets::No,
    annotable: false,
    names: false,
    fresh: false,
});

/// An attribute or a subscript.
pub(crate) const TARGET: Item = Item::Expression(Reading {
    name: false,
    item: Targets::Own,
    whole: Targets::Own,
    annotable: true,
    names: false,
    fresh: false,
});

const NAME: Item = Item::Expression(Reading {
    name: true,
    item: Targets::Own,
    whole: Targets::Own,
    annotable: true,
    names: true,
    fresh: false,
});

/// A slice with this bracket.
pub(crate) fn slice(bracket: Numbered) -> Item
    ensures { plain_item result ≡ a_slice (plain_numbered bracket) }
{
    Item::Expression(Reading {
        name: false,
        item: Targets::Sliced(bracket),
        whole: Targets::Sliced(bracket),
        annotable: false,
        names: false,
        fresh: false,
    })
}

pub(crate) fn leaf(sort: TokenSort) -> Item
    ensures { plain_item result ≡ leaf_of (plain_sort sort) }
{
    match sort {
        TokenSort::Name => NAME,
        TokenSort::Open => PLAIN,
        TokenSort::Loop => PLAIN,
        TokenSort::Other => PLAIN,
    }
}

/// An expression in round brackets: a target keeps that an annotation may come behind it.
pub(crate) fn in_round(bracket: Numbered, reading: Reading) -> Item
    ensures { plain_item result ≡ reading_in_round (plain_numbered bracket) (plain_reading reading) }
{
    Item::Expression(Reading {
        name: false,
        item: among(bracket, reading.whole),
        whole: reading.whole,
        annotable: are_own(reading.item),
        names: reading.names,
        fresh: false,
    })
}

pub(crate) fn in_square(bracket: Numbered, reading: Reading) -> Item
    ensures { plain_item result ≡ reading_in_square (plain_numbered bracket) (plain_reading reading) }
{
    Item::Expression(Reading {
        name: false,
        item: among(bracket, reading.whole),
        whole: reading.whole,
        annotable: false,
        names: reading.names,
        fresh: false,
    })
}

/// A tuple without brackets, of one item.
pub(crate) fn tuple_of(reading: Reading) -> Item
    ensures { plain_item result ≡ reading_of_tuple (plain_reading reading) }
{
    Item::Expression(Reading {
        name: false,
        item: Targets::No,
        whole: reading.item,
        annotable: false,
        names: reading.names,
        fresh: false,
    })
}

/// A tuple with one item more.
pub(crate) fn one_more(tuple: Reading, item: Reading) -> Item
    ensures { plain_item result ≡ reading_of_more (plain_reading tuple) (plain_reading item) }
{
    Item::Expression(Reading {
        name: false,
        item: Targets::No,
        whole: together(tuple.whole, item.item),
        annotable: false,
        names: tuple.names && item.names,
        fresh: false,
    })
}

// Each of these takes the last item, which is there and of this sort. No other comes: the answer is then want of memory.

#[tactic(auto, using(crate::proofs::Items::stacks))]
pub(crate) fn pop(items: &mut Vec<Item>) -> Result<Item, AllocError>
    ensures { IfOk result (λ item. items_of items.old.items ≡ plain_item item ∷ items_of items.new.items) }
{
    match items.pop() {
        Some(item) => Ok(item),
        None => Err(AllocError),
    }
}

#[tactic(auto, using(crate::proofs::Items::stacks))]
pub(crate) fn pop_token(items: &mut Vec<Item>) -> Result<(TokenSort, Numbered), AllocError>
    ensures { IfOk result (λ t. items_of items.old.items ≡ Token (plain_sort t.0) t.1.number (plain_place t.1.place) ∷ items_of items.new.items) }
{
    match items.pop() {
        Some(Item::Token(sort, token)) => Ok((sort, token)),
        _ => Err(AllocError),
    }
}

#[tactic(auto, using(crate::proofs::Items::stacks))]
pub(crate) fn pop_expression(items: &mut Vec<Item>) -> Result<Reading, AllocError>
    ensures { IfOk result (λ reading. items_of items.old.items ≡ Expression (plain_reading reading) ∷ items_of items.new.items) }
{
    match items.pop() {
        Some(Item::Expression(reading)) => Ok(reading),
        _ => Err(AllocError),
    }
}

/// Puts an item on top.
#[tactic(auto, using(crate::proofs::Items::stacks))]
pub(crate) fn put(items: &mut Vec<Item>, item: Item) -> Result<(), AllocError>
    ensures { OnOk result (items_of items.new.items ≡ plain_item item ∷ items_of items.old.items) }
{
    items.push(item)?;
    Ok(())
}

/// Drops so many items, or all.
#[tactic(auto, using(crate::proofs::Items::items_of_kept))]
pub(crate) fn forget(items: &mut Vec<Item>, count: usize)
    ensures { items_of items.new.items ≡ less count (items_of items.old.items) }
{
    items.truncate(items.len().saturating_sub(count));
}

/// Puts an item in place of so many.
pub(crate) fn replace(items: &mut Vec<Item>, count: usize, item: Item) -> Result<(), AllocError>
    ensures { OnOk result (items_of items.new.items ≡ plain_item item ∷ less count (items_of items.old.items)) }
{
    forget(items, count);
    put(items, item)
}
