//! What is kept of a text while it is read: what its parts may be as far as rows ask for it, and the construct's head once it is
//! told.

ghost use Rattle.std.specs.Prelude.{◌≡◌, IfOk, OnOk};
ghost use Rattle.std.specs.Option.{option_map};
ghost use Rattle.grammars.specs.Grammar.{allows};
ghost use Rattle.py_syntax.specs.Token.{Token};
ghost use Rattle.py_syntax.specs.Kinds.{kind_of};
ghost use Rattle.py_constructs.specs.Values.{begin, sort_of as sort_of_kind, place_of, take_in, bracket_with as bracket_after, act as act_on, told_so as told_as, last_token as last_token_of, less, last_part as last_part_of, loop_head as loop_head_of, head_of_last as head_of_last_of, is_class_bare as is_bare_of, is_call_fresh as is_fresh_of, are_open as are_open_of, are_open_targets as are_open_targets_of};
ghost use Rattle.py_lexer.specs.PlainTokens.{plain_place};
ghost use Rattle.py_outside.specs.PlainSymbols.{plain_action, plain_guard};
ghost use Rattle.py_outside.specs.PlainValues.{plain_sort, plain_reading, plain_numbered, plain_targets, plain_widening, plain_told, plain_value, items_of, last_reading as last_reading_of};

use crate::item::{Item, Numbered, PLAIN, Reading, TokenSort, forget, put, replace};
use crate::left::{Left, mark_of};
use crate::made::make;
use crate::symbol::{Action, Guard};
use crate::targets::{Targets, Widening, are_own, are_wide, head_in, is_wide, part_in};
use shed_base::Place;
use std::alloc::{AllocError, Global};

/// A construct's head, and by how many tokens it is known to be one.
#[derive(Clone, Copy, Debug)]
pub struct Told {
    pub head: Numbered,
    pub known: u64,
}

/// What is kept of the tokens that were read.
#[derive(Debug, Drop)]
pub struct Value {
    /// How many tokens were read.
    pub(crate) read: u64,
    /// The first head that was told.
    pub(crate) told: Option<Told>,
    /// A head, if another token comes.
    pub(crate) held: Option<Numbered>,
    /// The first bracket that was opened behind the last `for`.
    pub(crate) bracket: Option<Numbered>,
    pub(crate) left: Left,
    /// The last on top.
    pub(crate) items: Vec<Item>,
}

/// The sort of a token of this kind.
fn sort_of(kind: u8) -> TokenSort
    ensures { plain_sort result ≡ sort_of_kind kind }
{
    match kind {
        0 => TokenSort::Name,
        1 => TokenSort::Name,
        28 => TokenSort::Loop,
        81 => TokenSort::Open,
        83 => TokenSort::Open,
        _ => TokenSort::Other,
    }
}

/// The first bracket behind the last `for`, once such a token is read.
fn bracket_with(sort: TokenSort, token: Numbered, bracket: Option<Numbered>) -> Option<Numbered>
    ensures { option_map plain_numbered result ≡ bracket_after (plain_sort sort) (plain_numbered token) (option_map plain_numbered bracket) }
{
    match sort {
        TokenSort::Loop => None,
        TokenSort::Open => match bracket {
            Some(bracket) => Some(bracket),
            None => Some(token),
        },
        TokenSort::Name => bracket,
        TokenSort::Other => bracket,
    }
}

/// What is told once so many tokens are read: the first head that is told stays.
fn told_so(told: Option<Told>, head: Option<Numbered>, known: u64) -> Option<Told>
    ensures { option_map plain_told result ≡ told_as (option_map plain_told told) (option_map plain_numbered head) known }
{
    match (told, head) {
        (Some(told), _) => Some(told),
        (None, Some(head)) => Some(Told { head, known }),
        (None, None) => None,
    }
}

/// The last token among these items.
#[tactic(auto, using(crate::proofs::Items::stacks))]
fn last_token(items: &[Item]) -> Option<Numbered>
    ensures { option_map plain_numbered result ≡ last_token_of (items_of items.now) }
{
    let mut rest = items;
    while let Some((last, earlier)) = rest.split_last() {
        match last {
            Item::Token(_, token) => return Some(*token),
            Item::Expression(_) => {}
            Item::Class(_) => {}
            Item::Base => {}
            Item::Other => {}
        }
        rest = earlier;
    }
    None
}

/// What the last item may be, where it is an expression.
#[tactic(auto, using(crate::proofs::Items::stacks))]
fn last_reading(items: &[Item]) -> Reading
    ensures { plain_reading result ≡ last_reading_of (items_of items.now) }
{
    match items.split_last() {
        Some((Item::Expression(reading), _)) => *reading,
        Some(_) => NOTHING,
        None => NOTHING,
    }
}

const NOTHING: Reading = Reading {
    name: false,
    item: Targets::No,
    whole: Targets::No,
    annotable: false,
    names: false,
    fresh: false,
};

/// What the profile does not have of the last expression's targets.
#[tactic(auto, using(crate::proofs::Items::stacks))]
fn head_of_last(items: &[Item]) -> Option<Numbered>
    ensures { option_map plain_numbered result ≡ head_of_last_of (items_of items.now) }
{
    match items.split_last() {
        Some((Item::Expression(reading), _)) => head_in(reading.whole),
        Some(_) => None,
        None => None,
    }
}

/// What was read last at the left of an assignment.
#[tactic(auto, using(crate::proofs::Items::stacks))]
fn last_part(items: &[Item]) -> Targets
    ensures { plain_targets result ≡ last_part_of (items_of items.now) }
{
    match items.split_last() {
        Some((Item::Expression(reading), _)) => part_in(reading.item, reading.whole),
        Some(_) => Targets::No,
        None => Targets::No,
    }
}

/// The head in a loop: one round it, or its first bracket.
fn loop_head(head: Option<Numbered>, bracket: Option<Numbered>) -> Option<Numbered>
    ensures { option_map plain_numbered result ≡ loop_head_of (option_map plain_numbered head) (option_map plain_numbered bracket) }
{
    match head {
        Some(head) => Some(head),
        None => bracket,
    }
}

/// The same of the last item but one.
#[tactic(auto, using(crate::proofs::Items::stacks))]
fn head_before_last(items: &[Item]) -> Option<Numbered>
    ensures { option_map plain_numbered result ≡ head_of_last_of (less 1 (items_of items.now)) }
{
    match items.split_last() {
        Some((_, earlier)) => head_of_last(earlier),
        None => None,
    }
}

#[tactic(auto, using(crate::proofs::Items::stacks))]
fn is_class_bare(items: &[Item]) -> bool
    ensures { result ≡ is_bare_of (items_of items.now) }
{
    match items.split_last() {
        Some((Item::Class(bare), _)) => *bare,
        Some(_) => false,
        None => false,
    }
}

/// Whether the last item is the first argument of a call.
#[tactic(auto, using(crate::proofs::Items::stacks))]
fn is_call_fresh(items: &[Item]) -> bool
    ensures { result ≡ is_fresh_of (items_of items.now) }
{
    match items.split_last() {
        Some((Item::Expression(_), earlier)) => last_reading(earlier).fresh,
        Some(_) => false,
        None => false,
    }
}

/// Whether brackets are open here from where a statement or the right side of an assignment begins, and nothing is in them.
#[tactic(auto, using(crate::proofs::Items::stacks))]
fn are_open(items: &[Item]) -> bool
    ensures { result ≡ are_open_of (items_of items.now) }
{
    let mut rest = items;
    while let Some((last, earlier)) = rest.split_last() {
        match last {
            Item::Token(TokenSort::Open, _) => {}
            Item::Token(TokenSort::Name, _) => return false,
            Item::Token(TokenSort::Loop, _) => return false,
            Item::Token(TokenSort::Other, _) => return false,
            Item::Expression(_) => return false,
            Item::Class(_) => return false,
            Item::Base => return true,
            Item::Other => return false,
        }
        rest = earlier;
    }
    false
}

#[tactic(auto, using(crate::proofs::Items::stacks))]
fn are_open_targets(items: &[Item]) -> bool
    ensures { result ≡ are_open_targets_of (items_of items.now) }
{
    match items.split_last() {
        Some((Item::Expression(reading), earlier)) => are_own(reading.whole) && are_open(earlier),
        Some(_) => are_open(items),
        None => false,
    }
}

impl Value {
    /// What is kept where nothing was read.
    #[tactic(auto, using(crate::proofs::Items::stacks))]
    pub fn new(alloc: Global) -> Value
        ensures { plain_value result ≡ begin }
    {
        Value {
            read: 0,
            told: None,
            held: None,
            bracket: None,
            left: Left::new(alloc),
            items: Vec::new(alloc),
        }
    }

    /// The same once more.
    ///
    /// Fails where memory runs out.
    #[tactic(auto, using(crate::proofs::Items::stacks))]
    pub(crate) fn copied(&self, alloc: Global) -> Result<Value, AllocError>
        ensures { IfOk result (λ copy. plain_value copy ≡ plain_value self.now) }
    {
        Ok(Value {
            read: self.read,
            told: self.told,
            held: self.held,
            bracket: self.bracket,
            left: self.left.copied(alloc)?,
            items: Vec::from_slice(alloc, &self.items)?,
        })
    }

    /// The construct's head, if it was told, and by how many tokens it is known.
    pub fn told(&self) -> Option<Told>
        ensures { option_map plain_told result ≡ (plain_value self.now).told }
    {
        self.told
    }

    /// Reads a token of this kind.
    ///
    /// Fails where memory runs out.
    pub(crate) fn take(&mut self, kind: u8, place: Place) -> Result<(), AllocError>
        ensures { OnOk result ((t : Token) → kind_of t ≡ kind → place_of t ≡ plain_place place → plain_value self.new ≡ take_in t (plain_value self.old)) }
    {
        let Some(read) = self.read.checked_add(1) else {
            return Err(AllocError);
        };
        let token = Numbered {
            number: self.read,
            place,
        };
        let sort = sort_of(kind);
        self.left
            .read(mark_of(kind), last_part(&self.items), token)?;
        put(&mut self.items, Item::Token(sort, token))?;
        self.told = told_so(self.told, self.held, read);
        self.held = None;
        self.bracket = bracket_with(sort, token, self.bracket);
        self.read = read;
        Ok(())
    }

    /// Does what an action does.
    ///
    /// Fails where memory runs out.
    pub(crate) fn act(&mut self, action: Action) -> Result<(), AllocError>
        ensures { OnOk result (plain_value self.new ≡ act_on (plain_action action) (plain_value self.old)) }
    {
        match action {
            Action::Own(action) => make(&mut self.items, action),
            Action::Head => {
                self.told = told_so(self.told, last_token(&self.items), self.read);
                Ok(())
            }
            Action::Hold => {
                self.held = last_token(&self.items);
                Ok(())
            }
            Action::Forget => {
                forget(&mut self.items, 1);
                Ok(())
            }
            Action::Plain => replace(&mut self.items, 1, PLAIN),
            Action::TellTargets => {
                self.told = told_so(self.told, head_before_last(&self.items), self.read);
                Ok(())
            }
            Action::TellLoop => {
                self.told = told_so(
                    self.told,
                    loop_head(self.left.here.head, self.bracket),
                    self.read,
                );
                Ok(())
            }
            Action::HoldSlice => {
                self.held = head_of_last(&self.items);
                Ok(())
            }
        }
    }

    /// Whether a guard allows its row, where a construct lets more be targets.
    pub(crate) fn allows(&self, widening: Widening, guard: Guard) -> bool
        ensures { result ≡ allows (plain_guard (plain_widening widening) guard) (plain_value self.now) }
    {
        match guard {
            Guard::Always => true,
            Guard::IsName => last_reading(&self.items).name,
            Guard::IsTarget => are_own(last_reading(&self.items).item),
            Guard::AreTargets => are_own(last_reading(&self.items).whole),
            Guard::IsTargetWith => is_wide(widening, last_reading(&self.items).item),
            Guard::AreTargetsWith => are_wide(widening, last_reading(&self.items).whole),
            Guard::IsAnnotable => last_reading(&self.items).annotable,
            Guard::IsDeleted => last_reading(&self.items).names,
            Guard::IsBare => is_class_bare(&self.items),
            Guard::IsFirstArgument => is_call_fresh(&self.items),
            Guard::MayBeTargets => are_open_targets(&self.items),
        }
    }
}
