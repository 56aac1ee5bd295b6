//! Where a module is nested too deep.

ghost use Rattle.std.specs.Prelude.{ℕ, ◌≡◌, List, Some, [], ◌∷◌, IfOk, OnOk};
ghost use Rattle.py_nesting.specs.Forms.{token_form as form_of_token};
ghost use Rattle.py_table.specs.PlainTokens.{plain_token, plain_tokens};
ghost use Rattle.py_nesting.specs.Outlines.{built};
ghost use Rattle.py_nesting.specs.Shapes.{outlines_of, entries_of as entries_of_parts};
ghost use Rattle.py_nesting.specs.Asked.{targets_last, target_last, name_last};
ghost use Rattle.py_depth.specs.Found.{IsFound};
ghost use Rattle.py_depth.specs.PlainEntries.{plain_token_form, entries_of, events_of};

use crate::nest::{Nest, put};
use crate::nested::act;
use crate::shape::{Entry, ExprForm, Shape, TokenForm, are_targets, is_target};
use crate::walk::first_too_deep;
use py_lexer::token::{Token, TokenKind};
use py_table::run::{Outcome, run};
use py_table::symbol::{Action, Guard};
use py_table::values::Values;
use shed_base::{Names, Place};
use std::alloc::{AllocError, Global};

/// How deep a module is nested.
#[derive(Debug, Drop)]
pub enum Depth<'a> {
    /// No node has more than 100 others above it.
    Shallow,
    /// The first place of a node that has more.
    TooDeep(Place),
    /// It is no module: the first of these tokens, or the end where there is none, fits nowhere.
    Stuck(&'a [Token]),
}

fn token_form(token: &Token) -> TokenForm
    ensures { (texts : List (List ℕ)) → plain_token_form result ≡ form_of_token (plain_token texts token.now) }
{
    match &token.kind {
        TokenKind::Name(_) => TokenForm::Name,
        TokenKind::Number(_) | TokenKind::Text(_) => TokenForm::Literal,
        _ => TokenForm::Other,
    }
}

#[tactic(auto, using(crate::proofs::Stacks::stacks))]
fn are_targets_last(entries: &[Entry]) -> bool
    ensures { result ≡ targets_last (entries_of entries.now) }
{
    match entries.split_last() {
        Some(
            (
                Entry {
                    shape: Shape::Expr(form, _),
                    ..
                },
                _,
            ),
        ) => are_targets(*form),
        Some(_) => false,
        None => false,
    }
}

#[tactic(auto, using(crate::proofs::Stacks::stacks))]
fn is_target_last(entries: &[Entry]) -> bool
    ensures { result ≡ target_last (entries_of entries.now) }
{
    match entries.split_last() {
        Some(
            (
                Entry {
                    shape: Shape::Expr(form, _),
                    ..
                },
                _,
            ),
        ) => is_target(*form),
        Some(_) => false,
        None => false,
    }
}

#[tactic(auto, using(crate::proofs::Stacks::stacks))]
fn is_name_last(entries: &[Entry]) -> bool
    ensures { result ≡ name_last (entries_of entries.now) }
{
    match entries.split_last() {
        Some(
            (
                Entry {
                    shape: Shape::Expr(ExprForm::Name, _),
                    ..
                },
                _,
            ),
        ) => true,
        Some(_) => false,
        None => false,
    }
}

impl<'a> Values<'a> for Nest {
    ghost stands = { λ texts nest v. (entries_of nest.entries.items ≡ entries_of_parts v) × (built (events_of nest.events.items) ≡ Some (outlines_of v)) };

    fn take(&mut self, token: &'a Token) -> Result<(), AllocError> {
        put(
            &mut self.entries,
            Shape::Token(token_form(token)),
            token.place,
        )
    }

    fn act(&mut self, _alloc: Global, action: Action) -> Result<(), AllocError> {
        act(action, self)
    }

    fn allows(&self, guard: Guard) -> Result<bool, AllocError> {
        Ok(match guard {
            Guard::Always => true,
            Guard::AreTargetsLast => are_targets_last(&self.entries),
            Guard::IsTargetLast => is_target_last(&self.entries),
            Guard::IsNameLast => is_name_last(&self.entries),
        })
    }
}

/// How deep the module of these tokens is nested, if they are one; names among the tokens stand for the texts of `names`.
///
/// Nodes are statements, expressions and parentheses. No tree is built. Fails where memory runs out.
pub fn find_depth<'a>(
    alloc: Global,
    tokens: &'a [Token],
    names: &Names,
) -> Result<Depth<'a>, AllocError>
    ensures { IfOk result (IsFound names.now (plain_tokens names.now tokens.now)) }
{
    let mut nest = Nest {
        entries: Vec::new(alloc),
        events: Vec::new(alloc),
    };
    match run(alloc, &mut nest, tokens, names)? {
        Outcome::Done => match first_too_deep(alloc, &nest.events)? {
            None => Ok(Depth::Shallow),
            Some(place) => Ok(Depth::TooDeep(place)),
        },
        Outcome::Stuck(rest) => Ok(Depth::Stuck(rest)),
    }
}
