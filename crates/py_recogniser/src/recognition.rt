//! Whether tokens are a module that is not nested too deep.

ghost use Rattle.std.specs.Prelude.{ℕ, ◌≡◌, List, IfOk, IfErr, OnOk};
ghost use Rattle.py_lexer.specs.PlainTokens.{plain_place, plain_kind as text_kind, plain_tokens as text_tokens};
ghost use Rattle.py_table.specs.PlainTokens.{plain_kind, plain_tokens};
ghost use Rattle.py_depth.specs.Found.{IsRest};
ghost use Rattle.py_depth.specs.PlainDemands.{plain_first};
ghost use Rattle.py_recogniser.specs.Recognised.{IsRecognised};
ghost use Rattle.py_recogniser.specs.Refused.{last_place, no_later as no_later_of, IsFound, IsParseRefused};

use crate::refusal::{Found, ParseRefusal};
use py_depth::{Depth, find_depth};
use py_front_depth::find_depth_in_front;
use py_lexer::is_before;
use py_lexer::token::{Token, TokenKind};
use py_outside::find_outside;
use shed_base::{Names, Place};
use sqlite_items::Items;
use std::alloc::{AllocError, Global};

/// Where a module begins.
const BEGINNING: Place = Place {
    module: 0,
    line: 1,
    column: 1,
};

#[tactic(auto, using(crate::proofs::FrontsFound::lasts))]
fn place_of_last(tokens: &[Token]) -> Place
    ensures { (names : List (List ℕ)) → plain_place result ≡ last_place (text_tokens names tokens.now) }
{
    match tokens.split_last() {
        Some((token, _)) => token.place,
        None => BEGINNING,
    }
}

/// The same kind of a token once more.
fn copied(alloc: Global, kind: &TokenKind) -> Result<TokenKind, AllocError>
    ensures text { IfOk result (λ k. (names : List (List ℕ)) → text_kind names k ≡ text_kind names kind.now) }
    ensures kind { IfOk result (λ k. (names : List (List ℕ)) → plain_kind names k ≡ plain_kind names kind.now) }
{
    let kind = match kind {
        TokenKind::Name(name) => TokenKind::Name(*name),
        TokenKind::Keyword(keyword) => TokenKind::Keyword(*keyword),
        TokenKind::Operator(operator) => TokenKind::Operator(*operator),
        TokenKind::Number(value) => TokenKind::Number(*value),
        TokenKind::Text(text) => TokenKind::Text(Items::from_slice(alloc, text.as_slice())?),
        TokenKind::Float => TokenKind::Float,
        TokenKind::Imaginary => TokenKind::Imaginary,
        TokenKind::Bytes => TokenKind::Bytes,
        TokenKind::Formatted => TokenKind::Formatted,
        TokenKind::Newline => TokenKind::Newline,
        TokenKind::Indent => TokenKind::Indent,
        TokenKind::Dedent => TokenKind::Dedent,
    };
    Ok(kind)
}

/// What stands at the front of the rest of some tokens, and where.
fn found(alloc: Global, tokens: &[Token], rest: &[Token]) -> Result<(Place, Found), AllocError>
    ensures { IfOk result (λ f. (names : List (List ℕ)) → IsFound names (text_tokens names tokens.now) f.0 f.1 (text_tokens names rest.now)) }
{
    match rest.first() {
        Some(token) => Ok((token.place, Found::Token(copied(alloc, &token.kind)?))),
        None => Ok((place_of_last(tokens), Found::End)),
    }
}

/// The first place, if it stands no later than the other.
fn no_later(first: Option<Place>, place: Place) -> Option<Place>
    ensures { plain_first result ≡ no_later_of (plain_first first) (plain_place place) }
{
    match first {
        Some(deep) if !is_before(place, deep) => Some(deep),
        _ => None,
    }
}

/// Why tokens are no module, where this is their rest behind the longest front of one: what stands there, or a place of the front that
/// is nested too deep, if that stands no later.
fn refusal_at(
    alloc: Global,
    tokens: &[Token],
    rest: &[Token],
    names: &Names,
) -> Result<ParseRefusal, AllocError>
    ensures { IfOk result (λ refusal. IsRest (plain_tokens names.now tokens.now) (plain_tokens names.now rest.now) → IsParseRefused names.now tokens.now refusal) }
{
    let Some(count) = tokens.len().checked_sub(rest.len()) else {
        return Err(AllocError);
    };
    let (front, behind) = tokens.split_at(count);
    let first = find_depth_in_front(alloc, front, names)?;
    if let Some((construct, place)) = find_outside(alloc, tokens, count, names)? {
        return match no_later(first, place) {
            Some(deep) => Ok(ParseRefusal::TooDeep(deep)),
            None => Ok(ParseRefusal::Outside(place, construct)),
        };
    }
    let (place, found) = found(alloc, tokens, behind)?;
    match no_later(first, place) {
        Some(deep) => Ok(ParseRefusal::TooDeep(deep)),
        None => Ok(ParseRefusal::Unexpected(place, found)),
    }
}

/// Whether tokens are a module; names among the tokens stand for the texts of `names`.
///
/// Fails with the first token with which no front of a module goes on, or with the construct outside the profile that stands in
/// its place; where a node has more than 100 others above it, in the tree or, where there is none, in each module that begins with the
/// longest front and has a node there, if that place comes no later; and with `NoMemory` where memory runs out. The Python reference's
/// "Full Grammar specification", cut to the profile, is the grammar.
pub fn recognise(alloc: Global, tokens: &[Token], names: &Names) -> Result<(), ParseRefusal>
    ensures recognised { OnOk result (IsRecognised (plain_tokens names.now tokens.now)) }
    ensures refused { IfErr result (IsParseRefused names.now tokens.now) }
{
    match find_depth(alloc, tokens, names)? {
        Depth::Shallow => Ok(()),
        Depth::TooDeep(place) => Err(ParseRefusal::TooDeep(place)),
        Depth::Stuck(rest) => Err(refusal_at(alloc, tokens, rest, names)?),
    }
}
