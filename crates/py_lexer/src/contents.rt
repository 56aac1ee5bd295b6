//! What a whole text stands for.

ghost use Rattle.std.specs.Prelude.{◌≡◌, ◌-◌, ◌∷◌, length, IfOk};
ghost use Rattle.py_tokens.specs.Lexeme as spec;
ghost use Rattle.py_lexer.specs.Escapes.{plain_part};
ghost use Rattle.py_lexer.specs.ContentsOfTexts.{plain_contents, IsWithin};

use crate::escape::{Part, Piece, part_of};
use crate::lexeme::Fault;
use sqlite_items::Items;
use std::alloc::{AllocError, Global};

/// What a whole text stands for, or where its first wrong character is.
#[derive(Drop)]
pub(crate) enum Contents {
    Holds(Items<u8>),
    Fails(Fault, usize),
}

/// What the first character of a text adds, where `left` characters belong to a part that began before. The length
/// that it answers is of the characters that are then left, and one.
fn next_part(raw: bool, left: usize, text: &[char], first: char, after: &[char]) -> Part
    requires { text.now ≡ first ∷ after.now }
    ensures { spec.contents_of raw left text.now ≡ spec.before_contents (plain_part result) (spec.contents_of raw (result.length - 1) after.now) }
{
    if left > 0 {
        Part {
            length: left,
            piece: Piece::Nothing,
        }
    } else {
        part_of(raw, text)
    }
}

/// What the characters in a text stand for.
pub(crate) fn contents_of(alloc: Global, raw: bool, text: &[char]) -> Result<Contents, AllocError>
    ensures value { IfOk result (λ r. plain_contents r ≡ spec.contents_of raw 0 text.now) }
    ensures within { IfOk result (λ r. IsWithin (length text.now) r) }
{
    let mut held: Items<u8> = Items::new(alloc);
    let mut rest = text;
    let mut n: usize = 0;
    let mut left: usize = 0;
    while let Some((first, after)) = rest.split_first() {
        let part = next_part(raw, left, rest, *first, after);
        match part.piece {
            Piece::Stands(code) => held.push(code)?,
            Piece::Nothing => {}
            Piece::Wrong(fault) => return Ok(Contents::Fails(fault, n)),
        }
        left = part.length.saturating_sub(1);
        n += 1;
        rest = after;
    }
    Ok(Contents::Holds(held))
}
