//! Comments and joined lines.

ghost use Rattle.std.specs.Prelude.{◌≡◌, ◌+◌, Some, ◌≤◌, length, IfSome};
ghost use Rattle.py_tokens.specs.Characters as characters;
ghost use Rattle.py_tokens.specs.Lexeme as spec;
ghost use Rattle.py_lexer.specs.PlainLexemes.{plain_front, plain_fault};

use crate::character::{is_control, len_to_line_end, line_end};
use crate::lexeme::{Fault, Front, Lexeme};

/// No token can be formed; so many characters stand before the wrong one.
pub(crate) fn broken(fault: Fault, before: usize) -> Front
    ensures { plain_front result ≡ spec.broken (plain_fault fault) before }
{
    Front {
        length: 1,
        lexeme: Lexeme::Broken(fault, before),
    }
}

/// The place of the first control character in a text, if there is any.
fn first_control(text: &[char]) -> Option<usize>
    ensures { result ≡ spec.first_control text.now }
{
    for (at, c) in text.iter().enumerate() {
        if is_control(*c) {
            return Some(at);
        }
    }
    None
}

/// A comment, at the front of a text.
pub(crate) fn comment(text: &[char]) -> Front
    ensures { plain_front result ≡ spec.comment text.now }
{
    let length = len_to_line_end(text);
    let (line, _) = text.split_at(length);
    match first_control(line) {
        Some(before) => broken(Fault::BadCharacter, before),
        None => Front {
            length,
            lexeme: Lexeme::Nothing,
        },
    }
}

/// What a backslash and the text behind it are, outside texts.
pub(crate) fn joined(text: &[char]) -> Front
    ensures { plain_front result ≡ spec.joined text.now }
{
    let end = line_end(text);
    if end == 0 {
        broken(Fault::BadCharacter, 0)
    } else {
        Front {
            length: end + 1,
            lexeme: Lexeme::Nothing,
        }
    }
}
