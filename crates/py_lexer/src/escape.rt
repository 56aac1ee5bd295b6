//! What characters of a text stand for.

ghost use Rattle.std.specs.Prelude.{◌≡◌, ◌≤◌, ◌+◌, ◌-◌, ◌^◌, ◌<◌, ◌∷◌, [], length, take};
ghost use Rattle.std.specs.List.{prefix_len, take_while};
ghost use Rattle.py_tokens.specs.Characters as characters;
ghost use Rattle.py_tokens.specs.Lexeme as spec;
ghost use Rattle.py_lexer.specs.PlainLexemes.{plain_fault};
ghost use Rattle.py_lexer.specs.Digits.{is_digit_of};
ghost use Rattle.py_lexer.specs.Escapes.{plain_part, letter_escape, coded_escape, hexadecimal_escape};

use crate::character::{Digits, is_quote, line_end};
use crate::lexeme::Fault;
use crate::number::value;
use std::cmp;

#[derive(Clone, Copy)]
pub(crate) enum Piece {
    /// A character.
    Stands(u8),
    Nothing,
    Wrong(Fault),
}

/// What so many characters of a text stand for.
#[derive(Clone, Copy)]
pub(crate) struct Part {
    pub length: usize,
    pub piece: Piece,
}

fn stands(length: usize, code: u8) -> Part
    ensures { plain_part result ≡ spec.part length (code ∷ []) }
{
    Part {
        length,
        piece: Piece::Stands(code),
    }
}

fn wrong(fault: Fault) -> Part
    ensures { plain_part result ≡ spec.wrong (plain_fault fault) }
{
    Part {
        length: 1,
        piece: Piece::Wrong(fault),
    }
}

/// A character that stands for itself.
fn coded(length: usize, code: u32) -> Part
    ensures { plain_part result ≡ spec.coded length code }
{
    if code <= 127 {
        stands(length, code as u8)
    } else {
        wrong(Fault::NonAsciiText)
    }
}

/// The character with the code that these digits say.
fn coded_value(length: usize, base: u64, digits: &[char]) -> Part
    requires { 1 ≤ base }
    ensures { plain_part result ≡ spec.coded length (characters.value_from base 0 digits.now) }
{
    match value(base, 127, digits) {
        Some(code) => stands(length, code as u8),
        None => wrong(Fault::NonAsciiText),
    }
}

/// A line end stands for a line feed, and all else for itself.
fn plain_part_of(text: &[char]) -> Part
    ensures { plain_part result ≡ spec.plain_part text.now }
{
    let Some((first, _)) = text.split_first() else {
        return Part {
            length: 1,
            piece: Piece::Nothing,
        };
    };
    let end = line_end(text);
    if end == 0 {
        coded(1, u32::from(*first))
    } else {
        stands(end, b'\n')
    }
}

/// The first characters, `most` of them where there are so many.
fn front(text: &[char], most: usize) -> &[char]
    ensures { result.now ≡ take most text.now }
{
    let (front, _) = text.split_at(cmp::min(most, text.len()));
    front
}

/// The digits at the front.
fn digits_of(digits: Digits, text: &[char]) -> &[char]
    ensures { result.now ≡ take_while (is_digit_of digits) text.now }
{
    for (at, c) in text.iter().enumerate() {
        if !digits.has(*c) {
            let (front, _) = text.split_at(at);
            return front;
        }
    }
    text
}

/// A character told by its octal digits.
fn octal_escape(text: &[char]) -> Part
    ensures { plain_part result ≡ spec.coded (1 + spec.octal text.now) (characters.value_from 8 0 (take (spec.octal text.now) text.now)) }
{
    let digits = digits_of(Digits::Octal, front(text, 3));
    coded_value(digits.len() + 1, 8, digits)
}

/// A character told by two hexadecimal digits.
fn hexadecimal_escape(text: &[char]) -> Part
    ensures { plain_part result ≡ hexadecimal_escape text.now }
{
    let two = front(text, 2);
    if digits_of(Digits::Hexadecimal, two).len() == 2 {
        coded_value(4, 16, two)
    } else {
        wrong(Fault::BadEscape)
    }
}

/// What a backslash and a letter or a digit stand for.
fn coded_escape(first: char, after: &[char], text: &[char]) -> Part
    requires { text.now ≡ first ∷ after.now }
    ensures { plain_part result ≡ coded_escape first after.now }
{
    if Digits::Octal.has(first) {
        octal_escape(text)
    } else if first == 'x' {
        hexadecimal_escape(after)
    } else if first == 'N' || first == 'u' || first == 'U' {
        wrong(Fault::BadEscape)
    } else {
        stands(1, b'\\')
    }
}

fn letter_escape(first: char, after: &[char], text: &[char]) -> Part
    requires { text.now ≡ first ∷ after.now }
    ensures { plain_part result ≡ letter_escape first after.now }
{
    if first == 'a' {
        stands(2, 7)
    } else if first == 'b' {
        stands(2, 8)
    } else if first == 'f' {
        stands(2, 12)
    } else if first == 'n' {
        stands(2, 10)
    } else if first == 'r' {
        stands(2, 13)
    } else if first == 't' {
        stands(2, 9)
    } else if first == 'v' {
        stands(2, 11)
    } else {
        coded_escape(first, after, text)
    }
}

/// What a backslash and the text behind it stand for.
fn escape(text: &[char]) -> Part
    ensures { plain_part result ≡ spec.escape text.now }
{
    let Some((first, after)) = text.split_first() else {
        return stands(1, b'\\');
    };
    let end = line_end(text);
    if end != 0 {
        Part {
            length: end + 1,
            piece: Piece::Nothing,
        }
    } else if *first == '\\' || is_quote(*first) {
        stands(2, u32::from(*first) as u8)
    } else {
        letter_escape(*first, after, text)
    }
}

pub(crate) fn part_of(raw: bool, text: &[char]) -> Part
    ensures { plain_part result ≡ spec.part_of raw text.now }
{
    match text.split_first() {
        Some((first, after)) => if !raw && *first == '\\' {
            escape(after)
        } else {
            plain_part_of(text)
        },
        None => Part {
            length: 1,
            piece: Piece::Nothing,
        },
    }
}
