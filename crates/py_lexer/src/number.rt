//! Numbers.

ghost use Rattle.std.specs.Prelude.{◌≡◌, ◌+◌, ◌-◌, ◌*◌, ◌^◌, ◌<◌, ◌≤◌, ◌∷◌, length, take, drop, option_map, IfSome, IsTrue};
ghost use Rattle.py_tokens.specs.Characters as characters;
ghost use Rattle.py_tokens.specs.Lexeme as spec;
ghost use Rattle.py_tokens.specs.Token.{TNumber};
ghost use Rattle.py_lexer.specs.PlainTokens.{plain_width};
ghost use Rattle.py_lexer.specs.PlainLexemes.{plain_front};
ghost use Rattle.py_lexer.specs.Digits.{is_digit_of};
ghost use Rattle.py_lexer.specs.Numbers.{unless_wide, value_then, value_within};

use crate::character::{Digits, continues_name, digit_value, grouped, is_digit};
use crate::lexeme::{Fault, Front, Lexeme, Word};
use crate::space::broken;
use shed_base::Width;

/// How many characters an exponent has behind its letter, or 0.
fn signed_exponent(text: &[char]) -> usize
    ensures value { result ≡ spec.signed_exponent text.now }
    ensures within { result ≤ length text.now }
{
    let Some((first, after)) = text.split_first() else {
        return 0;
    };
    if *first == '+' || *first == '-' {
        let digits = grouped(Digits::Decimal, after);
        if digits == 0 { 0 } else { digits + 1 }
    } else {
        grouped(Digits::Decimal, text)
    }
}

/// How many characters an exponent has, or 0.
fn exponent(text: &[char]) -> usize
    ensures value { result ≡ spec.exponent text.now }
    ensures within { result ≤ length text.now }
{
    let Some((first, after)) = text.split_first() else {
        return 0;
    };
    let length = signed_exponent(after);
    if (*first == 'e' || *first == 'E') && length != 0 {
        length + 1
    } else {
        0
    }
}

/// How many characters a point and the digits behind it have, where `before` digits stand before it, or 0.
fn fraction(before: usize, text: &[char]) -> usize
    ensures value { result ≡ spec.fraction before text.now }
    ensures within { result ≤ length text.now }
{
    let Some((first, after)) = text.split_first() else {
        return 0;
    };
    let digits = grouped(Digits::Decimal, after);
    if *first == '.' && (before != 0 || digits != 0) {
        digits + 1
    } else {
        0
    }
}

/// How many characters a float has behind its whole part, or 0.
fn float_part(before: usize, text: &[char]) -> usize
    ensures value { result ≡ spec.float_part before text.now }
    ensures within { result ≤ length text.now }
{
    let fraction = fraction(before, text);
    let (_, behind) = text.split_at(fraction);
    fraction + exponent(behind)
}

/// The greatest number.
fn greatest(width: Width) -> u64
    ensures value { result ≡ spec.greatest (plain_width width) }
{
    match width {
        Width::W32 => 2147483647,
        Width::W64 => 9223372036854775807,
    }
}

/// A value with one more digit, if it is not too large.
fn with_digit(base: u64, greatest: u64, value: u64, c: char) -> Option<u64>
    requires { value ≤ greatest }
    ensures { result ≡ value_within greatest (value_then base value c) }
{
    if c == '_' {
        return Some(value);
    }
    let wider = u128::from(value) * u128::from(base) + u128::from(digit_value(c));
    if wider > u128::from(greatest) {
        None
    } else {
        Some(wider as u64)
    }
}

/// What digits and underscores count, if it is not too much.
pub(crate) fn value(base: u64, greatest: u64, text: &[char]) -> Option<u64>
    requires { 1 ≤ base }
    ensures { result ≡ value_within greatest (characters.value_from base 0 text.now) }
{
    let mut value: u64 = 0;
    for c in text {
        match with_digit(base, greatest, value, *c) {
            Some(next) => value = next,
            None => return None,
        }
    }
    Some(value)
}

/// A whole number of so many characters, with these digits.
fn whole(width: Width, length: usize, base: u64, digits: &[char]) -> Option<Front>
    requires { 1 ≤ base }
    ensures { option_map plain_front result ≡ unless_wide (plain_width width) (spec.front length (spec.Word (TNumber (characters.value_from base 0 digits.now)))) }
{
    match value(base, greatest(width), digits) {
        Some(value) => Some(Front {
            length,
            lexeme: Lexeme::Word(Word::Number(value)),
        }),
        None => None,
    }
}

fn decimal(width: Width, length: usize, text: &[char]) -> Option<Front>
    requires { length ≤ Rattle.std.specs.Prelude.length text.now }
    ensures { option_map plain_front result ≡ unless_wide (plain_width width) (spec.decimal_number length text.now) }
{
    let (digits, _) = text.split_at(length);
    whole(width, length, 10, digits)
}

/// A whole number behind its prefix, with so many digits.
fn based(width: Width, base: u64, length: usize, text: &[char]) -> Option<Front>
    requires base { 1 ≤ base }
    requires within { length ≤ Rattle.std.specs.Prelude.length text.now }
    requires room { length + 2 < 2 ^ 64 }
    ensures { option_map plain_front result ≡ unless_wide (plain_width width) (spec.front (2 + length) (spec.Word (TNumber (characters.value_from base 0 (take length text.now))))) }
{
    let (digits, _) = text.split_at(length);
    whole(width, length + 2, base, digits)
}

/// A whole number that begins with a 0 and the second character.
fn from_zero(width: Width, second: char, digits: &[char], text: &[char]) -> Option<Front>
    requires { text.now ≡ 48 ∷ second ∷ digits.now }
    ensures { option_map plain_front result ≡ unless_wide (plain_width width) (spec.whole_number text.now) }
{
    if second == 'x' {
        let length = grouped(Digits::Hexadecimal, digits);
        if length != 0 {
            return based(width, 16, length, digits);
        }
    }
    if second == 'o' {
        let length = grouped(Digits::Octal, digits);
        if length != 0 {
            return based(width, 8, length, digits);
        }
    }
    if second == 'b' {
        let length = grouped(Digits::Binary, digits);
        if length != 0 {
            return based(width, 2, length, digits);
        }
    }
    decimal(width, grouped(Digits::Zero, text), text)
}

fn whole_number(width: Width, text: &[char]) -> Option<Front>
    ensures { option_map plain_front result ≡ unless_wide (plain_width width) (spec.whole_number text.now) }
{
    let Some((first, after)) = text.split_first() else {
        return decimal(width, 0, text);
    };
    let Some((second, digits)) = after.split_first() else {
        return decimal(width, 1, text);
    };
    if *first == '0' {
        from_zero(width, *second, digits, text)
    } else {
        decimal(width, grouped(Digits::Decimal, text), text)
    }
}

fn has_imaginary_mark(text: &[char]) -> bool
    ensures value { result ≡ spec.has_imaginary_mark text.now }
    ensures some { IsTrue result → 0 < length text.now }
{
    match text.split_first() {
        Some((first, _)) => *first == 'j' || *first == 'J',
        None => false,
    }
}

/// A number of so many digits with a float's part of so many characters behind them, or a whole one, if it is not too
/// large.
fn number_with(width: Width, digits: usize, part: usize, text: &[char]) -> Option<Front>
    requires { digits + part ≤ length text.now }
    ensures { option_map plain_front result ≡ unless_wide (plain_width width) (spec.number_with digits part text.now) }
{
    let length = digits + part;
    let (_, behind) = text.split_at(length);
    if has_imaginary_mark(behind) && length != 0 {
        Some(Front {
            length: length + 1,
            lexeme: Lexeme::Word(Word::Imaginary),
        })
    } else if part == 0 {
        whole_number(width, text)
    } else {
        Some(Front {
            length,
            lexeme: Lexeme::Word(Word::Float),
        })
    }
}

fn narrow_number(width: Width, text: &[char]) -> Option<Front>
    ensures { option_map plain_front result ≡ unless_wide (plain_width width) (spec.unchecked_number text.now) }
{
    let digits = grouped(Digits::Decimal, text);
    let (_, behind) = text.split_at(digits);
    number_with(width, digits, float_part(digits, behind), text)
}

/// Whether no letter or digit stands at a place.
fn stands_alone(text: &[char], at: usize) -> bool
    ensures { result ≡ spec.stands_alone (drop at text.now) }
{
    match text.get(at) {
        Some(c) => *c == '_' || !continues_name(*c),
        None => true,
    }
}

/// The number at the front of a text that begins with one.
pub(crate) fn number(width: Width, text: &[char]) -> Front
    ensures { plain_front result ≡ spec.number (plain_width width) text.now }
{
    match narrow_number(width, text) {
        Some(front) => {
            let length = front.length;
            if stands_alone(text, length) {
                front
            } else {
                broken(Fault::BadCharacter, length)
            }
        }
        None => broken(Fault::WideNumber, 0),
    }
}

/// Whether a text begins with a number.
pub(crate) fn begins_number(text: &[char]) -> bool
    ensures { result ≡ spec.begins_number text.now }
{
    let Some((first, after)) = text.split_first() else {
        return false;
    };
    if is_digit(*first) {
        return true;
    }
    match after.split_first() {
        Some((second, _)) => *first == '.' && is_digit(*second),
        None => false,
    }
}
