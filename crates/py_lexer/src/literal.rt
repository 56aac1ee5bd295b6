//! Texts, and literals of bytes.

ghost use Rattle.std.specs.Prelude.{◌≡◌, ◌≤◌, ◌<◌, ◌+◌, ◌^◌, ◌∷◌, [], length, option_map, IfOk, IfSome, IsTrue, if◌then◌else◌};
ghost use Rattle.py_tokens.specs.Characters as characters;
ghost use Rattle.py_tokens.specs.Lexeme as spec;
ghost use Rattle.py_lexer.specs.PlainLexemes.{plain_front};
ghost use Rattle.py_lexer.specs.Literals.{plain_sort, quotes, kept_behind, closes_by, closes_within, sort_before};

use crate::character::{is_quote, line_end};
use crate::contents::{Contents, contents_of};
use crate::lexeme::{Fault, Front, Lexeme, Word};
use crate::space::broken;
use std::alloc::{AllocError, Global};

/// What the letters before a quote say.
#[derive(Clone, Copy)]
pub(crate) enum Sort {
    Cooked,
    Raw,
    OfBytes,
    Formatted,
}

/// The small letter, for letters.
fn small(c: char) -> u32
    ensures { result ≡ spec.small c }
{
    let code = u32::from(c);
    if 'A' <= c && c <= 'Z' {
        code + 32
    } else {
        code
    }
}

fn sort_of_one(first: char) -> Option<Sort>
    ensures { option_map plain_sort result ≡ spec.sort_of (first ∷ []) }
{
    let letter = small(first);
    if letter == u32::from('r') {
        Some(Sort::Raw)
    } else if letter == u32::from('u') {
        Some(Sort::Cooked)
    } else if letter == u32::from('b') {
        Some(Sort::OfBytes)
    } else if letter == u32::from('f') {
        Some(Sort::Formatted)
    } else {
        None
    }
}

fn sort_of_two(first: char, second: char) -> Option<Sort>
    ensures { option_map plain_sort result ≡ spec.sort_of (first ∷ second ∷ []) }
{
    let (one, two) = (small(first), small(second));
    let raw = u32::from('r');
    let bytes = u32::from('b');
    let formatted = u32::from('f');
    if (one == bytes && two == raw) || (one == raw && two == bytes) {
        Some(Sort::OfBytes)
    } else if (one == formatted && two == raw) || (one == raw && two == formatted) {
        Some(Sort::Formatted)
    } else {
        None
    }
}

fn sort_of(letters: &[char]) -> Option<Sort>
    ensures { option_map plain_sort result ≡ spec.sort_of letters.now }
{
    let Some((first, after)) = letters.split_first() else {
        return Some(Sort::Cooked);
    };
    let Some((second, others)) = after.split_first() else {
        return sort_of_one(*first);
    };
    if others.is_empty() {
        sort_of_two(*first, *second)
    } else {
        None
    }
}

fn begins_with_two(quote: char, text: &[char]) -> bool
    ensures value { result ≡ characters.begins_with (quote ∷ quote ∷ []) text.now }
    ensures within { IsTrue result → 2 ≤ length text.now }
{
    let Some((first, after)) = text.split_first() else {
        return false;
    };
    let Some((second, _)) = after.split_first() else {
        return false;
    };
    *first == quote && *second == quote
}

/// Whether a text begins with one quote or with three.
fn begins_with_quotes(three: bool, quote: char, text: &[char]) -> bool
    ensures value { result ≡ characters.begins_with (if three then quote ∷ quote ∷ quote ∷ [] else quote ∷ []) text.now }
    ensures within { IsTrue result → quotes three ≤ length text.now }
{
    let Some((first, after)) = text.split_first() else {
        return false;
    };
    *first == quote && (!three || begins_with_two(quote, after))
}

/// How many characters behind this one cannot close a text.
fn kept_behind(first: char, after: &[char]) -> usize
    ensures { result ≡ kept_behind first after.now }
{
    if first != '\\' {
        return 0;
    }
    let end = line_end(after);
    if end == 0 { 1 } else { end }
}

/// What one character says of where a text closes.
enum Turn {
    Closes,
    Never,
    /// The text goes on, and so many characters behind this one cannot close it.
    Goes(usize),
}

fn next_turn(
    three: bool,
    quote: char,
    left: usize,
    text: &[char],
    first: char,
    after: &[char],
) -> Turn
    requires { text.now ≡ first ∷ after.now }
    ensures value { spec.closes_at three quote left text.now ≡ closes_by three quote after.now result }
    ensures within { closes_within three (length text.now) result }
{
    if left > 0 {
        return Turn::Goes(left - 1);
    }
    if begins_with_quotes(three, quote, text) {
        return Turn::Closes;
    }
    if !three && line_end(text) != 0 {
        return Turn::Never;
    }
    Turn::Goes(kept_behind(first, after))
}

/// How many characters stand before the closing quotes, if they come.
fn closes_at(three: bool, quote: char, text: &[char]) -> Option<usize>
    ensures value { result ≡ spec.closes_at three quote 0 text.now }
    ensures within { IfSome result (λ n. n + quotes three ≤ length text.now) }
{
    let mut rest = text;
    let mut n: usize = 0;
    let mut left: usize = 0;
    while let Some((first, after)) = rest.split_first() {
        match next_turn(three, quote, left, rest, *first, after) {
            Turn::Closes => return Some(n),
            Turn::Never => return None,
            Turn::Goes(kept) => left = kept,
        }
        n += 1;
        rest = after;
    }
    None
}

fn quotes(three: bool) -> usize
    ensures { result ≡ quotes three }
{
    if three { 3 } else { 1 }
}

/// A text in which these characters are, with so many before them and with so many in all.
fn text_literal(
    alloc: Global,
    raw: bool,
    before: usize,
    whole: usize,
    inside: &[char],
) -> Result<Front, AllocError>
    requires { before + length inside.now < 2 ^ 64 }
    ensures { IfOk result (λ f. plain_front f ≡ spec.text_token before whole (spec.contents_of raw 0 inside.now)) }
{
    let contents = contents_of(alloc, raw, inside)?;
    match contents {
        Contents::Holds(text) => Ok(Front {
            length: whole,
            lexeme: Lexeme::Word(Word::Text(text)),
        }),
        Contents::Fails(fault, n) => Ok(broken(fault, before + n)),
    }
}

fn literal_of(
    alloc: Global,
    sort: Sort,
    before: usize,
    whole: usize,
    inside: &[char],
) -> Result<Front, AllocError>
    requires { before + length inside.now < 2 ^ 64 }
    ensures { IfOk result (λ f. plain_front f ≡ spec.literal_of (plain_sort sort) before whole inside.now) }
{
    match sort {
        Sort::Cooked => text_literal(alloc, false, before, whole, inside),
        Sort::Raw => text_literal(alloc, true, before, whole, inside),
        Sort::OfBytes => Ok(Front {
            length: whole,
            lexeme: Lexeme::Word(Word::Bytes),
        }),
        Sort::Formatted => Ok(Front {
            length: whole,
            lexeme: Lexeme::Word(Word::Formatted),
        }),
    }
}

/// A literal whose characters begin here, behind its letters and its quotes.
fn closed_literal(
    alloc: Global,
    sort: Sort,
    letters: usize,
    three: bool,
    quote: char,
    text: &[char],
) -> Result<Front, AllocError>
    requires { letters + quotes three + length text.now < 2 ^ 64 }
    ensures { IfOk result (λ f. plain_front f ≡ spec.closed_literal (plain_sort sort) letters (quotes three) text.now (spec.closes_at three quote 0 text.now)) }
{
    let quotes = quotes(three);
    match closes_at(three, quote, text) {
        Some(n) => {
            let (inside, _) = text.split_at(n);
            literal_of(
                alloc,
                sort,
                letters + quotes,
                letters + quotes + n + quotes,
                inside,
            )
        }
        None => Ok(broken(Fault::UnclosedText, letters)),
    }
}

/// A literal whose quotes begin behind so many letters.
pub(crate) fn literal(
    alloc: Global,
    sort: Sort,
    letters: usize,
    text: &[char],
) -> Result<Front, AllocError>
    requires { letters + length text.now < 2 ^ 64 }
    ensures { IfOk result (λ f. plain_front f ≡ spec.literal (plain_sort sort) letters text.now) }
{
    let Some((quote, after)) = text.split_first() else {
        return Ok(broken(Fault::UnclosedText, letters));
    };
    if begins_with_two(*quote, after) {
        let (_, inside) = after.split_at(2);
        closed_literal(alloc, sort, letters, true, *quote, inside)
    } else {
        closed_literal(alloc, sort, letters, false, *quote, after)
    }
}

/// What letters say of a literal, if one begins behind them.
pub(crate) fn sort_before(letters: &[char], text: &[char]) -> Option<Sort>
    ensures { option_map plain_sort result ≡ sort_before letters.now text.now }
{
    match text.split_first() {
        Some((quote, _)) => if is_quote(*quote) {
            sort_of(letters)
        } else {
            None
        },
        None => None,
    }
}
