//! The tokens of a module's text, in one pass over its characters.

ghost use Rattle.std.specs.Prelude.{ℕ, ◌≡◌, ◌+◌, ◌≤◌, ◌++◌, List, [], ◌∷◌, length, take, drop, chars, IfOk, IfErr};
ghost use Rattle.py_tokens.specs.Token as meaning;
ghost use Rattle.py_tokens.specs.Lines.{cut};
ghost use Rattle.py_tokens.specs.Names.{names_in};
ghost use Rattle.py_tokens.specs.Tokens as meaning_tokens;
ghost use Rattle.shed_base.specs.Names.{with_texts};
ghost use Rattle.py_lexer.specs.Numbering.{Numbers};
ghost use Rattle.py_lexer.specs.PlainTokens.{plain_place, plain_width, plain_tokens};
ghost use Rattle.py_lexer.specs.Reading.{AreTokens, IsRefused, Extends, AreHeld};
ghost use Rattle.py_lexer.specs.Wanted.{ahead, IsApart};

use crate::lexeme::{Front, front_of};
use crate::lines::{Lines, place_behind};
use crate::refusal::LexRefusal;
use crate::token::Token;
use shed_base::{Names, Place, Width};
use std::alloc::{AllocError, Global};
use std::str;

fn characters_of(alloc: Global, text: &str) -> Result<Vec<char>, AllocError>
    ensures { IfOk result (λ r. r.items ≡ chars text.now) }
{
    let mut characters = Vec::new(alloc);
    for c in text.chars() {
        characters.push(c)?;
    }
    Ok(characters)
}

/// A text without a byte order mark at its beginning.
fn unmarked(text: &[char]) -> &[char]
    ensures { result.now ≡ meaning_tokens.unmarked text.now }
{
    match text {
        [first, rest @ ..] if *first == '\u{feff}' => rest,
        _ => text,
    }
}

/// Takes what stands at the front of a text, and tells the place behind it and how many characters it has.
fn step(
    alloc: Global,
    width: Width,
    lines: &mut Lines,
    place: Place,
    rest: &[char],
    names: &mut Names,
) -> Result<Result<(Place, usize), LexRefusal>, AllocError>
    ensures goes_on { IfOk result (λ r. IfOk r (λ next. (texts : List (List ℕ)) (end : meaning.Place) → Extends names.new texts → ahead texts lines.old end (cut (plain_width width) (plain_place place) 0 rest.now) ≡ ahead texts lines.new end (cut (plain_width width) (plain_place next.0) 0 (drop next.1 rest.now)))) }
    ensures place { IfOk result (λ r. IfOk r (λ next. plain_place next.0 ≡ meaning.place_after (plain_place place) (take next.1 rest.now))) }
    ensures within { IfOk result (λ r. IfOk r (λ next. (1 ≤ next.1) × (next.1 ≤ length rest.now))) }
    ensures apart { IfOk result (λ r. IfOk r (λ next. IsApart lines.old.output → IsApart lines.new.output)) }
    ensures numbered { IfOk result (λ r. IfOk r (λ next. Numbers names.old lines.old.output names.new lines.new.output)) }
    ensures refused { IfOk result (λ r. IfErr r (λ refusal. (texts : List (List ℕ)) (end : meaning.Place) → Extends names.new texts → IsRefused (ahead texts lines.old end (cut (plain_width width) (plain_place place) 0 rest.now)) refusal)) }
    ensures names { Extends names.old names.new }
{
    let Front { length, lexeme } = front_of(alloc, width, rest)?;
    if length == 0 || length > rest.len() {
        return Err(AllocError);
    }
    match lines.turn(place, lexeme, rest, names)? {
        Some(refusal) => Ok(Err(refusal)),
        None => {
            let (passed, _) = rest.split_at(length);
            let next = place_behind(place, passed)?;
            Ok(Ok((next, length)))
        }
    }
}

/// The tokens of a text, from a place on.
fn lex_characters(
    alloc: Global,
    text: &[char],
    beginning: Place,
    width: Width,
    names: &mut Names,
) -> Result<Result<Vec<Token>, LexRefusal>, AllocError>
    ensures tokens { IfOk result (λ r. IfOk r (λ ts. AreTokens (meaning_tokens.tokens_of_characters (plain_width width) (plain_place beginning) text.now) names.new ts.items)) }
    ensures refused { IfOk result (λ r. IfErr r (λ refusal. IsRefused (meaning_tokens.tokens_of_characters (plain_width width) (plain_place beginning) text.now) refusal)) }
    ensures names { Extends names.old names.new }
    ensures numbered { IfOk result (λ r. IfOk r (λ ts. names.new ≡ with_texts names.old (names_in (plain_tokens names.new ts.items)))) }
    ensures held { IfOk result (λ r. IfOk r (λ ts. AreHeld names.new ts.items)) }
{
    let mut lines = Lines::new(alloc, beginning);
    let mut place = beginning;
    let mut rest = text;
    while rest.len() > 0 {
        match step(alloc, width, &mut lines, place, rest, names)? {
            Err(refusal) => return Ok(Err(refusal)),
            Ok((next, passed)) => {
                let (_, behind) = rest.split_at(passed);
                place = next;
                rest = behind;
            }
        }
    }
    lines.finish(place)
}

/// The place of the first byte that is no UTF-8, where so many bytes before it are.
fn first_wrong(
    alloc: Global,
    text: &[u8],
    valid: usize,
    beginning: Place,
) -> Result<Place, AllocError>
    ensures { IfOk result (λ p. plain_place p ≡ meaning.place_after (plain_place beginning) (meaning_tokens.unmarked (chars (take valid text.now)))) }
{
    if valid > text.len() {
        return Err(AllocError);
    }
    let (front, _) = text.split_at(valid);
    match str::from_utf8(front) {
        Ok(front) => {
            let characters = characters_of(alloc, front)?;
            place_behind(beginning, unmarked(&characters))
        }
        Err(_) => Err(AllocError),
    }
}

fn lex_text(
    alloc: Global,
    text: &str,
    beginning: Place,
    width: Width,
    names: &mut Names,
) -> Result<Result<Vec<Token>, LexRefusal>, AllocError>
    ensures tokens { IfOk result (λ r. IfOk r (λ ts. AreTokens (meaning_tokens.tokens_of_characters (plain_width width) (plain_place beginning) (meaning_tokens.unmarked (chars text.now))) names.new ts.items)) }
    ensures refused { IfOk result (λ r. IfErr r (λ refusal. IsRefused (meaning_tokens.tokens_of_characters (plain_width width) (plain_place beginning) (meaning_tokens.unmarked (chars text.now))) refusal)) }
    ensures names { Extends names.old names.new }
    ensures numbered { IfOk result (λ r. IfOk r (λ ts. names.new ≡ with_texts names.old (names_in (plain_tokens names.new ts.items)))) }
    ensures held { IfOk result (λ r. IfOk r (λ ts. AreHeld names.new ts.items)) }
{
    let characters = characters_of(alloc, text)?;
    lex_characters(alloc, unmarked(&characters), beginning, width, names)
}

/// The tokens of a module's text, or the first reason why it has none. The texts of its names are added to `names` in
/// their order. After a refusal `names` may hold more texts.
pub fn lex(
    alloc: Global,
    text: &[u8],
    module: u32,
    width: Width,
    names: &mut Names,
) -> Result<Vec<Token>, LexRefusal>
    ensures tokens { IfOk result (λ ts. AreTokens (meaning_tokens.tokens_of «module» (plain_width width) text.now) names.new ts.items) }
    ensures refused { IfErr result (IsRefused (meaning_tokens.tokens_of «module» (plain_width width) text.now)) }
    ensures names { Extends names.old names.new }
    ensures numbered { IfOk result (λ ts. names.new ≡ with_texts names.old (names_in (plain_tokens names.new ts.items))) }
    ensures held { IfOk result (λ ts. AreHeld names.new ts.items) }
{
    let beginning = Place {
        module,
        line: 1,
        column: 1,
    };
    match str::from_utf8(text) {
        Ok(valid) => match lex_text(alloc, valid, beginning, width, names) {
            Ok(Ok(tokens)) => Ok(tokens),
            Ok(Err(refusal)) => Err(refusal),
            Err(_) => Err(LexRefusal::NoMemory),
        },
        Err(error) => match first_wrong(alloc, text, error.valid_up_to(), beginning) {
            Ok(place) => Err(LexRefusal::NotUtf8(place)),
            Err(_) => Err(LexRefusal::NoMemory),
        },
    }
}
