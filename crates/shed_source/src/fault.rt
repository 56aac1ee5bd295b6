//! Why the text of a module is not translated, as it is said.

ghost use Rattle.std.specs.Prelude.{ℕ, ◌≡◌, ◌<◌, ◌++◌, true, false, List, [], ◌∷◌, Bool, codes, IfOk, OnOk, string_bytes};
ghost use Rattle.std.specs.Fmt.{decimal};
ghost use Rattle.py_lexer.specs.PlainTokens.{plain_place, plain_kind};
ghost use Rattle.py_constructs.specs.Construct.{construct_text};
ghost use Rattle.py_outside.specs.PlainConstructs.{plain_construct};
ghost use Rattle.shed_meaning.specs.TokenText.{hexadecimal, has_character, quote_of, quoted, all_quoted, repr_of, token_text};
ghost use Rattle.shed_source.specs.Faults.{found_text, IsRefusalSaid};

use py_lexer::refusal::LexRefusal;
use py_lexer::token::TokenKind;
use py_outside::construct::Construct;
use py_recogniser::refusal::Found;
use shed_base::{Names, NoMemory, Place};
use std::alloc::{AllocError, Global};

/// A fault of a module's text: its place, what is said of it, and whether it passes a limit.
#[derive(Debug, Drop)]
pub struct Fault {
    pub place: Place,
    pub said: String,
    pub limit: bool,
}

fn fault_at(alloc: Global, place: Place, said: &str, limit: bool) -> Result<Fault, NoMemory>
    ensures { IfOk result (λ f. (f.place ≡ place) × (string_bytes f.said ≡ said.now) × (f.limit ≡ limit)) }
{
    Ok(Fault {
        place,
        said: String::from_str(alloc, said)?,
        limit,
    })
}

/// The fault of a text that has no tokens.
pub fn bad_token(alloc: Global, refusal: LexRefusal) -> Result<Fault, NoMemory>
    ensures { IfOk result (λ f. IsRefusalSaid refusal (plain_place f.place) (string_bytes f.said) f.limit) }
{
    match refusal {
        LexRefusal::NotUtf8(place) => fault_at(alloc, place, "L1 NotUtf8", false),
        LexRefusal::BadCharacter(place) => fault_at(alloc, place, "L2 BadCharacter", false),
        LexRefusal::BadIndent(place) => fault_at(alloc, place, "L3 BadIndent", false),
        LexRefusal::MixedTabs(place) => fault_at(alloc, place, "L4 MixedTabs", false),
        LexRefusal::UnclosedText(place) => fault_at(alloc, place, "L5 UnclosedText", false),
        LexRefusal::UnclosedBracket(place) => {
            fault_at(alloc, place, "L6 UnclosedBracket", false)
        }
        LexRefusal::BadEscape(place) => fault_at(alloc, place, "L7 BadEscape", false),
        LexRefusal::WideNumber(place) => fault_at(alloc, place, "L8 WideNumber", false),
        LexRefusal::NonAsciiText(place) => fault_at(alloc, place, "L9 NonAsciiText", false),
        LexRefusal::NotNormal(place) => fault_at(alloc, place, "L10 NotNormal", false),
        LexRefusal::TooLong(place) => fault_at(alloc, place, "L11 TooLong", true),
        LexRefusal::NoMemory => Err(NoMemory),
    }
}

/// Something that is not built, at a place.
pub fn unbuilt(alloc: Global, place: Place) -> Result<Fault, NoMemory>
    ensures { IfOk result (λ f. (f.place ≡ place) × (string_bytes f.said ≡ codes "P2 Outside unbuilt") × (f.limit ≡ false)) }
{
    fault_at(alloc, place, "P2 Outside unbuilt", false)
}

/// A node with too many others above it, at a place.
pub fn too_deep(alloc: Global, place: Place) -> Result<Fault, NoMemory>
    ensures { IfOk result (λ f. (f.place ≡ place) × (string_bytes f.said ≡ codes "P3 TooDeep") × (f.limit ≡ true)) }
{
    fault_at(alloc, place, "P3 TooDeep", true)
}

/// A construct outside the profile, whose head has this place.
pub fn outside(alloc: Global, place: Place, construct: Construct) -> Result<Fault, NoMemory>
    ensures { IfOk result (λ f. (f.place ≡ place) × (string_bytes f.said ≡ codes "P2 Outside " ++ construct_text (plain_construct construct)) × (f.limit ≡ false)) }
{
    let mut said = String::from_str(alloc, "P2 Outside ")?;
    said.push_str(construct.name())?;
    fault_at(alloc, place, said.as_str(), false)
}

/// A token that was not expected.
pub fn unexpected(
    alloc: Global,
    place: Place,
    found: &Found,
    names: &Names,
) -> Result<Fault, NoMemory>
    ensures { IfOk result (λ f. (f.place ≡ place) × (string_bytes f.said ≡ codes "P1 Unexpected " ++ found_text names.now found.now) × (f.limit ≡ false)) }
{
    let mut said = String::from_str(alloc, "P1 Unexpected ")?;
    push_found(&mut said, found, names)?;
    Ok(Fault {
        place,
        said,
        limit: false,
    })
}

fn push_found(said: &mut String, found: &Found, names: &Names) -> Result<(), AllocError>
    ensures { OnOk result (string_bytes said.new ≡ string_bytes said.old ++ found_text names.now found.now) }
{
    match found {
        Found::Token(kind) => push_token(said, kind, names),
        Found::End => said.push_str("END"),
    }
}

/// A token as it is printed.
#[tactic(auto, using(py_table::proofs::NameTexts::texts))]
fn push_token(said: &mut String, kind: &TokenKind, names: &Names) -> Result<(), AllocError>
    ensures { OnOk result (string_bytes said.new ≡ string_bytes said.old ++ token_text (plain_kind names.now kind.now)) }
{
    match kind {
        TokenKind::Name(name) => match names.text(*name) {
            Some(text) => said.push_str(text),
            None => Ok(()),
        },
        TokenKind::Keyword(keyword) => said.push_str(keyword.spelling()),
        TokenKind::Operator(operator) => said.push_str(operator.spelling()),
        TokenKind::Number(value) => push_number(said, *value),
        TokenKind::Text(text) => push_repr(said, text.as_slice()),
        TokenKind::Float => said.push_str("float"),
        TokenKind::Imaginary => said.push_str("imaginary"),
        TokenKind::Bytes => said.push_str("bytes"),
        TokenKind::Formatted => said.push_str("fstring"),
        TokenKind::Newline => said.push_str("NEWLINE"),
        TokenKind::Indent => said.push_str("INDENT"),
        TokenKind::Dedent => said.push_str("DEDENT"),
    }
}

fn push_number(said: &mut String, value: u64) -> Result<(), AllocError>
    ensures { OnOk result (string_bytes said.new ≡ string_bytes said.old ++ decimal value) }
{
    let text = format!(in *said.allocator(); "{value}")?;
    said.push_str(text.as_str())
}

fn has(text: &[u8], character: u8) -> bool
    ensures { result ≡ has_character character text.now }
{
    text.iter().any(|c| *c == character)
}

/// The quote that `repr` takes.
fn quote(text: &[u8]) -> u8
    ensures { result ≡ quote_of text.now }
{
    if has(text, b'\'') && !has(text, b'"') {
        b'"'
    } else {
        b'\''
    }
}

/// A text as `repr` writes it. Its code points are below 128.
fn push_repr(said: &mut String, text: &[u8]) -> Result<(), AllocError>
    ensures { OnOk result (string_bytes said.new ≡ string_bytes said.old ++ repr_of text.now) }
{
    let quote = quote(text);
    push_ascii(said, quote)?;
    push_all_quoted(said, quote, text)?;
    push_ascii(said, quote)
}

fn push_all_quoted(said: &mut String, quote: u8, text: &[u8]) -> Result<(), AllocError>
    ensures { OnOk result (string_bytes said.new ≡ string_bytes said.old ++ all_quoted quote text.now) }
{
    for c in text {
        push_quoted(said, quote, *c)?;
    }
    Ok(())
}

/// One character between quotes.
fn push_quoted(said: &mut String, quote: u8, c: u8) -> Result<(), AllocError>
    ensures { OnOk result (string_bytes said.new ≡ string_bytes said.old ++ quoted quote c) }
{
    if c == b'\\' {
        return said.push_str("\\\\");
    }
    if c == quote {
        said.push_str("\\")?;
        return push_ascii(said, c);
    }
    if c == b'\n' {
        return said.push_str("\\n");
    }
    if c == b'\r' {
        return said.push_str("\\r");
    }
    if c == b'\t' {
        return said.push_str("\\t");
    }
    if c < 32 || c == 127 {
        said.push_str("\\x")?;
        push_ascii(said, digit(c / 16))?;
        return push_ascii(said, digit(c % 16));
    }
    push_ascii(said, c)
}

/// A lower-case hexadecimal digit, of a number below 16.
fn digit(number: u8) -> u8
    requires { number < 16 }
    ensures { result ≡ hexadecimal number }
{
    if number < 10 {
        48 + number
    } else {
        87 + number
    }
}

/// One character, which is below 128: no other comes.
fn push_ascii(said: &mut String, c: u8) -> Result<(), AllocError>
    ensures { OnOk result (string_bytes said.new ≡ string_bytes said.old ++ c ∷ []) }
{
    if c < 128 {
        said.push(c as char)
    } else {
        Err(AllocError)
    }
}
