//! Names and keywords.

ghost use Rattle.std.specs.Prelude.{◌≡◌, IfOk, nat_lt, option_map, string_bytes, encode_utf8_all, bytes_eq};
ghost use Rattle.std.specs.List.{list_all};
ghost use Rattle.py_tokens.specs.Lexeme as spec;
ghost use Rattle.py_lexer.specs.PlainTokens.{keyword_text};
ghost use Rattle.py_lexer.specs.PlainLexemes.{plain_lexeme};
ghost use Rattle.py_lexer.specs.Keywords.{keyword_of, plain_name};

use crate::lexeme::{Fault, Lexeme, Word};
use crate::token::Keyword;
use std::alloc::{AllocError, Global};

const KEYWORDS: [Keyword; 35] = [
    Keyword::False,
    Keyword::None,
    Keyword::True,
    Keyword::And,
    Keyword::As,
    Keyword::Assert,
    Keyword::Async,
    Keyword::Await,
    Keyword::Break,
    Keyword::Class,
    Keyword::Continue,
    Keyword::Def,
    Keyword::Del,
    Keyword::Elif,
    Keyword::Else,
    Keyword::Except,
    Keyword::Finally,
    Keyword::For,
    Keyword::From,
    Keyword::Global,
    Keyword::If,
    Keyword::Import,
    Keyword::In,
    Keyword::Is,
    Keyword::Lambda,
    Keyword::Nonlocal,
    Keyword::Not,
    Keyword::Or,
    Keyword::Pass,
    Keyword::Raise,
    Keyword::Return,
    Keyword::Try,
    Keyword::While,
    Keyword::With,
    Keyword::Yield,
];

const MOST_BYTES: usize = 1000;

/// Whether a word is spelt so, in ASCII.
fn is_spelt(spelling: &[u8], word: &[char]) -> bool
    ensures { result ≡ bytes_eq spelling.now word.now }
{
    let mut wanted = spelling;
    let mut rest = word;
    while let Some((first, others)) = wanted.split_first() {
        let Some((c, after)) = rest.split_first() else {
            return false;
        };
        if char::from(*first) != *c {
            return false;
        }
        wanted = others;
        rest = after;
    }
    rest.is_empty()
}

fn keyword(word: &[char]) -> Option<Keyword>
    ensures { option_map keyword_text result ≡ keyword_of word.now }
{
    let mut rest: &[Keyword] = &KEYWORDS;
    while let Some((first, others)) = rest.split_first() {
        if is_spelt(first.spelling().as_bytes(), word) {
            return Some(*first);
        }
        rest = others;
    }
    None
}

fn text_of(alloc: Global, word: &[char]) -> Result<String, AllocError>
    ensures { IfOk result (λ s. string_bytes s ≡ encode_utf8_all word.now) }
{
    let mut text = String::new(alloc);
    for c in word {
        text.push(*c)?;
    }
    Ok(text)
}

fn is_ascii(word: &[char]) -> bool
    ensures { result ≡ list_all (λ c. nat_lt c 128) word.now }
{
    word.iter().all(|c| c.is_ascii())
}

/// Whether NFKC leaves a word as it is; `text` has the same characters.
fn is_normal(alloc: Global, word: &[char], text: &str) -> Result<bool, AllocError>
    requires { text.now ≡ encode_utf8_all word.now }
    ensures { IfOk result (λ answer. answer ≡ spec.is_normal word.now) }
{
    if is_ascii(word) {
        return Ok(true);
    }
    unicode_normalization::is_nfkc(alloc, text)
}

/// What a word is that is no keyword.
fn plain_name(alloc: Global, word: &[char]) -> Result<Lexeme, AllocError>
    ensures { IfOk result (λ l. plain_lexeme l ≡ plain_name word.now) }
{
    let text = text_of(alloc, word)?;
    let normal = is_normal(alloc, word, text.as_str())?;
    if !normal {
        Ok(Lexeme::Broken(Fault::NotNormal, 0))
    } else if text.len() > MOST_BYTES {
        Ok(Lexeme::Broken(Fault::TooLong, 0))
    } else {
        Ok(Lexeme::Word(Word::Name(text)))
    }
}

/// What a word is that begins as a name does.
pub(crate) fn name_of(alloc: Global, word: &[char]) -> Result<Lexeme, AllocError>
    ensures { IfOk result (λ l. plain_lexeme l ≡ spec.name_of word.now) }
{
    match keyword(word) {
        Some(keyword) => Ok(Lexeme::Word(Word::Keyword(keyword))),
        None => plain_name(alloc, word),
    }
}
