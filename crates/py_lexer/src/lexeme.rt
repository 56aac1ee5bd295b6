//! What stands at the front of a text: white space, a comment, a line end or a token, each as long as it can be.

ghost use Rattle.std.specs.Prelude.{◌≡◌, ◌≤◌, length, IfOk};
ghost use Rattle.std.specs.List.{prefix_len};
ghost use Rattle.py_tokens.specs.Characters as characters;
ghost use Rattle.py_tokens.specs.Lexeme as spec;
ghost use Rattle.py_lexer.specs.PlainTokens.{plain_width};
ghost use Rattle.py_lexer.specs.PlainLexemes.{plain_front};

use crate::character::{begins_name, continues_name, is_quote, line_end};
use crate::literal::{Sort, literal, sort_before};
use crate::name::name_of;
use crate::number::{begins_number, number};
use crate::operator::operator;
use crate::space::{comment, joined};
use crate::token::{Keyword, Operator};
use shed_base::Width;
use sqlite_items::Items;
use std::alloc::{AllocError, Global};

/// What a token is, as far as its characters tell.
#[derive(Debug, Drop)]
pub(crate) enum Word {
    Name(String),
    Keyword(Keyword),
    Operator(Operator),
    Number(u64),
    Text(Items<u8>),
    Float,
    Imaginary,
    Bytes,
    Formatted,
}

/// Why no token can be formed.
#[derive(Clone, Copy, Debug, PartialEq, Eq)]
pub(crate) enum Fault {
    BadCharacter,
    UnclosedText,
    BadEscape,
    WideNumber,
    NonAsciiText,
    NotNormal,
    TooLong,
}

#[derive(Debug, Drop)]
pub(crate) enum Lexeme {
    /// A space or a tab.
    Blank(char),
    /// A comment, or a backslash with the line end that it takes away.
    Nothing,
    LineEnd,
    Word(Word),
    /// So many characters stand before the wrong one.
    Broken(Fault, usize),
}

/// What stands at the front, and how many characters it has.
#[derive(Debug, Drop)]
pub(crate) struct Front {
    pub length: usize,
    pub lexeme: Lexeme,
}

/// How many characters of names stand at the front.
fn word_len(text: &[char]) -> usize
    ensures value { result ≡ prefix_len characters.continues_name text.now }
    ensures within { result ≤ length text.now }
{
    for (at, c) in text.iter().enumerate() {
        if !continues_name(*c) {
            return at;
        }
    }
    text.len()
}

/// A name, or a literal with letters before its quotes.
fn name_or_literal(alloc: Global, text: &[char]) -> Result<Front, AllocError>
    ensures { IfOk result (λ f. plain_front f ≡ spec.name_or_literal text.now) }
{
    let length = word_len(text);
    let (word, behind) = text.split_at(length);
    match sort_before(word, behind) {
        Some(sort) => literal(alloc, sort, length, behind),
        None => {
            let lexeme = name_of(alloc, word)?;
            Ok(Front { length, lexeme })
        }
    }
}

/// What stands at the front of a text that is not empty.
pub(crate) fn front_of(alloc: Global, width: Width, text: &[char]) -> Result<Front, AllocError>
    ensures { IfOk result (λ f. plain_front f ≡ spec.front_of (plain_width width) text.now) }
{
    let Some((first, after)) = text.split_first() else {
        return Ok(Front {
            length: 0,
            lexeme: Lexeme::Nothing,
        });
    };
    let end = line_end(text);
    if end != 0 {
        Ok(Front {
            length: end,
            lexeme: Lexeme::LineEnd,
        })
    } else if *first == ' ' || *first == '\t' {
        Ok(Front {
            length: 1,
            lexeme: Lexeme::Blank(*first),
        })
    } else if *first == '#' {
        Ok(comment(text))
    } else if *first == '\\' {
        Ok(joined(after))
    } else if begins_name(*first) {
        name_or_literal(alloc, text)
    } else if is_quote(*first) {
        literal(alloc, Sort::Cooked, 0, text)
    } else if begins_number(text) {
        Ok(number(width, text))
    } else {
        Ok(operator(text))
    }
}
