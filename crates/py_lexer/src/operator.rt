//! Operators and delimiters.

ghost use Rattle.std.specs.Prelude.{◌≡◌, length};
ghost use Rattle.py_tokens.specs.Characters as characters;
ghost use Rattle.py_tokens.specs.Lexeme as spec;
ghost use Rattle.py_lexer.specs.PlainLexemes.{plain_front};
ghost use Rattle.py_lexer.specs.PlainTokens.{operator_text};
ghost use Rattle.py_tokens.specs.Token.{TOperator};

use crate::lexeme::{Fault, Front, Lexeme, Word};
use crate::space::broken;
use crate::token::Operator;

/// The longer ones first.
const OPERATORS: [Operator; 47] = [
    Operator::DoubleSlashEqual,
    Operator::DoubleStarEqual,
    Operator::LeftShiftEqual,
    Operator::RightShiftEqual,
    Operator::Ellipsis,
    Operator::DoubleSlash,
    Operator::DoubleStar,
    Operator::LeftShift,
    Operator::RightShift,
    Operator::LessEqual,
    Operator::GreaterEqual,
    Operator::EqualEqual,
    Operator::NotEqual,
    Operator::PlusEqual,
    Operator::MinusEqual,
    Operator::StarEqual,
    Operator::PercentEqual,
    Operator::AmpersandEqual,
    Operator::BarEqual,
    Operator::CaretEqual,
    Operator::SlashEqual,
    Operator::AtEqual,
    Operator::Arrow,
    Operator::ColonEqual,
    Operator::Plus,
    Operator::Minus,
    Operator::Star,
    Operator::Percent,
    Operator::Ampersand,
    Operator::Bar,
    Operator::Caret,
    Operator::Tilde,
    Operator::Less,
    Operator::Greater,
    Operator::OpenParenthesis,
    Operator::CloseParenthesis,
    Operator::OpenBracket,
    Operator::CloseBracket,
    Operator::OpenBrace,
    Operator::CloseBrace,
    Operator::Comma,
    Operator::Colon,
    Operator::Dot,
    Operator::Semicolon,
    Operator::Equal,
    Operator::Slash,
    Operator::At,
];

/// Whether a text begins with a spelling, which is in ASCII.
fn begins_with(spelling: &[u8], text: &[char]) -> bool
    ensures { result ≡ characters.begins_with spelling.now text.now }
{
    let mut front = spelling;
    let mut rest = text;
    while let Some((wanted, others)) = front.split_first() {
        let Some((first, after)) = rest.split_first() else {
            return false;
        };
        if char::from(*wanted) != *first {
            return false;
        }
        front = others;
        rest = after;
    }
    true
}

fn taken(operator: Operator) -> Front
    ensures { plain_front result ≡ spec.front (length (operator_text operator)) (spec.Word (TOperator (operator_text operator))) }
{
    Front {
        length: operator.spelling().len(),
        lexeme: Lexeme::Word(Word::Operator(operator)),
    }
}

/// The operator at the front of a text.
pub(crate) fn operator(text: &[char]) -> Front
    ensures { plain_front result ≡ spec.operator text.now }
{
    let mut rest: &[Operator] = &OPERATORS;
    while let Some((first, others)) = rest.split_first() {
        if begins_with(first.spelling().as_bytes(), text) {
            return taken(*first);
        }
        rest = others;
    }
    broken(Fault::BadCharacter, 0)
}
