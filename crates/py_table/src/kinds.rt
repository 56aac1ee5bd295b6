//! Kinds of tokens as numbers, by which rows are found in one step.

ghost use Rattle.std.specs.Prelude.{◌≡◌, ◌+◌, ◌<◌, [], get_or};
ghost use Rattle.py_tokens.specs.Lexeme.{keywords, operators};
ghost use Rattle.py_syntax.specs.Kinds.{place_among, kind_of as number_of_kind};
ghost use Rattle.py_lexer.specs.PlainTokens.{keyword_text, operator_text};
ghost use Rattle.py_table.specs.PlainTokens as plain;
ghost use Rattle.py_table.specs.Sights.{number_of_sight};

use py_lexer::token::{Keyword, Operator, Token, TokenKind};
use shed_base::{Name, Names};

/// The number of a sight where no token comes.
pub(crate) const END: u8 = 95;

fn keyword_number(keyword: Keyword) -> u8
    ensures { result ≡ 11 + place_among keywords (keyword_text keyword) }
{
    match keyword {
        Keyword::False => 11,
        Keyword::None => 12,
        Keyword::True => 13,
        Keyword::And => 14,
        Keyword::As => 15,
        Keyword::Assert => 16,
        Keyword::Async => 17,
        Keyword::Await => 18,
        Keyword::Break => 19,
        Keyword::Class => 20,
        Keyword::Continue => 21,
        Keyword::Def => 22,
        Keyword::Del => 23,
        Keyword::Elif => 24,
        Keyword::Else => 25,
        Keyword::Except => 26,
        Keyword::Finally => 27,
        Keyword::For => 28,
        Keyword::From => 29,
        Keyword::Global => 30,
        Keyword::If => 31,
        Keyword::Import => 32,
        Keyword::In => 33,
        Keyword::Is => 34,
        Keyword::Lambda => 35,
        Keyword::Nonlocal => 36,
        Keyword::Not => 37,
        Keyword::Or => 38,
        Keyword::Pass => 39,
        Keyword::Raise => 40,
        Keyword::Return => 41,
        Keyword::Try => 42,
        Keyword::While => 43,
        Keyword::With => 44,
        Keyword::Yield => 45,
    }
}

fn operator_number(operator: Operator) -> u8
    ensures { result ≡ 47 + place_among operators (operator_text operator) }
{
    match operator {
        Operator::DoubleSlashEqual => 47,
        Operator::DoubleStarEqual => 48,
        Operator::LeftShiftEqual => 49,
        Operator::RightShiftEqual => 50,
        Operator::Ellipsis => 51,
        Operator::DoubleSlash => 52,
        Operator::DoubleStar => 53,
        Operator::LeftShift => 54,
        Operator::RightShift => 55,
        Operator::LessEqual => 56,
        Operator::GreaterEqual => 57,
        Operator::EqualEqual => 58,
        Operator::NotEqual => 59,
        Operator::PlusEqual => 60,
        Operator::MinusEqual => 61,
        Operator::StarEqual => 62,
        Operator::PercentEqual => 63,
        Operator::AmpersandEqual => 64,
        Operator::BarEqual => 65,
        Operator::CaretEqual => 66,
        Operator::SlashEqual => 67,
        Operator::AtEqual => 68,
        Operator::Arrow => 69,
        Operator::ColonEqual => 70,
        Operator::Plus => 71,
        Operator::Minus => 72,
        Operator::Star => 73,
        Operator::Percent => 74,
        Operator::Ampersand => 75,
        Operator::Bar => 76,
        Operator::Caret => 77,
        Operator::Tilde => 78,
        Operator::Less => 79,
        Operator::Greater => 80,
        Operator::OpenParenthesis => 81,
        Operator::CloseParenthesis => 82,
        Operator::OpenBracket => 83,
        Operator::CloseBracket => 84,
        Operator::OpenBrace => 85,
        Operator::CloseBrace => 86,
        Operator::Comma => 87,
        Operator::Colon => 88,
        Operator::Dot => 89,
        Operator::Semicolon => 90,
        Operator::Equal => 91,
        Operator::Slash => 92,
        Operator::At => 93,
    }
}

/// Whether a text has ASCII characters alone.
fn is_ascii(text: &[u8]) -> bool
    ensures { result ≡ plain.is_ascii text.now }
{
    text.iter().all(|byte| *byte < 128)
}

/// Whether the text of a name has ASCII characters alone, as where it has no text.
#[tactic(auto, using(crate::proofs::NameTexts::texts))]
fn is_ascii_name(name: Name, names: &Names) -> bool
    ensures { result ≡ plain.is_ascii (get_or names.now name.0 []) }
{
    match names.text(name) {
        Some(text) => is_ascii(text.as_bytes()),
        None => true,
    }
}

pub fn kind_of(token: &Token, names: &Names) -> u8
    ensures number { result ≡ number_of_kind (plain.plain_token names.now token.now) }
    ensures below { result < 95 }
{
    match &token.kind {
        TokenKind::Name(name) => { if is_ascii_name(*name, names) { 1 } else { 0 } }
        TokenKind::Number(_) => 2,
        TokenKind::Text(_) => 3,
        TokenKind::Float => 4,
        TokenKind::Imaginary => 5,
        TokenKind::Bytes => 6,
        TokenKind::Formatted => 7,
        TokenKind::Newline => 8,
        TokenKind::Indent => 9,
        TokenKind::Dedent => 10,
        TokenKind::Keyword(keyword) => keyword_number(*keyword),
        TokenKind::Operator(operator) => operator_number(*operator),
    }
}

/// The number of the sight before these tokens.
pub fn sight(rest: &[Token], names: &Names) -> u8
    ensures number { result ≡ number_of_sight (plain.plain_tokens names.now rest.now) }
    ensures within { result < 96 }
{
    match rest.first() {
        Some(token) => kind_of(token, names),
        None => END,
    }
}
