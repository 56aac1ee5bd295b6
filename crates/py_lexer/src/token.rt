//! Tokens, each with the place of its first character (Python reference, "Lexical analysis").

ghost use Rattle.std.specs.Prelude.{◌≡◌};
ghost use Rattle.py_lexer.specs.PlainTokens.{keyword_text, operator_text};

use shed_base::{Name, Place};
use sqlite_items::Items;

/// A word that is no name ("Keywords").
#[derive(Clone, Copy, Debug, PartialEq, Eq)]
pub enum Keyword {
    False,
    None,
    True,
    And,
    As,
    Assert,
    Async,
    Await,
    Break,
    Class,
    Continue,
    Def,
    Del,
    Elif,
    Else,
    Except,
    Finally,
    For,
    From,
    Global,
    If,
    Import,
    In,
    Is,
    Lambda,
    Nonlocal,
    Not,
    Or,
    Pass,
    Raise,
    Return,
    Try,
    While,
    With,
    Yield,
}

/// An operator or a delimiter ("Operators", "Delimiters").
#[derive(Clone, Copy, Debug, PartialEq, Eq)]
pub enum Operator {
    DoubleSlashEqual,
    DoubleStarEqual,
    LeftShiftEqual,
    RightShiftEqual,
    Ellipsis,
    DoubleSlash,
    DoubleStar,
    LeftShift,
    RightShift,
    LessEqual,
    GreaterEqual,
    EqualEqual,
    NotEqual,
    PlusEqual,
    MinusEqual,
    StarEqual,
    PercentEqual,
    AmpersandEqual,
    BarEqual,
    CaretEqual,
    SlashEqual,
    AtEqual,
    Arrow,
    ColonEqual,
    Plus,
    Minus,
    Star,
    Percent,
    Ampersand,
    Bar,
    Caret,
    Tilde,
    Less,
    Greater,
    OpenParenthesis,
    CloseParenthesis,
    OpenBracket,
    CloseBracket,
    OpenBrace,
    CloseBrace,
    Comma,
    Colon,
    Dot,
    Semicolon,
    Equal,
    Slash,
    At,
}

/// What a token is.
#[derive(Debug, Drop)]
pub enum TokenKind {
    /// A name that is no keyword.
    Name(Name),
    Keyword(Keyword),
    Operator(Operator),
    /// A whole number.
    Number(u64),
    /// A text, as its code points, which are at most 127. Texts side by side are one.
    Text(Items<u8>),
    /// A number with a point or an exponent.
    Float,
    Imaginary,
    /// A literal of bytes.
    Bytes,
    /// A formatted text.
    Formatted,
    /// The end of a logical line.
    Newline,
    /// A level of indentation begins.
    Indent,
    /// A level of indentation ends.
    Dedent,
}

#[derive(Debug, Drop)]
pub struct Token {
    pub place: Place,
    pub kind: TokenKind,
}

impl Keyword {
    /// The keyword as it is spelt.
    pub fn spelling(self) -> &'static str
        ensures { result.now ≡ keyword_text self }
    {
        match self {
            Keyword::False => "False",
            Keyword::None => "None",
            Keyword::True => "True",
            Keyword::And => "and",
            Keyword::As => "as",
            Keyword::Assert => "assert",
            Keyword::Async => "async",
            Keyword::Await => "await",
            Keyword::Break => "break",
            Keyword::Class => "class",
            Keyword::Continue => "continue",
            Keyword::Def => "def",
            Keyword::Del => "del",
            Keyword::Elif => "elif",
            Keyword::Else => "else",
            Keyword::Except => "except",
            Keyword::Finally => "finally",
            Keyword::For => "for",
            Keyword::From => "from",
            Keyword::Global => "global",
            Keyword::If => "if",
            Keyword::Import => "import",
            Keyword::In => "in",
            Keyword::Is => "is",
            Keyword::Lambda => "lambda",
            Keyword::Nonlocal => "nonlocal",
            Keyword::Not => "not",
            Keyword::Or => "or",
            Keyword::Pass => "pass",
            Keyword::Raise => "raise",
            Keyword::Return => "return",
            Keyword::Try => "try",
            Keyword::While => "while",
            Keyword::With => "with",
            Keyword::Yield => "yield",
        }
    }
}

impl Operator {
    /// The operator as it is spelt.
    pub fn spelling(self) -> &'static str
        ensures { result.now ≡ operator_text self }
    {
        match self {
            Operator::DoubleSlashEqual => "//=",
            Operator::DoubleStarEqual => "**=",
            Operator::LeftShiftEqual => "<<=",
            Operator::RightShiftEqual => ">>=",
            Operator::Ellipsis => "...",
            Operator::DoubleSlash => "//",
            Operator::DoubleStar => "**",
            Operator::LeftShift => "<<",
            Operator::RightShift => ">>",
            Operator::LessEqual => "<=",
            Operator::GreaterEqual => ">=",
            Operator::EqualEqual => "==",
            Operator::NotEqual => "!=",
            Operator::PlusEqual => "+=",
            Operator::MinusEqual => "-=",
            Operator::StarEqual => "*=",
            Operator::PercentEqual => "%=",
            Operator::AmpersandEqual => "&=",
            Operator::BarEqual => "|=",
            Operator::CaretEqual => "^=",
            Operator::SlashEqual => "/=",
            Operator::AtEqual => "@=",
            Operator::Arrow => "->",
            Operator::ColonEqual => ":=",
            Operator::Plus => "+",
            Operator::Minus => "-",
            Operator::Star => "*",
            Operator::Percent => "%",
            Operator::Ampersand => "&",
            Operator::Bar => "|",
            Operator::Caret => "^",
            Operator::Tilde => "~",
            Operator::Less => "<",
            Operator::Greater => ">",
            Operator::OpenParenthesis => "(",
            Operator::CloseParenthesis => ")",
            Operator::OpenBracket => "[",
            Operator::CloseBracket => "]",
            Operator::OpenBrace => "{",
            Operator::CloseBrace => "}",
            Operator::Comma => ",",
            Operator::Colon => ":",
            Operator::Dot => ".",
            Operator::Semicolon => ";",
            Operator::Equal => "=",
            Operator::Slash => "/",
            Operator::At => "@",
        }
    }
}
