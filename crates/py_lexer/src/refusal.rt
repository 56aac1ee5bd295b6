//! Why a text has no tokens.

ghost use Rattle.std.specs.Prelude.{◌≡◌};
ghost use Rattle.py_lexer.specs.declared.refusal.LexRefusal.TheVariants.{NoMemory};

use shed_base::Place;
use std::alloc::AllocError;
use thiserror::Error;

/// The first reason why a text has no tokens, with its place, or that memory ran out.
#[derive(Clone, Copy, Debug, PartialEq, Eq, Error)]
pub enum LexRefusal {
    /// The first byte that belongs to no character of UTF-8.
    #[error("not UTF-8")]
    NotUtf8(Place),
    /// A character that begins no token, or a letter or digit just after a number.
    #[error("bad character")]
    BadCharacter(Place),
    /// The first token of a line that comes back to no level of indentation.
    #[error("bad indentation")]
    BadIndent(Place),
    /// The first token of a line whose level depends on the width of a tab.
    #[error("tabs and spaces are mixed")]
    MixedTabs(Place),
    /// The quote of a text that is not closed.
    #[error("unclosed text")]
    UnclosedText(Place),
    /// The innermost bracket that is open at the end, or one that closes none.
    #[error("unclosed bracket")]
    UnclosedBracket(Place),
    /// The backslash of an escape that is not one.
    #[error("bad escape")]
    BadEscape(Place),
    /// A number above the greatest of the width.
    #[error("wide number")]
    WideNumber(Place),
    /// A character of a text beyond ASCII, or the backslash of an escape for one.
    #[error("text beyond ASCII")]
    NonAsciiText(Place),
    /// A name that NFKC would change.
    #[error("name that is not normal")]
    NotNormal(Place),
    /// A name of more than 1,000 bytes.
    #[error("name that is too long")]
    TooLong(Place),
    #[error("out of memory")]
    NoMemory,
}

impl From<AllocError> for LexRefusal {
    ghost from_gives = { λ _ e. e ≡ NoMemory };

    fn from(_error: AllocError) -> LexRefusal {
        LexRefusal::NoMemory
    }
}
