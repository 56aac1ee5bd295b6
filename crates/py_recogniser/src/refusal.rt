//! Why tokens are not the tree of a module.

ghost use Rattle.std.specs.Prelude.{◌≡◌};
ghost use Rattle.py_recogniser.specs.declared.refusal.ParseRefusal.TheVariants.{NoMemory};

use py_lexer::token::TokenKind;
use py_outside::construct::Construct;
use shed_base::Place;
use std::alloc::AllocError;
use thiserror::Error;

/// What stands where no front of a module goes on.
#[derive(Debug, Drop)]
pub enum Found {
    Token(TokenKind),
    /// The end: no token comes.
    End,
}

/// Why tokens have no tree that is kept, or that memory ran out.
#[derive(Debug, Drop, Error)]
pub enum ParseRefusal {
    /// The first token with which no front of a module goes on. The end has the place of the last token.
    #[error("unexpected token")]
    Unexpected(Place, Found),
    /// A construct outside the profile stands in place of such a token; its head has this place.
    #[error("construct outside the profile")]
    Outside(Place, Construct),
    /// The first place by line and column where a node has more than 100 others above it: one of the tree, or, where there is none, one
    /// that has so many in each module that begins with the longest front and has a node there.
    #[error("nested too deep")]
    TooDeep(Place),
    #[error("out of memory")]
    NoMemory,
}

impl From<AllocError> for ParseRefusal {
    ghost from_gives = { λ _ e. e ≡ NoMemory };

    fn from(_error: AllocError) -> ParseRefusal {
        ParseRefusal::NoMemory
    }
}
