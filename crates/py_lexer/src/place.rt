//! The order of places.

ghost use Rattle.std.specs.Prelude.{◌≡◌};
ghost use Rattle.py_tokens.specs.Places as meaning;
ghost use Rattle.py_lexer.specs.PlainTokens.{plain_place};

use shed_base::Place;

/// Whether a place comes before another in the text of one module: by line, and then by column.
pub fn is_before(place: Place, other: Place) -> bool
    ensures { result ≡ meaning.is_before (plain_place place) (plain_place other) }
{
    place.line < other.line || (place.line == other.line && place.column < other.column)
}
