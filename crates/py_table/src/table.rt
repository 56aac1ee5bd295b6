//! The row that one token of sight takes.

ghost use Rattle.std.specs.Prelude.{◌≡◌, ◌<◌};
ghost use Rattle.std.specs.Option.{option_map, option_copied};
ghost use Rattle.py_table.specs.PlainSymbols.{plain_nonterminal, plain_row};
ghost use Rattle.py_table.specs.Sights.{sight_numbered, row_before};

use crate::rows::rows_of;
use crate::sights::row_numbers_of;
use crate::symbol::{Nonterminal, Row};
use sqlite_items::at;

/// The row that takes the place of a nonterminal at a sight, if its guard allows it.
pub(crate) fn row_at(nonterminal: Nonterminal, sight: u8) -> Option<&'static Row>
    requires { sight < 96 }
    ensures { option_map plain_row (option_copied result) ≡ row_before (plain_nonterminal nonterminal) (sight_numbered sight) }
{
    match at(row_numbers_of(nonterminal), sight as usize) {
        Some(number) => at(rows_of(nonterminal), *number as usize),
        None => None,
    }
}
