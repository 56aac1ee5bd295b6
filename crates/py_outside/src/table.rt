//! The row that one token of sight takes, with a construct added or with none.

ghost use Rattle.std.specs.Prelude.{◌≡◌, ◌<◌, ◌==◌, ◌&&◌, map, slice_get};
ghost use Rattle.std.specs.Option.{option_map, option_copied};
ghost use Rattle.grammars.specs.Sets.{has};
ghost use Rattle.grammars.specs.Run.{pick};
ghost use Rattle.py_constructs.specs.Table.{number_of as number_of_name, additions, grammar_with, widening_of, sets};
ghost use Rattle.py_constructs.specs.Values.{Value, Widening};
ghost use Rattle.py_outside.specs.PlainConstructs.{plain_construct, additions_of};
ghost use Rattle.py_outside.specs.PlainSymbols.{plain_name, plain_row, plain_taken, plain_rows, plain_added};
ghost use Rattle.py_outside.specs.Sights.{own_before, row_before, allowed, first_added, spread};
ghost use Rattle.py_table.specs.Sights.{sight_numbered};

use crate::added::rows_added;
use crate::construct::Construct;
use crate::name_numbers::number_of;
use crate::place_sights::row_numbers_of;
use crate::rows::rows_of;
use crate::symbol::{AddedRow, Name, Row, Rows, Taken};
use sqlite_items::at;

/// The row with this number, if there is one.
fn taken_at(rows: Rows, number: usize) -> Option<Taken>
    ensures { (w : Widening) → option_map (plain_taken w) result ≡ slice_get (plain_rows w rows) number }
{
    match rows {
        Rows::Profile(rows) => match at(rows, number) {
            Some(row) => Some(Taken::Profile(row)),
            None => None,
        },
        Rows::Own(rows) => match at(rows, number) {
            Some(row) => Some(Taken::Own(row)),
            None => None,
        },
    }
}

/// The row that takes the place of a name at a sight, of those that stand with no construct added.
fn own_row(name: Name, sight: u8) -> Option<Taken>
    requires { sight < 96 }
    ensures { (w : Widening) → option_map (plain_taken w) result ≡ own_before w (plain_name name) (sight_numbered sight) }
{
    match at(row_numbers_of(name), sight as usize) {
        Some(number) => taken_at(rows_of(name), *number as usize),
        None => None,
    }
}

/// Whether a row is added to the name with this number, and a sight takes it.
fn is_added_here(row: &AddedRow, number: u8, sight: u8) -> bool
    ensures { result ≡ ((number_of_name (plain_name row.now.name) == number) && has (map sight_numbered row.now.sights.now) (sight_numbered sight)) }
{
    number_of(row.name) == number && row.sights.contains(&sight)
}

/// The first of the rows that a construct adds which is added to this name and that a sight takes.
fn added_row(construct: Construct, name: Name, sight: u8) -> Option<&'static Row>
    ensures { option_map (plain_row (widening_of (additions (plain_construct construct)))) (option_copied result) ≡ first_added (number_of_name (plain_name name)) (sight_numbered sight) (spread (additions (plain_construct construct))) }
{
    let number = number_of(name);
    let added = rows_added(construct);
    for row in added {
        if is_added_here(row, number, sight) {
            return Some(&row.row);
        }
    }
    None
}

/// The row that a construct adds to a name and that a sight takes.
fn row_added(construct: Option<Construct>, name: Name, sight: u8) -> Option<Taken>
    ensures { option_map (plain_taken (widening_of (additions_of construct))) result ≡ first_added (number_of_name (plain_name name)) (sight_numbered sight) (spread (additions_of construct)) }
{
    match construct {
        Some(construct) => match added_row(construct, name, sight) {
            Some(row) => Some(Taken::Own(row)),
            None => None,
        },
        None => None,
    }
}

/// The row that takes the place of a name at a sight.
fn row_with(construct: Option<Construct>, name: Name, sight: u8) -> Option<Taken>
    requires { sight < 96 }
    ensures { option_map (plain_taken (widening_of (additions_of construct))) result ≡ row_before (additions_of construct) (plain_name name) (sight_numbered sight) }
{
    match own_row(name, sight) {
        Some(row) => Some(row),
        None => row_added(construct, name, sight),
    }
}

/// The row that takes the place of a name at a sight, if its guard allows it.
pub fn row_at(construct: Option<Construct>, name: Name, sight: u8) -> Option<Taken>
    requires { sight < 96 }
    ensures row { option_map (plain_taken (widening_of (additions_of construct))) result ≡ row_before (additions_of construct) (plain_name name) (sight_numbered sight) }
    ensures picked { (v : Value) → pick (grammar_with (additions_of construct)) sets (plain_name name) v (sight_numbered sight) ≡ allowed v (option_map (plain_taken (widening_of (additions_of construct))) result) }
{
    row_with(construct, name, sight)
}
