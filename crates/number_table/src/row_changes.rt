//! A row that a range holds, and its changes.
ghost use Rattle.std.specs.Prelude.{◌≡◌, true};
ghost use Rattle.number_table.specs.HouseArithmetic.{stays_house};
ghost use Rattle.number_table.specs.HeldRows.{holds_row, shifted_row, esn_row};

use crate::houses::added;
use ali_base::Esn;
use msag_ranges::{Range, holds};
use number_life::Row;

/// Whether the range holds the address of the row.
pub(crate) fn is_held(row: &Row, r: &Range) -> bool
    ensures { result ≡ holds_row r.now row.now }
{
    match row.rec.house() {
        Some(house) => holds(r, &row.rec.key(), house),
        None => false,
    }
}

/// Adds the difference to the house number of the row, where the range holds it.
pub(crate) fn shift_row(row: &mut Row, r: &Range, by: i32)
    requires low { stays_house r.now.low by ≡ true }
    requires high { stays_house r.now.high by ≡ true }
    ensures { row.new ≡ shifted_row r.now by row.old }
{
    if is_held(row, r) {
        let house = row.rec.house().unwrap();
        row.rec.set_house(added(house, by).unwrap());
    }
}

/// Writes the ESN of the row, where the range holds it.
pub(crate) fn set_row_esn(row: &mut Row, r: &Range, esn: Esn)
    ensures { row.new ≡ esn_row r.now esn row.old }
{
    if is_held(row, r) {
        row.rec.set_esn(esn);
    }
}
