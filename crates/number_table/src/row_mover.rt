//! The rows that edits of the street guide change.
ghost use Rattle.std.specs.Prelude.{◌≡◌, true};
ghost use Rattle.number_table.specs.HouseArithmetic.{stays_house};
ghost use Rattle.number_table.specs.NumberTable.{NumberTable};
ghost use Rattle.number_table.specs.HeldRows.{AreChanged, count_held, least_held, shifted_row, esn_row};

use ali_base::{Esn, Tn};
use msag_ranges::Range;

/// Rows by telephone number, of which those that a range holds can be changed at once.
pub trait RowMover {
    /// The rows, however they are kept.
    ghost rows: { Self → NumberTable };

    /// The least number of a row that the range holds.
    fn least_held(&self, r: &Range) -> Option<Tn>
        ensures { result ≡ least_held (rows self.now) r.now };

    /// Adds `by` to the house number of each row that the range holds, and writes its columns anew,
    /// also for a `by` of 0; answers how many rows these are. Asks that both ends of the range with
    /// `by` added are 0 to 999,999.
    fn shift(&mut self, r: &Range, by: i32) -> u32
        requires low { stays_house r.now.low by ≡ true }
        requires high { stays_house r.now.high by ≡ true }
        ensures count { result ≡ count_held (rows self.old) r.now }
        ensures each { AreChanged (shifted_row r.now by) (rows self.old) (rows self.new) };

    /// Writes the ESN of each row that the range holds; answers how many rows these are.
    fn set_esn(&mut self, r: &Range, esn: Esn) -> u32
        ensures count { result ≡ count_held (rows self.old) r.now }
        ensures each { AreChanged (esn_row r.now esn) (rows self.old) (rows self.new) };
}
