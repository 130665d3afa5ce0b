//! Ranges with a difference added, and the ends of the parts of a split.
ghost use Rattle.std.specs.Prelude.{◌≡◌, ◌+◌, ◌≤◌, ◌&&◌};
ghost use Rattle.ali_base.specs.Steps.{when};
ghost use Rattle.msag_ranges.specs.HeldNumbers.{greatest_to, least_from};
ghost use Rattle.number_table.specs.HouseArithmetic.{stays_house};
ghost use Rattle.msag_edits.specs.HouseArithmetic.{is_odd, is_one_parity};
ghost use Rattle.msag_edits.specs.EditRules.{shifted, has_empty_part};

use ali_base::{HIGHEST_HOUSE, House, Parity};
use msag_ranges::{Range, greatest_to, least_from};
use number_table::added;

/// The range with the difference added to both ends; None where an end is then below 0 or above
/// 999,999.
pub(crate) fn shifted(range: &Range, by: i32) -> Option<Range>
    ensures { result ≡ when (stays_house range.now.low by && stays_house range.now.high by)
        (shifted range.now by) }
{
    Some(Range {
        low: added(range.low, by)?,
        high: added(range.high, by)?,
        ..*range
    })
}

/// Whether the range holds no number up to `at`, or none above it.
pub(crate) fn has_empty_part(range: &Range, at: House) -> bool
    ensures { result ≡ has_empty_part range.now at }
{
    at < range.low || range.high <= at
}

/// Whether every number of the parity is odd or every one even, and the difference is odd.
pub(crate) fn swaps_parity(parity: Parity, by: i32) -> bool
    ensures { result ≡ (is_one_parity parity && is_odd by) }
{
    parity != Parity::Both && by.unsigned_abs() % 2 == 1
}

/// The greatest number up to `n` that has the parity; 0 where none has it.
pub(crate) fn greatest_up_to(parity: Parity, n: House) -> House
    ensures { result ≡ greatest_to parity n }
{
    House::new(greatest_to(parity, n.number())).unwrap()
}

/// The least number above `n` that has the parity.
pub(crate) fn least_above(parity: Parity, n: House) -> House
    requires { least_from parity (n + 1) ≤ HIGHEST_HOUSE }
    ensures { result ≡ least_from parity (n + 1) }
{
    House::new(least_from(parity, n.number() + 1)).unwrap()
}
