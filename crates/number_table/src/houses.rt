//! House numbers with a difference added.
ghost use Rattle.std.specs.Prelude.{◌≡◌};
ghost use Rattle.ali_base.specs.Steps.{when};
ghost use Rattle.number_table.specs.HouseArithmetic.{added, stays_house};

use ali_base::House;

/// The number with the difference added; None where that is below 0 or above 999,999.
pub fn added(n: House, by: i32) -> Option<House>
    ensures { result ≡ when (stays_house n by) (added n by) }
{
    let magnitude = by.unsigned_abs();
    if by < 0 {
        House::new(n.number().checked_sub(magnitude)?)
    } else {
        House::new(n.number().checked_add(magnitude)?)
    }
}
