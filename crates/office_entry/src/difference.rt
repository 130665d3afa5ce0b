//! Differences of house numbers.
ghost use Rattle.std.specs.Prelude.{◌≡◌, ◌≤◌, ℤ, pos};
ghost use Rattle.office_entry.specs.Differences.{small_difference, magnitude, negative};

use crate::edit::HIGHEST_SENT;
use ali_base::House;
use std::marker::Model;

/// What is added to house numbers: -999,999 to 999,999.
#[derive(Clone, Copy, Debug, PartialEq, Eq, PartialOrd, Ord)]
pub struct Difference {
    number: i32,
}

impl Model for Difference {
    ghost use Rattle.std.specs.Prelude.{ℤ, ◌≤◌};
    ghost use Rattle.office_entry.specs.Differences.{magnitude};
    ghost use Rattle.office_entry.specs.declared.edit.TheConstants.{HIGHEST_SENT};

    ghost Value = { ℤ };

    ghost view = { λ d. d.number };

    ghost invariant = { λ d. magnitude d.number ≤ HIGHEST_SENT };

    ghost inverse = { λ z. record { number = z } };
}

impl Difference {
    /// The difference of this number, -999,999 to 999,999.
    pub fn new(number: i32) -> Option<Self>
        ensures { result ≡ small_difference number }
    {
        if number.unsigned_abs() <= HIGHEST_SENT {
            Some(Difference { number })
        } else {
            None
        }
    }

    /// The house number above 0.
    pub(crate) fn above(house: House) -> Self
        ensures { result ≡ pos house }
    {
        Difference {
            number: house.number() as i32,
        }
    }

    /// The house number below 0; none for 0.
    pub(crate) fn below(house: House) -> Option<Self>
        ensures { result ≡ negative house }
    {
        match house.number() {
            0 => None,
            number => Some(Difference {
                number: -(number as i32),
            }),
        }
    }

    /// The number, -999,999 to 999,999.
    pub fn number(self) -> i32
        ensures same { result ≡ self }
        ensures limit { magnitude result ≤ HIGHEST_SENT }
    {
        self.number
    }
}
