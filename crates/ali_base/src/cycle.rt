//! Cycles of carriers' files.
ghost use Rattle.std.specs.Prelude.{◌≡◌, ℕ, ◌≤◌, ◌&&◌, nat_le};
ghost use Rattle.ali_base.specs.Steps.{when};
ghost use Rattle.ali_base.specs.Numbers.{cycle_of, zero_padded};

use crate::numbers::{fixed_number, write_zero_padded};
use std::marker::Model;

/// The last number of a company's file.
pub const LAST_CYCLE: u32 = 999_999;

/// The number of a company's file, 1 to 999,999: its files are numbered one after the other.
#[derive(Clone, Copy, Debug, PartialEq, Eq, PartialOrd, Ord)]
pub struct Cycle {
    number: u32,
}

impl Model for Cycle {
    ghost use Rattle.std.specs.Prelude.{ℕ, ◌≤◌};
    ghost use Rattle.ali_base.specs.declared.cycle.TheConstants.{LAST_CYCLE};

    ghost Value = { ℕ };

    ghost view = { λ c. c.number };

    ghost invariant = { λ c. (1 ≤ c.number) × (c.number ≤ LAST_CYCLE) };

    ghost inverse = { λ n. record { number = n } };
}

impl Cycle {
    /// The cycle of this number, 1 to 999,999.
    pub fn new(number: u32) -> Option<Self>
        ensures { result ≡ when (nat_le 1 number && nat_le number LAST_CYCLE) number }
    {
        if 1 <= number && number <= LAST_CYCLE {
            Some(Cycle { number })
        } else {
            None
        }
    }

    /// The cycle that six digits write, and no other bytes.
    pub fn read(bytes: &[u8]) -> Option<Self>
        ensures { result ≡ cycle_of bytes.now }
    {
        let number = fixed_number(6, 1, LAST_CYCLE, bytes)?;
        Some(Cycle { number })
    }

    /// Its six digits.
    pub fn text(self) -> [u8; 6]
        ensures { result ≡ zero_padded 6 self }
    {
        let mut text = [0; 6];
        write_zero_padded(&mut text, self.number);
        text
    }

    /// The number, 1 to 999,999.
    pub fn number(self) -> u32
        ensures same { result ≡ self }
        ensures low { 1 ≤ result }
        ensures high { result ≤ LAST_CYCLE }
    {
        self.number
    }
}
