//! Emergency service numbers.
ghost use Rattle.std.specs.Prelude.{◌≡◌, ℕ, ◌≤◌, ◌&&◌, nat_le};
ghost use Rattle.ali_base.specs.Steps.{when};
ghost use Rattle.ali_base.specs.Numbers.{esn_of, zero_padded};

use crate::numbers::{fixed_number, write_zero_padded};
use std::marker::Model;

/// The highest emergency service number.
pub const HIGHEST_ESN: u32 = 99_999;

/// An emergency service number (ESN), 1 to 99,999.
#[derive(Clone, Copy, Debug, PartialEq, Eq, PartialOrd, Ord)]
pub struct Esn {
    number: u32,
}

impl Model for Esn {
    ghost use Rattle.std.specs.Prelude.{ℕ, ◌≤◌};
    ghost use Rattle.ali_base.specs.declared.esn.TheConstants.{HIGHEST_ESN};

    ghost Value = { ℕ };

    ghost view = { λ c. c.number };

    ghost invariant = { λ c. (1 ≤ c.number) × (c.number ≤ HIGHEST_ESN) };

    ghost inverse = { λ n. record { number = n } };
}

impl Esn {
    /// The esn of this number, 1 to 99,999.
    pub fn new(number: u32) -> Option<Self>
        ensures { result ≡ when (nat_le 1 number && nat_le number HIGHEST_ESN) number }
    {
        if 1 <= number && number <= HIGHEST_ESN {
            Some(Esn { number })
        } else {
            None
        }
    }

    /// The esn that five digits write, and no other bytes.
    pub fn read(bytes: &[u8]) -> Option<Self>
        ensures { result ≡ esn_of bytes.now }
    {
        let number = fixed_number(5, 1, HIGHEST_ESN, bytes)?;
        Some(Esn { number })
    }

    /// Its five digits.
    pub fn text(self) -> [u8; 5]
        ensures { result ≡ zero_padded 5 self }
    {
        let mut text = [0; 5];
        write_zero_padded(&mut text, self.number);
        text
    }

    /// The number, 1 to 99,999.
    pub fn number(self) -> u32
        ensures same { result ≡ self }
        ensures low { 1 ≤ result }
        ensures high { result ≤ HIGHEST_ESN }
    {
        self.number
    }
}
