//! House numbers.
ghost use Rattle.std.specs.Prelude.{◌≡◌, ℕ, ◌≤◌, nat_le, length};
ghost use Rattle.ali_base.specs.Steps.{when};
ghost use Rattle.ali_base.specs.HouseNumber.{house_of, house_number, house_text};

use crate::fields::{digits_number, front_trimmed, trimmed};
use itoa::Buffer;
use std::marker::Model;

/// The highest house number.
pub const HIGHEST_HOUSE: u32 = 999_999;

/// A house number: 0 to 999,999.
#[derive(Clone, Copy, Debug, PartialEq, Eq, PartialOrd, Ord)]
pub struct House {
    number: u32,
}

impl Model for House {
    ghost use Rattle.std.specs.Prelude.{ℕ, ◌≤◌};
    ghost use Rattle.ali_base.specs.declared.house.TheConstants.{HIGHEST_HOUSE};

    ghost Value = { ℕ };

    ghost view = { λ h. h.number };

    ghost invariant = { λ h. h.number ≤ HIGHEST_HOUSE };

    ghost inverse = { λ n. record { number = n } };
}

impl House {
    /// The house number of this number, 0 to 999,999.
    pub fn new(number: u32) -> Option<Self>
        ensures { result ≡ when (nat_le number HIGHEST_HOUSE) number }
    {
        if number <= HIGHEST_HOUSE {
            Some(House { number })
        } else {
            None
        }
    }

    /// The house number in ten columns: spaces at either end are cut, nothing left is 0, and
    /// otherwise it is digits alone, leading zeros allowed. None for any other bytes.
    pub fn read(bytes: &[u8]) -> Option<Self>
        ensures { result ≡ house_of bytes.now }
    {
        if bytes.len() != 10 {
            return None;
        }
        house_in(bytes)
    }

    /// The decimal number at the left, then spaces.
    pub fn text(self) -> [u8; 10]
        ensures { result ≡ house_text self }
    {
        let mut text = [b' '; 10];
        let mut buffer = Buffer::new();
        let digits = buffer.format(self.number).as_bytes();
        text[..digits.len()].copy_from_slice(digits);
        text
    }

    /// The number, 0 to 999,999.
    pub fn number(self) -> u32
        ensures same { result ≡ self }
        ensures limit { result ≤ HIGHEST_HOUSE }
    {
        self.number
    }
}

// The house number in a field.
#[tactic(auto, unfolding(crate::specs::HouseNumber::house_number))]
fn house_in(field: &[u8]) -> Option<House>
    requires { length field.now ≤ 19 }
    ensures { result ≡ house_number field.now }
{
    let number = digits_number(trimmed(front_trimmed(field)))?;
    if number <= u64::from(HIGHEST_HOUSE) {
        Some(House {
            number: number as u32,
        })
    } else {
        None
    }
}
