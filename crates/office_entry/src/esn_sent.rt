//! Emergency service numbers as sent.
ghost use Rattle.std.specs.Prelude.{◌≡◌, ◌≤◌, nat_le};
ghost use Rattle.ali_base.specs.Steps.{when};

use crate::edit::HIGHEST_SENT;
use std::marker::Model;

/// An emergency service number as an edit sends it, 0 to 999,999. The rules of the guide judge
/// whether it is one.
#[derive(Clone, Copy, Debug, PartialEq, Eq, PartialOrd, Ord)]
pub struct EsnSent {
    number: u32,
}

impl Model for EsnSent {
    ghost use Rattle.std.specs.Prelude.{ℕ, ◌≤◌};
    ghost use Rattle.office_entry.specs.declared.edit.TheConstants.{HIGHEST_SENT};

    ghost Value = { ℕ };

    ghost view = { λ c. c.number };

    ghost invariant = { λ c. c.number ≤ HIGHEST_SENT };

    ghost inverse = { λ n. record { number = n } };
}

impl EsnSent {
    /// The esn as sent of this number, 0 to 999,999.
    pub fn new(number: u32) -> Option<Self>
        ensures { result ≡ when (nat_le number HIGHEST_SENT) number }
    {
        if number <= HIGHEST_SENT {
            Some(EsnSent { number })
        } else {
            None
        }
    }

    /// The number, 0 to 999,999.
    pub fn number(self) -> u32
        ensures same { result ≡ self }
        ensures limit { result ≤ HIGHEST_SENT }
    {
        self.number
    }
}
