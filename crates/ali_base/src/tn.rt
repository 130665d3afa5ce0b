//! Telephone numbers.
ghost use Rattle.std.specs.Prelude.{◌≡◌, ℕ, List, ◌↔◌, IsTrue, IsSome, ◌==◌, ◌&&◌, length};
ghost use Rattle.std.specs.List.{list_all, All};
ghost use Rattle.std.specs.Char.{is_ascii_digit};
ghost use Rattle.ali_base.specs.TelephoneNumber.{tn_of, IsTn, IsDigit};

use std::marker::Model;

/// A telephone number: ten digits. Numbers are ordered as their digits are.
#[derive(Clone, Copy, Debug, PartialEq, Eq, PartialOrd, Ord)]
pub struct Tn {
    digits: [u8; 10],
}

impl Model for Tn {
    ghost use Rattle.std.specs.Prelude.{ℕ, List};
    ghost use Rattle.ali_base.specs.TelephoneNumber.{IsTn};

    ghost Value = { List ℕ };

    ghost view = { λ t. t.digits };

    ghost invariant = { λ t. IsTn t.digits };

    ghost inverse = { λ bytes. record { digits = bytes } };
}

impl Tn {
    /// The number that ten digits are, and no other bytes.
    #[tactic(auto, unfolding(crate::specs::TelephoneNumber::tn_of))]
    pub fn read(bytes: &[u8]) -> Option<Self>
        ensures value { result ≡ tn_of bytes.now }
        ensures some { IsSome result ↔ IsTn bytes.now }
    {
        if !is_tn(bytes) {
            return None;
        }
        let mut digits = [0; 10];
        digits.copy_from_slice(bytes);
        Some(Tn { digits })
    }

    /// The ten digits.
    pub fn text(self) -> [u8; 10]
        ensures same { result ≡ self }
        ensures digits { IsTn result }
    {
        self.digits
    }
}

// Whether the bytes are ten digits.
fn is_tn(bytes: &[u8]) -> bool
    ensures exact { result ≡ ((length bytes.now == 10) && list_all is_ascii_digit bytes.now) }
    ensures digits { IsTrue result ↔ IsTn bytes.now }
{
    bytes.len() == 10 && all_digits(bytes)
}

// Whether each byte is a digit.
fn all_digits(bytes: &[u8]) -> bool
    ensures exact { result ≡ list_all is_ascii_digit bytes.now }
    ensures each { IsTrue result ↔ All IsDigit bytes.now }
{
    bytes.iter().all(|b| b.is_ascii_digit())
}
