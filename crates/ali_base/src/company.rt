//! Telephone companies.
ghost use Rattle.std.specs.Prelude.{◌≡◌, List, length, true};
ghost use Rattle.std.specs.List.{list_all};
ghost use Rattle.ali_base.specs.Company.{company_of, is_company, is_company_byte};

use crate::fields::{is_blank, trimmed};
use std::marker::Model;

/// A telephone company: letters A to Z and digits, padded with spaces to five bytes. Companies are
/// ordered by these bytes.
#[derive(Clone, Copy, Debug, PartialEq, Eq, PartialOrd, Ord)]
pub struct Company {
    bytes: [u8; 5],
}

impl Model for Company {
    ghost use Rattle.std.specs.Prelude.{ℕ, List, ◌≡◌, true};
    ghost use Rattle.ali_base.specs.Company.{is_company};

    ghost Value = { List ℕ };

    ghost view = { λ c. c.bytes };

    ghost invariant = { λ c. is_company c.bytes ≡ true };

    ghost inverse = { λ bytes. record { bytes = bytes } };
}

impl Company {
    /// The company that five bytes are, and no other bytes.
    pub fn read(bytes: &[u8]) -> Option<Self>
        ensures { result ≡ company_of bytes.now }
    {
        if !is_company(bytes) {
            return None;
        }
        let mut five = [0; 5];
        five.copy_from_slice(bytes);
        Some(Company { bytes: five })
    }

    /// The five bytes.
    pub fn text(self) -> [u8; 5]
        ensures same { result ≡ self }
        ensures company { is_company result ≡ true }
    {
        self.bytes
    }
}

// Whether the bytes are a company.
#[tactic(auto, unfolding(crate::specs::Company::is_company))]
fn is_company(bytes: &[u8]) -> bool
    ensures exact { result ≡ is_company bytes.now }
    ensures five { result ≡ true → length bytes.now ≡ 5 }
{
    bytes.len() == 5 && !is_blank(bytes) && are_company_bytes(trimmed(bytes))
}

// Whether each byte is a letter A to Z or a digit.
fn are_company_bytes(bytes: &[u8]) -> bool
    ensures { result ≡ list_all is_company_byte bytes.now }
{
    bytes
        .iter()
        .all(|b| (65 <= *b && *b <= 90) || (48 <= *b && *b <= 57))
}
