//! A record as a carrier sends it.
ghost use Rattle.std.specs.Prelude.{◌≡◌, ◌≤◌, length};

use crate::columns::put;

/// A record of JOHN SMITH in DENVER CO, with class 1, type 0 and the date 010224, by the fields that
/// tests change.
#[derive(Clone, Copy, Debug)]
pub struct SentRecord<'a> {
    /// I, C, D, U or M.
    pub function: u8,
    /// Ten digits.
    pub tn: &'a [u8; 10],
    /// At most ten bytes.
    pub house: &'a [u8],
    /// The name of a street with the suffix ST, at most 60 bytes.
    pub street: &'a [u8],
    /// At most five bytes.
    pub esn: &'a [u8],
    pub company: &'a [u8; 5],
}

impl<'a> SentRecord<'a> {
    /// A record of ABC01 for a house of MAIN ST, without an ESN.
    pub fn new(function: u8, tn: &'a [u8; 10], house: &'a [u8]) -> Self
        ensures house { result.house.now ≡ house.now }
        ensures street { length result.street.now ≤ 60 }
        ensures esn { length result.esn.now ≤ 5 }
    {
        SentRecord {
            function,
            tn,
            house,
            street: b"MAIN",
            esn: b"",
            company: b"ABC01",
        }
    }

    /// Its 512 bytes.
    pub fn bytes(&self) -> [u8; 512]
        requires house { length self.now.house.now ≤ 10 }
        requires street { length self.now.street.now ≤ 60 }
        requires esn { length self.now.esn.now ≤ 5 }
    {
        let SentRecord {
            function,
            tn,
            house,
            street,
            esn,
            company,
        } = *self;
        let mut bytes = [b' '; 512];
        bytes[0] = function;
        put(&mut bytes, 2, tn);
        put(&mut bytes, 12, house);
        put(&mut bytes, 28, street);
        put(&mut bytes, 88, b"ST");
        put(&mut bytes, 94, b"DENVER");
        put(&mut bytes, 126, b"CO");
        put(&mut bytes, 188, b"JOHN SMITH");
        put(&mut bytes, 220, b"10");
        put(&mut bytes, 226, esn);
        put(&mut bytes, 251, b"010224");
        put(&mut bytes, 261, company);
        put(&mut bytes, 512, b"*");
        bytes
    }
}
