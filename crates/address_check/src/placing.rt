//! The address check.
ghost use Rattle.std.specs.Prelude.{◌≡◌, IsSome, Some};
ghost use Rattle.ali_base.specs.HouseNumber.{house_of};
ghost use Rattle.address_check.specs.Placement.{place_in};
ghost use Rattle.ali_record.specs.Layout.{field_of};
ghost use Rattle.address_check.specs.RecordPlace.{place_of_record};

use crate::esn_columns::agrees;
use ali_base::Esn;
use ali_record::{Field, Record};
use msag_ranges::{Guide, Range};

/// The id and the ESN of the range that holds the record's address, or a code:
///
/// - 201: no range has the street
/// - 202: a range has the street, none holds the number, and none has it between its ends
/// - 203: none holds the number, and one of the street has it between its ends
/// - 204: a range holds it, and the ESN sent is not blank and not the range's
///
/// A blank ESN agrees with each range's.
pub fn check(guide: &Guide, rec: &Record) -> Result<(u32, Esn), u16>
    requires { IsSome (house_of (field_of rec.now Field.HouseNumber)) }
    ensures { Some result ≡ place_of_record guide.now.ranges rec.now }
{
    let key = rec.key();
    let house = rec.house().unwrap();
    match guide.holder_of(&key, house) {
        Some(range) => place_in(range, rec.field(Field::Esn)),
        None => Err(guide.nearest_fault(&key, house)),
    }
}

// The id and the ESN of the range that holds the address, or 204 where the columns of the ESN that
// was sent do not agree with it.
fn place_in(range: &Range, field: &[u8]) -> Result<(u32, Esn), u16>
    ensures { result ≡ place_in range.now field.now }
{
    if agrees(field, range.esn) {
        Ok((range.id, range.esn))
    } else {
        Err(204)
    }
}
