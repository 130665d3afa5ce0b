//! Changes of one field of a record.
ghost use Rattle.std.specs.Prelude.{◌≡◌, ◌+◌, length};
ghost use Rattle.ali_record.specs.Layout.{field_columns};
ghost use Rattle.ali_record.specs.FieldChanges.{with_field, with_house, with_esn};

use crate::field::Field;
use crate::record::Record;
use ali_base::{Esn, HIGHEST_ESN, HIGHEST_HOUSE, House};

impl Record {
    /// Writes a house number over its columns: the decimal number at the left, then spaces. All
    /// other columns stay.
    pub fn set_house(&mut self, n: House)
        ensures { self.new ≡ with_house self.old n }
    {
        prove!(n.number() <= HIGHEST_HOUSE);
        write_field(&mut self.bytes, Field::HouseNumber, &n.text());
    }

    /// Writes an emergency service number over its columns, in five digits. All other columns stay.
    pub fn set_esn(&mut self, e: Esn)
        ensures written { self.new ≡ with_esn self.old e }
        ensures size { length self.new ≡ 512 }
    {
        prove!(e.number() <= HIGHEST_ESN);
        write_field(&mut self.bytes, Field::Esn, &e.text());
    }
}

// Writes a text over the columns of a field.
fn write_field(bytes: &mut [u8; 512], field: Field, text: &[u8])
    requires { length text.now + (field_columns field).0 ≡ (field_columns field).1 + 1 }
    ensures { bytes.new ≡ with_field bytes.old field text.now }
{
    let (first, last) = field.columns();
    bytes[first - 1..last].copy_from_slice(text);
}
