//! The address in a record, and the emergency service number sent with it.
ghost use Rattle.std.specs.Prelude.{◌≡◌};
ghost use Rattle.ali_base.specs.Columns.{is_blank};
ghost use Rattle.ali_record.specs.Layout.{field_of};
ghost use Rattle.ali_record.specs.Address.{record_key, esn_number};

use crate::field::Field;
use crate::record::Record;
use ali_base::{StreetKey, digits_number, front_trimmed, is_blank, trimmed};

impl Record {
    /// The street key.
    pub fn key(&self) -> StreetKey
        ensures { result ≡ record_key self.now }
    {
        StreetKey::read(
            self.field(Field::Community),
            self.field(Field::State),
            self.field(Field::PrefixDirectional),
            self.field(Field::StreetName),
            self.field(Field::StreetSuffix),
            self.field(Field::PostDirectional),
        )
    }

    /// Whether the columns of the ESN are spaces alone.
    pub fn esn_blank(&self) -> bool
        ensures { result ≡ is_blank (field_of self.now Field.Esn) }
    {
        is_blank(self.field(Field::Esn))
    }

    /// The number in the columns of the ESN: spaces at either end are cut, and the rest is digits.
    /// None where it is not, or where the columns are blank.
    pub fn esn_value(&self) -> Option<u32>
        ensures { result ≡ esn_number (field_of self.now Field.Esn) }
    {
        if self.esn_blank() {
            return None;
        }
        let number = digits_number(trimmed(front_trimmed(self.field(Field::Esn))))?;
        Some(number as u32)
    }
}
