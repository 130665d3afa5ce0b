//! Reading a record.
ghost use Rattle.std.specs.Prelude.{◌≡◌, ◌≢◌, ℕ, ◌+◌, ◌≤◌, List, length, true, Some, None, IsSome, MatchResult};
ghost use Rattle.ali_base.specs.Columns.{trimmed, is_blank};
ghost use Rattle.ali_base.specs.HouseNumber.{house_of};
ghost use Rattle.ali_base.specs.CivilDay.{day_of};
ghost use Rattle.ali_base.specs.Company.{is_company};
ghost use Rattle.ali_record.specs.Layout.{field_of, byte_of, field_columns};
ghost use Rattle.ali_record.specs.RecordReading.{IsAccepted, conditions, first_fault, reading_code, is_function, sends_address, is_class_of_service, is_type_of_service};

use crate::field::Field;
use crate::reading_fault::ReadingFault;
use ali_base::{Company, Day, House, Tn, columns, is_blank, is_printable, trimmed};
use std::marker::Model;

/// A record that reading accepts: 512 bytes, kept as sent.
#[derive(Drop)]
pub struct Record {
    pub(crate) bytes: [u8; 512],
}

impl Model for Record {
    ghost use Rattle.std.specs.Prelude.{ℕ, List};
    ghost use Rattle.ali_record.specs.RecordReading.{IsAccepted};

    ghost Value = { List ℕ };

    ghost view = { λ r. r.bytes };

    ghost invariant = { λ r. IsAccepted r.bytes };
}

/// The record of a company's file, or the code of the first condition that it breaks, tested in this
/// order:
///
/// - 108: column 512 is not `*`
/// - 109: a byte is not one from 0x20 to 0x7E
/// - 101: the function is not I, C, D, U or M
/// - 102: the telephone number is not ten digits
/// - 106: the company is not that of the file
/// - 107: the extract date is no civil day, written MMDDYY, of 2000 to 2099
/// - 103, of I, C and M: the house number cannot be read, or is above 999,999
/// - 104, of I, C and M: the class of service is not 0 to 9 or A to Z
/// - 105, of I, C and M: the type of service is not 0 to 9
#[tactic(auto, unfolding(crate::specs::RecordReading::reading_code))]
pub fn read_record(bytes: &[u8; 512], company: Company) -> Result<Record, u16>
    ensures { MatchResult result
        (λ record_read. (record_read ≡ bytes.now) × (reading_code company bytes.now ≡ 0))
        (λ code. (code ≡ reading_code company bytes.now) × (code ≢ 0)) }
{
    match first_fault(bytes, company) {
        None => Ok(Record { bytes: *bytes }),
        Some(fault) => Err(fault.code()),
    }
}

impl Record {
    /// The 512 bytes, as sent.
    pub fn bytes(&self) -> &[u8; 512]
        ensures same { result.now ≡ self.now }
        ensures accepted { IsAccepted result.now }
    {
        &self.bytes
    }

    /// The bytes of a field.
    pub fn field(&self, field: Field) -> &[u8]
        ensures value { result.now ≡ field_of self.now field }
        ensures len { length result.now + (field_columns field).0 ≡ (field_columns field).1 + 1 }
    {
        field_of(&self.bytes, field)
    }

    /// A field without the spaces at its end.
    pub fn text(&self, field: Field) -> &[u8]
        ensures value { result.now ≡ trimmed (field_of self.now field) }
        ensures len { length result.now + (field_columns field).0 ≤ (field_columns field).1 + 1 }
    {
        trimmed(field_of(&self.bytes, field))
    }

    /// The function, one of I, C, D, U and M.
    pub fn function(&self) -> u8
        ensures { result ≡ byte_of self.now Field.Function }
    {
        byte_of(&self.bytes, Field::Function)
    }

    /// Whether its function sends an address, as I, C and M do. Its house number can then be read.
    pub fn sends_address(&self) -> bool
        ensures value { result ≡ sends_address (byte_of self.now Field.Function) }
        ensures house { result ≡ true
            → IsSome (house_of (field_of self.now Field.HouseNumber)) }
    {
        sends_address(byte_of(&self.bytes, Field::Function))
    }

    /// The telephone number.
    pub fn tn(&self) -> Tn
        ensures { result ≡ field_of self.now Field.TelephoneNumber }
    {
        Tn::read(field_of(&self.bytes, Field::TelephoneNumber)).unwrap()
    }

    /// The house number: spaces at either end are cut, and nothing left is 0.
    pub fn house(&self) -> Option<House>
        ensures { result ≡ house_of (field_of self.now Field.HouseNumber) }
    {
        House::read(field_of(&self.bytes, Field::HouseNumber))
    }

    /// Whether the columns of the house number are spaces alone.
    pub fn house_blank(&self) -> bool
        ensures { result ≡ is_blank (field_of self.now Field.HouseNumber) }
    {
        is_blank(field_of(&self.bytes, Field::HouseNumber))
    }

    /// The company: the five bytes of its columns.
    pub fn company(&self) -> Company
        ensures { result ≡ field_of self.now Field.Company }
    {
        Company::read(field_of(&self.bytes, Field::Company)).unwrap()
    }

    /// The extract date.
    pub fn day(&self) -> Day
        ensures { day_of (field_of self.now Field.ExtractDate) ≡ Some result }
    {
        Day::read(field_of(&self.bytes, Field::ExtractDate)).unwrap()
    }
}

// The fault of the first condition that holds.
#[tactic(auto, unfolding(crate::specs::RecordReading::conditions))]
fn first_fault(bytes: &[u8; 512], company: Company) -> Option<ReadingFault>
    ensures first { result ≡ first_fault (conditions company bytes.now) }
    ensures own { result ≡ None
        → (field_of bytes.now Field.Company ≡ company) × (is_company company ≡ true) }
{
    if byte_of(bytes, Field::EndMark) != b'*' {
        return Some(ReadingFault::EndMark);
    }
    if !is_printable(bytes) {
        return Some(ReadingFault::Unprintable);
    }
    if !is_function(byte_of(bytes, Field::Function)) {
        return Some(ReadingFault::Function);
    }
    if Tn::read(field_of(bytes, Field::TelephoneNumber)).is_none() {
        return Some(ReadingFault::TelephoneNumber);
    }
    if field_of(bytes, Field::Company) != company.text().as_slice() {
        return Some(ReadingFault::Company);
    }
    if Day::read(field_of(bytes, Field::ExtractDate)).is_none() {
        return Some(ReadingFault::ExtractDate);
    }
    let addressed = sends_address(byte_of(bytes, Field::Function));
    if addressed && House::read(field_of(bytes, Field::HouseNumber)).is_none() {
        return Some(ReadingFault::HouseNumber);
    }
    if addressed && !is_class_of_service(byte_of(bytes, Field::ClassOfService)) {
        return Some(ReadingFault::ClassOfService);
    }
    if addressed && !is_type_of_service(byte_of(bytes, Field::TypeOfService)) {
        return Some(ReadingFault::TypeOfService);
    }
    None
}

// The bytes of a field.
fn field_of(bytes: &[u8; 512], field: Field) -> &[u8]
    ensures value { result.now ≡ field_of bytes.now field }
    ensures len { length result.now + (field_columns field).0 ≡ (field_columns field).1 + 1 }
{
    let (first, last) = field.columns();
    columns(bytes, first, last)
}

// The byte of a field of one column.
fn byte_of(bytes: &[u8; 512], field: Field) -> u8
    ensures { result ≡ byte_of bytes.now field }
{
    bytes[field.columns().0 - 1]
}

// Whether the byte is a function.
fn is_function(byte: u8) -> bool
    ensures { result ≡ is_function byte }
{
    byte == b'I' || byte == b'C' || byte == b'D' || byte == b'U' || byte == b'M'
}

// Whether records of this function send an address.
fn sends_address(function: u8) -> bool
    ensures { result ≡ sends_address function }
{
    function == b'I' || function == b'C' || function == b'M'
}

// Whether the byte is a class of service.
fn is_class_of_service(byte: u8) -> bool
    ensures { result ≡ is_class_of_service byte }
{
    (48 <= byte && byte <= 57) || (65 <= byte && byte <= 90)
}

// Whether the byte is a type of service.
fn is_type_of_service(byte: u8) -> bool
    ensures { result ≡ is_type_of_service byte }
{
    48 <= byte && byte <= 57
}
