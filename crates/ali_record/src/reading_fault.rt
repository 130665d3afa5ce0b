//! What is wrong with a record.
ghost use Rattle.std.specs.Prelude.{◌≡◌};

/// What is wrong with a record of a company's file.
#[derive(Clone, Copy, Debug, PartialEq, Eq)]
pub enum ReadingFault {
    /// 101: the function is not I, C, D, U or M
    Function,
    /// 102: the telephone number is not ten digits
    TelephoneNumber,
    /// 103: the house number of an address cannot be read, or is above 999,999
    HouseNumber,
    /// 104: the class of service of an address is not 0 to 9 or A to Z
    ClassOfService,
    /// 105: the type of service of an address is not 0 to 9
    TypeOfService,
    /// 106: the company is not that of the file
    Company,
    /// 107: the extract date is no civil day, written MMDDYY, of 2000 to 2099
    ExtractDate,
    /// 108: column 512 is not `*`
    EndMark,
    /// 109: a byte is not one from 0x20 to 0x7E
    Unprintable,
}

impl ReadingFault {
    ghost use Rattle.ali_record.specs.RecordReading.{fault_code};

    /// Its code.
    pub fn code(self) -> u16
        ensures { result ≡ fault_code self }
    {
        match self {
            ReadingFault::Function => 101,
            ReadingFault::TelephoneNumber => 102,
            ReadingFault::HouseNumber => 103,
            ReadingFault::ClassOfService => 104,
            ReadingFault::TypeOfService => 105,
            ReadingFault::Company => 106,
            ReadingFault::ExtractDate => 107,
            ReadingFault::EndMark => 108,
            ReadingFault::Unprintable => 109,
        }
    }
}
