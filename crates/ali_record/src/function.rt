//! The functions of a record.
ghost use Rattle.std.specs.Prelude.{◌≡◌};

/// What a record asks for, by its function.
#[derive(Clone, Copy, Debug, PartialEq, Eq)]
pub enum Function {
    /// I: a new number.
    Insert,
    /// C: another record for the number.
    Change,
    /// D: the number goes.
    Delete,
    /// U: the donor company lets the number move to a recipient company.
    Unlock,
    /// M: the recipient company takes the number over.
    Migrate,
}

impl Function {
    ghost use Rattle.ali_record.specs.Functions.{function_of};

    /// The function of a record's letter, which is I, C, D, U or M.
    pub fn of(byte: u8) -> Self
        ensures { result ≡ function_of byte }
    {
        if byte == b'I' {
            Function::Insert
        } else if byte == b'C' {
            Function::Change
        } else if byte == b'D' {
            Function::Delete
        } else if byte == b'U' {
            Function::Unlock
        } else {
            Function::Migrate
        }
    }
}
