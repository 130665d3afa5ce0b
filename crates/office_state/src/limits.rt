//! The limits of an office.
ghost use Rattle.std.specs.Prelude.{◌≡◌};
ghost use Rattle.office_state.specs.OfficeState.{office_limits};

/// How much an office holds at most.
#[derive(Clone, Copy, Debug, PartialEq, Eq)]
pub struct Limits {
    /// Companies whose files are taken.
    pub companies: u32,
    /// Telephone numbers in the table.
    pub numbers: u32,
    /// Ranges of the street guide.
    pub ranges: u32,
}

impl Limits {
    /// The limits of the office that the program runs: 64 companies, 300,000 numbers and 100,000
    /// ranges.
    pub fn office() -> Self
        ensures { result ≡ office_limits }
    {
        Limits {
            companies: 64,
            numbers: 300_000,
            ranges: 100_000,
        }
    }
}
