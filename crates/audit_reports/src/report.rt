//! Reports by their words.
use ali_base::{Company, Day, Esn};

/// The highest code that a report asks for.
pub const HIGHEST_CODE: u16 = 999;

/// A report.
#[derive(Clone, Copy, Debug, PartialEq, Eq)]
pub enum Report {
    /// How much was booked, and what there is now.
    Stats,
    /// The rows of a company.
    Company(Company),
    /// The rows with an emergency service number.
    Esn(Esn),
    /// The unlocked rows, with the days from the day of unlocking to this one.
    Unlocked(Day),
    /// The rows that the range of the street guide with this id holds.
    InRange(u32),
    /// The lines of the kept cycles that got this code.
    Code(u16),
}
