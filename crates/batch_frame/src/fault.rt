//! The faults of a carrier's file.
use ali_base::Company;

/// The most records of a file, between the header and the trailer.
pub const MOST_RECORDS: u32 = 10_000;

/// The first fault of bytes that are no carrier's file, in the order in which faults are tested.
#[derive(Clone, Copy, Debug, PartialEq, Eq)]
pub enum FrameFault {
    /// So many bytes are no header and trailer with whole records between.
    Length(u64),
    /// More than 10,000 records: so many.
    TooMany(u64),
    /// This record, counted from 1 with the header, is the first that the separator does not follow.
    Separator(u32),
    /// The first wrong field of the header: 1 name, 2 date, 3 company, 4 cycle, 5 profile, 6 end mark.
    Header(u32),
    /// The first wrong field of the trailer: 1 name, 2 date, 3 company, 4 count, 5 end mark.
    Trailer(u32),
    /// The header and the trailer name two companies.
    Company { header: Company, trailer: Company },
    /// The trailer tells one count of records, and another was found.
    Count { told: u32, found: u32 },
}
