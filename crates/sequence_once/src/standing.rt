//! The answers on a file, or on a guide edit, whose serial stands in the place of a cycle.

/// What a file with a cycle that is in order is to the kept cycles.
#[derive(Clone, Copy, Debug, PartialEq, Eq)]
pub enum Standing {
    /// Its cycle is the company's next one, and may be opened.
    New,
    /// Its cycle was opened and is unfinished; the number is the next line, counted from 1.
    Resume(u32),
    /// Its cycle is finished.
    Complete,
}

/// Why a file has no standing.
#[derive(Clone, Copy, Debug, PartialEq, Eq)]
pub enum CycleFault {
    /// Its cycle is too high; the number is the cycle that is due.
    Gap(u32),
    /// Its cycle is kept with the digest of another file.
    Differs {
        /// The digest that is kept.
        kept: [u8; 32],
        /// The digest of this file.
        sent: [u8; 32],
    },
    /// Its cycle is no longer kept; the number is the oldest kept cycle of the company.
    TooOld(u32),
    /// Its company is new, and there are as many companies as this limit.
    CompaniesFull(u32),
}
