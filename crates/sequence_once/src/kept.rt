//! Kept cycles as callers see them.
use ali_base::{Company, Cycle};

/// The last cycle of a company.
#[derive(Clone, Copy, Debug, PartialEq, Eq)]
pub struct Last {
    pub cycle: Cycle,
    /// How many lines its file has.
    pub count: u32,
    /// How many codes are noted: as many as lines are done.
    pub noted: u32,
}

/// A kept cycle of a company.
#[derive(Clone, Copy, Debug)]
pub struct KeptCycle<'a> {
    pub company: Company,
    pub cycle: Cycle,
    /// How many lines its file has.
    pub count: u32,
    /// The digest of its file.
    pub digest: &'a [u8; 32],
    /// The codes of the lines that are done, in their order.
    pub codes: &'a [u16],
}
