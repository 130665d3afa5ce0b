//! Entries of the booked history.
use crate::edit::Edit;
use ali_base::{Company, Cycle, Day, Editor, Serial};

/// What the office accepts into its history, one after the other.
#[derive(Drop)]
pub enum Entry {
    /// The opening of a company's cycle.
    Open {
        company: Company,
        cycle: Cycle,
        /// How many lines the file of the cycle has.
        count: u32,
        /// The date of the file's header.
        day: Day,
        /// The SHA-256 of all bytes of the file.
        digest: [u8; 32],
    },
    /// A line of a company's file.
    Line {
        company: Company,
        cycle: Cycle,
        /// The number of the line in its file, from 1.
        line: u32,
        /// The record, as sent.
        bytes: [u8; 512],
    },
    /// An editor's edit of the street guide.
    Edit {
        editor: Editor,
        serial: Serial,
        edit: Edit,
    },
}
