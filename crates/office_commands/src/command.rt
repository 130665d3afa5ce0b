//! Commands.
use crate::order::Order;
use ali_base::{Editor, NodeName, Serial, Tn};
use audit_reports::Report;
use office_entry::Edit;

/// The most bytes of a carrier's file.
pub const FILE_LIMIT: u32 = 16_777_216;

/// How many positions ask: 1 to this.
pub const POSITIONS: u32 = 64;

/// The request of a position.
#[derive(Clone, Copy, Debug, PartialEq, Eq)]
pub struct Ask {
    /// The node that is asked.
    pub node: NodeName,
    /// The position that asks, 1 to `POSITIONS`.
    pub position: u32,
    pub tn: Tn,
    /// The answer is to be after at least so many entries.
    pub since: u32,
}

/// What the office is told to do.
#[derive(Clone, Copy, Debug)]
pub enum Command<'a> {
    /// A position asks for a number.
    Ask(Ask),
    /// A report of a node's table is written.
    Report {
        node: NodeName,
        report: Report,
    },
    /// The bytes of a carrier's file, which is read.
    File(&'a [u8]),
    /// An editor's edit of the street guide, which is read.
    Edit {
        editor: Editor,
        serial: Serial,
        edit: Edit,
    },
    /// The node, which has to be the holder, writes the next entry of the job.
    Write(NodeName),
    /// The next entry of the job is written, passed on and booked.
    Next,
    /// All entries that are left of the job are written, passed on and booked.
    Batch,
    /// The other node is brought to the holder's journal.
    CatchUp,
    /// An order to the nodes and the register.
    Order(Order),
}
