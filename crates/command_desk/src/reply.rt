//! Replies to commands.
use crate::refusal::Refusal;
use ali_base::{Duty, NodeName};
use batch_desk::{JobDone, JobRead};
use pair_core::{Delivered, PairFault, PairStatus};
use retrieval::Form;

/// A reply to a command.
#[derive(Drop)]
pub enum Reply {
    /// The command is not carried out, or a disk failed in it.
    Refused(Refusal),
    /// The form of the number after so many entries.
    Answer {
        count: u32,
        form: Form,
    },
    /// The text of a report after so many entries.
    Reported {
        count: u32,
        text: Vec<u8>,
    },
    /// A job was read.
    Read(JobRead),
    /// All entries of the job are booked.
    Complete(JobDone),
    /// All entries of the desk's job are booked; of a file the error file follows.
    Finished,
    /// The other node has the holder's journal, of so many frames.
    CaughtUp(u32),
    /// The entry is written: its number in the journal, and its epoch.
    Written {
        number: u32,
        epoch: u32,
    },
    /// The entry's number in the booked history, and its verdict.
    Booked {
        number: u32,
        code: u16,
        detail: u64,
    },
    /// The message of this number is on its way.
    Sent(u32),
    /// What a delivery came to, and the number of the acknowledgement that it made, 0 for none.
    Delivered {
        delivered: Delivered,
        made: u32,
    },
    /// The duty changed to this one.
    OnDuty(Duty),
    /// The register is started, and has this duty.
    StartedDuty(Duty),
    /// The node is stopped.
    Stopped(NodeName),
    /// The node is started: how many frames its journal has, and the latest epoch that it knows.
    Started {
        node: NodeName,
        len: u32,
        known: u32,
    },
    /// How things stand.
    Status(PairStatus),
}

/// That the other node was left behind, since it is down or its disk failed.
#[derive(Clone, Copy, Debug, PartialEq, Eq)]
pub struct LeftBehind {
    /// Why.
    pub fault: PairFault,
    /// The duty on which the holder is alone; none where the register could not change it.
    pub duty: Option<Duty>,
}

/// All that is told of a command.
#[derive(Drop)]
pub struct Replied {
    /// Of `NEXT` and `BATCH`: that the other node was left behind.
    pub left: Option<LeftBehind>,
    pub last: Reply,
}
