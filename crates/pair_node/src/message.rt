//! What one node tells another, and what it answers.
ghost use Rattle.std.specs.Prelude.{◌≡◌};
ghost use Rattle.pair_node.specs.Messages.{ack_of, ack_made};

use office_entry::Entry;

/// A frame of a journal, or its end. Numbers count frames from 1.
#[derive(Drop)]
pub struct Message {
    /// The present epoch when it was made.
    pub epoch: u32,
    /// The number of the frame; for the end, of the one that would come next.
    pub number: u32,
    /// The epoch of the frame before it, 0 where there is none.
    pub before: u32,
    pub what: What,
}

/// What a message tells.
#[derive(Drop)]
pub enum What {
    /// The epoch and the entry of a frame.
    Entry(u32, Entry),
    /// The journal had the frames before this number and no more.
    End,
}

/// The acknowledgement of a message.
#[derive(Clone, Copy, Debug, PartialEq, Eq)]
pub struct Ack {
    /// The epoch of the message.
    pub epoch: u32,
    /// The number of the message.
    pub number: u32,
    /// Whether it is one of the end.
    pub end: bool,
}

/// What a message comes to. A node that stores it answers all but the last.
#[derive(Clone, Copy, Debug, PartialEq, Eq)]
pub enum Delivered {
    /// The node knows a later epoch; nothing changes.
    Stale { epoch: u32, known: u32 },
    /// Frames before the message's are missing; the journal stays.
    Behind { len: u32, number: u32 },
    /// The frames from this number on are cut.
    Cut(u32),
    /// The frame is stored.
    Stored(Ack),
    /// The frame is there already.
    Have(Ack),
    /// The journal ends where the sender's does.
    HaveEnd(Ack),
    /// An acknowledgement was delivered.
    Acked(Ack),
}

impl Message {
    // Its acknowledgement.
    pub(crate) fn ack(&self, end: bool) -> Ack
        ensures { result ≡ ack_of self.now end }
    {
        Ack {
            epoch: self.epoch,
            number: self.number,
            end,
        }
    }
}

impl Delivered {
    /// The acknowledgement that a node makes when it answers so.
    pub fn ack(&self) -> Option<Ack>
        ensures { result ≡ ack_made self.now }
    {
        match self {
            Delivered::Stored(ack) | Delivered::Have(ack) | Delivered::HaveEnd(ack) => Some(*ack),
            Delivered::Stale { .. }
            | Delivered::Behind { .. }
            | Delivered::Cut(_)
            | Delivered::Acked(_) => None,
        }
    }
}
