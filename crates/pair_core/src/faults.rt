//! Why a call of the pair was refused.

use ali_base::{DiskName, NodeName};
use office_state::DueFault;

/// Why an event of the pair is not done.
#[derive(Clone, Copy, Debug, PartialEq, Eq)]
pub enum PairFault {
    /// The disk's node or the register was stopped, or failed, and was not started since.
    Down(DiskName),
    /// The disk's node or the register is up.
    Up(DiskName),
    /// The node is not the holder of the duty of this epoch.
    OutOfDuty {
        node: NodeName,
        epoch: u32,
        holder: NodeName,
    },
    /// An entry is written and not booked.
    InFlight(u32),
    /// No entry is written that is not booked.
    NoFlight,
    /// The other node did not acknowledge the entry of this number in this epoch.
    Unstored {
        number: u32,
        epoch: u32,
    },
    /// The frame of this number is neither in the journal nor the one that would come next.
    NoEntry {
        number: u32,
        len: u32,
    },
    /// So many messages are on their way, and the one of this number is not among them.
    NoMessage {
        number: u32,
        sent: u32,
    },
    /// As many messages are on their way as may be.
    MessagesFull(u32),
    /// The holder of the duty of this epoch is alone.
    NotPaired {
        epoch: u32,
        holder: NodeName,
    },
    /// The holder of the duty of this epoch is not alone.
    Paired {
        epoch: u32,
        holder: NodeName,
    },
    /// The other node acknowledged this end of the history, 0 for none, and this one is due.
    NotInStep {
        ended: u32,
        due: u32,
    },
    /// The epoch is the last one.
    EpochEnd(u32),
    /// The entry may not be booked next.
    NotDue(DueFault),
    /// The journal has this many frames, its limit.
    Full(u32),
    /// The disk failed. Its node, or the register, is down.
    Fault(DiskName),
    /// The disk does not begin as its format does. Its node, or the register, stays down.
    Foreign(DiskName),
    /// The frame of this number is not what was written there. Its node, or the register, is down.
    Damaged(DiskName, u32),
    /// The journal has fewer frames than the node needs. The node stays down.
    Short {
        node: NodeName,
        have: u32,
        need: u32,
    },
    /// Memory ran out.
    NoMemory,
}

/// Why the pair is not opened.
#[derive(Clone, Copy, Debug, PartialEq, Eq)]
pub enum OpenEnd {
    /// The disk failed.
    OpenFault(DiskName),
    /// The disk does not begin as its format does.
    Foreign(DiskName),
    /// The frame of this number is committed, and is not there as a whole, or is past the limit.
    Damaged(DiskName, u32),
    /// The node's journal has fewer frames than were booked when the present duty began.
    Short {
        node: NodeName,
        have: u32,
        floor: u32,
    },
    /// Memory ran out.
    NoMemory,
}
