//! Why a call of a node was refused.
ghost use Rattle.std.specs.Prelude.{◌≡◌};
ghost use Rattle.pair_node.specs.StartedNode.{refusal};

use node_journal::JournalFault;

/// Why a node was not started.
#[derive(Clone, Copy, Debug, PartialEq, Eq)]
pub enum StartFault {
    /// The disk failed.
    DiskFault,
    /// The disk is no journal of this node.
    Foreign,
    /// The frame of this number is committed, and is not there as a whole, or is past the limit.
    Damaged(u32),
    /// The journal has fewer frames than are needed.
    Short { have: u32, need: u32 },
    /// Memory ran out.
    NoMemory,
}

/// Why a node did not learn an entry. Those before it are learned.
#[derive(Clone, Copy, Debug, PartialEq, Eq)]
pub enum LearnFault {
    /// The disk failed. The node is closed.
    DiskFault,
    /// The bytes on the disk are no longer those of this frame.
    Changed(u32),
    /// The entry of this frame may not be booked after those before it.
    NotDue(u32),
    /// Memory ran out.
    NoMemory,
}

/// Why the node was not started, by why its journal was not opened.
pub(crate) fn refusal(fault: JournalFault) -> StartFault
    ensures { result ≡ refusal fault }
{
    match fault {
        JournalFault::DiskFault => StartFault::DiskFault,
        JournalFault::Foreign => StartFault::Foreign,
        JournalFault::Damaged(frame) => StartFault::Damaged(frame),
        JournalFault::NoMemory => StartFault::NoMemory,
    }
}
