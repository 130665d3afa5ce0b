//! Why a call of a journal was refused.
ghost use Rattle.std.specs.Prelude.{◌≡◌};
ghost use Rattle.node_journal.specs.OpenJournal.{refusal};

use commit_log::OpenFault;

/// Why a journal was not opened.
#[derive(Clone, Copy, Debug, PartialEq, Eq)]
pub enum JournalFault {
    /// The disk failed.
    DiskFault,
    /// The disk is no journal of this node.
    Foreign,
    /// The frame of this number is committed, and is not there as a whole, or is past the limit.
    Damaged(u32),
    /// Memory ran out.
    NoMemory,
}

/// Why an entry was not appended.
#[derive(Clone, Copy, Debug, PartialEq, Eq)]
pub enum AppendFault {
    /// The journal has as many frames as it may, which is the limit.
    Full(u32),
    /// The disk failed. The journal is opened again.
    DiskFault,
}

/// The disk failed in a cut. The journal is opened again.
#[derive(Clone, Copy, Debug, PartialEq, Eq)]
pub struct DiskFault;

/// Why an entry was not read.
#[derive(Clone, Copy, Debug, PartialEq, Eq)]
pub enum ReadFault {
    /// The disk failed.
    DiskFault,
    /// The bytes on the disk are no longer those of this frame.
    Changed(u32),
}

/// Why the journal was not opened, by why its log was not.
pub(crate) fn refusal(fault: OpenFault) -> JournalFault
    ensures { result ≡ refusal fault }
{
    match fault {
        OpenFault::DiskFault => JournalFault::DiskFault,
        OpenFault::Foreign => JournalFault::Foreign,
        OpenFault::Damaged(frame) => JournalFault::Damaged(frame),
    }
}
