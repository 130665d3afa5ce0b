//! How a run ends.
ghost use Rattle.std.specs.Prelude.{◌≡◌};

use ali_base::{DiskName, NodeName};

/// How a run ended.
#[derive(Clone, Copy, Debug, PartialEq, Eq)]
pub enum Status {
    /// The script was read to its end, and each command has its reply.
    Done,
    /// The words are none of the forms.
    Usage,
    /// The source failed.
    SourceFault,
    /// The sink failed, or took nothing of a piece that is not empty.
    SinkFault,
    /// The number of the first command that is not in the grammar, from 1.
    Script(u32),
    /// The script has more than 67,108,864 bytes; nothing was run.
    TooLong,
    /// The disk failed while it was opened or formatted.
    OpenFault(DiskName),
    /// The disk does not begin as its format does.
    Foreign(DiskName),
    /// The frame of this number is committed, and is not there as a whole, or is past the limit.
    Damaged(DiskName, u32),
    /// The disk that is to be formatted is not empty.
    NotEmpty(DiskName),
    /// Memory ran out.
    NoMemory,
    /// The node's journal has fewer frames than were booked when the present duty began.
    Short {
        node: NodeName,
        have: u32,
        floor: u32,
    },
}

impl Status {
    ghost use Rattle.office_run.specs.Exit.{status_number};

    /// The number that the program ends with.
    pub fn number(self) -> u8
        ensures { result ≡ status_number self }
    {
        match self {
            Status::Done => 0,
            Status::Usage => 2,
            Status::SourceFault => 3,
            Status::SinkFault => 4,
            Status::Script(_) => 5,
            Status::TooLong => 6,
            Status::OpenFault(_) => 7,
            Status::Foreign(_) | Status::Damaged(..) | Status::NotEmpty(_) => 8,
            Status::NoMemory => 9,
            Status::Short { .. } => 10,
        }
    }
}
