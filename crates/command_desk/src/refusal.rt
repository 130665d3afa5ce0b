//! Why a command is not carried out.
ghost use Rattle.std.specs.Prelude.{◌≡◌};
ghost use Rattle.command_desk.specs.MadeReply.{fault_reply, refusal_reply};
ghost use Rattle.command_machine.specs.ReplyText.{reply_line};

use crate::lines::{
    damaged_line, disk_line, node_line, not_in_step_line, not_paired_line, number_line,
    numbers_line, out_of_duty_line, paired_line, words_line, words_number_line, words_numbers_line,
};
use batch_desk::{frame_line, refusal_line};
use batch_frame::FrameFault;
use pair_core::PairFault;
use sequence_once::CycleFault;
use text_line::Line;

/// Why a command is not carried out.
#[derive(Clone, Copy, Debug, PartialEq, Eq)]
pub enum Refusal {
    /// The nodes, the register or their disks refuse.
    Pair(PairFault),
    /// Fewer entries are booked than were asked for.
    Ahead { since: u32, count: u32 },
    /// The first fault of a file's frame.
    Frame(FrameFault),
    /// The fault of the standing of a file or an edit.
    Standing(CycleFault),
    /// There is no job.
    NoJob,
}

impl Refusal {
    /// Its line.
    pub fn line(&self) -> Line
        ensures { result ≡ reply_line (refusal_reply self.now) }
    {
        match self {
            Refusal::Pair(fault) => fault_line(fault),
            Refusal::Ahead { since, count } => numbers_line(b"AHEAD", *since, *count),
            Refusal::Frame(fault) => frame_line(fault),
            Refusal::Standing(fault) => refusal_line(fault),
            Refusal::NoJob => words_line(b"NO", b"JOB"),
        }
    }
}

/// The line of a refusal of the nodes or their disks. That memory ran out is no reply, and of an entry
/// that may not be booked its job's standing is told.
pub(crate) fn fault_line(fault: &PairFault) -> Line
    ensures { result ≡ reply_line (fault_reply fault.now) }
{
    match fault {
        PairFault::Down(disk) => disk_line(b"DOWN", *disk),
        PairFault::Up(disk) => disk_line(b"UP", *disk),
        PairFault::OutOfDuty {
            node,
            epoch,
            holder,
        } => out_of_duty_line(*node, *epoch, *holder),
        PairFault::InFlight(number) => words_number_line(b"IN", b"FLIGHT", *number),
        PairFault::NoFlight => words_line(b"NO", b"FLIGHT"),
        PairFault::Unstored { number, epoch } => numbers_line(b"UNSTORED", *number, *epoch),
        PairFault::NoEntry { number, len } => words_numbers_line(b"NO", b"ENTRY", *number, *len),
        PairFault::NoMessage { number, sent } => words_numbers_line(
            b"NO", b"MESSAGE", *number, *sent,
        ),
        PairFault::MessagesFull(limit) => words_number_line(b"MESSAGES", b"FULL", *limit),
        PairFault::NotPaired { epoch, holder } => not_paired_line(*epoch, *holder),
        PairFault::Paired { epoch, holder } => paired_line(*epoch, *holder),
        PairFault::NotInStep { ended, due } => not_in_step_line(*ended, *due),
        PairFault::EpochEnd(epoch) => words_number_line(b"EPOCH", b"END", *epoch),
        PairFault::Full(limit) => number_line(b"FULL", *limit),
        PairFault::Fault(disk) => disk_line(b"FAULT", *disk),
        PairFault::Foreign(disk) => disk_line(b"FOREIGN", *disk),
        PairFault::Damaged(disk, frame) => damaged_line(*disk, *frame),
        PairFault::Short { node, have, need } => node_line(b"SHORT", *node, *have, *need),
        PairFault::NotDue(_) | PairFault::NoMemory => Line::new(),
    }
}
