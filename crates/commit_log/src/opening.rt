//! Opening: the bodies are read, up to the first frame that is not committed.
ghost use Rattle.std.specs.Prelude.{◌≡◌, ◌≤◌, ◌<◌, ◌^◌, ◌+◌, ◌-◌, [], ℕ, length, IfOk, IsTrue, ◌↔◌};
ghost use Rattle.crash_disk.specs.CrashOutcomes.{Stays, HasCause};
ghost use Rattle.commit_log.specs.LogImage.{frame_place};
ghost use Rattle.commit_log.specs.Opening.{ReadsLog, ReadsFirst, ReadsFrames};
ghost use Rattle.commit_log.specs.Pieces.{Buffers, BuffersBehind};

use crate::blocks::COMMITTED;
use crate::body_reader::BodyReader;
use crate::pieces::{Block, Piece, read_block, read_frame};
use crash_disk::{Disk, Failed};

/// Why a log was not opened.
#[derive(Clone, Copy, Debug, PartialEq, Eq)]
pub enum OpenFault {
    /// The disk failed.
    DiskFault,
    /// The disk begins otherwise than with the first block.
    Foreign,
    /// The frame of this number is committed, and no whole frame of that number is there, or it is
    /// past the limit.
    Damaged(u32),
}

/// Syncs, and reads the bodies of a log through a buffer. It changes no byte of the disk.
pub fn read_log<D: Disk, R: BodyReader>(
    disk: &mut D,
    head: &[u8],
    limit: u32,
    buffer: &mut [u8],
    reader: &mut R,
) -> Result<u32, OpenFault>
    requires head { length head.now < 2 ^ 32 }
    requires limit { limit + 1 < 2 ^ 32 }
    requires buffer { length head.now < length buffer.old }
    requires reader { (limit ≤ R.room reader.old) × R.holds reader.old [] }
    ensures read { ReadsLog R.is_body (R.holds reader.new) head.now limit
        (D.state disk.old) (D.state disk.new) result }
    ensures within { IfOk result (λ count. count ≤ limit) }
    ensures capacity { R.capacity reader.new ≡ R.capacity reader.old }
    ensures stays { Stays (D.state disk.old) (D.state disk.new) }
    ensures faults { (D.state disk.old).faults ≤ (D.state disk.new).faults }
{
    match disk.sync() {
        Ok(()) => {}
        Err(Failed) => return Err(OpenFault::DiskFault),
    }
    match first_commit(disk, head, buffer) {
        Ok(Some(first)) => read_frames(disk, head.len() as u32, limit, buffer, first, reader),
        Ok(None) => Err(OpenFault::Foreign),
        Err(Failed) => Err(OpenFault::DiskFault),
    }
}

// Reads the first block. None where the disk begins otherwise than with the head.
fn first_commit<D: Disk>(
    disk: &mut D,
    head: &[u8],
    buffer: &mut [u8],
) -> Result<Option<Block>, Failed>
    requires buffer { length head.now < length buffer.old }
    ensures buffers { IfOk result
        (BuffersBehind (D.state disk.new) (frame_place (length head.now) 1) buffer.new) }
    ensures first { IfOk result (ReadsFirst head.now (D.state disk.old)) }
    ensures stays { Stays (D.state disk.old) (D.state disk.new) }
    ensures cause { HasCause (D.state disk.old) (D.state disk.new) result }
{
    match read_block(disk, buffer, Piece { at: 0, end: 0 }, 0, head.len())? {
        Some(block) => {
            let body = &buffer[block.at..block.at + head.len()];
            Ok(is_same(body, head).then_some(block))
        }
        None => Ok(None),
    }
}

fn is_same(a: &[u8], b: &[u8]) -> bool
    ensures { IsTrue result ↔ (a.now ≡ b.now) }
{
    a == b
}

// Reads the frames behind the first block.
fn read_frames<D: Disk, R: BodyReader>(
    disk: &mut D,
    body_len: u32,
    limit: u32,
    buffer: &mut [u8],
    first: Block,
    reader: &mut R,
) -> Result<u32, OpenFault>
    requires limit { limit + 1 < 2 ^ 32 }
    requires buffer { body_len < length buffer.old }
    requires buffers { Buffers (D.state disk.old) (frame_place body_len 1) first.behind buffer.old }
    requires reader { (limit ≤ R.room reader.old) × R.holds reader.old [] }
    ensures read { ReadsFrames R.is_body (R.holds reader.new) body_len limit first.next
        (D.state disk.old) (D.state disk.new) result }
    ensures within { IfOk result (λ count. count ≤ limit) }
    ensures capacity { R.capacity reader.new ≡ R.capacity reader.old }
    ensures stays { Stays (D.state disk.old) (D.state disk.new) }
    ensures faults { (D.state disk.old).faults ≤ (D.state disk.new).faults }
{
    let mut piece = first.behind;
    let mut next = first.next;
    let mut count = 0;
    while next == COMMITTED {
        let number = count + 1;
        if number > limit {
            return Err(OpenFault::Damaged(number));
        }
        match read_frame(disk, buffer, piece, body_len, number, reader) {
            Ok(Some(block)) => {
                piece = block.behind;
                next = block.next;
                count = number;
            }
            Ok(None) => return Err(OpenFault::Damaged(number)),
            Err(Failed) => return Err(OpenFault::DiskFault),
        }
    }
    Ok(count)
}
