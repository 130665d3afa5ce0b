//! Reading a log in pieces of many frames.
ghost use Rattle.std.specs.Prelude.{◌≡◌, ◌≤◌, ◌<◌, ◌+◌, ℕ, length, IfOk};
ghost use Rattle.crash_disk.specs.CrashOutcomes.{Stays, HasCause};
ghost use Rattle.commit_log.specs.LogImage.{frame_place};
ghost use Rattle.commit_log.specs.Pieces.{Buffers, BuffersBehind, HasBlock, ReadsBlock, ReadsNext};

use crate::blocks::place_of_frame;
use crate::body_reader::BodyReader;
use crash_disk::{Disk, Failed};

/// The bytes of a buffer that were read from the disk and not yet looked at, from `at` to `end`.
#[derive(Clone, Copy)]
pub struct Piece {
    pub at: usize,
    pub end: usize,
}

impl Piece {
    /// How many bytes it has.
    pub fn len(self) -> usize
        requires { self.at ≤ self.end }
        ensures { result + self.at ≡ self.end }
    {
        self.end - self.at
    }
}

/// A block that was read: where it begins in the buffer, its last byte, which is the commit byte of
/// the next frame, and what the buffer has behind it.
#[derive(Clone, Copy)]
pub struct Block {
    pub at: usize,
    pub next: u8,
    pub behind: Piece,
}

/// Reads the block at a place, whose body has so many bytes. None where the disk ends before it.
pub fn read_block<D: Disk>(
    disk: &mut D,
    buffer: &mut [u8],
    piece: Piece,
    place: u64,
    body_len: usize,
) -> Result<Option<Block>, Failed>
    requires before { Buffers (D.state disk.old) place piece buffer.old }
    requires room { body_len < length buffer.old }
    ensures block { IfOk result (ReadsBlock (D.state disk.new) place body_len buffer.new) }
    ensures stays { Stays (D.state disk.old) (D.state disk.new) }
    ensures cause { HasCause (D.state disk.old) (D.state disk.new) result }
{
    let piece = refilled(disk, buffer, piece, place, body_len)?;
    if piece.len() <= body_len {
        return Ok(None);
    }
    let end = piece.at + body_len;
    Ok(Some(Block {
        at: piece.at,
        next: buffer[end],
        behind: Piece {
            at: end + 1,
            end: piece.end,
        },
    }))
}

// The piece, where it has more than so many bytes, or a new one from the place on.
fn refilled<D: Disk>(
    disk: &mut D,
    buffer: &mut [u8],
    piece: Piece,
    place: u64,
    body_len: usize,
) -> Result<Piece, Failed>
    requires before { Buffers (D.state disk.old) place piece buffer.old }
    requires room { body_len < length buffer.old }
    ensures buffers { IfOk result (λ p. Buffers (D.state disk.new) place p buffer.new) }
    ensures block { IfOk result (HasBlock (D.state disk.new) place body_len) }
    ensures stays { Stays (D.state disk.old) (D.state disk.new) }
    ensures cause { HasCause (D.state disk.old) (D.state disk.new) result }
{
    if piece.len() > body_len {
        return Ok(piece);
    }
    let end = disk.read_at(place, buffer)?;
    Ok(Piece { at: 0, end })
}

/// Reads the frame of a number. None where no whole frame of that number stands in its place.
pub fn read_frame<D: Disk, R: BodyReader>(
    disk: &mut D,
    buffer: &mut [u8],
    piece: Piece,
    body_len: u32,
    number: u32,
    reader: &mut R,
) -> Result<Option<Block>, Failed>
    requires before { Buffers (D.state disk.old) (frame_place body_len number) piece buffer.old }
    requires room { body_len < length buffer.old }
    requires reader { 1 ≤ R.room reader.old }
    ensures buffers { IfOk result
        (BuffersBehind (D.state disk.new) (frame_place body_len (number + 1)) buffer.new) }
    ensures frame { IfOk result
        (ReadsNext R.is_body (R.holds reader.old) (R.holds reader.new) (D.state disk.new)
        body_len number) }
    ensures room { R.room reader.old ≤ R.room reader.new + 1 }
    ensures capacity { R.capacity reader.new ≡ R.capacity reader.old }
    ensures stays { Stays (D.state disk.old) (D.state disk.new) }
    ensures cause { HasCause (D.state disk.old) (D.state disk.new) result }
{
    let place = place_of_frame(body_len, number);
    match read_block(disk, buffer, piece, place, body_len as usize)? {
        Some(block) => {
            let body = &buffer[block.at..block.at + body_len as usize];
            Ok(reader.read(number, body).then_some(block))
        }
        None => Ok(None),
    }
}
