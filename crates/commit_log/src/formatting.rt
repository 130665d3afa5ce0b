//! Formatting an empty disk.
ghost use Rattle.std.specs.Prelude.{◌≡◌, ◌≤◌, [], List, ℕ, length};
ghost use Rattle.crash_disk.specs.CrashOutcomes.{Torn};
ghost use Rattle.crash_disk.specs.Moments.{EachMoment, IsSynced};
ghost use Rattle.commit_log.specs.Formatting.{FormatAnswers};
ghost use Rattle.commit_log.specs.LogState.{body_of};

use crate::blocks::uncommit_next;
use crate::body_reader::BodyReader;
use crate::durable::write_durably;
use crash_disk::{Disk, Failed};

/// Why a disk was not formatted.
#[derive(Clone, Copy, Debug, PartialEq, Eq)]
pub enum FormatFault {
    /// The disk failed.
    DiskFault,
    /// The disk holds so many bytes.
    NotEmpty(u64),
}

/// Makes an empty disk a log without frames, whose bodies are told by `R`. The block is the head,
/// and room for the commit byte behind it.
pub fn format<D: Disk, R: BodyReader>(disk: &mut D, block: &mut [u8]) -> Result<(), FormatFault>
    requires { 1 ≤ length block.old }
    ensures answer { FormatAnswers R.is_body (body_of block.old)
        (D.state disk.old) (D.state disk.new) result }
    // A crash at any moment leaves the old bytes, torn in the first block.
    ensures moments { (f : List ℕ) → IsSynced (D.state disk.old) f
        → EachMoment (D.state disk.old) (D.state disk.new) (Torn 0 (length block.old) f) }
    ensures faults { (D.state disk.old).faults ≤ (D.state disk.new).faults }
{
    match disk.len() {
        Ok(0) => {}
        Ok(len) => return Err(FormatFault::NotEmpty(len)),
        Err(Failed) => return Err(FormatFault::DiskFault),
    }
    uncommit_next(block);
    match write_durably(disk, 0, block) {
        Ok(()) => Ok(()),
        Err(Failed) => Err(FormatFault::DiskFault),
    }
}
