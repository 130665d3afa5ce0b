//! The writes of a log.
ghost use Rattle.std.specs.Prelude.{◌≡◌, ◌≤◌, ◌+◌, ℕ, List, length, true, OnOk};
ghost use Rattle.crash_disk.specs.CrashOutcomes.{HasCause};
ghost use Rattle.crash_disk.specs.Moments.{EachMoment};
ghost use Rattle.commit_log.specs.LogState.{KeepsBodies, StandsForEither, with_body, body_of};

use crate::blocks::{COMMITTED, place_of_commit, place_of_frame, uncommit_next};
use crate::body_reader::BodyReader;
use crate::durable::write_durably;
use crash_disk::{Disk, Failed};

/// Writes a frame behind those that are there, and behind it a commit byte that does not commit the
/// next one; and then commits it.
pub fn write_frame<D: Disk, R: BodyReader>(
    disk: &mut D,
    body_len: u32,
    number: u32,
    block: &mut [u8],
) -> Result<(), Failed>
    requires number { 1 ≤ number }
    requires length { length block.old ≡ body_len + 1 }
    requires lawful { R.is_body number (body_of block.old) ≡ true }
    ensures stored { (head : List ℕ) (bodies : List (List ℕ)) →
        length head ≡ body_len → number ≡ length bodies + 1
        → KeepsBodies R.is_body head bodies (D.state disk.old)
        → OnOk result
        (KeepsBodies R.is_body head (with_body bodies (body_of block.old)) (D.state disk.new)) }
    ensures moments { (head : List ℕ) (bodies : List (List ℕ)) →
        length head ≡ body_len → number ≡ length bodies + 1
        → KeepsBodies R.is_body head bodies (D.state disk.old)
        → EachMoment (D.state disk.old) (D.state disk.new)
        (StandsForEither R.is_body head bodies (with_body bodies (body_of block.old))) }
    ensures cause { HasCause (D.state disk.old) (D.state disk.new) result }
{
    uncommit_next(block);
    write_durably(disk, place_of_frame(body_len, number), block)?;
    write_durably(disk, place_of_commit(body_len, number), &[COMMITTED])
}
