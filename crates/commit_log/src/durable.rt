//! Writes that are on the disk when they are answered.
ghost use Rattle.std.specs.Prelude.{◌≡◌, List, ℕ, length, Some, OnOk};
ghost use Rattle.crash_disk.specs.CrashOutcomes.{Torn, HasCause, written};
ghost use Rattle.crash_disk.specs.Moments.{EachMoment, IsSynced};

use crash_disk::{Disk, Failed};

/// Writes and syncs.
pub fn write_durably<D: Disk>(disk: &mut D, at: u64, bytes: &[u8]) -> Result<(), Failed>
    // The bytes are written, and are synced.
    ensures synced { (f : List ℕ) → (D.state disk.old).content ≡ Some f
        → OnOk result (IsSynced (D.state disk.new) (written at bytes.now f)) }
    // A crash at any moment leaves the old bytes, torn in the range, where those were synced.
    ensures moments { (f : List ℕ) → IsSynced (D.state disk.old) f
        → EachMoment (D.state disk.old) (D.state disk.new) (Torn at (length bytes.now) f) }
    ensures cause { HasCause (D.state disk.old) (D.state disk.new) result }
{
    disk.write_at(at, bytes)?;
    disk.sync()
}
