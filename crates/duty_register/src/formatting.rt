//! Formatting an empty disk.
ghost use Rattle.std.specs.Prelude.{◌≤◌, List, ℕ};
ghost use Rattle.crash_disk.specs.CrashOutcomes.{Torn};
ghost use Rattle.crash_disk.specs.Moments.{EachMoment, IsSynced};
ghost use Rattle.duty_register.specs.Formatting.{FormatAnswers};

use crate::head::first_block;
use crate::last_duty::LastDuty;
use commit_log::FormatFault;
use crash_disk::Disk;

/// Makes an empty disk a register with the first duty.
pub fn format_duty<D: Disk>(disk: &mut D) -> Result<(), FormatFault>
    ensures answer { FormatAnswers (D.state disk.old) (D.state disk.new) result }
    // A crash at any moment leaves the old bytes, torn in the first block.
    ensures moments { (image : List ℕ) → IsSynced (D.state disk.old) image →
        EachMoment (D.state disk.old) (D.state disk.new) (Torn 0 32 image) }
    ensures faults { (D.state disk.old).faults ≤ (D.state disk.new).faults }
{
    commit_log::format::<D, LastDuty>(disk, &mut first_block())
}
