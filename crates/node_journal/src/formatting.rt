//! Formatting an empty disk.
ghost use Rattle.std.specs.Prelude.{◌≤◌, List, ℕ};
ghost use Rattle.crash_disk.specs.CrashOutcomes.{Torn};
ghost use Rattle.crash_disk.specs.Moments.{EachMoment, IsSynced};
ghost use Rattle.node_journal.specs.Formatting.{FormatAnswers};

use crate::epochs::Epochs;
use crate::head::first_block;
use ali_base::NodeName;
use commit_log::FormatFault;
use crash_disk::Disk;

/// Makes an empty disk the journal of a node, without frames.
pub fn format<D: Disk>(disk: &mut D, name: NodeName) -> Result<(), FormatFault>
    ensures answer { FormatAnswers name (D.state disk.old) (D.state disk.new) result }
    // A crash at any moment leaves the old bytes, torn in the first block.
    ensures moments { (image : List ℕ) →
        IsSynced (D.state disk.old) image →
        EachMoment (D.state disk.old) (D.state disk.new) (Torn 0 640 image) }
    ensures faults { (D.state disk.old).faults ≤ (D.state disk.new).faults }
{
    commit_log::format::<D, Epochs>(disk, &mut first_block(name))
}
