//! Laws of the definitions, for whoever reads them.
ghost use Rattle.std.specs.Prelude.{◌≡◌, ℕ, ◌↔◌, List, Some, All};
ghost use Rattle.office_commands.specs.Commands.{Command};
ghost use Rattle.office_run.specs.ScriptGrammar.{BeginsWith, IsScript, StopsAfter};
ghost use Rattle.office_run.specs.ScriptReading.{command_at};
ghost use Rattle.crash_disk.specs.DiskState.{AlwaysTell};
ghost use Rattle.office_run.specs.Disks.{IsHonest, disk_in, disks_of};
ghost use Rattle.office_run.specs.Formatted.{IsNew, all_disks};

use crate::input::SCRIPT_LIMIT;
use crash_disk::Disk;

/// What is read as the first command is what is spelled, and what is spelled so is read.
pub fn commands_are_read_as_spelled()
    ensures { (bytes : List ℕ) (command : Command) (rest : List ℕ)
        → (command_at bytes ≡ Some (command, rest)) ↔ BeginsWith bytes command rest }
{}

/// A script is one list of commands; what is no script stops after one list of commands; and
/// nothing is both.
pub fn scripts_have_one_reading()
    ensures one_script { (bytes : List ℕ) (commands others : List Command)
        → IsScript bytes commands → IsScript bytes others → commands ≡ others }
    ensures one_stop { (bytes : List ℕ) (commands others : List Command)
        → StopsAfter bytes commands → StopsAfter bytes others → commands ≡ others }
    ensures not_both { (bytes : List ℕ) (commands others : List Command)
        → IsScript bytes commands → StopsAfter bytes others → ⊥ }
{}

/// Formatted disks of a kind that tells its bytes are honest.
pub fn formatted_disks_are_honest<D: Disk>()
    ensures { (a b duty : D) → AlwaysTell D.state
        → All (λ d. IsNew d (disk_in (disks_of D.state a b duty) d)) all_disks
        → IsHonest (disks_of D.state a b duty) }
{}

/// A script has at most 67,108,864 bytes.
pub fn limit_of_scripts()
    ensures { SCRIPT_LIMIT ≡ 67_108_864 }
{}
