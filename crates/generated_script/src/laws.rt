//! Laws of generated scripts, for whoever reads their definitions.
ghost use Rattle.std.specs.Prelude.{◌≡◌, ◌≤◌, ℕ, All};
ghost use Rattle.office_commands.specs.Commands.{IsCommand};
ghost use Rattle.generated_script.specs.GeneratedScript.{generated};

use crate::script::{FILE_RECORDS, MOST_RECORDS, STREETS};

/// What is generated is commands.
pub fn generated_commands_are_commands()
    ensures { (seed count : ℕ) → 1 ≤ count → count ≤ MOST_RECORDS
        → All IsCommand (generated seed count) }
{}

/// There are 100 streets, at most 50,000 records, and 1,000 in a file.
pub fn limits_of_scripts()
    ensures streets { STREETS ≡ 100 }
    ensures records { MOST_RECORDS ≡ 50_000 }
    ensures file { FILE_RECORDS ≡ 1_000 }
{}
