//! Laws of commands, for whoever reads their definitions.
ghost use Rattle.std.specs.Prelude.{◌≡◌, ◌↔◌, ℕ, List, Some};
ghost use Rattle.office_commands.specs.declared.command_line.CommandLine.{CommandLine};
ghost use Rattle.office_commands.specs.CommandText.{SpellsLine};
ghost use Rattle.office_commands.specs.LineReading.{line_of};

use crate::command::{FILE_LIMIT, POSITIONS};

/// What is read as the line of a command is what is spelled, and what is spelled so is read.
pub fn command_lines_are_read_as_spelled()
    ensures { (text : List ℕ) (line : CommandLine)
        → (line_of text ≡ Some line) ↔ SpellsLine text line }
{}

/// A carrier's file has at most 16,777,216 bytes.
pub fn limit_of_files()
    ensures { FILE_LIMIT ≡ 16_777_216 }
{}

/// There are 64 positions.
pub fn limit_of_positions()
    ensures { POSITIONS ≡ 64 }
{}
