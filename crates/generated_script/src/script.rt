//! The files of the generated script, in their order.
ghost use Rattle.std.specs.Prelude.{◌≡◌, ◌<◌, ◌≤◌, ◌+◌, All, IfOk, OnErr, OnOk, length};
ghost use Rattle.office_commands.specs.Commands.{IsCommand};
ghost use Rattle.generated_script.specs.GeneratedScript.{file_commands, file_text, files_for, number_of, records_in};
ghost use Rattle.office_commands.specs.declared.command.TheConstants.{FILE_LIMIT};

use crate::draws::Draws;
use crate::file::file_text;
use crate::names::number_of;
use ali_base::{NoMemory, Tn};
use std::alloc::Global;
use std::marker::Model;

/// How many streets are made before the first file.
pub const STREETS: u32 = 100;

/// How many records a file has; the last one may have less.
pub const FILE_RECORDS: u32 = 1_000;

/// The most records of a script.
pub const MOST_RECORDS: u32 = 50_000;

/// A carrier's file of the script.
#[derive(Drop)]
pub struct GeneratedFile {
    pub bytes: Vec<u8>,
    /// The number of its last record.
    pub last: Tn,
}

/// The files of a script, which are made one after the other.
#[derive(Drop)]
pub struct Script {
    /// How many records it has.
    count: u32,
    /// How many of its files are made.
    made: u32,
    draws: Draws,
}

impl Model for Script {
    ghost use Rattle.generated_script.specs.Making.{Making};

    ghost Value = { Making };

    ghost use Rattle.generated_script.specs.KeptScript.{making_of, IsScript};

    ghost view = { making_of };

    ghost invariant = { IsScript };
}

impl Script {
    /// The script of this seed with so many records, 1 to `MOST_RECORDS`.
    pub fn new(seed: u64, count: u32) -> Script
        requires { (1 ≤ count) × (count ≤ MOST_RECORDS) }
        ensures { result ≡ record { seed = seed; count = count; made = 0 } }
    {
        Script {
            count,
            made: 0,
            draws: Draws { seed, state: seed },
        }
    }

    /// How many files it has.
    pub fn files(&self) -> u32
        ensures { result ≡ files_for self.now.count }
    {
        (self.count + FILE_RECORDS - 1) / FILE_RECORDS
    }

    /// Makes its next file. On want of memory the script is as before.
    #[tactic(auto, unfolding(crate::specs::GeneratedScript::file_text))]
    pub fn next_file(&mut self, alloc: Global) -> Result<GeneratedFile, NoMemory>
        requires { self.old.made < files_for self.old.count }
        ensures made { OnOk result (self.new ≡ record self.old { made = self.old.made + 1 }) }
        ensures text { IfOk result (λ file. file.bytes.items
            ≡ file_text self.old.seed self.old.count (self.old.made + 1)) }
        ensures last { IfOk result (λ file. file.last
            ≡ number_of (records_in self.old.count (self.old.made + 1))) }
        ensures limit { IfOk result (λ file. length file.bytes.items ≤ FILE_LIMIT) }
        ensures lawful { OnOk result (All IsCommand
            (file_commands self.old.seed self.old.count (self.old.made + 1))) }
        ensures kept { OnErr result (self.new ≡ self.old) }
    {
        let before = records_in(self.count, self.made);
        let last = records_in(self.count, self.made + 1);
        let mut draws = self.draws;
        let bytes = file_text(alloc, &mut draws, self.made + 1, before, last)?;
        self.draws = draws;
        self.made += 1;
        Ok(GeneratedFile {
            bytes,
            last: number_of(last),
        })
    }
}

// How many of the records the first files have.
fn records_in(count: u32, files: u32) -> u32
    requires { files ≤ 1_000_000 }
    ensures { result ≡ records_in count files }
{
    count.min(FILE_RECORDS * files)
}
