//! What an office has booked and holds, in numbers.
ghost use Rattle.std.specs.Prelude.{◌≡◌, List};
ghost use Rattle.office_entry.specs.declared.entry.Entry.{Entry};
ghost use Rattle.office_state.specs.declared.limits.Limits.{Limits};
ghost use Rattle.office_state.specs.History.{Represents};
ghost use Rattle.office_state.specs.Tallies.{IsTally, count_in, tally_of};

use crate::counts::CODES;
use crate::office::Office;

/// What an office has booked so far, and what it holds now.
#[derive(Drop)]
pub struct Tally {
    /// Booked entries.
    pub entries: u32,
    /// Booked openings.
    pub opens: u32,
    /// Booked lines, the refused ones too.
    pub lines: u32,
    /// Booked edits, the refused ones too.
    pub edits: u32,
    /// Telephone numbers in the table.
    pub numbers: u32,
    /// Those of them that are unlocked.
    pub unlocked: u32,
    /// Ranges of the street guide.
    pub ranges: u32,
    /// Companies with a kept cycle.
    pub companies: u32,
    codes: [u32; CODES],
}

impl Tally {
    /// How often a booked line or edit got this code.
    pub fn count_of(&self, code: u16) -> u32
        ensures { result ≡ count_in self.now code }
    {
        match self.codes.get(code as usize) {
            Some(times) => *times,
            None => 0,
        }
    }
}

impl Office {
    /// What it has booked so far, and what it holds now. Takes no memory.
    pub fn tally(&self) -> Tally
        ensures exact { result ≡ tally_of self.now }
        ensures history { (limits : Limits) (history : List Entry)
            → Represents limits self.now history → IsTally limits history result }
    {
        let entries = self.entries();
        Tally {
            entries,
            opens: self.counts.opens,
            lines: self.counts.lines,
            edits: self.counts.edits,
            numbers: self.rows.len(),
            unlocked: self.rows.unlocked(),
            ranges: self.guide.in_order().len() as u32,
            companies: self.cycles.companies(),
            codes: self.counts.codes,
        }
    }
}
