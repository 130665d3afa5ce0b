//! Which entries may be booked next.
ghost use Rattle.std.specs.Prelude.{◌≡◌, OnOk, OnErr};
ghost use Rattle.sequence_once.specs.CycleStanding.{standing_of};
ghost use Rattle.sequence_once.specs.SerialStanding.{last_edit, serial_standing};
ghost use Rattle.office_state.specs.Due.{IsDue, due_of, due_line, opening_due, line_due, edit_due, not_next};

use crate::due_fault::DueFault;
use crate::office::Office;
use ali_base::{Company, Cycle, Editor, Serial};
use office_entry::Entry;
use sequence_once::{CycleFault, Standing};

impl Office {
    /// Whether an entry may be booked next.
    ///
    /// # Errors
    ///
    /// `NotNext` for a line that is not its company's next, and for an opening whose cycle is open
    /// already; otherwise the fault of the standing of an opening's file or of an edit, or `Complete`
    /// where that is its standing.
    pub fn due(&self, e: &Entry) -> Result<(), DueFault>
        ensures due { OnOk result (IsDue self.now.state e.now) }
        ensures not_due { OnErr result (IsDue self.now.state e.now → ⊥) }
        ensures exact { result ≡ due_of self.now.state e.now }
    {
        match e {
            Entry::Open {
                company,
                cycle,
                digest,
                ..
            } => self.opening_due(*company, *cycle, digest),
            Entry::Line {
                company,
                cycle,
                line,
                ..
            } => line_due(self.due_line(*company), cycle.number(), *line),
            Entry::Edit {
                editor,
                serial,
                edit,
            } => edit_due(self.edit_standing(*editor, *serial, &edit.digest())),
        }
    }

    /// Whether an opening may be booked.
    pub(crate) fn opening_due(
        &self,
        company: Company,
        cycle: Cycle,
        digest: &[u8; 32],
    ) -> Result<(), DueFault>
        ensures { result ≡ opening_due (due_line self.now.state company)
            (standing_of self.now.state.cycles company cycle digest.now) }
    {
        match self.cycles.standing(company, cycle, digest) {
            Ok(Standing::New) => Ok(()),
            Ok(Standing::Resume(_)) => Err(not_next(self.due_line(company))),
            Ok(Standing::Complete) => Err(DueFault::Complete),
            Err(fault) => Err(DueFault::of(fault)),
        }
    }

    /// The line of a company that may be booked next, with its cycle.
    pub(crate) fn due_line(&self, company: Company) -> Option<(u32, u32)>
        ensures { result ≡ due_line self.now.state company }
    {
        let last = self.cycles.last(company)?;
        if last.noted < last.count {
            Some((last.cycle.number(), last.noted + 1))
        } else {
            None
        }
    }
}

/// The fault of an entry that is not the next: the line that may be booked, with its cycle.
pub(crate) fn not_next(next: Option<(u32, u32)>) -> DueFault
    ensures { result ≡ not_next next }
{
    match next {
        Some((cycle, line)) => DueFault::NotNext { cycle, line },
        None => DueFault::NotNext { cycle: 0, line: 0 },
    }
}

/// Whether a line is the one that may be booked.
pub(crate) fn line_due(next: Option<(u32, u32)>, cycle: u32, line: u32) -> Result<(), DueFault>
    ensures { result ≡ line_due next cycle line }
{
    if next == Some((cycle, line)) {
        Ok(())
    } else {
        Err(not_next(next))
    }
}

/// Whether an edit may be booked, by its standing.
pub(crate) fn edit_due(standing: Result<Standing, CycleFault>) -> Result<(), DueFault>
    ensures { result ≡ edit_due standing }
{
    match standing {
        Ok(Standing::New) => Ok(()),
        Ok(Standing::Resume(_)) | Ok(Standing::Complete) => Err(DueFault::Complete),
        Err(fault) => Err(DueFault::of(fault)),
    }
}
