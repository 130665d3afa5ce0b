//! Entries, booked.
ghost use Rattle.std.specs.Prelude.{◌≡◌, ◌+◌, ◌<◌, ℕ, ◌∷◌, [], OnOk, OnErr, IfOk, IfErr, Ok, false};
ghost use Rattle.ali_base.specs.CivilDay.{CivilDay};
ghost use Rattle.sequence_once.specs.KeptCycles.{last_of, is_last_finished};
ghost use Rattle.sequence_once.specs.CycleStanding.{standing_of};
ghost use Rattle.sequence_once.specs.SerialStanding.{last_edit, serial_standing};
ghost use Rattle.sequence_once.specs.declared.standing.Standing.TheVariants.{New};
ghost use Rattle.office_entry.specs.EditBytes.{edit_digest};
ghost use Rattle.office_entry.specs.declared.entry.Entry.{Entry as AnyEntry};
ghost use Rattle.office_state.specs.declared.office.TheConstants.{MOST_ENTRIES};
ghost use Rattle.office_state.specs.Due.{IsDue};
ghost use Rattle.office_state.specs.Refusals.{IsRefused};
ghost use Rattle.office_state.specs.Verdict.{code_in, verdict, after};
ghost use Rattle.office_state.specs.History.{KeepsHistory};
ghost use Rattle.office_state.specs.Booked.{IsAnswer, with_entry};

use crate::apply_fault::ApplyFault;
use crate::due::{edit_due, line_due};
use crate::office::Office;
use crate::verdict::Verdict;
use ali_base::{Company, Cycle, Editor, NoMemory, Serial};
use line_booking::apply_line;
use msag_edits::apply_edit;
use office_entry::{Edit, Entry};

impl Office {
    /// Books an entry: it is judged, and carried out where it is accepted. It asks that fewer than
    /// `MOST_ENTRIES` entries were applied.
    ///
    /// # Errors
    ///
    /// `NotDue` with the fault of `due`, or `NoMemory`. Either leaves the office as it was.
    pub fn apply(&mut self, e: &Entry) -> Result<Verdict, ApplyFault>
        requires { self.old.entries < MOST_ENTRIES }
        ensures due { OnOk result (IsDue self.old.state e.now) }
        ensures verdict { IfOk result (λ v. v ≡ verdict self.old.state e.now) }
        ensures state { OnOk result (self.new.state ≡ after self.old.state e.now) }
        ensures entries { OnOk result (self.new.entries ≡ self.old.entries + 1) }
        ensures history { OnOk result (KeepsHistory self.old self.new (e.now ∷ [])) }
        ensures refused { IfErr result (IsRefused self.old.state e.now) }
        ensures err { OnErr result (self.new ≡ self.old) }
    {
        match e {
            Entry::Open {
                company,
                cycle,
                count,
                digest,
                ..
            } => self.apply_opening(*company, *cycle, *count, digest),
            Entry::Line {
                company,
                cycle,
                line,
                bytes,
            } => self.apply_line(*company, *cycle, *line, bytes),
            Entry::Edit {
                editor,
                serial,
                edit,
            } => self.apply_edit(*editor, *serial, edit),
        }
    }

    // Books the opening of a cycle.
    fn apply_opening(
        &mut self,
        company: Company,
        cycle: Cycle,
        count: u32,
        digest: &[u8; 32],
    ) -> Result<Verdict, ApplyFault>
        requires { self.old.entries < MOST_ENTRIES }
        ensures { (day : CivilDay)
            → IsAnswer self.old self.new (AnyEntry.Open company cycle count day digest.now) result }
    {
        if let Err(fault) = self.opening_due(company, cycle, digest) {
            return Err(ApplyFault::NotDue(fault));
        }
        match self.open(company, cycle, count, digest) {
            Ok(()) => Ok(Verdict { code: 0, detail: 0 }),
            Err(NoMemory) => Err(ApplyFault::NoMemory),
        }
    }

    // Books a line.
    fn apply_line(
        &mut self,
        company: Company,
        cycle: Cycle,
        line: u32,
        bytes: &[u8; 512],
    ) -> Result<Verdict, ApplyFault>
        requires { self.old.entries < MOST_ENTRIES }
        ensures { IsAnswer self.old self.new (AnyEntry.Line company cycle line bytes.now) result }
    {
        if let Err(fault) = line_due(self.due_line(company), cycle.number(), line) {
            return Err(ApplyFault::NotDue(fault));
        }
        match self.note_line(company, bytes) {
            Ok(code) => Ok(Verdict { code, detail: 0 }),
            Err(NoMemory) => Err(ApplyFault::NoMemory),
        }
    }

    // Books an edit.
    fn apply_edit(
        &mut self,
        editor: Editor,
        serial: Serial,
        edit: &Edit,
    ) -> Result<Verdict, ApplyFault>
        requires { self.old.entries < MOST_ENTRIES }
        ensures { IsAnswer self.old self.new (AnyEntry.Edit editor serial edit.now) result }
    {
        let digest = edit.digest();
        if let Err(fault) = edit_due(self.edit_standing(editor, serial, &digest)) {
            return Err(ApplyFault::NotDue(fault));
        }
        match self.note_edit(editor, serial, edit, &digest) {
            Ok(verdict) => Ok(verdict),
            Err(NoMemory) => Err(ApplyFault::NoMemory),
        }
    }

    // Opens a new cycle.
    #[tactic(auto, unfolding(crate::specs::Verdict::after))]
    fn open(
        &mut self,
        company: Company,
        cycle: Cycle,
        count: u32,
        digest: &[u8; 32],
    ) -> Result<(), NoMemory>
        requires new { standing_of self.old.state.cycles company cycle digest.now ≡ Ok New }
        requires count { self.old.entries < MOST_ENTRIES }
        ensures booked { OnOk result ((day : CivilDay)
            → self.new ≡ with_entry self.old (AnyEntry.Open company cycle count day digest.now)) }
        ensures err { OnErr result (self.new ≡ self.old) }
    {
        self.cycles.open(self.alloc, company, cycle, count, digest)?;
        self.entries += 1;
        self.counts.count_opening();
        Ok(())
    }

    // Judges a line, does to its number what its record asks for, and notes its code under its company's
    // last cycle.
    #[tactic(auto, unfolding(crate::specs::Verdict::after))]
    fn note_line(&mut self, company: Company, bytes: &[u8; 512]) -> Result<u16, NoMemory>
        requires next { is_last_finished (last_of company self.old.state.cycles.kept) ≡ false }
        requires count { self.old.entries < MOST_ENTRIES }
        ensures code { IfOk result (λ code. code ≡ code_in self.old.state company bytes.now) }
        ensures booked { OnOk result ((cycle line : ℕ)
            → self.new ≡ with_entry self.old (AnyEntry.Line company cycle line bytes.now)) }
        ensures err { OnErr result (self.new ≡ self.old) }
    {
        let code = apply_line(
            &self.guide,
            &mut self.rows,
            self.most_numbers,
            company,
            bytes,
        )?;
        self.cycles.note(company, code);
        self.entries += 1;
        self.counts.count_line(code);
        Ok(code)
    }

    // Carries an edit out, whose digest this is, and notes it as its editor's last.
    #[tactic(auto, unfolding(crate::specs::Verdict::after))]
    fn note_edit(
        &mut self,
        editor: Editor,
        serial: Serial,
        edit: &Edit,
        digest: &[u8; 32],
    ) -> Result<Verdict, NoMemory>
        requires digest { digest.now ≡ edit_digest edit.now }
        requires new { let last = last_edit editor self.old.state.edits in
            serial_standing last serial digest.now ≡ Ok New }
        requires count { self.old.entries < MOST_ENTRIES }
        ensures verdict { IfOk result (λ v.
            v ≡ verdict self.old.state (AnyEntry.Edit editor serial edit.now)) }
        ensures booked { OnOk result
            (self.new ≡ with_entry self.old (AnyEntry.Edit editor serial edit.now)) }
        ensures err { OnErr result (self.new ≡ self.old) }
    {
        let done = apply_edit(&mut self.guide, &mut self.rows, edit)?;
        self.edits.note(
            editor.number(),
            serial.number(),
            digest,
            done.code,
            done.detail,
        );
        self.entries += 1;
        self.counts.count_edit(done.code);
        Ok(Verdict {
            code: done.code,
            detail: done.detail,
        })
    }
}
