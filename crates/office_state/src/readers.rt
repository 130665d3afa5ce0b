//! What is read of an office.
ghost use Rattle.std.specs.Prelude.{◌≡◌, option_map, slice_get};
ghost use Rattle.std.specs.Option.{option_copied};
ghost use Rattle.std.specs.FinMap as map;
ghost use Rattle.sequence_once.specs.KeptCycles.{IsSound, last_of, codes_of, count_of};
ghost use Rattle.sequence_once.specs.CycleReaders.{last_shown, record_of};
ghost use Rattle.sequence_once.specs.CycleStanding.{standing_of};
ghost use Rattle.sequence_once.specs.SerialStanding.{AreKeptEdits, last_edit, serial_standing};
ghost use Rattle.office_state.specs.OfficeState.{without_spare};
ghost use Rattle.office_state.specs.Soundness.{IsSoundOffice};
ghost use Rattle.office_state.specs.EditReaders.{edit_shown};

use crate::office::Office;
use crate::verdict::Verdict;
use ali_base::{Company, Cycle, Editor, Serial, Tn};
use msag_ranges::Guide;
use number_life::Row;
use number_table::RowsInOrder;
use sequence_once::{CycleFault, KeptCycle, Last, Standing};

impl Office {
    /// The row of a number.
    pub fn row(&self, tn: Tn) -> Option<&Row>
        ensures row { option_copied result ≡ map.get self.now.state.table tn }
        ensures sound { IsSoundOffice self.now }
    {
        self.rows.get(tn)
    }

    /// The rows in the order of their numbers, each once.
    pub fn rows_in_order(&self) -> RowsInOrder<'_>
        ensures rows { result ≡ map.values self.now.state.table }
        ensures sound { IsSoundOffice self.now }
    {
        self.rows.in_order()
    }

    /// The street guide.
    pub fn guide(&self) -> &Guide
        ensures guide { without_spare result.now ≡ self.now.state.guide }
        ensures sound { IsSoundOffice self.now }
    {
        &self.guide
    }

    /// What a file is to the kept cycles, by its company, cycle and digest.
    ///
    /// # Errors
    ///
    /// `CompaniesFull` where its cycle is due and its company is one too many; `Gap` where its cycle
    /// is above the one that is due; `Differs` where its cycle is kept with another digest; `TooOld`
    /// where its cycle is below the oldest kept.
    pub fn standing(
        &self,
        company: Company,
        cycle: Cycle,
        digest: &[u8; 32],
    ) -> Result<Standing, CycleFault>
        ensures table { result ≡ standing_of self.now.state.cycles company cycle digest.now }
        ensures sound { IsSound self.now.state.cycles }
    {
        self.cycles.standing(company, cycle, digest)
    }

    /// What an edit, by its serial and its digest, is to its editor's last one.
    ///
    /// # Errors
    ///
    /// `Gap` where its serial is greater than the one that is due; `Differs` where it has the last
    /// serial with another digest; `TooOld` where its serial is smaller than the last.
    pub fn edit_standing(
        &self,
        editor: Editor,
        serial: Serial,
        digest: &[u8; 32],
    ) -> Result<Standing, CycleFault>
        ensures table { let last = last_edit editor self.now.state.edits in
            result ≡ serial_standing last serial digest.now }
        ensures sound { AreKeptEdits self.now.state.edits }
    {
        self.edits
            .standing(editor.number(), serial.number(), digest)
    }

    /// The serial of an editor's last edit, and what that edit got.
    pub fn edit_kept(&self, editor: Editor) -> Option<(u32, Verdict)>
        ensures { result ≡ option_map edit_shown (last_edit editor self.now.state.edits) }
    {
        let (serial, _, code, detail) = self.edits.kept(editor.number())?;
        Some((serial, Verdict { code, detail }))
    }

    /// The codes of a company's cycle, where it is kept.
    pub fn codes(&self, company: Company, cycle: Cycle) -> Option<&[u16]>
        ensures { option_copied result ≡ codes_of company cycle self.now.state.cycles.kept }
    {
        self.cycles.codes(company, cycle)
    }

    /// How many lines the file of a company's cycle has, where it is kept.
    pub fn count(&self, company: Company, cycle: Cycle) -> Option<u32>
        ensures { result ≡ count_of company cycle self.now.state.cycles.kept }
    {
        self.cycles.count(company, cycle)
    }

    /// The last cycle of a company.
    pub fn last(&self, company: Company) -> Option<Last>
        ensures same { result ≡ option_map last_shown (last_of company self.now.state.cycles.kept) }
        ensures sound { IsSound self.now.state.cycles }
    {
        self.cycles.last(company)
    }

    /// The i-th kept cycle, from 0, in the order of company and cycle.
    pub fn kept(&self, i: u32) -> Option<KeptCycle<'_>>
        ensures same { option_map record_of result ≡ slice_get self.now.state.cycles.kept i }
        ensures sound { IsSound self.now.state.cycles }
    {
        self.cycles.kept(i)
    }
}
