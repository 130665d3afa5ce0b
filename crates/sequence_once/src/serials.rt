//! The last edits of all editors.
ghost use Rattle.std.specs.Prelude.{◌≡◌, option_map, IfOk, Some, Ok};
ghost use Rattle.std.specs.Option.{option_copied};
ghost use Rattle.ali_base.specs.Editors.{IsEditor, IsSerial};
ghost use Rattle.sequence_once.specs.SerialStanding.{AreKeptEdits, HasCauses, OthersStay, no_edits, last_edit, serial_repeated, serial_standing, after_serial, answered_edit, edit_record_of};
ghost use Rattle.sequence_once.specs.declared.standing.Standing.TheVariants.{New};

use crate::edit_record::EditRecord;
use crate::standing::{CycleFault, Standing};
use ali_base::{EDITORS, NoMemory};
use std::alloc::Global;
use std::marker::Model;

/// The last edit of each editor, 1 to 64: its serial, 1 to 999,999,999, the digest of its bytes, and
/// the code and the detail of its answer.
#[derive(Drop)]
pub struct Serials {
    edits: Vec<Option<EditRecord>>,
}

impl Model for Serials {
    ghost use Rattle.std.specs.Prelude.{List, Option};
    ghost use Rattle.sequence_once.specs.SerialStanding.{EditRecord, AreKeptEdits};

    ghost Value = { List (Option EditRecord) };

    ghost view = { λ s. s.edits.items };

    ghost invariant = { λ s. AreKeptEdits s.edits.items };
}

impl Serials {
    /// No edits yet. Room for the last edits of all editors is taken here.
    pub fn new(alloc: Global) -> Result<Self, NoMemory>
        ensures { IfOk result (λ s. s ≡ no_edits) }
    {
        let edits = vec![in alloc; None; EDITORS as usize]?;
        Ok(Serials { edits })
    }

    /// What an edit is to its editor's last one. The serial after the last is due, and 1 before the
    /// first; the last serial with the same digest is complete.
    ///
    /// # Errors
    ///
    /// `Gap` where its serial is greater than the one that is due; `Differs` where it has the last
    /// serial with another digest; `TooOld` where its serial is smaller than the last.
    pub fn standing(
        &self,
        editor: u8,
        serial: u32,
        digest: &[u8; 32],
    ) -> Result<Standing, CycleFault>
        requires editor { IsEditor editor }
        requires serial { IsSerial serial }
        ensures table { result ≡ serial_standing (last_edit editor self.now) serial digest.now }
        ensures causes { HasCauses (last_edit editor self.now) serial digest.now result }
        ensures sound { AreKeptEdits self.now }
    {
        standing_after(self.last(editor), serial, digest)
    }

    /// Notes an edit, which is new, with its code and its detail as the last of its editor. Takes no
    /// memory.
    pub fn note(&mut self, editor: u8, serial: u32, digest: &[u8; 32], code: u16, detail: u64)
        requires editor { IsEditor editor }
        requires serial { IsSerial serial }
        requires due { serial_standing (last_edit editor self.old) serial digest.now ≡ Ok New }
        ensures noted { self.new ≡ after_serial self.old editor serial digest.now code detail }
        ensures last { let edit = answered_edit serial digest.now code detail in
            last_edit editor self.new ≡ Some edit }
        ensures others { OthersStay editor self.old self.new }
        ensures sound { AreKeptEdits self.new }
    {
        self.edits[editor as usize - 1] = Some(EditRecord::new(serial, digest, code, detail));
    }

    /// The last serial of an editor, with the digest, the code and the detail of its edit.
    pub fn kept(&self, editor: u8) -> Option<(u32, &[u8; 32], u16, u64)>
        requires { IsEditor editor }
        ensures same { option_map edit_record_of result ≡ last_edit editor self.now }
        ensures sound { AreKeptEdits self.now }
    {
        let edit = self.last(editor)?;
        Some((edit.serial(), edit.digest(), edit.code(), edit.detail()))
    }

    /// Forgets all edits, as if newly made. Takes no memory.
    pub fn clear(&mut self)
        ensures { self.new ≡ no_edits }
    {
        self.edits.fill(None);
    }

    // The last edit of an editor.
    fn last(&self, editor: u8) -> Option<&EditRecord>
        requires { IsEditor editor }
        ensures same { option_copied result ≡ last_edit editor self.now }
        ensures sound { AreKeptEdits self.now }
    {
        self.edits[editor as usize - 1].as_ref()
    }
}

// The standing of an edit after its editor's last one.
fn standing_after(
    last: Option<&EditRecord>,
    serial: u32,
    digest: &[u8; 32],
) -> Result<Standing, CycleFault>
    ensures { result ≡ serial_standing (option_copied last.entry) serial digest.now }
{
    let Some(edit) = last else {
        return if serial == 1 {
            Ok(Standing::New)
        } else {
            Err(CycleFault::Gap(1))
        };
    };
    let kept = edit.serial();
    if serial == kept {
        repeated(edit, digest)
    } else if serial < kept {
        Err(CycleFault::TooOld(kept))
    } else if serial - kept == 1 {
        Ok(Standing::New)
    } else {
        Err(CycleFault::Gap(kept + 1))
    }
}

// The standing of an edit with the last serial.
fn repeated(edit: &EditRecord, digest: &[u8; 32]) -> Result<Standing, CycleFault>
    ensures { result ≡ serial_repeated edit.now digest.now }
{
    if edit.digest() == digest {
        Ok(Standing::Complete)
    } else {
        Err(CycleFault::Differs {
            kept: *edit.digest(),
            sent: *digest,
        })
    }
}
