//! Edits.
ghost use Rattle.std.specs.Prelude.{◌≡◌, ◌≤◌, length, take, drop, Some, IfSome};
ghost use Rattle.office_entry.specs.Edits.{IsEdit};
ghost use Rattle.office_entry.specs.EditText.{IsEditText};
ghost use Rattle.office_entry.specs.EditBytes.{edit_bytes, edit_digest};
ghost use Rattle.office_entry.specs.EditReading.{edit_of_text};
ghost use Rattle.office_entry.specs.BytesReading.{edit_from};

use crate::difference::Difference;
use crate::edit_key::EditKey;
use crate::esn_sent::EsnSent;
use crate::fields::EditFields;
use crate::reading::edit_from;
use crate::text::edit_of_text;
use ali_base::{HIGHEST_HOUSE, House, Parity};
use sha2::{Digest, Sha256};

/// The highest number that an edit sends: house numbers, emergency service numbers and differences.
pub const HIGHEST_SENT: u32 = HIGHEST_HOUSE;

/// An edit of the street guide.
#[derive(Clone, Copy, Debug, PartialEq, Eq)]
pub enum Edit {
    /// A new range of the street, with its ends, parity and esn.
    Add {
        key: EditKey,
        low: House,
        high: House,
        parity: Parity,
        esn: EsnSent,
    },
    /// The range of this id is removed.
    Retire {
        id: u32,
    },
    /// The numbers of the range above `at` become a new range with this esn.
    Split {
        id: u32,
        at: House,
        esn: EsnSent,
    },
    /// The difference is added to both ends of the range, and to the numbers in it.
    Renumber {
        id: u32,
        by: Difference,
    },
    /// The range gets this esn.
    SetEsn {
        id: u32,
        esn: EsnSent,
    },
}

impl Edit {
    ghost use Rattle.office_entry.specs.declared.edit.Edit.{Edit as AnyEdit};

    /// The edit of a text: `ADD community|state|prefix|name|suffix|post|low|high|parity|esn`,
    /// `RETIRE id`, `SPLIT id at esn`, `RENUMBER id difference` or `SETESN id esn`. None where the
    /// bytes are no edit's text.
    pub fn read_text(bytes: &[u8]) -> Option<Edit>
        // What is read is spelled so.
        ensures found { IfSome result (λ edit. IsEditText bytes.now edit) }
        // What is spelled so is read.
        ensures only { (edit : AnyEdit) → IsEditText bytes.now edit → result ≡ Some edit }
        // The same by the reader.
        ensures exact { result ≡ edit_of_text bytes.now }
    {
        edit_of_text(bytes)
    }

    /// Writes its bytes at the front of `out`, and answers how many they are.
    pub fn bytes(&self, out: &mut [u8; 128]) -> usize
        ensures written { take result out.new ≡ edit_bytes self.now }
        ensures len { result ≡ length (edit_bytes self.now) }
        ensures limit { result ≤ 116 }
        ensures others { drop result out.new ≡ drop result out.old }
        // Every edit is in the ranges of edits.
        ensures lawful { IsEdit self.now }
    {
        let fields = self.fields();
        let bytes = fields.bytes();
        out[..bytes.len()].copy_from_slice(bytes);
        bytes.len()
    }

    /// The edit that these bytes are. None where they are no edit's bytes.
    pub fn from_bytes(bytes: &[u8]) -> Option<Edit>
        // What is read has these bytes.
        ensures found { IfSome result (λ edit. IsEdit edit × (bytes.now ≡ edit_bytes edit)) }
        // The bytes of an edit are read as this edit.
        ensures only { (edit : AnyEdit) → IsEdit edit → bytes.now ≡ edit_bytes edit
            → result ≡ Some edit }
        // The same by the reader.
        ensures exact { result ≡ edit_from bytes.now }
    {
        edit_from(bytes)
    }

    /// The SHA-256 of its bytes.
    pub fn digest(&self) -> [u8; 32]
        ensures digest { result ≡ edit_digest self.now }
        // Every edit is in the ranges of edits.
        ensures lawful { IsEdit self.now }
    {
        Sha256::digest(self.fields().bytes())
    }

    // Its bytes.
    fn fields(&self) -> EditFields
        ensures bytes { result ≡ edit_bytes self.now }
        ensures limit { length result ≤ 116 }
        ensures lawful { IsEdit self.now }
    {
        match self {
            Edit::Add {
                key,
                low,
                high,
                parity,
                esn,
            } => add_fields(key, *low, *high, *parity, *esn),
            Edit::Retire { id } => {
                let mut fields = EditFields::new(b'R');
                fields.push_number(*id);
                fields
            }
            Edit::Split { id, at, esn } => {
                let mut fields = EditFields::new(b'S');
                fields.push_number(*id);
                fields.push_number(at.number());
                fields.push_number(esn.number());
                fields
            }
            Edit::Renumber { id, by } => {
                let mut fields = EditFields::new(b'N');
                fields.push_number(*id);
                fields.push_number(by.number().cast_unsigned());
                fields
            }
            Edit::SetEsn { id, esn } => {
                let mut fields = EditFields::new(b'W');
                fields.push_number(*id);
                fields.push_number(esn.number());
                fields
            }
        }
    }
}

// The bytes of an ADD.
fn add_fields(key: &EditKey, low: House, high: House, parity: Parity, esn: EsnSent) -> EditFields
    ensures bytes { result ≡ edit_bytes (Edit.Add key.now low high parity esn) }
    ensures limit { length result ≤ 116 }
    ensures lawful { IsEdit (Edit.Add key.now low high parity esn) }
{
    let mut fields = EditFields::new(b'A');
    fields.push_key(key);
    fields.push_number(low.number());
    fields.push_number(high.number());
    fields.push(&parity.text());
    fields.push_number(esn.number());
    fields
}
