//! Entries as bytes, and back.
ghost use Rattle.std.specs.Prelude.{◌≡◌, [], ◌∷◌, length, Some, IfSome};
ghost use Rattle.office_entry.specs.EntryBytes.{IsInRange, entry_fields, entry_bytes};
ghost use Rattle.office_entry.specs.EntryReading.{entry_from};

use crate::edit::Edit;
use crate::entry::Entry;
use crate::entry_reading::entry_from;
use ali_base::{Company, Cycle, Day, Editor, Serial, ZeroFilled};

impl Entry {
    ghost use Rattle.office_entry.specs.declared.entry.Entry.{Entry as AnyEntry};

    /// Its bytes: a letter for its kind, its fields, and zeros.
    #[tactic(auto, unfolding(crate::specs::EntryBytes::entry_bytes))]
    pub fn bytes(&self) -> [u8; 631]
        ensures bytes { result ≡ entry_bytes self.now }
        // Each field of every entry is in its range.
        ensures lawful { IsInRange self.now }
    {
        self.fields().whole()
    }

    /// The entry that these bytes are. None where they are no entry's bytes.
    pub fn from_bytes(bytes: &[u8; 631]) -> Option<Entry>
        // What is read has these bytes.
        ensures found { IfSome result (λ entry. IsInRange entry × (bytes.now ≡ entry_bytes entry)) }
        // The bytes of an entry are read as this entry.
        ensures only { (entry : AnyEntry) →
            IsInRange entry → bytes.now ≡ entry_bytes entry → result ≡ Some entry }
        // The same by the reader.
        ensures exact { result ≡ entry_from bytes.now }
    {
        entry_from(bytes)
    }

    // Its letter and its fields.
    fn fields(&self) -> ZeroFilled<631>
        ensures bytes { result ≡ entry_fields self.now }
        ensures lawful { IsInRange self.now }
    {
        match self {
            Entry::Open {
                company,
                cycle,
                count,
                day,
                digest,
            } => open_fields(*company, *cycle, *count, *day, digest),
            Entry::Line {
                company,
                cycle,
                line,
                bytes,
            } => line_fields(*company, *cycle, *line, bytes),
            Entry::Edit {
                editor,
                serial,
                edit,
            } => edit_fields(*editor, *serial, edit),
        }
    }
}

// The letter alone.
fn letter(letter: u8) -> ZeroFilled<631>
    ensures bytes { result ≡ letter ∷ [] }
    ensures len { length result ≡ 1 }
{
    let mut fields = ZeroFilled::new();
    fields.push(&[letter]);
    fields
}

// The fields of an opening.
fn open_fields(
    company: Company,
    cycle: Cycle,
    count: u32,
    day: Day,
    digest: &[u8; 32],
) -> ZeroFilled<631>
    ensures bytes { result ≡ entry_fields (Entry.Open company cycle count day digest.now) }
    ensures lawful { IsInRange (Entry.Open company cycle count day digest.now) }
{
    let mut fields = letter(b'O');
    fields.push(&company.text());
    fields.push_number(cycle.number());
    fields.push_number(count);
    fields.push(&day.text());
    fields.push(digest);
    fields
}

// The fields of a line.
fn line_fields(company: Company, cycle: Cycle, line: u32, bytes: &[u8; 512]) -> ZeroFilled<631>
    ensures bytes { result ≡ entry_fields (Entry.Line company cycle line bytes.now) }
    ensures lawful { IsInRange (Entry.Line company cycle line bytes.now) }
{
    let mut fields = letter(b'L');
    fields.push(&company.text());
    fields.push_number(cycle.number());
    fields.push_number(line);
    fields.push(bytes);
    fields
}

// The fields of an editor's edit.
fn edit_fields(editor: Editor, serial: Serial, edit: &Edit) -> ZeroFilled<631>
    ensures bytes { result ≡ entry_fields (Entry.Edit editor serial edit.now) }
    ensures lawful { IsInRange (Entry.Edit editor serial edit.now) }
{
    let mut bytes = [0; 128];
    let len = edit.bytes(&mut bytes);
    let mut fields = letter(b'E');
    fields.push(&[editor.number()]);
    fields.push_number(serial.number());
    fields.push(&bytes[..len]);
    fields
}
