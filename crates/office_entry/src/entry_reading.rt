//! Reading the bytes of an entry.
ghost use Rattle.std.specs.Prelude.{◌≡◌};
ghost use Rattle.ali_base.specs.Fronts.{are_zeros};
ghost use Rattle.ali_base.specs.Steps.{when};
ghost use Rattle.office_entry.specs.EntryReading.{open_from, line_from, edit_width, edit_entry_from, entry_from};

use crate::entry::Entry;
use crate::reading::edit_from;
use ali_base::{Company, Cycle, Day, Editor, Serial, are_zeros, first_bytes, front, number_at};

// The entry, where only zeros are left after its fields.
fn filled(rest: &[u8], entry: Entry) -> Option<Entry>
    ensures { result ≡ when (are_zeros rest.now) entry }
{
    if are_zeros(rest) { Some(entry) } else { None }
}

// The fields of an opening.
#[tactic(auto, unfolding(crate::specs::EntryReading::open_from))]
fn open_from(bytes: &[u8]) -> Option<Entry>
    ensures { result ≡ open_from bytes.now }
{
    let (company, rest) = front::<5>(bytes)?;
    let (cycle, rest) = number_at(rest)?;
    let (count, rest) = number_at(rest)?;
    let (day, rest) = front::<6>(rest)?;
    let (digest, rest) = front::<32>(rest)?;
    let company = Company::read(company)?;
    let cycle = Cycle::new(cycle)?;
    let day = Day::read(day)?;
    filled(
        rest,
        Entry::Open {
            company,
            cycle,
            count,
            day,
            digest: *digest,
        },
    )
}

// The fields of a line.
#[tactic(auto, unfolding(crate::specs::EntryReading::line_from))]
fn line_from(bytes: &[u8]) -> Option<Entry>
    ensures { result ≡ line_from bytes.now }
{
    let (company, rest) = front::<5>(bytes)?;
    let (cycle, rest) = number_at(rest)?;
    let (line, rest) = number_at(rest)?;
    let (bytes, rest) = front::<512>(rest)?;
    let company = Company::read(company)?;
    let cycle = Cycle::new(cycle)?;
    filled(
        rest,
        Entry::Line {
            company,
            cycle,
            line,
            bytes: *bytes,
        },
    )
}

// How many bytes an edit has, by its letter.
fn edit_width(bytes: &[u8]) -> usize
    ensures { result ≡ edit_width bytes.now }
{
    match bytes {
        [b'A', ..] => 116,
        [b'R', ..] => 5,
        [b'S', ..] => 13,
        [b'N', ..] => 9,
        [b'W', ..] => 9,
        _ => 0,
    }
}

// The fields of an editor's edit.
#[tactic(auto, unfolding(crate::specs::EntryReading::edit_entry_from))]
fn edit_entry_from(bytes: &[u8]) -> Option<Entry>
    ensures { result ≡ edit_entry_from bytes.now }
{
    let (editor, rest) = bytes.split_first()?;
    let (serial, rest) = number_at(rest)?;
    let (fields, rest) = first_bytes(edit_width(rest), rest)?;
    let editor = Editor::new(*editor)?;
    let serial = Serial::new(serial)?;
    let edit = edit_from(fields)?;
    filled(
        rest,
        Entry::Edit {
            editor,
            serial,
            edit,
        },
    )
}

/// The entry that these bytes are.
#[tactic(auto, unfolding(crate::specs::EntryReading::entry_from))]
pub(crate) fn entry_from(bytes: &[u8]) -> Option<Entry>
    ensures { result ≡ entry_from bytes.now }
{
    match bytes {
        [b'O', fields @ ..] => open_from(fields),
        [b'L', fields @ ..] => line_from(fields),
        [b'E', fields @ ..] => edit_entry_from(fields),
        _ => None,
    }
}
