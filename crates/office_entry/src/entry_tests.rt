//! Entries as bytes.
ghost use Rattle.std.specs.Prelude.{◌<◌, ◌≤◌};

use super::*;
use ali_base::{Company, Cycle, Day, Editor, Serial};
use std::test::Fail;

// The bytes of an editor's first edit, of one range in Denver.
fn edit_bytes() -> Option<[u8; 631]> {
    let edit = Edit::read_text(b"ADD DENVER|CO||MAIN|ST||100|198|E|101")?;
    let entry = Entry::Edit {
        editor: Editor::new(1)?,
        serial: Serial::new(1)?,
        edit,
    };
    Some(entry.bytes())
}

// The bytes of the opening of a company's third cycle, of seven lines.
fn open_bytes() -> Option<[u8; 631]> {
    let entry = Entry::Open {
        company: Company::read(b"ABC01")?,
        cycle: Cycle::new(3)?,
        count: 7,
        day: Day::read(b"022924")?,
        digest: [0xd1; 32],
    };
    Some(entry.bytes())
}

// The bytes of its last line.
fn line_bytes() -> Option<[u8; 631]> {
    let entry = Entry::Line {
        company: Company::read(b"ABC01")?,
        cycle: Cycle::new(3)?,
        line: 7,
        bytes: [b'x'; 512],
    };
    Some(entry.bytes())
}

// Whether the bytes begin so, have only zeros after so many, and come back from the entry that they are.
fn is_entry(bytes: Option<[u8; 631]>, front: &[u8], len: usize) -> bool
    requires { len ≤ 631 }
{
    match bytes {
        Some(bytes) => match Entry::from_bytes(&bytes) {
            Some(entry) => {
                bytes.starts_with(front)
                    && bytes[len..].iter().all(|b| *b == 0)
                    && entry.bytes() == bytes
            }
            None => false,
        },
        None => false,
    }
}

#[test]
fn entries_are_written_and_read(rt: HostRuntime) -> Result<(), Fail> {
    let edit = b"\x45\x01\x00\x00\x00\x01\x41DENVER                          CO";
    assert!(rt; is_entry(edit_bytes(), edit, 122));
    let open =
        b"OABC01\x00\x00\x00\x03\x00\x00\x00\x07022924\xd1\xd1\xd1\xd1\xd1\xd1\xd1\xd1\xd1\xd1\xd1\xd1\xd1\xd1\xd1\xd1\xd1\xd1\xd1\xd1\xd1\xd1\xd1\xd1\xd1\xd1\xd1\xd1\xd1\xd1\xd1\xd1";
    assert!(rt; is_entry(open_bytes(), open, 52));
    let line = b"LABC01\x00\x00\x00\x03\x00\x00\x00\x07xx";
    assert!(rt; is_entry(line_bytes(), line, 526));
    Ok(())
}

// Whether the bytes are no entry's once this place has this byte.
fn is_refused(bytes: Option<[u8; 631]>, place: usize, byte: u8) -> bool
    requires { place < 631 }
{
    match bytes {
        Some(bytes) => {
            let mut changed = bytes;
            changed[place] = byte;
            Entry::from_bytes(&changed).is_none()
        }
        None => false,
    }
}

#[test]
fn other_bytes_are_no_entry(rt: HostRuntime) -> Result<(), Fail> {
    // Another kind, and a byte after the fields that is not zero.
    assert!(rt; is_refused(edit_bytes(), 0, b'X'));
    assert!(rt; is_refused(edit_bytes(), 122, 1));
    assert!(rt; is_refused(edit_bytes(), 630, 1));
    assert!(rt; is_refused(open_bytes(), 52, 1));
    assert!(rt; is_refused(line_bytes(), 526, b'x'));
    // An editor of 0 or 65, a serial of 0, another letter of an edit, `|` in a text.
    assert!(rt; is_refused(edit_bytes(), 1, 0));
    assert!(rt; is_refused(edit_bytes(), 1, 65));
    assert!(rt; is_refused(edit_bytes(), 5, 0));
    assert!(rt; is_refused(edit_bytes(), 6, b'D'));
    assert!(rt; is_refused(edit_bytes(), 7, b'|'));
    // No company, a cycle of 0, the 29th of February of a common year.
    assert!(rt; is_refused(open_bytes(), 1, b'-'));
    assert!(rt; is_refused(open_bytes(), 9, 0));
    assert!(rt; is_refused(open_bytes(), 19, b'3'));
    Ok(())
}
