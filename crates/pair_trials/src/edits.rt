//! Edits of the street guide as the trials send them, and the frames of a journal that hold them.

use ali_base::{Editor, NodeName, Serial};
use crash_disk::{Disk, MemDisk};
use node_journal::Journal;
use office_entry::{Edit, Entry};
use std::alloc::Global;
use std::test::Fail;

// The texts of the edits.
const TEXTS: [&[u8]; 6] = [
    b"ADD DENVER|CO||MAIN|ST||100|198|E|101",
    b"ADD DENVER|CO||MAIN|ST||150|298|E|102",
    b"RETIRE 1",
    b"SPLIT 1 149 102",
    b"SETESN 1 103",
    b"RENUMBER 1 +2",
];

/// How many texts there are.
pub const MOST_TEXTS: u32 = 6;

/// An edit, by its editor, its serial and the place of its text.
#[derive(Clone, Copy, Debug, PartialEq, Eq)]
pub struct Draft {
    pub editor: u8,
    pub serial: u32,
    pub text: u32,
}

/// A frame of a journal: an edit, and the epoch in which it was written.
#[derive(Clone, Copy, Debug, PartialEq, Eq)]
pub struct Frame {
    pub draft: Draft,
    pub epoch: u32,
}

impl Draft {
    /// The entry of the edit.
    pub fn entry(&self) -> Option<Entry> {
        let text = TEXTS.get(usize::try_from(self.text).ok()?)?;
        Some(Entry::Edit {
            editor: Editor::new(self.editor)?,
            serial: Serial::new(self.serial)?,
            edit: Edit::read_text(text)?,
        })
    }
}

// The place of the text of an edit.
fn place(edit: &Edit) -> Option<u32> {
    for (place, text) in TEXTS.iter().enumerate() {
        if Edit::read_text(text) == Some(*edit) {
            return u32::try_from(place).ok();
        }
    }
    None
}

// The edit of an entry.
fn draft_of(e: &Entry) -> Option<Draft> {
    match e {
        Entry::Edit {
            editor,
            serial,
            edit,
        } => Some(Draft {
            editor: editor.number(),
            serial: serial.number(),
            text: place(edit)?,
        }),
        _ => None,
    }
}

// A frame of a journal, where it is usable and has that frame.
fn read_frame<D: Disk + Drop>(journal: &mut Journal<D>, k: u32) -> Option<Frame> {
    if !journal.usable() || k < 1 || k > journal.len() {
        return None;
    }
    let epoch = journal.epoch(k);
    let entry = journal.read(k).ok()?;
    Some(Frame {
        draft: draft_of(&entry)?,
        epoch,
    })
}

/// The frames that the disk of a node is found to have, at most 100; none where it is no such journal.
pub fn frames_on(alloc: Global, disk: MemDisk, name: NodeName) -> Result<Option<Vec<Frame>>, Fail> {
    let mut journal = match Journal::open(alloc, disk, name, 100) {
        Ok(journal) => journal,
        Err(_) => return Ok(None),
    };
    let mut frames = Vec::new(alloc);
    for k in 1..=journal.len().min(100) {
        match read_frame(&mut journal, k) {
            Some(found) => frames.push(found)?,
            None => return Ok(None),
        }
    }
    Ok(Some(frames))
}
