//! The bytes of a journal's disk: what they are, and what other bytes are found to be.

use crate::tests::{add, add_edit, empty, formatted, found, open, read, two_frames};
use crate::*;
use ali_base::{NoMemory, NodeName};
use crash_disk::{Disk, FileDisk};
use office_entry::Edit;
use std::alloc::Global;
use std::env::temp_dir;
use std::fs::File;
use std::os::unix::fs::FileExt;
use std::test::Fail;
use std::{fs, process};

// The whole of the first frame, and that its commit byte stands before it.
#[test]
fn the_first_frame_of_an_edit(rt: HostRuntime) -> Result<(), Fail> {
    let alloc = rt.alloc();
    let mut journal = open(alloc, formatted(alloc, 0)?)
        .ok()
        .expect(&rt, "it is opened");
    let edit = Edit::read_text(b"ADD DENVER|CO||MAIN|ST||100|198|E|101").expect(
        &rt,
        "it is in the grammar",
    );
    assert_eq!(rt; add_edit(&mut journal, edit, 1), Some(Ok(1)));
    let disk = journal.close();
    let fields =
        b"\xA5\0\0\0\x01\0\0\0\x01E\x01\0\0\0\x01ADENVER                          CO  MAIN                                                        ST    \0\0\0\x64\0\0\0\xC6E\0\0\0\x65";
    let mut wanted = [0; 641];
    wanted[..131].copy_from_slice(fields);
    assert_eq!(rt; disk.bytes().len(), 1_280);
    assert!(rt; disk.bytes()[639..].starts_with(&wanted));
    Ok(())
}

#[test]
fn an_opening_is_refused(rt: HostRuntime) -> Result<(), Fail> {
    let alloc = rt.alloc();
    assert_eq!(rt; found(alloc, empty(alloc, 0)?), Err(JournalFault::Foreign));
    assert_eq!(rt;
        found(alloc, formatted(alloc, 4)?),
        Err(JournalFault::DiskFault)
    );
    let mut again = formatted(alloc, 0)?;
    assert_eq!(rt;
        format(&mut again, NodeName::B),
        Err(FormatFault::NotEmpty(640))
    );
    Ok(())
}

// What a journal of one frame is found to be once bytes are written at a place of its disk.
fn found_with(
    alloc: Global,
    place: u64,
    bytes: &[u8],
) -> Result<Result<u32, JournalFault>, NoMemory> {
    let mut journal = match open(alloc, formatted(alloc, 0)?) {
        Ok(journal) => journal,
        Err(fault) => return Ok(Err(fault)),
    };
    let _ = add(&mut journal, 7, 1);
    let mut disk = journal.close();
    let _ = disk.write_at(place, bytes);
    Ok(found(alloc, disk))
}

// Bytes at a place of the first block or of frame 1, which make it another one or leave it a frame.
#[test]
fn other_bytes_are_no_journal(rt: HostRuntime) -> Result<(), Fail> {
    let table = [
        (0, b"B".as_slice(), Err(JournalFault::Foreign)),
        (16, b"b".as_slice(), Err(JournalFault::Foreign)),
        (638, b"\x01".as_slice(), Err(JournalFault::Foreign)),
        (639, b"\xA4".as_slice(), Ok(0)),
        (643, b"\x02".as_slice(), Err(JournalFault::Damaged(1))),
        (644, b"\0\0\0\0".as_slice(), Err(JournalFault::Damaged(1))),
        (644, b"\0\x3F\xFF\xFF".as_slice(), Ok(1)),
        (644, b"\0\x40\0\0".as_slice(), Err(JournalFault::Damaged(1))),
        (648, b"X".as_slice(), Err(JournalFault::Damaged(1))),
        (649, b"\x41".as_slice(), Err(JournalFault::Damaged(1))),
        (1_278, b"\x01".as_slice(), Err(JournalFault::Damaged(1))),
        (1_279, b"\xA5".as_slice(), Err(JournalFault::Damaged(2))),
    ];
    let alloc = rt.alloc();
    for (place, bytes, wanted) in table {
        assert_eq!(rt; found_with(alloc, place, bytes)?, wanted, "{place}");
    }
    Ok(())
}

// What the front of a disk with two frames is found to be, up to a place.
fn found_up_to(alloc: Global, end: usize) -> Result<Option<Result<u32, JournalFault>>, NoMemory> {
    let Some(disk) = two_frames(alloc)? else {
        return Ok(None);
    };
    let Some(front) = disk.bytes().get(..end) else {
        return Ok(None);
    };
    let mut left = empty(alloc, 0)?;
    let _ = left.write_at(0, front);
    Ok(Some(found(alloc, left)))
}

// Where the image ends: behind a frame, behind its body, inside it, and behind its commit byte.
#[test]
fn a_frame_that_is_cut_off_is_damaged(rt: HostRuntime) -> Result<(), Fail> {
    let table = [
        (1_920, Ok(2)),
        (1_919, Err(JournalFault::Damaged(2))),
        (1_500, Err(JournalFault::Damaged(2))),
        (1_280, Err(JournalFault::Damaged(2))),
        (1_279, Err(JournalFault::Damaged(1))),
        (641, Err(JournalFault::Damaged(1))),
        (640, Err(JournalFault::Damaged(1))),
        (639, Err(JournalFault::Foreign)),
    ];
    let alloc = rt.alloc();
    for (end, wanted) in table {
        assert_eq!(rt; found_up_to(alloc, end)?, Some(wanted), "{end}");
    }
    Ok(())
}

// A byte of frame 1 that is written into the file while the journal is open, and the one that was
// there: of its number, of its epoch, of its kind, and of the zeros at its end. Then the file ends
// before the frame does.
#[test]
fn a_frame_that_was_changed_is_not_read(rt: HostRuntime) -> Result<(), Fail> {
    let alloc = rt.alloc();
    let name = format!(in alloc; "node_journal_{}", process::id(rt.process()))?;
    let path = temp_dir(&rt)?.join(alloc, name.as_str())?;
    let behind = File::options()
        .read(true)
        .write(true)
        .create_new(true)
        .open(&rt, path.as_path())?;
    let opened = File::options()
        .read(true)
        .write(true)
        .open(&rt, path.as_path());
    let mut disk = FileDisk::new(opened);
    assert_eq!(rt; format(&mut disk, NodeName::A), Ok(()));
    let mut journal = open(alloc, disk).ok().expect(&rt, "it is opened");
    assert_eq!(rt; add(&mut journal, 7, 1), Some(Ok(1)));
    for (place, other, own) in [(643, 2, 1), (647, 2, 1), (648, b'X', b'E'), (1_278, 1, 0)] {
        behind.write_all_at(&[other], place)?;
        assert_eq!(rt; read(&mut journal, 1), Some(Err(ReadFault::Changed(1))));
        behind.write_all_at(&[own], place)?;
        assert_eq!(rt; read(&mut journal, 1), Some(Ok(())));
    }
    behind.set_len(1_278)?;
    assert_eq!(rt; read(&mut journal, 1), Some(Err(ReadFault::Changed(1))));
    fs::remove_file(&rt, path.as_path())?;
    Ok(())
}
