//! Journals on disks in memory, some of which stop.

use crate::*;
use ali_base::{Editor, NoMemory, NodeName, Serial};
use crash_disk::{Disk, FuseDisk, Kept, MemDisk};
use office_entry::{Edit, Entry};
use std::alloc::Global;
use std::test::Fail;

// Room for four blocks.
const ROOM: u64 = 2_560;

const RECORD: u64 = 16_384;

// What a crash may leave of bytes that were not synced.
const KEPT: [Kept; 4] = [Kept::Old, Kept::New, Kept::Fill(0), Kept::Fill(0xA5)];

/// An empty disk, of whose calls one fails; 0 for none.
pub fn empty(alloc: Global, failing: u64) -> Result<MemDisk, NoMemory> {
    MemDisk::new(alloc, ROOM, RECORD, vec![in alloc; failing]?)
}

/// A disk with node a's journal without frames, on which 3 calls were made.
pub fn formatted(alloc: Global, failing: u64) -> Result<MemDisk, NoMemory> {
    let mut disk = empty(alloc, failing)?;
    let _ = format(&mut disk, NodeName::A);
    Ok(disk)
}

/// Node a's journal, of at most three frames.
pub fn open<D: Disk + Drop>(alloc: Global, disk: D) -> Result<Journal<D>, JournalFault> {
    match Journal::open(alloc, disk, NodeName::A, 3) {
        Ok(journal) => Ok(journal),
        Err((_, fault)) => Err(fault),
    }
}

/// How many frames a disk is found to have.
pub fn found(alloc: Global, disk: MemDisk) -> Result<u32, JournalFault> {
    Ok(open(alloc, disk)?.len())
}

/// Adds the first edit of an editor, where the journal is usable.
pub fn add_edit<D: Disk + Drop>(
    journal: &mut Journal<D>,
    edit: Edit,
    epoch: u32,
) -> Option<Result<u32, AppendFault>> {
    if !journal.usable() || epoch < 1 || epoch > LAST_EPOCH {
        return None;
    }
    let entry = Entry::Edit {
        editor: Editor::new(1)?,
        serial: Serial::new(1)?,
        edit,
    };
    Some(journal.append(&entry, epoch))
}

/// Adds the edit that retires a range, where the journal is usable.
pub fn add<D: Disk + Drop>(
    journal: &mut Journal<D>,
    id: u32,
    epoch: u32,
) -> Option<Result<u32, AppendFault>> {
    add_edit(journal, Edit::Retire { id }, epoch)
}

// Cuts the journal from a frame on, where it is usable and has that frame.
fn cut<D: Disk + Drop>(journal: &mut Journal<D>, k: u32) -> Option<Result<(), DiskFault>> {
    if !journal.usable() || k < 1 || k > journal.len() {
        return None;
    }
    Some(journal.close_from(k))
}

// The range that the entry of a frame retires, and its epoch, where the journal is usable and has
// that frame.
fn frame<D: Disk + Drop>(journal: &mut Journal<D>, k: u32) -> Option<(u32, u32)> {
    if !journal.usable() || k < 1 || k > journal.len() {
        return None;
    }
    let epoch = journal.epoch(k);
    match journal.read(k).ok()? {
        Entry::Edit {
            edit: Edit::Retire { id },
            ..
        } => Some((id, epoch)),
        _ => None,
    }
}

/// A disk with node a's journal of two frames.
pub fn two_frames(alloc: Global) -> Result<Option<MemDisk>, NoMemory> {
    let Ok(mut journal) = open(alloc, formatted(alloc, 0)?) else {
        return Ok(None);
    };
    let _ = add(&mut journal, 7, 1);
    let _ = add(&mut journal, 8, 2);
    Ok(Some(journal.close()))
}

// Node a's journal with two frames, on a disk that stops after so many calls.
fn fused(alloc: Global, passed: u32) -> Result<Option<Journal<FuseDisk>>, NoMemory> {
    let Some(disk) = two_frames(alloc)? else {
        return Ok(None);
    };
    Ok(open(alloc, FuseDisk::new(disk, passed)).ok())
}

/// Why the entry of a frame is not read, where the journal is usable and has that frame.
pub fn read<D: Disk + Drop>(journal: &mut Journal<D>, k: u32) -> Option<Result<(), ReadFault>> {
    if !journal.usable() || k < 1 || k > journal.len() {
        return None;
    }
    match journal.read(k) {
        Ok(_) => Some(Ok(())),
        Err(fault) => Some(Err(fault)),
    }
}

#[test]
fn a_journal_keeps_its_frames(rt: HostRuntime) -> Result<(), Fail> {
    let alloc = rt.alloc();
    let mut journal = open(alloc, formatted(alloc, 0)?)
        .ok()
        .expect(&rt, "it is opened");
    assert_eq!(rt; add(&mut journal, 7, 1), Some(Ok(1)));
    assert_eq!(rt; add(&mut journal, 8, 1), Some(Ok(2)));
    assert_eq!(rt; cut(&mut journal, 2), Some(Ok(())));
    assert_eq!(rt; journal.len(), 1);
    assert_eq!(rt; add(&mut journal, 9, LAST_EPOCH), Some(Ok(2)));
    let mut journal = open(alloc, journal.close())
        .ok()
        .expect(&rt, "it is opened");
    assert_eq!(rt; journal.len(), 2);
    assert_eq!(rt; frame(&mut journal, 1), Some((7, 1)));
    assert_eq!(rt; frame(&mut journal, 2), Some((9, LAST_EPOCH)));
    let disk = journal.close();
    assert!(rt; disk.bytes().starts_with(b"ALI OFFICE JRNL1a\0\0"));
    let front = b"\xA5\0\0\0\x01\0\0\0\x01E\x01\0\0\0\x01R\0\0\0\x07\0\0";
    assert_eq!(rt; disk.bytes().len(), 1_920);
    assert!(rt; disk.bytes()[639..].starts_with(front));
    Ok(())
}

#[test]
fn a_full_journal_refuses_a_frame(rt: HostRuntime) -> Result<(), Fail> {
    let alloc = rt.alloc();
    let disk = formatted(alloc, 0)?;
    let mut journal = Journal::open(alloc, disk, NodeName::A, 2)
        .ok()
        .expect(&rt, "it is opened");
    assert_eq!(rt; add(&mut journal, 7, 1), Some(Ok(1)));
    assert_eq!(rt; add(&mut journal, 8, 1), Some(Ok(2)));
    assert_eq!(rt; add(&mut journal, 9, 1), Some(Err(AppendFault::Full(2))));
    assert!(rt; journal.usable());
    assert_eq!(rt; journal.len(), 2);
    let fault = match Journal::open(alloc, journal.close(), NodeName::A, 1) {
        Ok(_) => None,
        Err((_, fault)) => Some(fault),
    };
    assert_eq!(rt; fault, Some(JournalFault::Damaged(2)));
    Ok(())
}

// How many frames a disk of two is found to have after an append that stopped after so many of its
// calls: a write of the body, a sync, a write of the commit byte, and a sync.
#[test]
fn a_crash_in_an_append_leaves_the_frames_before_or_after(rt: HostRuntime) -> Result<(), Fail> {
    let alloc = rt.alloc();
    for passed in 0..5u32 {
        for kept in KEPT {
            // Opening makes a sync and a read.
            let mut journal = fused(alloc, 2 + passed)?.expect(&rt, "it is opened");
            let wanted = if passed == 4 {
                Ok(3)
            } else {
                Err(AppendFault::DiskFault)
            };
            assert_eq!(rt; add(&mut journal, 9, 3), Some(wanted));
            assert_eq!(rt; journal.usable(), passed == 4);
            assert_eq!(rt; journal.len(), if passed == 4 { 3 } else { 2 });
            let lasts = match (passed, kept) {
                (3, Kept::New) => true,
                (3, Kept::Fill(0xA5)) => true,
                (4, _) => true,
                _ => false,
            };
            let left = journal.close().inner().after_crash(kept)?;
            assert_eq!(rt;
                found(alloc, left),
                Ok(if lasts { 3 } else { 2 }),
                "{passed}"
            );
        }
    }
    Ok(())
}

// The same after a cut that stopped after so many of its calls: a write of the commit byte of a
// frame, and a sync.
#[test]
fn a_crash_in_a_cut_leaves_the_frames_before_or_after(rt: HostRuntime) -> Result<(), Fail> {
    let alloc = rt.alloc();
    for k in [1u32, 2] {
        for passed in 0..3u32 {
            for kept in KEPT {
                let mut journal = fused(alloc, 2 + passed)?.expect(&rt, "it is opened");
                let wanted = if passed == 2 { Ok(()) } else { Err(DiskFault) };
                assert_eq!(rt; cut(&mut journal, k), Some(wanted));
                assert_eq!(rt; journal.usable(), passed == 2);
                assert_eq!(rt; journal.len(), if passed == 2 { k - 1 } else { 2 });
                let lasts = match (passed, kept) {
                    (1, Kept::New) => true,
                    (1, Kept::Fill(0)) => true,
                    (2, _) => true,
                    _ => false,
                };
                let left = journal.close().inner().after_crash(kept)?;
                assert_eq!(rt;
                    found(alloc, left),
                    Ok(if lasts { k - 1 } else { 2 }),
                    "{passed}"
                );
            }
        }
    }
    Ok(())
}

// What a disk is found to be after a format that stopped after so many of its calls: the length, a
// write of the first block, and a sync.
#[test]
fn a_crash_in_a_format_leaves_no_journal_or_an_empty_one(rt: HostRuntime) -> Result<(), Fail> {
    let alloc = rt.alloc();
    for passed in 0..4u32 {
        for kept in KEPT {
            let mut disk = FuseDisk::new(empty(alloc, 0)?, passed);
            let wanted = if passed == 3 {
                Ok(())
            } else {
                Err(FormatFault::DiskFault)
            };
            assert_eq!(rt; format(&mut disk, NodeName::A), wanted);
            let lasts = match (passed, kept) {
                (2, Kept::New) => true,
                (3, _) => true,
                _ => false,
            };
            let there = if lasts {
                Ok(0)
            } else {
                Err(JournalFault::Foreign)
            };
            let left = disk.inner().after_crash(kept)?;
            assert_eq!(rt; found(alloc, left), there, "{passed}");
        }
    }
    Ok(())
}

// A call that failed in an append (6 to 9, behind a format and an opening), and how many frames are
// there once the journal is opened again in place.
#[test]
fn a_journal_is_opened_again_in_place(rt: HostRuntime) -> Result<(), Fail> {
    let alloc = rt.alloc();
    for (failing, count) in [(6, 0), (7, 0), (8, 0), (9, 1)] {
        let mut journal = open(alloc, formatted(alloc, failing)?)
            .ok()
            .expect(&rt, "it is opened");
        assert_eq!(rt; add(&mut journal, 7, 5), Some(Err(AppendFault::DiskFault)));
        assert!(rt; !journal.usable());
        assert_eq!(rt; journal.reopen(), Ok(()));
        assert!(rt; journal.usable());
        assert_eq!(rt; journal.len(), count, "{failing}");
        assert_eq!(rt; add(&mut journal, 8, 6), Some(Ok(count + 1)));
        assert_eq!(rt; frame(&mut journal, count + 1), Some((8, 6)));
    }
    Ok(())
}

// Opening makes a sync and a read.
#[test]
fn a_read_is_refused_where_the_disk_stopped(rt: HostRuntime) -> Result<(), Fail> {
    let mut journal = fused(rt.alloc(), 3)?.expect(&rt, "it is opened");
    assert_eq!(rt; read(&mut journal, 2), Some(Ok(())));
    assert_eq!(rt; read(&mut journal, 2), Some(Err(ReadFault::DiskFault)));
    assert!(rt; journal.usable());
    assert_eq!(rt; journal.len(), 2);
    Ok(())
}
