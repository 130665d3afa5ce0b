//! Runs in which one of the three disks stops at each of its calls, and what the next run finds.

use crate::tests::{add_file, header, trailer};
use crate::{Status, office};
use ali_base::{DiskName, MemSink, MemSource, NoMemory, NodeName};
use crash_disk::{Disk, FuseDisk, Kept, MemDisk};
use office_fixtures::SentRecord;
use std::alloc::Global;
use std::test::Fail;

// Room for a journal of 15 entries, and for the record of its calls.
const ROOM: u64 = 10_240;

const RECORD: u64 = 131_072;

// What a crash may leave of bytes that were not synced.
const KEPT: [Kept; 4] = [Kept::Old, Kept::New, Kept::Fill(0), Kept::Fill(0xA5)];

// The disks in the order in which they are opened.
const DISKS: [DiskName; 3] = [DiskName::Duty, DiskName::A, DiskName::B];

// The disks of the nodes and of the register.
#[derive(Drop)]
struct Disks<D> {
    a: D,
    b: D,
    duty: D,
}

// A run that ended: its status, what it put, and its disks.
#[derive(Drop)]
struct Ended<D> {
    status: Status,
    sink: MemSink,
    disks: Disks<D>,
}

// Runs a script, or formats where the first word says so.
fn run_on<D: Disk + Drop>(
    alloc: Global,
    word: &str,
    script: &[u8],
    disks: Disks<D>,
) -> Result<Ended<D>, NoMemory> {
    let mut source = MemSource::new(script.to_vec(alloc)?, 4096, Vec::new(alloc));
    let mut sink = MemSink::new(alloc, 16384, Vec::new(alloc))?;
    let Disks { a, b, duty } = disks;
    let words = [word, "DIR"];
    let (status, a, b, duty) = office(alloc, &words, &mut source, &mut sink, a, b, duty);
    let disks = Disks { a, b, duty };
    Ok(Ended {
        status,
        sink,
        disks,
    })
}

// An empty disk.
fn empty(alloc: Global) -> Result<MemDisk, NoMemory> {
    MemDisk::new(alloc, ROOM, RECORD, Vec::new(alloc))
}

// Three empty disks.
fn blank(alloc: Global) -> Result<Disks<MemDisk>, NoMemory> {
    Ok(Disks {
        a: empty(alloc)?,
        b: empty(alloc)?,
        duty: empty(alloc)?,
    })
}

// Disks that were formatted.
fn formatted(alloc: Global) -> Result<Disks<MemDisk>, NoMemory> {
    Ok(run_on(alloc, "format", b"", blank(alloc)?)?.disks)
}

// Runs a script over these disks.
fn run(alloc: Global, script: &[u8], disks: Disks<MemDisk>) -> Result<Ended<MemDisk>, NoMemory> {
    run_on(alloc, "run", script, disks)
}

// How many calls a disk passes, where the one of this name passes so many and the others all.
fn passes(disk: DiskName, stopped: DiskName, calls: u32) -> u32 {
    if disk == stopped { calls } else { u32::MAX }
}

// Runs a script over formatted disks, of which the one of this name stops after so many calls.
fn stopped(
    alloc: Global,
    script: &[u8],
    disk: DiskName,
    calls: u32,
) -> Result<Ended<FuseDisk>, NoMemory> {
    let Disks { a, b, duty } = formatted(alloc)?;
    let disks = Disks {
        a: FuseDisk::new(a, passes(DiskName::A, disk, calls)),
        b: FuseDisk::new(b, passes(DiskName::B, disk, calls)),
        duty: FuseDisk::new(duty, passes(DiskName::Duty, disk, calls)),
    };
    run_on(alloc, "run", script, disks)
}

// The disks behind the fuses.
fn inner(disks: Disks<FuseDisk>) -> Disks<MemDisk> {
    Disks {
        a: disks.a.inner(),
        b: disks.b.inner(),
        duty: disks.duty.inner(),
    }
}

// The disks as a crash leaves them.
fn crashed(disks: &Disks<MemDisk>, kept: Kept) -> Result<Disks<MemDisk>, NoMemory> {
    Ok(Disks {
        a: disks.a.after_crash(kept)?,
        b: disks.b.after_crash(kept)?,
        duty: disks.duty.after_crash(kept)?,
    })
}

// The edit that makes the even numbers 100 to 198 of MAIN ST a range, booked.
const STREET: &[u8] = b"EDIT 1 1 ADD DENVER|CO||MAIN|ST||100|198|E|101\nNEXT\n";

const BOOKED: &[u8] = b"READ EDIT 1 1\nBOOKED 1 0\n";

// The same where node a is alone.
const STREET_ALONE: &[u8] = b"ALONE\nEDIT 1 1 ADD DENVER|CO||MAIN|ST||100|198|E|101\nNEXT\n";

const BOOKED_ALONE: &[u8] = b"DUTY 2 a ALONE 0\nREAD EDIT 1 1\nBOOKED 1 0\n";

// A request that asks for a history of one entry, its answer, and what is told where it is not there.
const ONE: &[u8] = b"ASK a 1 3035550100 1\n";

const ANSWERED: &[u8] = b"ANSWER 1 30\nTN 3035550100 NO RECORD FOUND\n";

const AHEAD: &[u8] = b"AHEAD 1 0\n";

// Whether a run put just this.
fn put<D>(ended: &Ended<D>, text: &[u8]) -> bool {
    ended.sink.bytes() == text
}

// What a run finds on the disks after a crash: whether the entry is there. None for any other end.
fn found(alloc: Global, disks: &Disks<MemDisk>, kept: Kept) -> Result<Option<bool>, NoMemory> {
    let ended = run(alloc, ONE, crashed(disks, kept)?)?;
    if ended.status != Status::Done {
        return Ok(None);
    }
    if put(&ended, ANSWERED) {
        return Ok(Some(true));
    }
    Ok(if put(&ended, AHEAD) {
        Some(false)
    } else {
        None
    })
}

// How many calls of this disk an opening makes: with one fewer it fails.
fn opening(alloc: Global, disk: DiskName) -> Result<u32, NoMemory> {
    for calls in 0..60 {
        if stopped(alloc, b"", disk, calls)?.status == Status::Done {
            return Ok(calls);
        }
    }
    Ok(60)
}

// After the opening come the body's write and its sync, the commit byte's write and its sync, and a read for the table.
// Which of the four crashes have the entry, by how many of these calls passed.
const AFTER: [[bool; 4]; 6] = [
    [false, false, false, false],
    [false, false, false, false],
    [false, false, false, false],
    [false, true, false, true],
    [true, true, true, true],
    [true, true, true, true],
];

// Of a node alone.
#[test]
fn an_entry_is_there_once_its_commit_byte_is_synced(rt: HostRuntime) -> Result<(), Fail> {
    let alloc = rt.alloc();
    let mut calls = opening(alloc, DiskName::A)?;
    for (passed, there) in AFTER.into_iter().enumerate() {
        let first = stopped(alloc, STREET_ALONE, DiskName::A, calls)?;
        assert_eq!(rt; put(&first, BOOKED_ALONE), passed == 5);
        let disks = inner(first.disks);
        for (kept, there) in KEPT.into_iter().zip(there) {
            assert_eq!(rt; found(alloc, &disks, kept)?, Some(there));
        }
        calls = calls.saturating_add(1);
    }
    Ok(())
}

// How many entries a run told as booked.
fn told<D>(ended: &Ended<D>) -> usize {
    ended
        .sink
        .bytes()
        .windows(7)
        .filter(|text| *text == b"BOOKED ".as_slice())
        .count()
}

// The script of a street, a file of two records, and all of its entries one by one, with a stop and a start between.
fn entries_one_by_one(alloc: Global) -> Result<Vec<u8>, Fail> {
    let mut script = STREET.to_vec(alloc)?;
    let first = SentRecord::new(b'I', b"3035550100", b"100").bytes();
    let second = SentRecord::new(b'I', b"3035550101", b"101").bytes();
    add_file(
        alloc,
        &mut script,
        &[header(b'1'), first, second, trailer(b'2')],
    )?;
    script.extend_from_slice(b"NEXT\nNEXT\nSTOP a\nSTART a\nNEXT\n")?;
    Ok(script)
}

// Whether the next run on the disks after a crash has so many entries at least, answers, and completes
// the file with its four entries booked once each.
fn keeps(alloc: Global, disks: &Disks<MemDisk>, kept: Kept, booked: usize) -> Result<bool, Fail> {
    let mut script = format!(in alloc; "ASK a 1 3035550100 {}\n", booked)?.into_bytes();
    script.extend_from_slice(&entries_one_by_one(alloc)?)?;
    script.extend_from_slice(b"BATCH\nASK a 1 3035550100 4\n")?;
    let ended = run(alloc, &script, crashed(disks, kept)?)?;
    let text = ended.sink.bytes();
    let answered = text.starts_with(b"ANSWER ");
    let complete =
        b"\nANSWER 4 107\nTN 3035550100 CLASS 1 TYPE 0\nNAME JOHN SMITH\nADDR 100 MAIN ST\nCITY DENVER CO\nLOC\nESN 00101 CO ABC01 LOCKED\n";
    Ok(ended.status == Status::Done && answered && text.ends_with(complete))
}

// Whether nothing is lost that is told as booked by a run in which this disk stops after so many calls,
// whatever of the bytes that were not synced a crash leaves; and how many entries it told.
fn loses_nothing(
    alloc: Global,
    script: &[u8],
    disk: DiskName,
    calls: u32,
) -> Result<(bool, usize), Fail> {
    let first = stopped(alloc, script, disk, calls)?;
    let booked = told(&first);
    let disks = inner(first.disks);
    let mut kept_all = true;
    for kept in KEPT {
        kept_all = kept_all && keeps(alloc, &disks, kept, booked)?;
    }
    Ok((kept_all, booked))
}

// A node's disk stops at any of its calls.
#[test]
fn nothing_that_was_told_is_lost(rt: HostRuntime) -> Result<(), Fail> {
    let alloc = rt.alloc();
    let script = entries_one_by_one(alloc)?;
    for disk in [DiskName::A, DiskName::B] {
        let first = opening(alloc, disk)?;
        let mut most = 0;
        for calls in first..first.saturating_add(60) {
            let (kept, booked) = loses_nothing(alloc, &script, disk, calls)?;
            assert!(rt; kept);
            most = booked;
        }
        assert_eq!(rt; most, 4);
    }
    Ok(())
}

// Before the disks are open, a stop leaves them as they were.
#[test]
fn a_run_that_opens_nothing_says_so(rt: HostRuntime) -> Result<(), Fail> {
    let alloc = rt.alloc();
    for disk in DISKS {
        for calls in 0..opening(alloc, disk)? {
            let first = stopped(alloc, STREET, disk, calls)?;
            assert_eq!(rt; first.status, Status::OpenFault(disk));
            assert!(rt; put(&first, b""));
        }
    }
    Ok(())
}

// These disks, with another in place of the one of this name.
fn with_disk(disks: Disks<MemDisk>, name: DiskName, disk: MemDisk) -> Disks<MemDisk> {
    let Disks { a, b, duty } = disks;
    match name {
        DiskName::A => Disks { a: disk, b, duty },
        DiskName::B => Disks { a, b: disk, duty },
        DiskName::Duty => Disks { a, b, duty: disk },
    }
}

// Where the commit byte of a disk's first frame stands.
fn first_gate(disk: DiskName) -> u64 {
    match disk {
        DiskName::A | DiskName::B => 639,
        DiskName::Duty => 31,
    }
}

// The disk of this name.
fn taken(disks: Disks<MemDisk>, name: DiskName) -> MemDisk {
    match name {
        DiskName::A => disks.a,
        DiskName::B => disks.b,
        DiskName::Duty => disks.duty,
    }
}

// A disk that was formatted, and whose first frame is committed without being there.
fn open_gate(alloc: Global, name: DiskName) -> Result<MemDisk, NoMemory> {
    let mut disk = taken(formatted(alloc)?, name);
    let _ = disk.write_at(first_gate(name), b"\xA5");
    Ok(disk)
}

// What is no journal, or no register, is told by the status.
#[test]
fn disks_that_are_no_journal_are_told(rt: HostRuntime) -> Result<(), Fail> {
    let alloc = rt.alloc();
    for disk in DISKS {
        let with_none = with_disk(formatted(alloc)?, disk, empty(alloc)?);
        let none = run(alloc, ONE, with_none)?;
        assert_eq!(rt; none.status, Status::Foreign(disk));
        let with_gate = with_disk(formatted(alloc)?, disk, open_gate(alloc, disk)?);
        let damaged = run(alloc, ONE, with_gate)?;
        assert_eq!(rt; damaged.status, Status::Damaged(disk, 1));
        assert!(rt; put(&damaged, b""));
    }
    Ok(())
}

// A disk that is not empty is not formatted, and stops the format of those behind it.
#[test]
fn disks_that_are_not_empty_are_not_formatted(rt: HostRuntime) -> Result<(), Fail> {
    let alloc = rt.alloc();
    for disk in DISKS {
        let full = taken(formatted(alloc)?, disk);
        let disks = with_disk(blank(alloc)?, disk, full);
        let again = run_on(alloc, "format", b"", disks)?;
        assert_eq!(rt; again.status, Status::NotEmpty(disk));
        assert!(rt; put(&again, b""));
    }
    Ok(())
}

// A holder whose journal lacks what was booked when its duty began is not opened.
#[test]
fn a_short_journal_is_told(rt: HostRuntime) -> Result<(), Fail> {
    let alloc = rt.alloc();
    let mut script = STREET.to_vec(alloc)?;
    script.extend_from_slice(b"ALONE\n")?;
    let first = run(alloc, &script, formatted(alloc)?)?;
    assert_eq!(rt; first.status, Status::Done);
    let new = taken(formatted(alloc)?, DiskName::A);
    let short = run(alloc, ONE, with_disk(first.disks, DiskName::A, new))?;
    let wanted = Status::Short {
        node: NodeName::A,
        have: 0,
        floor: 1,
    };
    assert_eq!(rt; short.status, wanted);
    assert!(rt; put(&short, b""));
    Ok(())
}

// A node stops and starts.
#[test]
fn a_node_stops_and_starts(rt: HostRuntime) -> Result<(), Fail> {
    let alloc = rt.alloc();
    let mut script = STREET.to_vec(alloc)?;
    script.extend_from_slice(b"STOP a\nSTOP a\n")?;
    script.extend_from_slice(ONE)?;
    script.extend_from_slice(b"NEXT\nBATCH\nEDIT 1 2 RETIRE 9\nSTART a\nSTART a\n")?;
    script.extend_from_slice(ONE)?;
    let ended = run(alloc, &script, formatted(alloc)?)?;
    assert_eq!(rt; ended.status, Status::Done);
    let mut wanted = BOOKED.to_vec(alloc)?;
    wanted.extend_from_slice(
        b"STOPPED a\nDOWN a\nDOWN a\nDOWN a\nDOWN a\nDOWN a\nSTARTED a 1 1\nUP a\n",
    )?;
    wanted.extend_from_slice(ANSWERED)?;
    assert_eq!(rt; ended.sink.bytes(), wanted.as_slice());
    Ok(())
}
