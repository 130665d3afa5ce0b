//! Nodes over disks in memory, some of which stop.
ghost use Rattle.std.specs.Prelude.{◌≡◌};
ghost use Rattle.node_journal.specs.OpenJournal as journals;

use crate::*;
use ali_base::{Editor, NoMemory, NodeName, Serial};
use crash_disk::{Disk, FuseDisk, MemDisk};
use node_journal::{LAST_EPOCH, format};
use office_entry::{Edit, Entry};
use office_state::Limits;
use std::alloc::Global;
use std::process::Abort;
use std::test::Fail;

// Room for five blocks.
const ROOM: u64 = 3_200;

const RECORD: u64 = 16_384;

const SMALL: Limits = Limits {
    companies: 1,
    numbers: 8,
    ranges: 8,
};

// A node whose journal has at most four frames.
#[derive(Drop)]
struct Four<D> {
    node: Node<D>,
    ghost limited: { journals.limit_of node.journal ≡ 4 },
}

// What a message tells: a frame by its epoch and its entry, or the end.
#[derive(Clone, Copy, Debug, PartialEq, Eq)]
enum Telling {
    Frame(u32, u32),
    End,
}

// A disk with node a's journal without frames, on which 3 calls were made and of whose calls one
// fails; 0 for none.
fn formatted(alloc: Global, failing: u64) -> Result<MemDisk, NoMemory> {
    let mut disk = MemDisk::new(alloc, ROOM, RECORD, vec![in alloc; failing]?)?;
    let _ = format(&mut disk, NodeName::A);
    Ok(disk)
}

// Starts node a with this epoch, over a disk with at least so many frames.
fn start<D: Disk + Drop>(
    alloc: Global,
    disk: D,
    known: u32,
    need: u32,
) -> Result<Four<D>, StartFault> {
    match Node::start(alloc, disk, NodeName::A, known, need, SMALL, 4) {
        Ok(node) => Ok(Four { node }),
        Err((_, fault)) => Err(fault),
    }
}

// The edit of editor 1 with this serial, which retires the range of the same number.
fn entry(code: u32) -> Option<Entry> {
    Some(Entry::Edit {
        editor: Editor::new(1)?,
        serial: Serial::new(code)?,
        edit: Edit::Retire { id: code },
    })
}

// The serial of an edit.
fn code(e: &Entry) -> Option<u32> {
    match e {
        Entry::Edit { serial, .. } => Some(serial.number()),
        _ => None,
    }
}

// Writes an entry in an epoch, where the node is usable.
fn write<D: Disk + Drop>(
    four: &mut Four<D>,
    code: u32,
    epoch: u32,
) -> Option<Result<u32, AppendFault>> {
    if !four.node.usable() || epoch < 1 || epoch > LAST_EPOCH {
        return None;
    }
    Some(four.node.write(&entry(code)?, epoch))
}

// Learns up to a number, where the node is usable and has that frame.
fn learn<D: Disk + Drop>(four: &mut Four<D>, upto: u32) -> Option<Result<(), LearnFault>> {
    if !four.node.usable() || upto > four.node.len() {
        return None;
    }
    Some(four.node.learn(upto))
}

// Message k of an epoch: its number, the epoch before it and what it tells.
fn message<D: Disk + Drop>(
    four: &mut Four<D>,
    k: u32,
    epoch: u32,
) -> Option<Result<(u32, u32, Telling), ReadFault>> {
    if !four.node.usable() || k < 1 || k - 1 > four.node.len() {
        return None;
    }
    Some(match four.node.message(k, epoch) {
        Ok(m) => Ok((m.number, m.before, told(&m.what)?)),
        Err(fault) => Err(fault),
    })
}

fn told(what: &What) -> Option<Telling> {
    Some(match what {
        What::Entry(epoch, e) => Telling::Frame(*epoch, code(e)?),
        What::End => Telling::End,
    })
}

// Stores a message, where the node is usable.
fn store<D: Disk + Drop>(
    four: &mut Four<D>,
    epoch: u32,
    number: u32,
    before: u32,
    told: Telling,
) -> Option<Result<Delivered, DiskFault>> {
    if !four.node.usable() || number < 1 {
        return None;
    }
    let what = match told {
        Telling::Frame(own, code) => {
            if number > 4 || own < 1 || own > LAST_EPOCH {
                return None;
            }
            What::Entry(own, entry(code)?)
        }
        Telling::End => What::End,
    };
    Some(
        four.node.store(&Message {
            epoch,
            number,
            before,
            what,
        }),
    )
}

// Node a with frames of the epochs 1, 1 and 3, and the entries 1, 2 and 3. It knows epoch 3.
fn with_frames(alloc: Global) -> Result<Option<Four<MemDisk>>, NoMemory> {
    let Ok(mut four) = start(alloc, formatted(alloc, 0)?, 3, 0) else {
        return Ok(None);
    };
    for (code, epoch) in [(1, 1), (2, 1), (3, 3)] {
        let _ = write(&mut four, code, epoch);
    }
    Ok(Some(four))
}

// A call of a node.
#[derive(Clone, Copy, Debug)]
enum Call {
    /// The entry, and its epoch.
    Write(u32, u32),
    Learn(u32),
    /// The number of the message, and its epoch.
    Message(u32, u32),
    Store(Note),
    NoteEpoch(u32),
    Stop,
    /// The epoch that is known, and how many frames are needed.
    Restart(u32, u32),
    Look,
}

// A message: its epoch, its number, the epoch before it and what it tells.
#[derive(Clone, Copy, Debug)]
struct Note(u32, u32, u32, Telling);

// What a call answers.
#[derive(Clone, Copy, Debug, PartialEq, Eq)]
enum Said {
    Done,
    Written(u32),
    NotWritten(AppendFault),
    NotLearned(LearnFault),
    /// The number, the epoch before it and what it tells.
    Message(u32, u32, Telling),
    NotRead(ReadFault),
    Came(Delivered),
    NotStored,
    NotStarted(StartFault),
    /// How many frames the journal has and are learned, the epoch that is known, how many entries the table
    /// has, and whether the node is usable.
    Seen(u32, u32, u32, u32, bool),
}

fn written(answer: Result<u32, AppendFault>) -> Said {
    match answer {
        Ok(number) => Said::Written(number),
        Err(fault) => Said::NotWritten(fault),
    }
}

fn learned(answer: Result<(), LearnFault>) -> Said {
    match answer {
        Ok(()) => Said::Done,
        Err(fault) => Said::NotLearned(fault),
    }
}

fn shown(answer: Result<(u32, u32, Telling), ReadFault>) -> Said {
    match answer {
        Ok((number, before, what)) => Said::Message(number, before, what),
        Err(fault) => Said::NotRead(fault),
    }
}

fn came(answer: Result<Delivered, DiskFault>) -> Said {
    match answer {
        Ok(delivered) => Said::Came(delivered),
        Err(DiskFault) => Said::NotStored,
    }
}

fn started(answer: Result<(), StartFault>) -> Said {
    match answer {
        Ok(()) => Said::Done,
        Err(fault) => Said::NotStarted(fault),
    }
}

fn seen<D: Disk + Drop>(four: &Four<D>) -> Said {
    let node = &four.node;
    Said::Seen(
        node.len(),
        node.learned(),
        node.known(),
        node.office().entries(),
        node.usable(),
    )
}

// The node hears of an epoch, where it knows no later one.
fn note_epoch<D: Disk + Drop>(four: &mut Four<D>, epoch: u32) -> Option<Said> {
    if four.node.known() > epoch {
        return None;
    }
    four.node.note_epoch(epoch);
    Some(Said::Done)
}

// Does a call, where the node may be asked.
fn called<D: Disk + Drop>(four: &mut Four<D>, call: Call) -> Option<Said> {
    Some(match call {
        Call::Write(code, epoch) => written(write(four, code, epoch)?),
        Call::Learn(upto) => learned(learn(four, upto)?),
        Call::Message(k, epoch) => shown(message(four, k, epoch)?),
        Call::Store(Note(epoch, number, before, told)) => {
            came(store(four, epoch, number, before, told)?)
        }
        Call::NoteEpoch(epoch) => note_epoch(four, epoch)?,
        Call::Stop => {
            four.node.stop();
            Said::Done
        }
        Call::Restart(known, need) => started(four.node.restart(known, need)),
        Call::Look => seen(four),
    })
}

// Does the calls of a script one after the other: each answers what stands behind it.
fn follow<D: Disk + Drop>(rt: &impl Abort, four: Option<Four<D>>, script: &[(Call, Said)]) {
    let Some(mut four) = four else {
        assert!(rt; false, "it does not start");
        return;
    };
    for (call, said) in script {
        assert_eq!(rt; called(&mut four, *call), Some(*said), "{call:?}");
    }
}

// An entry that was there already is not due, and those before it stay learned.
const LEARNED: [(Call, Said); 14] = [
    (Call::Look, Said::Seen(0, 0, 2, 0, true)),
    (Call::Write(1, 1), Said::Written(1)),
    (Call::Write(2, 2), Said::Written(2)),
    (Call::Look, Said::Seen(2, 0, 2, 0, true)),
    (Call::Learn(1), Said::Done),
    (Call::Look, Said::Seen(2, 1, 2, 1, true)),
    (Call::Learn(2), Said::Done),
    (Call::Learn(1), Said::Done),
    (Call::Look, Said::Seen(2, 2, 2, 2, true)),
    (Call::Write(2, 2), Said::Written(3)),
    (Call::Learn(3), Said::NotLearned(LearnFault::NotDue(3))),
    (Call::Write(4, 2), Said::Written(4)),
    (Call::Write(5, 2), Said::NotWritten(AppendFault::Full(4))),
    (Call::Look, Said::Seen(4, 2, 2, 2, true)),
];

#[test]
fn a_node_learns_what_it_writes(rt: HostRuntime) -> Result<(), Fail> {
    let alloc = rt.alloc();
    follow(&rt, start(alloc, formatted(alloc, 0)?, 2, 0).ok(), &LEARNED);
    Ok(())
}

const TOLD: [(Call, Said); 5] = [
    (
        Call::Message(1, 5),
        Said::Message(1, 0, Telling::Frame(1, 1)),
    ),
    (
        Call::Message(2, 5),
        Said::Message(2, 1, Telling::Frame(1, 2)),
    ),
    (
        Call::Message(3, 5),
        Said::Message(3, 1, Telling::Frame(3, 3)),
    ),
    (Call::Message(4, 5), Said::Message(4, 3, Telling::End)),
    (Call::Look, Said::Seen(3, 0, 3, 0, true)),
];

#[test]
fn messages_tell_the_frames_and_the_end(rt: HostRuntime) -> Result<(), Fail> {
    follow(&rt, with_frames(rt.alloc())?, &TOLD);
    Ok(())
}

// Messages; what each comes to at a node with frames of the epochs 1, 1 and 3 that knows epoch 3; and how
// many frames and which epoch it has then.
const STORED: [(Note, Delivered, (u32, u32)); 11] = [
    (
        Note(2, 4, 3, Telling::Frame(2, 4)),
        Delivered::Stale { epoch: 2, known: 3 },
        (3, 3),
    ),
    (
        Note(4, 5, 3, Telling::End),
        Delivered::Behind { len: 3, number: 5 },
        (3, 4),
    ),
    (
        Note(3, 2, 1, Telling::Frame(1, 2)),
        Delivered::Have(Ack {
            epoch: 3,
            number: 2,
            end: false,
        }),
        (3, 3),
    ),
    (
        Note(4, 2, 1, Telling::Frame(2, 4)),
        Delivered::Cut(2),
        (1, 4),
    ),
    (
        Note(3, 4, 2, Telling::Frame(3, 4)),
        Delivered::Cut(3),
        (2, 3),
    ),
    (
        Note(3, 4, 3, Telling::Frame(3, 4)),
        Delivered::Stored(Ack {
            epoch: 3,
            number: 4,
            end: false,
        }),
        (4, 3),
    ),
    (
        Note(5, 4, 3, Telling::Frame(4, 4)),
        Delivered::Stored(Ack {
            epoch: 5,
            number: 4,
            end: false,
        }),
        (4, 5),
    ),
    (Note(4, 4, 2, Telling::End), Delivered::Cut(3), (2, 4)),
    (Note(4, 3, 1, Telling::End), Delivered::Cut(3), (2, 4)),
    (
        Note(3, 3, 1, Telling::End),
        Delivered::HaveEnd(Ack {
            epoch: 3,
            number: 3,
            end: true,
        }),
        (3, 3),
    ),
    (
        Note(4, 4, 3, Telling::End),
        Delivered::HaveEnd(Ack {
            epoch: 4,
            number: 4,
            end: true,
        }),
        (3, 4),
    ),
];

#[test]
fn messages_are_stored_by_the_table(rt: HostRuntime) -> Result<(), Fail> {
    for (note, came, (len, known)) in STORED {
        let script = [
            (Call::Store(note), Said::Came(came)),
            (Call::Look, Said::Seen(len, 0, known, 0, true)),
        ];
        follow(&rt, with_frames(rt.alloc())?, &script);
    }
    Ok(())
}

// A cut from a frame on, after two entries were learned; how many are then; and how many frames are left,
// which are learned anew.
const CUTS: [(u32, u32, u32); 3] = [(3, 2, 2), (2, 0, 1), (1, 0, 0)];

#[test]
fn a_cut_of_what_was_learned_empties_the_table(rt: HostRuntime) -> Result<(), Fail> {
    for (number, learned, left) in CUTS {
        let note = Note(9, number, 1, Telling::Frame(9, 4));
        let script = [
            (Call::Learn(2), Said::Done),
            (Call::Store(note), Said::Came(Delivered::Cut(number))),
            (Call::Look, Said::Seen(left, learned, 9, learned, true)),
            (Call::Learn(left), Said::Done),
            (Call::Look, Said::Seen(left, left, 9, left, true)),
        ];
        follow(&rt, with_frames(rt.alloc())?, &script);
    }
    Ok(())
}

const HEARD: [(Call, Said); 3] = [
    (Call::NoteEpoch(7), Said::Done),
    (Call::Look, Said::Seen(3, 0, 7, 0, true)),
    (
        Call::Store(Note(6, 4, 3, Telling::End)),
        Said::Came(Delivered::Stale { epoch: 6, known: 7 }),
    ),
];

#[test]
fn a_node_hears_of_an_epoch(rt: HostRuntime) -> Result<(), Fail> {
    follow(&rt, with_frames(rt.alloc())?, &HEARD);
    Ok(())
}

// A node that is stopped keeps its table until it starts again, with an empty one.
const RESTARTED: [(Call, Said); 10] = [
    (Call::Learn(3), Said::Done),
    (Call::Stop, Said::Done),
    (Call::Look, Said::Seen(3, 3, 3, 3, false)),
    (Call::Restart(5, 3), Said::Done),
    (Call::Look, Said::Seen(3, 0, 5, 0, true)),
    (Call::Learn(3), Said::Done),
    (
        Call::Restart(6, 4),
        Said::NotStarted(StartFault::Short { have: 3, need: 4 }),
    ),
    (Call::Look, Said::Seen(3, 0, 5, 0, false)),
    (Call::Restart(6, 0), Said::Done),
    (Call::Look, Said::Seen(3, 0, 6, 0, true)),
];

#[test]
fn a_node_stops_and_starts_again(rt: HostRuntime) -> Result<(), Fail> {
    follow(&rt, with_frames(rt.alloc())?, &RESTARTED);
    Ok(())
}

// Why a node does not start over a disk.
fn refused(alloc: Global, disk: MemDisk, need: u32) -> Option<StartFault> {
    start(alloc, disk, 1, need).err()
}

#[test]
fn a_start_is_refused(rt: HostRuntime) -> Result<(), Fail> {
    let alloc = rt.alloc();
    let Some(four) = with_frames(alloc)? else {
        assert!(rt; false, "it does not start");
        return Ok(());
    };
    let short = StartFault::Short { have: 3, need: 4 };
    assert_eq!(rt; refused(alloc, four.node.close(), 4), Some(short));
    let failing = formatted(alloc, 4)?;
    assert_eq!(rt; refused(alloc, failing, 0), Some(StartFault::DiskFault));
    let empty = MemDisk::new(alloc, ROOM, RECORD, vec![in alloc]?)?;
    assert_eq!(rt; refused(alloc, empty, 0), Some(StartFault::Foreign));
    Ok(())
}

// Calls that use the disk, and how each is refused where the disk stopped.
const FAILING: [(Call, Said); 5] = [
    (Call::Write(4, 3), Said::NotWritten(AppendFault::DiskFault)),
    (Call::Learn(3), Said::NotLearned(LearnFault::DiskFault)),
    (Call::Message(2, 3), Said::NotRead(ReadFault::DiskFault)),
    (
        Call::Store(Note(3, 4, 3, Telling::Frame(3, 4))),
        Said::NotStored,
    ),
    (
        Call::Store(Note(4, 2, 1, Telling::Frame(2, 4))),
        Said::NotStored,
    ),
];

// Node a with three frames, over a disk that stops after the two calls of a start.
fn stopping(alloc: Global) -> Result<Option<Four<FuseDisk>>, NoMemory> {
    let Some(four) = with_frames(alloc)? else {
        return Ok(None);
    };
    Ok(start(alloc, FuseDisk::new(four.node.close(), 2), 3, 3).ok())
}

#[test]
fn a_node_whose_disk_fails_is_not_usable(rt: HostRuntime) -> Result<(), Fail> {
    for (call, said) in FAILING {
        let script = [
            (call, said),
            (Call::Look, Said::Seen(3, 0, 3, 0, false)),
            (Call::Restart(4, 0), Said::NotStarted(StartFault::DiskFault)),
            (Call::Look, Said::Seen(0, 0, 3, 0, false)),
        ];
        follow(&rt, stopping(rt.alloc())?, &script);
    }
    Ok(())
}

// A write that fails at one of its calls (6 to 9, behind a format and a start), and how many frames
// are there once the node has started again.
const WRITES: [(u64, u32); 4] = [(6, 0), (7, 0), (8, 0), (9, 1)];

#[test]
fn a_node_starts_again_after_a_failed_write(rt: HostRuntime) -> Result<(), Fail> {
    let alloc = rt.alloc();
    for (failing, len) in WRITES {
        let script = [
            (Call::Write(1, 1), Said::NotWritten(AppendFault::DiskFault)),
            (Call::Look, Said::Seen(0, 0, 1, 0, false)),
            (Call::Restart(2, 0), Said::Done),
            (Call::Look, Said::Seen(len, 0, 2, 0, true)),
            (Call::Learn(len), Said::Done),
            (Call::Look, Said::Seen(len, len, 2, len, true)),
        ];
        follow(
            &rt,
            start(alloc, formatted(alloc, failing)?, 1, 0).ok(),
            &script,
        );
    }
    Ok(())
}
