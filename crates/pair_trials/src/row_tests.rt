//! Worked scripts of the pair.

use crate::disks::{
    Bounds, Disks, KEPT, WIDE, closed, copied, crashed, formatted, opened, pair, unfused,
};
use crate::edits::Draft;
use crate::tried::Tried;
use crate::twin_events::{Event, done};
use crate::twin_rows::Told;
use ali_base::{Company, Cycle, Day, DiskName, Duty, Mode, NoMemory, NodeName};
use crash_disk::{Disk, FuseDisk, MemDisk};
use office_entry::Entry;
use office_fixtures::SentRecord;
use pair_core::{Ack, Booked, Delivered, MOST_MESSAGES, OpenEnd, PairFault, PairStatus, Started};
use std::alloc::Global;
use std::process::Abort;
use std::test::Fail;

const A: NodeName = NodeName::A;

const B: NodeName = NodeName::B;

// A pair over formatted disks.
fn office(alloc: Global) -> Result<Option<Tried<MemDisk>>, NoMemory> {
    Ok(pair(alloc, formatted(alloc)?))
}

// An entry of the scripts.
#[derive(Clone, Copy, Debug)]
enum Sent {
    /// The first edit, which makes the even numbers 100 to 198 of MAIN ST a range.
    Street,
    /// The opening of a file of two lines.
    Opening,
    /// A line of it, the first or the second.
    Line(u32),
}

impl Sent {
    fn entry(self) -> Option<Entry> {
        match self {
            Sent::Street => street(),
            Sent::Opening => opening(),
            Sent::Line(number) => line(number),
        }
    }
}

fn street() -> Option<Entry> {
    let draft = Draft {
        editor: 1,
        serial: 1,
        text: 0,
    };
    draft.entry()
}

fn opening() -> Option<Entry> {
    Some(Entry::Open {
        company: Company::read(b"ABC01")?,
        cycle: Cycle::new(1)?,
        count: 2,
        day: Day::read(b"010224")?,
        digest: [7; 32],
    })
}

fn line(number: u32) -> Option<Entry> {
    let bytes = if number == 1 {
        SentRecord::new(b'I', b"3035550100", b"100").bytes()
    } else {
        SentRecord::new(b'I', b"3035550102", b"102").bytes()
    };
    Some(Entry::Line {
        company: Company::read(b"ABC01")?,
        cycle: Cycle::new(1)?,
        line: number,
        bytes,
    })
}

// What writing an entry answers.
fn write<D: Disk + Drop>(
    pair: &mut Tried<D>,
    n: NodeName,
    sent: Sent,
) -> Option<Result<u32, PairFault>> {
    Some(pair.write(n, &sent.entry()?))
}

// The message after this answer, in catching up.
fn following(answer: Delivered) -> Option<u32> {
    match answer {
        Delivered::Stored(ack) | Delivered::Have(ack) => ack.number.checked_add(1),
        Delivered::Cut(number) => Some(number),
        Delivered::Behind { len, .. } => len.checked_add(1),
        Delivered::Stale { .. } | Delivered::HaveEnd(_) | Delivered::Acked(_) => None,
    }
}

// Catches the other node up, and answers how many frames it then has.
fn caught_up<D: Disk + Drop>(pair: &mut Tried<D>) -> Option<u32> {
    let mut k = pair.len(A).min(pair.len(B)).checked_add(1)?;
    for _ in 0..100 {
        if k < 1 {
            return None;
        }
        match pair.pass_on(k).ok()? {
            Delivered::HaveEnd(ack) => return ack.number.checked_sub(1),
            answer => k = following(answer)?,
        }
    }
    None
}

// Writes an entry, passes it on and books it.
fn next(pair: &mut Tried<MemDisk>, n: NodeName, sent: Sent) -> Option<Result<Booked, PairFault>> {
    let number = write(pair, n, sent)?.ok()?;
    if number < 1 {
        return None;
    }
    if pair.duty().mode == Mode::Both {
        let _ = pair.pass_on(number);
    }
    Some(pair.book())
}

// Tells the end so often that no more messages may be on their way, and answers the last number.
fn filled(pair: &mut Tried<MemDisk>) -> Option<u32> {
    let mut last = 0;
    for _ in 0..MOST_MESSAGES {
        last = pair.ship(A, 1).ok()?;
    }
    Some(last)
}

// A call of a script.
#[derive(Clone, Copy, Debug)]
enum Call {
    Do(Event),
    /// The node writes an entry.
    Write(NodeName, Sent),
    /// The same, and the entry is passed on in mode Both, and booked.
    Next(NodeName, Sent),
    CatchUp,
    /// The end is told until no more messages may be on their way.
    Fill,
    /// How many entries are booked.
    Count,
    /// How many entries the table of the node has.
    Entries(NodeName),
}

// What a call answers.
#[derive(Clone, Copy, Debug, PartialEq, Eq)]
enum Said {
    Told(Told),
    Refused(PairFault),
    CaughtUp(u32),
    Count(u32),
}

// A value that is told, or the refusal.
fn answered(told: Result<Told, PairFault>) -> Said {
    match told {
        Ok(told) => Said::Told(told),
        Err(fault) => Said::Refused(fault),
    }
}

// Does a call.
fn called(pair: &mut Tried<MemDisk>, call: Call) -> Option<Said> {
    Some(match call {
        Call::Do(event) => answered(done(pair, event)?),
        Call::Write(n, sent) => match write(pair, n, sent)? {
            Ok(number) => Said::Told(Told::Written(number)),
            Err(fault) => Said::Refused(fault),
        },
        Call::Next(n, sent) => match next(pair, n, sent)? {
            Ok(booked) => Said::Told(Told::Booked(booked)),
            Err(fault) => Said::Refused(fault),
        },
        Call::CatchUp => Said::CaughtUp(caught_up(pair)?),
        Call::Fill => Said::Count(filled(pair)?),
        Call::Count => Said::Count(pair.count()),
        Call::Entries(n) => Said::Count(pair.table(n).entries()),
    })
}

// Does the calls of a script one after the other: each answers what stands behind it.
fn follow(rt: &impl Abort, pair: Option<Tried<MemDisk>>, script: &[(Call, Said)]) {
    let Some(mut pair) = pair else {
        assert!(rt; false, "not opened");
        return;
    };
    for (call, answer) in script {
        assert_eq!(rt; called(&mut pair, *call), Some(*answer), "{call:?}");
    }
}

const CUT: [(Call, Said); 9] = [
    (Call::Write(A, Sent::Street), Said::Told(Told::Written(1))),
    (Call::Do(Event::Ship(A, 1)), Said::Told(Told::Sent(1))),
    (
        Call::Do(Event::Take(B)),
        Said::Told(Told::Duty(Duty {
            epoch: 2,
            holder: B,
            mode: Mode::Alone,
            floor: 0,
        })),
    ),
    (
        Call::Next(B, Sent::Street),
        Said::Told(Told::Booked(Booked {
            number: 1,
            code: 0,
            detail: 1,
        })),
    ),
    (Call::CatchUp, Said::CaughtUp(1)),
    (
        Call::Do(Event::PairUp),
        Said::Told(Told::Duty(Duty {
            epoch: 3,
            holder: B,
            mode: Mode::Both,
            floor: 1,
        })),
    ),
    (
        Call::Do(Event::Take(A)),
        Said::Told(Told::Duty(Duty {
            epoch: 4,
            holder: A,
            mode: Mode::Alone,
            floor: 1,
        })),
    ),
    (
        Call::Do(Event::Deliver(1)),
        Said::Told(Told::Delivered(Delivered::Stale { epoch: 1, known: 3 }, 0)),
    ),
    (
        Call::Do(Event::Status),
        Said::Told(Told::Status(PairStatus {
            duty: Duty {
                epoch: 4,
                holder: A,
                mode: Mode::Alone,
                floor: 1,
            },
            count: 1,
            flight: None,
            len_a: Some(1),
            len_b: Some(1),
        })),
    ),
];

// An entry that only the old holder has is cut when the other node took the duty, and its message is stale.
#[test]
fn an_entry_that_was_not_passed_on_is_cut(rt: HostRuntime) -> Result<(), Fail> {
    follow(&rt, office(rt.alloc())?, &CUT);
    Ok(())
}

const STOPPED: [(Call, Said); 8] = [
    (Call::Write(A, Sent::Street), Said::Told(Told::Written(1))),
    (Call::Do(Event::Stop(A)), Said::Told(Told::Stopped)),
    (
        Call::Do(Event::Take(B)),
        Said::Told(Told::Duty(Duty {
            epoch: 2,
            holder: B,
            mode: Mode::Alone,
            floor: 0,
        })),
    ),
    (
        Call::Do(Event::Start(A)),
        Said::Told(Told::Started(Started { len: 1, known: 2 })),
    ),
    (
        Call::Do(Event::Status),
        Said::Told(Told::Status(PairStatus {
            duty: Duty {
                epoch: 2,
                holder: B,
                mode: Mode::Alone,
                floor: 0,
            },
            count: 0,
            flight: None,
            len_a: Some(1),
            len_b: Some(0),
        })),
    ),
    (Call::CatchUp, Said::CaughtUp(0)),
    (
        Call::Do(Event::PairUp),
        Said::Told(Told::Duty(Duty {
            epoch: 3,
            holder: B,
            mode: Mode::Both,
            floor: 0,
        })),
    ),
    (
        Call::Do(Event::Status),
        Said::Told(Told::Status(PairStatus {
            duty: Duty {
                epoch: 3,
                holder: B,
                mode: Mode::Both,
                floor: 0,
            },
            count: 0,
            flight: None,
            len_a: Some(0),
            len_b: Some(0),
        })),
    ),
];

// A node that was stopped catches up: its entry, which was not passed on, is cut.
#[test]
fn a_node_that_was_stopped_catches_up(rt: HostRuntime) -> Result<(), Fail> {
    follow(&rt, office(rt.alloc())?, &STOPPED);
    Ok(())
}

const TAKEN: [(Call, Said); 10] = [
    (
        Call::Next(A, Sent::Street),
        Said::Told(Told::Booked(Booked {
            number: 1,
            code: 0,
            detail: 1,
        })),
    ),
    (
        Call::Next(A, Sent::Opening),
        Said::Told(Told::Booked(Booked {
            number: 2,
            code: 0,
            detail: 0,
        })),
    ),
    (Call::Write(A, Sent::Line(1)), Said::Told(Told::Written(3))),
    (Call::Do(Event::Ship(A, 3)), Said::Told(Told::Sent(1))),
    (
        Call::Do(Event::Deliver(1)),
        Said::Told(Told::Delivered(
            Delivered::Stored(Ack {
                epoch: 1,
                number: 3,
                end: false,
            }),
            2,
        )),
    ),
    (Call::Do(Event::Stop(A)), Said::Told(Told::Stopped)),
    (
        Call::Do(Event::Take(B)),
        Said::Told(Told::Duty(Duty {
            epoch: 2,
            holder: B,
            mode: Mode::Alone,
            floor: 3,
        })),
    ),
    (Call::Count, Said::Count(3)),
    (
        Call::Next(B, Sent::Line(2)),
        Said::Told(Told::Booked(Booked {
            number: 4,
            code: 0,
            detail: 0,
        })),
    ),
    (Call::Entries(B), Said::Count(4)),
];

// What was passed on and not booked is booked when the other node takes the duty.
#[test]
fn a_takeover_books_what_was_passed_on(rt: HostRuntime) -> Result<(), Fail> {
    follow(&rt, office(rt.alloc())?, &TAKEN);
    Ok(())
}

const ALONE: [(Call, Said); 11] = [
    (Call::Count, Said::Count(1)),
    (Call::Write(A, Sent::Opening), Said::Told(Told::Written(2))),
    (
        Call::Do(Event::PassOn(2)),
        Said::Refused(PairFault::Fault(DiskName::B)),
    ),
    (
        Call::Do(Event::Alone),
        Said::Told(Told::Duty(Duty {
            epoch: 2,
            holder: A,
            mode: Mode::Alone,
            floor: 1,
        })),
    ),
    (
        Call::Do(Event::Book),
        Said::Told(Told::Booked(Booked {
            number: 2,
            code: 0,
            detail: 0,
        })),
    ),
    (
        Call::Next(A, Sent::Line(1)),
        Said::Told(Told::Booked(Booked {
            number: 3,
            code: 0,
            detail: 0,
        })),
    ),
    (
        Call::Next(A, Sent::Line(2)),
        Said::Told(Told::Booked(Booked {
            number: 4,
            code: 0,
            detail: 0,
        })),
    ),
    (
        Call::Do(Event::Take(B)),
        Said::Refused(PairFault::Down(DiskName::B)),
    ),
    (
        Call::Do(Event::Start(B)),
        Said::Told(Told::Started(Started { len: 1, known: 2 })),
    ),
    (
        Call::Do(Event::Take(B)),
        Said::Refused(PairFault::NotPaired {
            epoch: 2,
            holder: A,
        }),
    ),
    (
        Call::Do(Event::Ready(B)),
        Said::Refused(PairFault::OutOfDuty {
            node: B,
            epoch: 2,
            holder: A,
        }),
    ),
];

// A pair with the first edit booked, of whose disk b the first call after that fails.
fn with_failing_b(alloc: Global) -> Result<Option<Tried<MemDisk>>, Fail> {
    let Some(mut first) = office(alloc)? else {
        return Ok(None);
    };
    let _ = next(&mut first, A, Sent::Street);
    let disks = closed(first);
    let b = failing_at(alloc, &disks.b, 5)?;
    Ok(pair(alloc, with_b(disks, b)))
}

// The holder goes on alone where the other node's disk failed.
#[test]
fn the_holder_goes_on_alone(rt: HostRuntime) -> Result<(), Fail> {
    follow(&rt, with_failing_b(rt.alloc())?, &ALONE);
    Ok(())
}

const REFUSED: [(Call, Said); 11] = [
    (Call::Write(A, Sent::Street), Said::Told(Told::Written(1))),
    (
        Call::Write(A, Sent::Street),
        Said::Refused(PairFault::InFlight(1)),
    ),
    (
        Call::Do(Event::Book),
        Said::Refused(PairFault::Unstored {
            number: 1,
            epoch: 1,
        }),
    ),
    (
        Call::Do(Event::Alone),
        Said::Told(Told::Duty(Duty {
            epoch: 2,
            holder: A,
            mode: Mode::Alone,
            floor: 0,
        })),
    ),
    (
        Call::Do(Event::Book),
        Said::Told(Told::Booked(Booked {
            number: 1,
            code: 0,
            detail: 1,
        })),
    ),
    (Call::Do(Event::Book), Said::Refused(PairFault::NoFlight)),
    (
        Call::Do(Event::PairUp),
        Said::Refused(PairFault::NotInStep { ended: 0, due: 2 }),
    ),
    (Call::CatchUp, Said::CaughtUp(1)),
    (
        Call::Do(Event::PairUp),
        Said::Told(Told::Duty(Duty {
            epoch: 3,
            holder: A,
            mode: Mode::Both,
            floor: 1,
        })),
    ),
    (
        Call::Do(Event::Alone),
        Said::Told(Told::Duty(Duty {
            epoch: 4,
            holder: A,
            mode: Mode::Alone,
            floor: 1,
        })),
    ),
    (
        Call::Do(Event::Alone),
        Said::Refused(PairFault::NotPaired {
            epoch: 4,
            holder: A,
        }),
    ),
];

// Each refusal of a write, a booking and a change of duty.
#[test]
fn the_refusals_of_a_pair(rt: HostRuntime) -> Result<(), Fail> {
    follow(&rt, office(rt.alloc())?, &REFUSED);
    Ok(())
}

const EMPTY: [(Call, Said); 7] = [
    (
        Call::Do(Event::Ship(A, 3)),
        Said::Refused(PairFault::NoEntry { number: 3, len: 0 }),
    ),
    (
        Call::Do(Event::Ship(B, 1)),
        Said::Refused(PairFault::OutOfDuty {
            node: B,
            epoch: 1,
            holder: A,
        }),
    ),
    (
        Call::Do(Event::Deliver(1)),
        Said::Refused(PairFault::NoMessage { number: 1, sent: 0 }),
    ),
    (
        Call::Do(Event::Start(A)),
        Said::Refused(PairFault::Up(DiskName::A)),
    ),
    (Call::Fill, Said::Count(MOST_MESSAGES)),
    (
        Call::Do(Event::Ship(A, 1)),
        Said::Refused(PairFault::MessagesFull(MOST_MESSAGES)),
    ),
    (
        Call::Do(Event::Deliver(1)),
        Said::Refused(PairFault::MessagesFull(MOST_MESSAGES)),
    ),
];

// An empty office refuses, also once as many messages are on their way as may be.
#[test]
fn an_empty_office_refuses(rt: HostRuntime) -> Result<(), Fail> {
    follow(&rt, office(rt.alloc())?, &EMPTY);
    Ok(())
}

// A takeover in which the register fails, and the duty that is then found: the one before it, or the new one.
const LOST: [(Call, Said); 3] = [
    (
        Call::Do(Event::Take(B)),
        Said::Refused(PairFault::Fault(DiskName::Duty)),
    ),
    (
        Call::Do(Event::Ready(A)),
        Said::Refused(PairFault::Down(DiskName::Duty)),
    ),
    (
        Call::Do(Event::StartDuty),
        Said::Told(Told::Duty(Duty {
            epoch: 1,
            holder: A,
            mode: Mode::Both,
            floor: 0,
        })),
    ),
];

const LASTED: [(Call, Said); 3] = [
    (
        Call::Do(Event::Take(B)),
        Said::Refused(PairFault::Fault(DiskName::Duty)),
    ),
    (
        Call::Do(Event::Ready(A)),
        Said::Refused(PairFault::Down(DiskName::Duty)),
    ),
    (
        Call::Do(Event::StartDuty),
        Said::Told(Told::Duty(Duty {
            epoch: 2,
            holder: B,
            mode: Mode::Alone,
            floor: 0,
        })),
    ),
];

// A pair over formatted disks, of whose register one of the calls of its first change fails.
fn with_failing_duty(alloc: Global, call: u64) -> Result<Option<Tried<MemDisk>>, Fail> {
    let disks = formatted(alloc)?;
    // Behind the copy and the opening.
    let duty = failing_at(alloc, &disks.duty, call.saturating_add(4))?;
    Ok(pair(alloc, with_duty(disks, duty)))
}

#[test]
fn a_takeover_lasts_where_its_last_sync_failed(rt: HostRuntime) -> Result<(), Fail> {
    let alloc = rt.alloc();
    follow(&rt, with_failing_duty(alloc, 1)?, &LOST);
    follow(&rt, with_failing_duty(alloc, 3)?, &LOST);
    follow(&rt, with_failing_duty(alloc, 4)?, &LASTED);
    Ok(())
}

// The disks of a pair with a write that stopped after so many calls of disk a.
fn stopped(alloc: Global, passed: u32) -> Result<Option<Disks<MemDisk>>, Fail> {
    let Disks { a, b, duty } = formatted(alloc)?;
    let disks = Disks {
        // Opening makes a sync and a read.
        a: FuseDisk::new(a, passed.saturating_add(2)),
        b: FuseDisk::new(b, 100),
        duty: FuseDisk::new(duty, 100),
    };
    let Some(mut pair) = pair(alloc, disks) else {
        return Ok(None);
    };
    let _ = write(&mut pair, A, Sent::Street);
    Ok(Some(unfused(closed(pair))))
}

// What the status tells after a crash: whether the write is there.
fn flight_after(
    alloc: Global,
    disks: &Disks<MemDisk>,
    place: usize,
) -> Result<Option<PairStatus>, Fail> {
    let Some(kept) = KEPT.get(place) else {
        return Ok(None);
    };
    let Some(pair) = pair(alloc, crashed(disks, *kept)?) else {
        return Ok(None);
    };
    Ok(pair.status().ok())
}

// The status of an office in which nothing is booked, with or without an entry written.
fn first_status(is_written: bool) -> PairStatus {
    PairStatus {
        duty: Duty {
            epoch: 1,
            holder: A,
            mode: Mode::Both,
            floor: 0,
        },
        count: 0,
        flight: if is_written { Some(1) } else { None },
        len_a: Some(if is_written { 1 } else { 0 }),
        len_b: Some(0),
    }
}

// A write stops after so many of its calls: the body, its sync, the commit byte, and its sync. Whether it
// then lasts, by what a crash leaves.
const LASTS: [(u32, [bool; 4]); 3] = [
    (2, [false; 4]),
    (3, [false, true, false, true]),
    (4, [true; 4]),
];

#[test]
fn a_write_is_there_once_its_commit_byte_is_synced(rt: HostRuntime) -> Result<(), Fail> {
    let alloc = rt.alloc();
    for (passed, lasts) in LASTS {
        let Some(disks) = stopped(alloc, passed)? else {
            assert!(rt; false, "not opened");
            return Ok(());
        };
        for (place, lasts) in lasts.iter().enumerate() {
            assert_eq!(rt;
                flight_after(alloc, &disks, place)?,
                Some(first_status(*lasts)),
                "{passed} {place}"
            );
        }
    }
    Ok(())
}

// The disks of a pair with the first edit booked, whose node a then went on alone: duty 2 over one entry.
fn worn(alloc: Global) -> Result<Option<Disks<MemDisk>>, Fail> {
    let Some(mut pair) = office(alloc)? else {
        return Ok(None);
    };
    let _ = next(&mut pair, A, Sent::Street);
    let _ = pair.alone();
    Ok(Some(closed(pair)))
}

// What is done to the disks before they are opened again.
#[derive(Clone, Copy, Debug)]
enum Spoil {
    EmptyA,
    SwapNodes,
    EmptyDuty,
    NewA,
    NewB,
    FailB,
}

// The disks with another one of node a, of node b, or of the register.
fn with_a(disks: Disks<MemDisk>, a: MemDisk) -> Disks<MemDisk> {
    Disks {
        a,
        b: disks.b,
        duty: disks.duty,
    }
}

fn with_b(disks: Disks<MemDisk>, b: MemDisk) -> Disks<MemDisk> {
    Disks {
        a: disks.a,
        b,
        duty: disks.duty,
    }
}

fn with_duty(disks: Disks<MemDisk>, duty: MemDisk) -> Disks<MemDisk> {
    Disks {
        a: disks.a,
        b: disks.b,
        duty,
    }
}

fn swapped(disks: Disks<MemDisk>) -> Disks<MemDisk> {
    Disks {
        a: disks.b,
        b: disks.a,
        duty: disks.duty,
    }
}

// An empty disk.
fn blank(alloc: Global) -> Result<MemDisk, NoMemory> {
    copied(alloc, b"", Vec::new(alloc))
}

// A formatted disk of node a, and of node b.
fn new_a(alloc: Global) -> Result<MemDisk, NoMemory> {
    Ok(formatted(alloc)?.a)
}

fn new_b(alloc: Global) -> Result<MemDisk, NoMemory> {
    Ok(formatted(alloc)?.b)
}

// A disk with these bytes, of whose calls one fails: two make the copy, and two open it.
fn failing_at(alloc: Global, disk: &MemDisk, call: u64) -> Result<MemDisk, NoMemory> {
    copied(alloc, disk.bytes(), vec![in alloc; call]?)
}

fn spoiled(alloc: Global, disks: Disks<MemDisk>, spoil: Spoil) -> Result<Disks<MemDisk>, NoMemory> {
    Ok(match spoil {
        Spoil::EmptyA => {
            let a = blank(alloc)?;
            with_a(disks, a)
        }
        Spoil::SwapNodes => swapped(disks),
        Spoil::EmptyDuty => {
            let duty = blank(alloc)?;
            with_duty(disks, duty)
        }
        Spoil::NewA => {
            let a = new_a(alloc)?;
            with_a(disks, a)
        }
        Spoil::NewB => {
            let b = new_b(alloc)?;
            with_b(disks, b)
        }
        Spoil::FailB => {
            let b = failing_at(alloc, &disks.b, 3)?;
            with_b(disks, b)
        }
    })
}

// Why a pair is not opened; none where it is.
fn open_end(alloc: Global, disks: Disks<MemDisk>, bounds: Bounds) -> Option<OpenEnd> {
    match opened(alloc, disks, bounds)? {
        Ok(_) => None,
        Err((_, _, _, end)) => Some(end),
    }
}

// Why a pair is not opened over disks with which this was done, within these bounds.
fn end_over(alloc: Global, spoil: Option<Spoil>, bounds: Bounds) -> Result<Option<OpenEnd>, Fail> {
    let Some(disks) = worn(alloc)? else {
        return Ok(None);
    };
    let disks = match spoil {
        Some(spoil) => spoiled(alloc, disks, spoil)?,
        None => disks,
    };
    Ok(open_end(alloc, disks, bounds))
}

const ENDS: [(Spoil, Option<OpenEnd>); 6] = [
    (Spoil::EmptyA, Some(OpenEnd::Foreign(DiskName::A))),
    (Spoil::SwapNodes, Some(OpenEnd::Foreign(DiskName::A))),
    (Spoil::EmptyDuty, Some(OpenEnd::Foreign(DiskName::Duty))),
    (
        Spoil::NewA,
        Some(OpenEnd::Short {
            node: A,
            have: 0,
            floor: 1,
        }),
    ),
    // Node b is out of duty, and need not have what is booked.
    (Spoil::NewB, None),
    (Spoil::FailB, Some(OpenEnd::OpenFault(DiskName::B))),
];

#[test]
fn a_pair_is_not_opened_over_other_disks(rt: HostRuntime) -> Result<(), Fail> {
    for (spoil, end) in ENDS {
        assert_eq!(rt; end_over(rt.alloc(), Some(spoil), WIDE)?, end, "{spoil:?}");
    }
    Ok(())
}

// Bounds that the journal of node a, and the register, are past.
const NARROW: [(Bounds, OpenEnd); 2] = [
    (
        Bounds {
            frames: 0,
            last_epoch: 20,
        },
        OpenEnd::Damaged(DiskName::A, 1),
    ),
    (
        Bounds {
            frames: 20,
            last_epoch: 1,
        },
        OpenEnd::Damaged(DiskName::Duty, 1),
    ),
];

#[test]
fn a_pair_is_not_opened_past_its_bounds(rt: HostRuntime) -> Result<(), Fail> {
    for (bounds, end) in NARROW {
        assert_eq!(rt;
            end_over(rt.alloc(), None, bounds)?,
            Some(end),
            "{bounds:?}"
        );
    }
    Ok(())
}
