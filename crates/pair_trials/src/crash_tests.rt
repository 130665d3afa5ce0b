//! A script in which each call of each disk fails in turn: after a crash, what was told is still there.

use crate::disks::{Disks, KEPT, closed, copied, crashed, formatted, pair, unfused};
use crate::edits::{Draft, MOST_TEXTS, frames_on};
use crate::tried::Tried;
use ali_base::{DiskName, Duty, Mode, NodeName};
use crash_disk::{Disk, FuseDisk, Kept, MemDisk};
use pair_core::PairFault;
use std::alloc::Global;
use std::process::Abort;
use std::test::Fail;

const A: NodeName = NodeName::A;

const B: NodeName = NodeName::B;

// A call of the pair. The holder writes the next edit of an editor.
#[derive(Clone, Copy, Debug)]
enum Step {
    Write,
    Pass(u32),
    Book,
    Take(NodeName),
    Alone,
    PairUp,
    Stop(NodeName),
    Start(NodeName),
    StartDuty,
    Ready(NodeName),
}

const SCRIPT: [Step; 34] = [
    // An entry of both nodes.
    Step::Write,
    Step::Pass(1),
    Step::Book,
    // One of node a alone, which node b does not have when it takes the duty.
    Step::Write,
    Step::Take(B),
    Step::Write,
    Step::Book,
    // It is cut, and the nodes are in step again.
    Step::Pass(2),
    Step::Start(A),
    Step::Pass(2),
    Step::Pass(3),
    Step::PairUp,
    Step::StartDuty,
    Step::Write,
    Step::Pass(3),
    Step::Book,
    // One of both nodes that is booked by a takeover.
    Step::Write,
    Step::Pass(4),
    Step::Stop(B),
    Step::Start(B),
    Step::Take(A),
    Step::StartDuty,
    Step::Start(A),
    Step::Write,
    Step::Book,
    Step::Ready(A),
    Step::Pass(5),
    Step::Pass(6),
    Step::PairUp,
    Step::Write,
    Step::Alone,
    Step::StartDuty,
    Step::Start(A),
    Step::Book,
];

// What was told: the duty, the booked edits by their numbers, and whether a disk failed. The last edit
// that was written may be there without having been told.
#[derive(Drop)]
struct Notes {
    duty: Duty,
    booked: Vec<(u32, Draft)>,
    written: Option<Draft>,
    failed: bool,
}

impl Notes {
    // Notes what a call that tells nothing else answered.
    fn hear<T: Drop>(&mut self, reply: Result<T, PairFault>) {
        if let Err(PairFault::Fault(_)) = reply {
            self.failed = true;
        }
    }

    fn hear_duty(&mut self, reply: Result<Duty, PairFault>) {
        if let Ok(duty) = reply {
            self.duty = duty;
        }
        self.hear(reply);
    }
}

// The holder writes, and the edit is noted where it may be there.
fn written<D: Disk + Drop>(pair: &mut Tried<D>, notes: &mut Notes, place: u32) {
    let draft = Draft {
        editor: 1,
        serial: pair.count().saturating_add(1),
        text: place.checked_rem(MOST_TEXTS).unwrap_or(0),
    };
    let Some(entry) = draft.entry() else { return };
    let reply = pair.write(pair.duty().holder, &entry);
    if matches!(reply, Ok(_) | Err(PairFault::Fault(_))) {
        notes.written = Some(draft);
    }
    notes.hear(reply);
}

fn booked<D: Disk + Drop>(pair: &mut Tried<D>, notes: &mut Notes) -> Result<(), Fail> {
    let reply = pair.book();
    if let (Ok(booked), Some(draft)) = (reply, notes.written) {
        if booked.number == draft.serial {
            notes.booked.push((booked.number, draft))?;
        }
    }
    notes.hear(reply);
    Ok(())
}

// Does a step, the one at this place.
fn make_step<D: Disk + Drop>(
    pair: &mut Tried<D>,
    notes: &mut Notes,
    step: Step,
    place: u32,
) -> Result<(), Fail> {
    match step {
        Step::Write => written(pair, notes, place),
        Step::Pass(k) if k >= 1 => notes.hear(pair.pass_on(k)),
        Step::Pass(_) => {}
        Step::Book => booked(pair, notes)?,
        Step::Take(n) => notes.hear_duty(pair.take(n)),
        Step::Alone => notes.hear_duty(pair.alone()),
        Step::PairUp => notes.hear_duty(pair.pair_up()),
        Step::Stop(n) => notes.hear(pair.stop(n)),
        Step::Start(n) => notes.hear(pair.start(n)),
        Step::StartDuty => notes.hear_duty(pair.start_duty()),
        Step::Ready(n) => notes.hear(pair.ready(n)),
    }
    Ok(())
}

// Plays the script over these disks; none where the pair is not opened.
fn played<D: Disk + Drop>(
    alloc: Global,
    disks: Disks<D>,
) -> Result<Option<(Disks<D>, Notes)>, Fail> {
    let Some(mut pair) = pair(alloc, disks) else {
        return Ok(None);
    };
    let mut notes = Notes {
        duty: pair.duty(),
        booked: Vec::new(alloc),
        written: None,
        failed: false,
    };
    let mut place = 0u32;
    for next in SCRIPT {
        make_step(&mut pair, &mut notes, next, place)?;
        place = place.saturating_add(1);
    }
    Ok(Some((closed(pair), notes)))
}

// Whether the disk of a node has these booked edits.
fn has(
    alloc: Global,
    disk: &MemDisk,
    n: NodeName,
    booked: &Vec<(u32, Draft)>,
) -> Result<bool, Fail> {
    let Some(frames) = frames_on(alloc, disk.after_crash(Kept::New)?, n)? else {
        return Ok(false);
    };
    for (number, draft) in booked {
        let index = usize::try_from(number.saturating_sub(1)).unwrap_or(usize::MAX);
        match frames.get(index) {
            Some(frame) if frame.draft == *draft => {}
            _ => return Ok(false),
        }
    }
    Ok(true)
}

// Whether this duty is the one that was told, or one after it.
fn follows(duty: Duty, told: Duty) -> bool {
    duty == told || duty.epoch > told.epoch
}

// A pair over what a crash left has all that was told.
fn keeps(
    rt: &impl Abort,
    alloc: Global,
    disks: Disks<MemDisk>,
    notes: &Notes,
    place: (DiskName, u32),
) -> Result<(), Fail> {
    let on_a = has(alloc, &disks.a, A, &notes.booked)?;
    let on_b = has(alloc, &disks.b, B, &notes.booked)?;
    let Some(mut pair) = pair(alloc, disks) else {
        assert!(rt; false, "not opened: {place:?}");
        return Ok(());
    };
    let duty = pair.duty();
    assert!(rt; follows(duty, notes.duty), "{place:?}");
    let is_there = match (duty.mode, duty.holder) {
        (Mode::Both, _) => on_a && on_b,
        (Mode::Alone, A) => on_a,
        (Mode::Alone, B) => on_b,
    };
    assert!(rt; is_there, "{place:?}");
    let last = match notes.booked.last() {
        Some((number, _)) => *number,
        None => 0,
    };
    assert!(rt;
        pair.count() >= last && pair.count() >= notes.duty.floor,
        "{place:?}"
    );
    assert_eq!(rt; pair.ready(duty.holder), Ok(()), "{place:?}");
    assert_eq!(rt;
        pair.table(duty.holder).entries(),
        pair.count(),
        "{place:?}"
    );
    Ok(())
}

// Formatted disks, one of which stops after so many calls.
fn fused(alloc: Global, disk: DiskName, passed: u32) -> Result<Disks<FuseDisk>, Fail> {
    let Disks { a, b, duty } = formatted(alloc)?;
    Ok(Disks {
        a: FuseDisk::new(a, calls(DiskName::A, disk, passed)),
        b: FuseDisk::new(b, calls(DiskName::B, disk, passed)),
        duty: FuseDisk::new(duty, calls(DiskName::Duty, disk, passed)),
    })
}

// How many calls a disk passes where this one passes so many.
fn calls(name: DiskName, disk: DiskName, passed: u32) -> u32 {
    if name == disk { passed } else { u32::MAX }
}

// Formatted disks, of one of which one call fails.
fn failing(alloc: Global, disk: DiskName, call: u32) -> Result<Disks<MemDisk>, Fail> {
    let Disks { a, b, duty } = formatted(alloc)?;
    let call = u64::from(call);
    Ok(match disk {
        DiskName::A => Disks {
            a: copied(alloc, a.bytes(), vec![in alloc; call]?)?,
            b,
            duty,
        },
        DiskName::B => Disks {
            b: copied(alloc, b.bytes(), vec![in alloc; call]?)?,
            a,
            duty,
        },
        DiskName::Duty => Disks {
            duty: copied(alloc, duty.bytes(), vec![in alloc; call]?)?,
            a,
            b,
        },
    })
}

// What was told is there, whatever a crash leaves of the disks.
fn survives(
    rt: &impl Abort,
    alloc: Global,
    disks: &Disks<MemDisk>,
    notes: &Notes,
    place: (DiskName, u32),
) -> Result<(), Fail> {
    for kept in KEPT {
        keeps(rt, alloc, crashed(disks, kept)?, notes, place)?;
    }
    Ok(())
}

// Plays the script on disks of which one stops after so many calls; answers whether it did.
fn stops(rt: &impl Abort, alloc: Global, disk: DiskName, passed: u32) -> Result<bool, Fail> {
    let Some((disks, notes)) = played(alloc, fused(alloc, disk, passed)?)? else {
        return Ok(true);
    };
    survives(rt, alloc, &unfused(disks), &notes, (disk, passed))?;
    Ok(notes.failed)
}

// Plays the script on disks of which one call fails; answers whether it did.
fn fails(rt: &impl Abort, alloc: Global, disk: DiskName, call: u32) -> Result<bool, Fail> {
    let Some((disks, notes)) = played(alloc, failing(alloc, disk, call)?)? else {
        return Ok(true);
    };
    survives(rt, alloc, &disks, &notes, (disk, call))?;
    Ok(notes.failed)
}

// Whether the script ends without a fault, once the disk passes enough calls.
fn all_stops(rt: &impl Abort, alloc: Global, disk: DiskName) -> Result<bool, Fail> {
    for passed in 0..300u32 {
        if !stops(rt, alloc, disk, passed)? {
            return Ok(true);
        }
    }
    Ok(false)
}

// The same, once the call that fails is none that is made.
fn all_fails(rt: &impl Abort, alloc: Global, disk: DiskName) -> Result<bool, Fail> {
    for call in 3..300u32 {
        if !fails(rt, alloc, disk, call)? {
            return Ok(true);
        }
    }
    Ok(false)
}

// Where no disk fails, each step does what it is there for: the fourth entry alone is booked by a takeover,
// and not told by a booking.
#[test]
fn the_script_is_played_to_its_end(rt: HostRuntime) -> Result<(), Fail> {
    let alloc = rt.alloc();
    let (disks, notes) = played(alloc, formatted(alloc)?)?.expect(&rt, "it is opened");
    let duty = Duty {
        epoch: 6,
        holder: A,
        mode: Mode::Alone,
        floor: 5,
    };
    assert_eq!(rt; (notes.duty, notes.failed), (duty, false));
    assert_eq!(rt; notes.booked.len(), 5);
    for ((number, draft), wanted) in notes.booked.iter().zip([1, 2, 3, 5, 6u32]) {
        assert_eq!(rt; (*number, draft.serial), (wanted, wanted));
    }
    survives(&rt, alloc, &disks, &notes, (DiskName::A, 0))
}

#[test]
fn what_was_told_is_there_after_disk_a_stops(rt: HostRuntime) -> Result<(), Fail> {
    assert!(rt; all_stops(&rt, rt.alloc(), DiskName::A)?, "it never ends");
    Ok(())
}

#[test]
fn what_was_told_is_there_after_disk_a_fails(rt: HostRuntime) -> Result<(), Fail> {
    assert!(rt; all_fails(&rt, rt.alloc(), DiskName::A)?, "it never ends");
    Ok(())
}

#[test]
fn what_was_told_is_there_after_disk_b_stops(rt: HostRuntime) -> Result<(), Fail> {
    assert!(rt; all_stops(&rt, rt.alloc(), DiskName::B)?, "it never ends");
    Ok(())
}

#[test]
fn what_was_told_is_there_after_disk_b_fails(rt: HostRuntime) -> Result<(), Fail> {
    assert!(rt; all_fails(&rt, rt.alloc(), DiskName::B)?, "it never ends");
    Ok(())
}

#[test]
fn what_was_told_is_there_after_the_register_stops(rt: HostRuntime) -> Result<(), Fail> {
    assert!(rt;
        all_stops(&rt, rt.alloc(), DiskName::Duty)?,
        "it never ends"
    );
    Ok(())
}

#[test]
fn what_was_told_is_there_after_the_register_fails(rt: HostRuntime) -> Result<(), Fail> {
    assert!(rt;
        all_fails(&rt, rt.alloc(), DiskName::Duty)?,
        "it never ends"
    );
    Ok(())
}
