//! The pair and its slow twin do the same events, and answer the same.

use crate::disks::{Bounds, Disks, KEPT, closed, copied, formatted, opened};
use crate::edits::{Frame, frames_on};
use crate::tried::Tried;
use crate::twin_events::{Dice, Event, done, met, told};
use crate::twin_rows::{Reply, Told};
use crate::twin_world::{FIRST, NodeState, World, count, table};
use ali_base::{DiskName, Editor, NodeName};
use crash_disk::{Kept, MemDisk};
use office_state::Office;
use pair_core::{OpenEnd, PairFault};
use std::alloc::Global;
use std::ops::Range;
use std::process::Abort;
use std::test::Fail;

// How often each disk was told to have failed.
#[derive(Clone, Copy, Debug)]
struct Faults {
    a: u64,
    b: u64,
    duty: u64,
}

const NONE: Faults = Faults {
    a: 0,
    b: 0,
    duty: 0,
};

impl Faults {
    fn note(&mut self, disk: DiskName) {
        match disk {
            DiskName::A => self.a = self.a.saturating_add(1),
            DiskName::B => self.b = self.b.saturating_add(1),
            DiskName::Duty => self.duty = self.duty.saturating_add(1),
        }
    }

    // Whether just as many failed.
    fn are_of(&self, disks: &Disks<MemDisk>) -> bool {
        self.a == disks.a.faults() && self.b == disks.b.faults() && self.duty == disks.duty.faults()
    }
}

// In what the pair differs from the world, if in anything.
fn difference(pair: &Tried<MemDisk>, world: &World) -> Option<&'static str> {
    if pair.duty() != world.duty {
        return Some("the duty");
    }
    if pair.register_up() != world.failed.is_none() {
        return Some("whether the register is up");
    }
    if pair.count() != count(&world.booked) {
        return Some("the count");
    }
    for n in [NodeName::A, NodeName::B] {
        if pair.up(n) != world.node(n).up {
            return Some("whether a node is up");
        }
        if pair.up(n) && pair.len(n) != world.len(n) {
            return Some("the length of a journal");
        }
    }
    None
}

// What a table has of two editors: the serial of the last edit, and its code and detail.
fn kept(office: &Office, editor: u8) -> Option<(u32, u16, u64)> {
    let (serial, verdict) = office.edit_kept(Editor::new(editor)?)?;
    Some((serial, verdict.code, verdict.detail))
}

// Whether the table of a node is the one after the history.
fn is_ready(pair: &Tried<MemDisk>, world: &World, n: NodeName) -> Result<bool, Fail> {
    let Some((office, _)) = table(world.alloc, &world.booked)? else {
        return Ok(false);
    };
    let shown = pair.table(n);
    Ok(
        shown.entries() == count(&world.booked)
            && kept(shown, 1) == kept(&office, 1)
            && kept(shown, 2) == kept(&office, 2),
    )
}

// Does an event with both.
fn both_do(
    rt: &impl Abort,
    pair: &mut Tried<MemDisk>,
    world: &mut World,
    event: Event,
    place: u32,
) -> Result<Reply, Fail> {
    let Some(reply) = done(pair, event) else {
        assert!(rt; false, "{place} {event:?} is none");
        return Ok(Ok(Told::Unsound));
    };
    let met = met(world, event, reply);
    let wanted = told(world, event, met)?;
    assert_eq!(rt; reply, wanted, "{place} {event:?}");
    assert_eq!(rt; difference(pair, world), None, "{place} {event:?}");
    if let (Event::Ready(n), Ok(_)) = (event, reply) {
        assert!(rt; is_ready(pair, world, n)?, "{place} {event:?}");
    }
    Ok(reply)
}

// So many numbers of calls that fail, from 3 on and below this one.
fn failing(alloc: Global, dice: &mut Dice, how_many: u32, most: u32) -> Result<Vec<u64>, Fail> {
    let mut calls = Vec::new(alloc);
    for _ in 0..how_many {
        calls.push(u64::from(dice.below(most).max(3)))?;
    }
    Ok(calls)
}

// The numbers of the calls of the register that fail: often the last of each change, which then lasts.
fn register_failing(alloc: Global, dice: &mut Dice) -> Result<Vec<u64>, Fail> {
    if dice.below(2) == 0 {
        // Four calls copy and open the register, four make a change, and two open it again.
        return Ok(vec![in alloc; 8, 14, 20, 26]?);
    }
    failing(alloc, dice, 8, 32)
}

// What a crash leaves of a disk.
fn left(dice: &mut Dice, disk: &MemDisk) -> Result<MemDisk, Fail> {
    let place = usize::try_from(dice.below(4)).unwrap_or(0);
    let kept = KEPT.get(place).copied().unwrap_or(Kept::Old);
    Ok(disk.after_crash(kept)?)
}

// The journal that a disk has: it has to be one of the two that the node may have.
fn found(
    rt: &impl Abort,
    alloc: Global,
    disk: &MemDisk,
    n: NodeName,
    node: &NodeState,
) -> Result<Vec<Frame>, Fail> {
    let Some(frames) = frames_on(alloc, disk.after_crash(Kept::New)?, n)? else {
        assert!(rt; false, "no journal of {n:?}");
        return Ok(Vec::new(alloc));
    };
    let is_first = frames.as_slice() == node.journal.as_slice();
    let is_second = match &node.failed {
        Some(failed) => frames.as_slice() == failed.as_slice(),
        None => false,
    };
    assert!(rt; is_first || is_second, "{n:?} has another journal");
    Ok(frames)
}

// A disk of a node that holds what a crash leaves of this one, some of whose calls fail.
fn node_disk(alloc: Global, dice: &mut Dice, disk: &MemDisk) -> Result<MemDisk, Fail> {
    let calls = failing(alloc, dice, 6, 100)?;
    let left = left(dice, disk)?;
    Ok(copied(alloc, left.bytes(), calls)?)
}

// The same of the register.
fn duty_disk(alloc: Global, dice: &mut Dice, disk: &MemDisk) -> Result<MemDisk, Fail> {
    let calls = register_failing(alloc, dice)?;
    let left = left(dice, disk)?;
    Ok(copied(alloc, left.bytes(), calls)?)
}

// Disks that hold what a crash leaves of these, some of whose calls fail.
fn crashed(alloc: Global, dice: &mut Dice, disks: &Disks<MemDisk>) -> Result<Disks<MemDisk>, Fail> {
    Ok(Disks {
        a: node_disk(alloc, dice, &disks.a)?,
        b: node_disk(alloc, dice, &disks.b)?,
        duty: duty_disk(alloc, dice, &disks.duty)?,
    })
}

// Opens the pair, again where a disk failed.
fn open_at_last(
    rt: &impl Abort,
    alloc: Global,
    disks: Disks<MemDisk>,
    bounds: Bounds,
    faults: &mut Faults,
) -> Option<Tried<MemDisk>> {
    let mut disks = disks;
    for _ in 0..30 {
        let (a, b, duty, end) = match opened(alloc, disks, bounds)? {
            Ok(pair) => return Some(pair),
            Err(back) => back,
        };
        disks = Disks { a, b, duty };
        match end {
            OpenEnd::OpenFault(disk) => {
                faults.note(disk);
                assert!(rt; faults.are_of(&disks), "a fault that was not told");
            }
            end => {
                assert!(rt; false, "not opened: {end:?}");
                return None;
            }
        }
    }
    None
}

// The journals that the disks of the nodes have.
#[derive(Drop)]
struct Journals {
    a: Vec<Frame>,
    b: Vec<Frame>,
}

// Those of disks that hold what a crash left.
fn found_journals(
    rt: &impl Abort,
    disks: &Disks<MemDisk>,
    world: &World,
) -> Result<Journals, Fail> {
    Ok(Journals {
        a: found(rt, world.alloc, &disks.a, NodeName::A, &world.a)?,
        b: found(rt, world.alloc, &disks.b, NodeName::B, &world.b)?,
    })
}

// The world after a crash: it begins a run over the journals that were found.
fn begin_again(
    rt: &impl Abort,
    pair: &Tried<MemDisk>,
    world: &mut World,
    journals: Journals,
) -> Result<(), Fail> {
    let duty = pair.duty();
    assert!(rt;
        duty == world.duty || world.failed == Some(duty),
        "another duty"
    );
    *world = World::opened(world.alloc, world.bounds, duty, journals.a, journals.b)?;
    assert_eq!(rt; difference(pair, world), None, "after a crash");
    Ok(())
}

// The office stops: what a crash leaves of its disks, whose faults were all told.
fn stopped(
    rt: &impl Abort,
    dice: &mut Dice,
    pair: Tried<MemDisk>,
    alloc: Global,
    faults: Faults,
) -> Result<Disks<MemDisk>, Fail> {
    let disks = closed(pair);
    assert!(rt; faults.are_of(&disks), "a fault that was not told");
    crashed(alloc, dice, &disks)
}

// The office stops and begins again.
fn restarted(
    rt: &impl Abort,
    dice: &mut Dice,
    pair: Tried<MemDisk>,
    world: &mut World,
    faults: &mut Faults,
) -> Result<Option<Tried<MemDisk>>, Fail> {
    let disks = stopped(rt, dice, pair, world.alloc, *faults)?;
    let journals = found_journals(rt, &disks, world)?;
    *faults = NONE;
    let Some(pair) = open_at_last(rt, world.alloc, disks, world.bounds, faults) else {
        assert!(rt; false, "not opened");
        return Ok(None);
    };
    begin_again(rt, &pair, world, journals)?;
    Ok(Some(pair))
}

// The events of one office.
fn lived(rt: &impl Abort, alloc: Global, seed: u32, events: u32) -> Result<(), Fail> {
    let mut dice = Dice::new(seed);
    let bounds = Bounds {
        frames: dice.below(20).saturating_add(3),
        last_epoch: dice.below(40).saturating_add(2),
    };
    let mut faults = NONE;
    let Some(mut pair) = open_at_last(rt, alloc, formatted(alloc)?, bounds, &mut faults) else {
        assert!(rt; false, "not opened");
        return Ok(());
    };
    let mut world = World::opened(alloc, bounds, FIRST, Vec::new(alloc), Vec::new(alloc))?;
    for place in 0..events {
        match dice.event(&world) {
            Event::Crash => {
                match restarted(rt, &mut dice, pair, &mut world, &mut faults)? {
                    Some(again) => pair = again,
                    None => return Ok(()),
                }
            }
            event => {
                let reply = both_do(rt, &mut pair, &mut world, event, place)?;
                if let Err(PairFault::Fault(disk)) = reply {
                    faults.note(disk);
                }
            }
        }
    }
    Ok(())
}

// Ten offices of 250 events each.
fn ten_live(rt: &impl Abort, alloc: Global, seeds: Range<u32>) -> Result<(), Fail> {
    for seed in seeds {
        lived(rt, alloc, seed, 250)?;
    }
    Ok(())
}

#[test]
fn the_pair_answers_as_its_slow_twin_in_the_first_ten(rt: HostRuntime) -> Result<(), Fail> {
    ten_live(&rt, rt.alloc(), 1..11)
}

#[test]
fn the_pair_answers_as_its_slow_twin_in_the_second_ten(rt: HostRuntime) -> Result<(), Fail> {
    ten_live(&rt, rt.alloc(), 11..21)
}

#[test]
fn the_pair_answers_as_its_slow_twin_in_the_third_ten(rt: HostRuntime) -> Result<(), Fail> {
    ten_live(&rt, rt.alloc(), 21..31)
}

#[test]
fn the_pair_answers_as_its_slow_twin_in_the_fourth_ten(rt: HostRuntime) -> Result<(), Fail> {
    ten_live(&rt, rt.alloc(), 31..41)
}
