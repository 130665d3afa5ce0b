//! Events of the pair, drawn at random, and done by the pair and by its slow twin.

use crate::edits::{Draft, MOST_TEXTS};
use crate::tried::Tried;
use crate::twin_rows::{Met, Reply, Told};
use crate::twin_world::{World, after, count, other};
use ali_base::{Duty, NodeName};
use crash_disk::{Disk, MemDisk};
use pair_core::PairFault;
use std::test::Fail;

/// An event. Numbers count from 1.
#[derive(Clone, Copy, Debug)]
pub enum Event {
    Write(NodeName, Draft),
    Ship(NodeName, u32),
    Deliver(u32),
    PassOn(u32),
    Book,
    Take(NodeName),
    Alone,
    PairUp,
    Stop(NodeName),
    Start(NodeName),
    StartDuty,
    Ready(NodeName),
    Status,
    Crash,
}

/// Numbers that look drawn at random, and are the same in each run.
#[derive(Clone, Copy, Debug)]
pub struct Dice {
    state: u64,
}

impl Dice {
    pub fn new(seed: u32) -> Dice {
        Dice {
            state: u64::from(seed).wrapping_mul(0x9E37_79B9_7F4A_7C15) ^ 0x1234_5678_9ABC_DEF1,
        }
    }

    /// A number below this one; 0 where there is none.
    pub fn below(&mut self, most: u32) -> u32 {
        self.state ^= self.state.wrapping_shl(13);
        self.state ^= self.state.wrapping_shr(7);
        self.state ^= self.state.wrapping_shl(17);
        let high = self.state.wrapping_shr(33);
        let drawn = high.checked_rem(u64::from(most)).unwrap_or(0);
        u32::try_from(drawn).unwrap_or(0)
    }

    fn node(&mut self) -> NodeName {
        if self.below(2) == 0 {
            NodeName::A
        } else {
            NodeName::B
        }
    }

    // The holder, and now and then the other node.
    fn writer(&mut self, world: &World) -> NodeName {
        let holder = world.duty.holder;
        if self.below(8) == 0 {
            other(holder)
        } else {
            holder
        }
    }

    // An edit, mostly the next of its editor.
    fn draft(&mut self, world: &World) -> Draft {
        let editor = if self.below(3) == 0 { 2 } else { 1 };
        let mut last = 0u32;
        for frame in &world.booked {
            if frame.draft.editor == editor {
                last = last.max(frame.draft.serial);
            }
        }
        let serial = match self.below(12) {
            0 => last,
            1 => last.saturating_sub(1),
            2 => last.saturating_add(2),
            _ => after(last),
        };
        Draft {
            editor,
            serial: serial.max(1),
            text: self.below(MOST_TEXTS),
        }
    }

    // The number of a frame, mostly one that is of use.
    fn frame(&mut self, world: &World) -> u32 {
        let len = world.holder_len();
        let common = len.min(world.len(other(world.duty.holder)));
        match self.below(8) {
            0 => after(self.below(len.saturating_add(2))),
            1 => after(len),
            2 | 3 => common.max(1),
            _ => after(common),
        }
    }

    // The number of a message, mostly a late one.
    fn message(&mut self, world: &World) -> u32 {
        let sent = count(&world.messages);
        match self.below(4) {
            0 => after(self.below(after(sent))),
            1 => sent.saturating_sub(self.below(6)).max(1),
            _ => sent.max(1),
        }
    }

    /// An event.
    pub fn event(&mut self, world: &World) -> Event {
        if world.is_in_doubt() && self.below(16) == 0 {
            return Event::Crash;
        }
        if world.failed.is_some() && self.below(4) == 0 {
            return Event::StartDuty;
        }
        if (!world.a.up || !world.b.up) && self.below(8) == 0 {
            return Event::Start(if world.a.up { NodeName::B } else { NodeName::A });
        }
        match self.below(100) {
            0..20 => Event::Write(self.writer(world), self.draft(world)),
            20..30 => Event::Ship(self.writer(world), self.frame(world)),
            30..44 => Event::Deliver(self.message(world)),
            44..60 => Event::PassOn(self.frame(world)),
            60..71 => Event::Book,
            71..77 => Event::Take(self.node()),
            77..79 => Event::Alone,
            79..86 => Event::PairUp,
            86..89 => Event::Stop(self.node()),
            89..90 => Event::Start(self.node()),
            90..91 => Event::StartDuty,
            91..96 => Event::Ready(self.node()),
            96..98 => Event::Status,
            _ => Event::Crash,
        }
    }
}

// What the pair tells of a duty.
fn duty(changed: Result<Duty, PairFault>) -> Reply {
    match changed {
        Ok(duty) => Ok(Told::Duty(duty)),
        Err(fault) => Err(fault),
    }
}

// The pair writes an edit.
fn write<D: Disk + Drop>(
    pair: &mut Tried<D>,
    n: NodeName,
    draft: Draft,
) -> Option<Result<u32, PairFault>> {
    Some(pair.write(n, &draft.entry()?))
}

/// Does an event with the pair.
pub fn done(pair: &mut Tried<MemDisk>, event: Event) -> Option<Reply> {
    Some(match event {
        Event::Write(n, draft) => match write(pair, n, draft)? {
            Ok(number) => Ok(Told::Written(number)),
            Err(fault) => Err(fault),
        },
        Event::Ship(n, k) if k >= 1 => match pair.ship(n, k) {
            Ok(number) => Ok(Told::Sent(number)),
            Err(fault) => Err(fault),
        },
        Event::Deliver(i) if i >= 1 => match pair.deliver(i) {
            Ok((answer, made)) => Ok(Told::Delivered(answer, made)),
            Err(fault) => Err(fault),
        },
        Event::PassOn(k) if k >= 1 => match pair.pass_on(k) {
            Ok(answer) => Ok(Told::Passed(answer)),
            Err(fault) => Err(fault),
        },
        Event::Book => match pair.book() {
            Ok(booked) => Ok(Told::Booked(booked)),
            Err(fault) => Err(fault),
        },
        Event::Ship(..) | Event::Deliver(_) | Event::PassOn(_) | Event::Crash => return None,
        _ => changed(pair, event)?,
    })
}

// The same for the duty, and for whether the nodes are up.
fn changed(pair: &mut Tried<MemDisk>, event: Event) -> Option<Reply> {
    Some(match event {
        Event::Take(n) => duty(pair.take(n)),
        Event::Alone => duty(pair.alone()),
        Event::PairUp => duty(pair.pair_up()),
        Event::StartDuty => duty(pair.start_duty()),
        Event::Stop(n) => match pair.stop(n) {
            Ok(()) => Ok(Told::Stopped),
            Err(fault) => Err(fault),
        },
        Event::Start(n) => match pair.start(n) {
            Ok(started) => Ok(Told::Started(started)),
            Err(fault) => Err(fault),
        },
        Event::Ready(n) => match pair.ready(n) {
            Ok(()) => Ok(Told::Ready),
            Err(fault) => Err(fault),
        },
        Event::Status => match pair.status() {
            Ok(status) => Ok(Told::Status(status)),
            Err(fault) => Err(fault),
        },
        _ => return None,
    })
}

/// What the pair met, by what it answered.
pub fn met(world: &World, event: Event, reply: Reply) -> Met {
    let failed = match reply {
        Err(PairFault::Fault(disk)) => Some(disk),
        _ => None,
    };
    let lasted = match (event, reply) {
        (Event::Start(n), Ok(Told::Started(started))) => match &world.node(n).failed {
            Some(journal) => count(journal) == started.len,
            None => false,
        },
        (Event::StartDuty, Ok(Told::Duty(duty))) => world.failed == Some(duty),
        _ => false,
    };
    Met { failed, lasted }
}

/// Does an event with the twin.
pub fn told(world: &mut World, event: Event, met: Met) -> Result<Reply, Fail> {
    match event {
        Event::Write(n, draft) => world.write(n, draft, met),
        Event::Ship(n, k) => world.ship(n, k, met),
        Event::Deliver(i) => world.deliver(i, met),
        Event::PassOn(k) => world.pass_on(k, met),
        Event::Book => world.book(met),
        Event::Take(n) => world.take(n, met),
        Event::Alone => world.alone(met),
        Event::PairUp => world.pair_up(met),
        Event::Stop(n) => Ok(world.stop(n)),
        Event::Start(n) => world.start(n, met),
        Event::StartDuty => world.start_duty(met),
        Event::Ready(n) => Ok(world.ready(n, met)),
        Event::Status => Ok(world.status()),
        Event::Crash => Ok(Ok(Told::Unsound)),
    }
}
