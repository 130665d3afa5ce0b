//! The replicated world as plain lists: what the pair should be, without disks.

use crate::disks::{Bounds, SMALL};
use crate::edits::Frame;
use ali_base::{DiskName, Duty, Mode, NodeName};
use office_state::{MOST_ENTRIES, Office, Verdict};
use pair_core::PairFault;
use std::alloc::Global;
use std::test::Fail;

/// A node: whether it is up, the latest epoch that it knows, its journal, and the journal that a failed
/// write may have left in its place.
#[derive(Drop)]
pub struct NodeState {
    pub up: bool,
    pub known: u32,
    pub journal: Vec<Frame>,
    pub failed: Option<Vec<Frame>>,
}

/// A frame, or the end, on its way to the node that is not its sender.
#[derive(Clone, Copy, Debug, PartialEq, Eq)]
pub struct Shipment {
    pub sender: NodeName,
    pub epoch: u32,
    pub number: u32,
    pub before: u32,
    pub frame: Option<Frame>,
}

/// What is on its way between the nodes.
#[derive(Clone, Copy, Debug, PartialEq, Eq)]
pub enum Sent {
    Ships(Shipment),
    Acks {
        to: NodeName,
        epoch: u32,
        number: u32,
        end: bool,
    },
}

/// The world. The register is down while a change of duty is in doubt.
#[derive(Drop)]
pub struct World {
    pub alloc: Global,
    pub bounds: Bounds,
    pub duty: Duty,
    pub failed: Option<Duty>,
    pub a: NodeState,
    pub b: NodeState,
    pub booked: Vec<Frame>,
    pub messages: Vec<Sent>,
    pub acked: u32,
    pub ended: u32,
}

/// The duty of a formatted register.
pub const FIRST: Duty = Duty {
    epoch: 1,
    holder: NodeName::A,
    mode: Mode::Both,
    floor: 0,
};

/// How many there are.
pub fn count<T>(items: &Vec<T>) -> u32 {
    u32::try_from(items.len()).unwrap_or(u32::MAX)
}

/// The number after this one.
pub fn after(number: u32) -> u32 {
    number.saturating_add(1)
}

/// The item of this number, counted from 1.
pub fn item<T: Copy>(items: &Vec<T>, number: u32) -> Option<T> {
    let index = usize::try_from(number.checked_sub(1)?).ok()?;
    items.get(index).copied()
}

/// The first so many frames.
pub fn front(alloc: Global, frames: &Vec<Frame>, number: u32) -> Result<Vec<Frame>, Fail> {
    let mut first = frames.as_slice().to_vec(alloc)?;
    first.truncate(usize::try_from(number).unwrap_or(usize::MAX));
    Ok(first)
}

/// The frames with one more.
pub fn with(alloc: Global, frames: &Vec<Frame>, frame: Frame) -> Result<Vec<Frame>, Fail> {
    let mut longer = frames.as_slice().to_vec(alloc)?;
    longer.push(frame)?;
    Ok(longer)
}

/// The table after these frames, and the verdict of the last; none where one of them is not due.
pub fn table(alloc: Global, frames: &Vec<Frame>) -> Result<Option<(Office, Verdict)>, Fail> {
    let mut office = Office::new(alloc, SMALL)?;
    let mut last = Verdict { code: 0, detail: 0 };
    for frame in frames {
        let Some(entry) = frame.draft.entry() else {
            return Ok(None);
        };
        if office.entries() >= MOST_ENTRIES {
            return Ok(None);
        }
        match office.apply(&entry) {
            Ok(verdict) => last = verdict,
            Err(_) => return Ok(None),
        }
    }
    Ok(Some((office, last)))
}

/// The other node.
pub fn other(n: NodeName) -> NodeName {
    match n {
        NodeName::A => NodeName::B,
        NodeName::B => NodeName::A,
    }
}

/// The disk of a node.
pub fn disk_of(n: NodeName) -> DiskName {
    match n {
        NodeName::A => DiskName::A,
        NodeName::B => DiskName::B,
    }
}

/// The first refusal that holds.
pub fn first(refusals: &[Option<PairFault>]) -> Option<PairFault> {
    for refusal in refusals {
        if refusal.is_some() {
            return *refusal;
        }
    }
    None
}

fn when(holds: bool, refusal: PairFault) -> Option<PairFault> {
    if holds { Some(refusal) } else { None }
}

// A node that is up, with this journal.
fn up(known: u32, journal: Vec<Frame>) -> NodeState {
    NodeState {
        up: true,
        known,
        journal,
        failed: None,
    }
}

impl World {
    /// The world at the start of a run, over what the three disks stand for.
    pub fn opened(
        alloc: Global,
        bounds: Bounds,
        duty: Duty,
        a: Vec<Frame>,
        b: Vec<Frame>,
    ) -> Result<World, Fail> {
        let mut world = World {
            alloc,
            bounds,
            duty,
            failed: None,
            a: up(duty.epoch, a),
            b: up(duty.epoch, b),
            booked: Vec::new(alloc),
            messages: Vec::new(alloc),
            acked: 0,
            ended: 0,
        };
        let most = match duty.mode {
            Mode::Both => count(&world.a.journal).min(count(&world.b.journal)),
            Mode::Alone => u32::MAX,
        };
        world.booked = front(alloc, &world.holder().journal, most)?;
        Ok(world)
    }

    pub fn node(&self, n: NodeName) -> &NodeState {
        match n {
            NodeName::A => &self.a,
            NodeName::B => &self.b,
        }
    }

    pub fn node_mut(&mut self, n: NodeName) -> &mut NodeState {
        match n {
            NodeName::A => &mut self.a,
            NodeName::B => &mut self.b,
        }
    }

    pub fn holder(&self) -> &NodeState {
        self.node(self.duty.holder)
    }

    /// How long the journal of a node is.
    pub fn len(&self, n: NodeName) -> u32 {
        count(&self.node(n).journal)
    }

    /// How long that of the holder is.
    pub fn holder_len(&self) -> u32 {
        self.len(self.duty.holder)
    }

    /// Whether a write or a change of duty failed that may have lasted.
    pub fn is_in_doubt(&self) -> bool {
        self.failed.is_some() || self.a.failed.is_some() || self.b.failed.is_some()
    }

    pub fn is_alone(&self) -> bool {
        self.duty.mode == Mode::Alone
    }

    // The refusals, each where it holds.

    pub fn duty_down(&self) -> Option<PairFault> {
        when(self.failed.is_some(), PairFault::Down(DiskName::Duty))
    }

    pub fn down(&self, n: NodeName) -> Option<PairFault> {
        when(!self.node(n).up, PairFault::Down(disk_of(n)))
    }

    pub fn is_up(&self, n: NodeName) -> Option<PairFault> {
        when(self.node(n).up, PairFault::Up(disk_of(n)))
    }

    fn out_of_duty(&self, n: NodeName) -> PairFault {
        PairFault::OutOfDuty {
            node: n,
            epoch: self.duty.epoch,
            holder: self.duty.holder,
        }
    }

    pub fn not_holder(&self, n: NodeName) -> Option<PairFault> {
        when(n != self.duty.holder, self.out_of_duty(n))
    }

    pub fn not_in_duty(&self, n: NodeName) -> Option<PairFault> {
        when(
            self.is_alone() && n != self.duty.holder,
            self.out_of_duty(n),
        )
    }

    pub fn in_flight(&self) -> Option<PairFault> {
        let number = after(count(&self.booked));
        when(number <= self.holder_len(), PairFault::InFlight(number))
    }

    pub fn no_flight(&self) -> Option<PairFault> {
        when(
            self.holder_len() <= count(&self.booked),
            PairFault::NoFlight,
        )
    }

    pub fn unstored(&self) -> Option<PairFault> {
        let number = after(count(&self.booked));
        let epoch = self.duty.epoch;
        when(
            !self.is_alone() && self.acked < number,
            PairFault::Unstored { number, epoch },
        )
    }

    pub fn no_entry(&self, k: u32) -> Option<PairFault> {
        let len = self.holder_len();
        when(k > after(len), PairFault::NoEntry { number: k, len })
    }

    pub fn messages_full(&self) -> Option<PairFault> {
        when(
            count(&self.messages) >= 10_000,
            PairFault::MessagesFull(10_000),
        )
    }

    pub fn not_paired(&self) -> Option<PairFault> {
        let Duty { epoch, holder, .. } = self.duty;
        when(self.is_alone(), PairFault::NotPaired { epoch, holder })
    }

    pub fn paired(&self) -> Option<PairFault> {
        let Duty { epoch, holder, .. } = self.duty;
        when(!self.is_alone(), PairFault::Paired { epoch, holder })
    }

    pub fn not_in_step(&self) -> Option<PairFault> {
        let due = after(count(&self.booked));
        let ended = self.ended;
        when(ended < due, PairFault::NotInStep { ended, due })
    }

    pub fn epoch_end(&self) -> Option<PairFault> {
        let epoch = self.duty.epoch;
        when(epoch >= self.bounds.last_epoch, PairFault::EpochEnd(epoch))
    }
}
