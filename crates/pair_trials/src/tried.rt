//! The pair that is tried.

use ali_base::{Duty, NodeName};
use crash_disk::Disk;
use office_entry::Entry;
use office_state::{Limits, Office};
use pair_core::{Booked, Delivered, OpenEnd, Pair, PairFault, PairStatus, Started};
use std::alloc::Global;

/// A pair of which nothing is known but what its calls answer: they say none of what is proved of them,
/// so that a trial rests on what it sees alone.
#[derive(Drop)]
pub struct Tried<D> {
    pair: Pair<D>,
}

/// Opens a pair, where the bounds are such as it may have.
pub fn open<D: Disk + Drop>(
    alloc: Global,
    disks: (D, D, D),
    limits: Limits,
    frames: u32,
    last_epoch: u32,
) -> Option<Result<Tried<D>, (D, D, D, OpenEnd)>> {
    if frames > node_journal::MOST_FRAMES
        || last_epoch < 1
        || last_epoch > duty_register::LAST_EPOCH
    {
        return None;
    }
    let (a, b, duty) = disks;
    match Pair::open(alloc, a, b, duty, limits, frames, last_epoch) {
        Ok(pair) => Some(Ok(Tried { pair })),
        Err(back) => Some(Err(back)),
    }
}

// The calls of the pair; numbers that none may have are taken as 1.
impl<D: Disk + Drop> Tried<D> {
    pub fn close(self) -> (D, D, D) {
        self.pair.close()
    }

    pub fn ready(&mut self, n: NodeName) -> Result<(), PairFault> {
        self.pair.ready(n)
    }

    pub fn write(&mut self, n: NodeName, e: &Entry) -> Result<u32, PairFault> {
        self.pair.write(n, e)
    }

    pub fn book(&mut self) -> Result<Booked, PairFault> {
        self.pair.book()
    }

    pub fn ship(&mut self, n: NodeName, k: u32) -> Result<u32, PairFault> {
        self.pair.ship(n, k.max(1))
    }

    pub fn deliver(&mut self, i: u32) -> Result<(Delivered, u32), PairFault> {
        self.pair.deliver(i.max(1))
    }

    pub fn pass_on(&mut self, k: u32) -> Result<Delivered, PairFault> {
        self.pair.pass_on(k.max(1))
    }

    pub fn take(&mut self, n: NodeName) -> Result<Duty, PairFault> {
        self.pair.take(n)
    }

    pub fn alone(&mut self) -> Result<Duty, PairFault> {
        self.pair.alone()
    }

    pub fn pair_up(&mut self) -> Result<Duty, PairFault> {
        self.pair.pair_up()
    }

    pub fn stop(&mut self, n: NodeName) -> Result<(), PairFault> {
        self.pair.stop(n)
    }

    pub fn start(&mut self, n: NodeName) -> Result<Started, PairFault> {
        self.pair.start(n)
    }

    pub fn start_duty(&mut self) -> Result<Duty, PairFault> {
        self.pair.start_duty()
    }

    pub fn status(&self) -> Result<PairStatus, PairFault> {
        self.pair.status()
    }

    pub fn register_up(&self) -> bool {
        self.pair.register_up()
    }

    pub fn up(&self, n: NodeName) -> bool {
        self.pair.up(n)
    }

    pub fn duty(&self) -> Duty {
        self.pair.duty()
    }

    pub fn count(&self) -> u32 {
        self.pair.count()
    }

    pub fn len(&self, n: NodeName) -> u32 {
        self.pair.len(n)
    }

    pub fn table(&self, n: NodeName) -> &Office {
        self.pair.table(n)
    }
}
