//! The three disks of a pair, in memory.

use crate::tried::{Tried, open};
use ali_base::{NoMemory, NodeName};
use crash_disk::{Disk, FuseDisk, Kept, MemDisk};
use duty_register::format_duty;
use node_journal::format;
use office_state::Limits;
use pair_core::OpenEnd;
use std::alloc::Global;

// Room for 31 frames of a journal.
const ROOM: u64 = 20_480;

const RECORD: u64 = 524_288;

/// What a crash may leave of bytes that were not synced.
pub const KEPT: [Kept; 4] = [Kept::Old, Kept::New, Kept::Fill(0), Kept::Fill(0xA5)];

/// How much the tables hold.
pub const SMALL: Limits = Limits {
    companies: 2,
    numbers: 8,
    ranges: 4,
};

/// The disks of the nodes and of the register.
#[derive(Drop)]
pub struct Disks<D> {
    pub a: D,
    pub b: D,
    pub duty: D,
}

/// How many frames a journal may have, and the last epoch.
#[derive(Clone, Copy, Debug)]
pub struct Bounds {
    pub frames: u32,
    pub last_epoch: u32,
}

/// The bounds of the worked scripts.
pub const WIDE: Bounds = Bounds {
    frames: 20,
    last_epoch: 20,
};

/// An empty disk, of whose calls these fail.
pub fn empty(alloc: Global, failing: Vec<u64>) -> Result<MemDisk, NoMemory> {
    MemDisk::new(alloc, ROOM, RECORD, failing)
}

/// Formatted disks.
pub fn formatted(alloc: Global) -> Result<Disks<MemDisk>, NoMemory> {
    let mut a = empty(alloc, Vec::new(alloc))?;
    let mut b = empty(alloc, Vec::new(alloc))?;
    let mut duty = empty(alloc, Vec::new(alloc))?;
    let _ = format(&mut a, NodeName::A);
    let _ = format(&mut b, NodeName::B);
    let _ = format_duty(&mut duty);
    Ok(Disks { a, b, duty })
}

/// A disk with these bytes, on which 2 calls were made, and of whose calls these fail.
pub fn copied(alloc: Global, bytes: &[u8], failing: Vec<u64>) -> Result<MemDisk, NoMemory> {
    let mut disk = empty(alloc, failing)?;
    let _ = disk.write_at(0, bytes);
    let _ = disk.sync();
    Ok(disk)
}

/// Opens the pair over its disks, where the bounds are such as it may have.
pub fn opened<D: Disk + Drop>(
    alloc: Global,
    disks: Disks<D>,
    bounds: Bounds,
) -> Option<Result<Tried<D>, (D, D, D, OpenEnd)>> {
    let Bounds { frames, last_epoch } = bounds;
    let Disks { a, b, duty } = disks;
    open(alloc, (a, b, duty), SMALL, frames, last_epoch)
}

/// The pair over these disks, where it is opened.
pub fn pair<D: Disk + Drop>(alloc: Global, disks: Disks<D>) -> Option<Tried<D>> {
    opened(alloc, disks, WIDE)?.ok()
}

/// The disks of a pair.
pub fn closed<D: Disk + Drop>(pair: Tried<D>) -> Disks<D> {
    let (a, b, duty) = pair.close();
    Disks { a, b, duty }
}

/// The disks in memory behind fuses.
pub fn unfused(disks: Disks<FuseDisk>) -> Disks<MemDisk> {
    let Disks { a, b, duty } = disks;
    Disks {
        a: a.inner(),
        b: b.inner(),
        duty: duty.inner(),
    }
}

/// What a crash leaves of disks.
pub fn crashed(disks: &Disks<MemDisk>, kept: Kept) -> Result<Disks<MemDisk>, NoMemory> {
    Ok(Disks {
        a: disks.a.after_crash(kept)?,
        b: disks.b.after_crash(kept)?,
        duty: disks.duty.after_crash(kept)?,
    })
}
