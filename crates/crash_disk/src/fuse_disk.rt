//! A disk that stops.
ghost use Rattle.std.specs.Prelude.{◌≡◌, ◌≤◌, not, false, length, is_err, IfOk};
ghost use Rattle.crash_disk.specs.CrashOutcomes.{Stays, Writes, TellsLength, Reads, Writing, Syncing, HasCause};
ghost use Rattle.crash_disk.specs.FusedDisk.{fuse_state, is_blown, after_fused, fused_fails, fused_write_fails, fused_look, fused_write, fused_sync};

use crate::disk::{Disk, Failed};
use crate::faults::count_fault;
use crate::memory_disk::MemDisk;
use std::marker::Model;

/// Passes so many calls to a disk in memory, and then fails every call, so that the disk stays as
/// it is.
#[derive(Drop)]
pub struct FuseDisk {
    disk: MemDisk,
    left: u32,
    faults: u64,
}

impl Model for FuseDisk {
    ghost use Rattle.crash_disk.specs.FusedDisk.{FuseState};

    ghost Value = { FuseState };

    ghost view = { λ f. record { disk = f.disk; left = f.left; faults = f.faults } };
}

impl FuseDisk {
    /// A fuse that passes `k` calls.
    pub fn new(disk: MemDisk, k: u32) -> FuseDisk
        ensures { result ≡ record { disk = disk; left = k; faults = 0 } }
    {
        FuseDisk {
            disk,
            left: k,
            faults: 0,
        }
    }

    /// The disk in memory.
    pub fn inner(self) -> MemDisk
        ensures { result ≡ self.disk }
    {
        self.disk
    }

    // Counts a call, and answers whether it passes. One that does not is a fault.
    fn passes(&mut self) -> bool
        ensures answer { result ≡ not (is_blown self.old) }
        ensures after { self.new ≡ after_fused self.old self.old.disk false }
        ensures later { self.old.faults ≤ self.new.faults }
    {
        if self.left == 0 {
            self.faults = count_fault(self.faults, true);
            return false;
        }
        self.left -= 1;
        true
    }
}

impl Disk for FuseDisk {
    ghost use Rattle.crash_disk.specs.FusedDisk.{fuse_state, fuse_sound};

    ghost state = { fuse_state };

    ghost sound = { fuse_sound };

    fn len(&mut self) -> Result<u64, Failed>
        ensures len { TellsLength (fuse_state self.old) result }
        ensures stays { Stays (fuse_state self.old) (fuse_state self.new) }
        ensures cause { HasCause (fuse_state self.old) (fuse_state self.new) result }
        ensures fails { is_err result ≡ fused_fails self.old 0 }
        ensures after { self.new ≡ fused_look self.old (is_err result) }
    {
        if !self.passes() {
            return Err(Failed);
        }
        let answer = self.disk.len();
        self.faults = count_fault(self.faults, answer.is_err());
        answer
    }

    fn read_at(&mut self, at: u64, buf: &mut [u8]) -> Result<usize, Failed>
        ensures within { IfOk result (λ n. n ≤ length buf.new) }
        ensures bytes { Reads at (fuse_state self.old) buf.new result }
        ensures stays { Stays (fuse_state self.old) (fuse_state self.new) }
        ensures cause { HasCause (fuse_state self.old) (fuse_state self.new) result }
        ensures fails { is_err result ≡ fused_fails self.old 0 }
        ensures after { self.new ≡ fused_look self.old (is_err result) }
    {
        if !self.passes() {
            return Err(Failed);
        }
        let answer = self.disk.read_at(at, buf);
        self.faults = count_fault(self.faults, answer.is_err());
        answer
    }

    fn write_at(&mut self, at: u64, bytes: &[u8]) -> Result<(), Failed>
        ensures written { Writing at bytes.now (fuse_state self.old) (fuse_state self.new) result }
        ensures writes { Writes at (length bytes.now) (fuse_state self.old) (fuse_state self.new) }
        ensures cause { HasCause (fuse_state self.old) (fuse_state self.new) result }
        ensures fails { is_err result ≡ fused_write_fails self.old at (length bytes.now) }
        ensures after { self.new ≡ fused_write self.old at bytes.now (is_err result) }
    {
        if !self.passes() {
            return Err(Failed);
        }
        let answer = self.disk.write_at(at, bytes);
        self.faults = count_fault(self.faults, answer.is_err());
        answer
    }

    fn sync(&mut self) -> Result<(), Failed>
        ensures durable { Syncing (fuse_state self.old) (fuse_state self.new) result }
        ensures stays { Stays (fuse_state self.old) (fuse_state self.new) }
        ensures cause { HasCause (fuse_state self.old) (fuse_state self.new) result }
        ensures fails { is_err result ≡ fused_fails self.old 0 }
        ensures after { self.new ≡ fused_sync self.old (is_err result) }
    {
        if !self.passes() {
            return Err(Failed);
        }
        let answer = self.disk.sync();
        self.faults = count_fault(self.faults, answer.is_err());
        answer
    }
}
