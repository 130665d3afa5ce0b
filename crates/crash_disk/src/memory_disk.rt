//! A disk in memory, which keeps a record of its calls.
ghost use Rattle.std.specs.Prelude.{◌≡◌, ◌≤◌, ◌+◌, [], true, false, IsTrue, vec_capacity, length, take, drop, is_err, nat_le, IfOk, if◌then◌else◌};
ghost use Rattle.crash_disk.specs.CrashImages.{crash_image};
ghost use Rattle.crash_disk.specs.declared.kept.Kept.TheVariants.{Old};
ghost use Rattle.crash_disk.specs.MemoryDisk.{fresh_disk, crashed_disk, held, state_of, call_fails, write_fails, has_room, after_look, after_write, after_sync};
ghost use Rattle.crash_disk.specs.CrashOutcomes.{Stays, Writes, TellsLength, Reads, Writing, Syncing, HasCause};

use crate::disk::{Disk, Failed};
use crate::faults::count_fault;
use crate::image::{append, write_over};
use crate::kept::Kept;
use crate::record::Record;
use ali_base::NoMemory;
use std::alloc::Global;
use std::marker::Model;

/// A disk in memory, with a record of its calls and a list of those that fail.
#[derive(Drop)]
pub struct MemDisk {
    alloc: Global,
    // What it held at first, all of it synced.
    start: Vec<u8>,
    bytes: Vec<u8>,
    capacity: usize,
    log: Record,
    failing: Vec<u64>,
    made: u64,
    faults: u64,
}

impl Model for MemDisk {
    ghost use Rattle.std.specs.Prelude.{◌≡◌, ◌≤◌, length, vec_capacity};
    ghost use Rattle.crash_disk.specs.MemoryDisk.{MemoryState};
    ghost use Rattle.crash_disk.specs.CallRecord.{content};

    ghost Value = { MemoryState };

    ghost view = { λ m. record {
      start = m.start.items;
      calls = m.log.calls;
      capacity = m.capacity;
      room = m.log.room;
      left = m.log.left;
      failing = m.failing.items;
      made = m.made;
      faults = m.faults;
    } };

    ghost invariant = { λ m. (m.bytes.items ≡ content m.start.items m.log.calls)
        × (length m.bytes.items ≤ m.capacity) × (m.capacity ≤ vec_capacity m.bytes) };
}

impl MemDisk {
    /// An empty disk with room for `capacity` bytes and, in its record, for calls that cost
    /// `log` bytes: 32 for each, and those of the piece that it writes. All this room is taken
    /// here, and no later call but `after_crash` takes memory. The calls named in `failing` fail,
    /// counted from 1, and so does one that finds no room.
    pub fn new(
        alloc: Global,
        capacity: u64,
        log: u64,
        failing: Vec<u64>,
    ) -> Result<MemDisk, NoMemory>
        ensures { IfOk result (λ disk. disk ≡ fresh_disk [] capacity log failing.items) }
    {
        Ok(MemDisk {
            alloc,
            start: Vec::new(alloc),
            bytes: Vec::with_capacity(alloc, capacity as usize)?,
            capacity: capacity as usize,
            log: Record::new(alloc, log as usize)?,
            failing,
            made: 0,
            faults: 0,
        })
    }

    /// The bytes that a read gives.
    pub fn bytes(&self) -> &[u8]
        ensures { result.now ≡ held self.now }
    {
        &self.bytes
    }

    /// How many calls were made, whatever they answered.
    pub fn calls(&self) -> u64
        ensures { result ≡ self.now.made }
    {
        self.made
    }

    /// How many of them failed.
    pub fn faults(&self) -> u64
        ensures { result ≡ self.now.faults }
    {
        self.faults
    }

    /// What a crash now leaves, as a disk with the same room, all of it synced, with an empty
    /// record and no calls that fail.
    pub fn after_crash(&self, kept: Kept) -> Result<MemDisk, NoMemory>
        ensures image { IfOk result (λ disk. disk ≡ crashed_disk kept self.now) }
        ensures allowed { IfOk result (λ disk. (state_of self.now).may_leave (held disk)) }
    {
        let mut bytes = Vec::with_capacity(self.alloc, self.capacity)?;
        self.leave(kept, &mut bytes);
        let mut start = Vec::with_capacity(self.alloc, bytes.len())?;
        append(&mut start, &bytes);
        Ok(MemDisk {
            alloc: self.alloc,
            start,
            bytes,
            capacity: self.capacity,
            log: Record::new(self.alloc, self.log.room())?,
            failing: Vec::new(self.alloc),
            made: 0,
            faults: 0,
        })
    }
}

impl MemDisk {
    // Whether the next call, with a piece of so many bytes, fails.
    fn fails(&self, count: usize) -> bool
        ensures { result ≡ call_fails self.now count }
    {
        self.failing.contains(&self.made.saturating_add(1)) || !self.log.has_room(count)
    }

    // Counts a call that changed nothing, and records it where there is room.
    fn note_look(&mut self, failed: bool)
        ensures after { self.new ≡ after_look self.old failed }
        ensures later { self.old.faults ≤ self.new.faults }
    {
        self.made = self.made.saturating_add(1);
        self.faults = count_fault(self.faults, failed);
        if self.log.has_room(0) {
            self.log.look();
        }
    }

    // Counts and records a sync.
    fn note_sync(&mut self)
        requires { IsTrue (has_room self.old 0) }
        ensures { self.new ≡ after_sync self.old false }
    {
        self.made = self.made.saturating_add(1);
        self.log.sync();
    }

    // Counts a write that failed, and records it where there is room.
    fn note_failed_write(&mut self, at: u64, piece: &[u8])
        ensures after { self.new ≡ after_write self.old at piece.now true }
        ensures later { self.old.faults ≤ self.new.faults }
    {
        self.made = self.made.saturating_add(1);
        self.faults = count_fault(self.faults, true);
        if self.log.has_room(piece.len()) {
            self.log.write(at, piece, false);
        }
    }

    // Counts, records and does a write.
    fn note_write(&mut self, at: u64, piece: &[u8])
        requires room { IsTrue (has_room self.old (length piece.now)) }
        requires fits { at + length piece.now ≤ self.old.capacity }
        ensures { self.new ≡ after_write self.old at piece.now false }
    {
        self.made = self.made.saturating_add(1);
        self.log.write(at, piece, true);
        write_over(&mut self.bytes, at as usize, piece);
    }

    // Adds what a crash now leaves.
    fn leave(&self, kept: Kept, bytes: &mut Vec<u8>)
        requires empty { bytes.old.items ≡ [] }
        requires room { self.now.capacity ≤ vec_capacity bytes.old }
        ensures image { bytes.new.items ≡ crash_image kept self.now.start self.now.calls }
        ensures fits { length bytes.new.items ≤ self.now.capacity }
        ensures room { self.now.capacity ≤ vec_capacity bytes.new }
    {
        match kept {
            Kept::Old => self.leave_synced(bytes),
            Kept::New => append(bytes, &self.bytes),
            Kept::Fill(byte) => {
                self.leave_synced(bytes);
                self.log.fill_unsynced(byte, bytes);
            }
        }
    }

    // Adds what was there at the last sync.
    fn leave_synced(&self, bytes: &mut Vec<u8>)
        requires empty { bytes.old.items ≡ [] }
        requires room { self.now.capacity ≤ vec_capacity bytes.old }
        ensures image { bytes.new.items ≡ crash_image Old self.now.start self.now.calls }
        ensures fits { length bytes.new.items ≤ self.now.capacity }
        ensures room { self.now.capacity ≤ vec_capacity bytes.new }
    {
        append(bytes, &self.start);
        self.log.replay_synced(bytes);
    }
}

impl Disk for MemDisk {
    ghost use Rattle.crash_disk.specs.MemoryDisk.{state_of};
    ghost use Rattle.crash_disk.specs.RecordedSound.{recorded_sound};

    ghost state = { state_of };

    ghost sound = { λ m. recorded_sound m.start m.calls m.faults };

    fn len(&mut self) -> Result<u64, Failed>
        ensures len { TellsLength (state_of self.old) result }
        ensures stays { Stays (state_of self.old) (state_of self.new) }
        ensures cause { HasCause (state_of self.old) (state_of self.new) result }
        ensures fails { is_err result ≡ call_fails self.old 0 }
        ensures after { self.new ≡ after_look self.old (is_err result) }
    {
        let failed = self.fails(0);
        self.note_look(failed);
        if failed {
            return Err(Failed);
        }
        Ok(self.bytes.len() as u64)
    }

    fn read_at(&mut self, at: u64, buf: &mut [u8]) -> Result<usize, Failed>
        ensures within { IfOk result (λ n. n ≤ length buf.new) }
        ensures bytes { Reads at (state_of self.old) buf.new result }
        ensures stays { Stays (state_of self.old) (state_of self.new) }
        ensures cause { HasCause (state_of self.old) (state_of self.new) result }
        ensures fails { is_err result ≡ call_fails self.old 0 }
        ensures after { self.new ≡ after_look self.old (is_err result) }
    {
        let failed = self.fails(0);
        self.note_look(failed);
        if failed {
            return Err(Failed);
        }
        Ok(copy_from(&self.bytes, at, buf))
    }

    fn write_at(&mut self, at: u64, bytes: &[u8]) -> Result<(), Failed>
        ensures written { Writing at bytes.now (state_of self.old) (state_of self.new) result }
        ensures writes { Writes at (length bytes.now) (state_of self.old) (state_of self.new) }
        ensures cause { HasCause (state_of self.old) (state_of self.new) result }
        ensures fails { is_err result ≡ write_fails self.old at (length bytes.now) }
        ensures after { self.new ≡ after_write self.old at bytes.now (is_err result) }
    {
        if self.fails(bytes.len()) || !is_within(at, bytes.len(), self.capacity) {
            self.note_failed_write(at, bytes);
            return Err(Failed);
        }
        self.note_write(at, bytes);
        Ok(())
    }

    fn sync(&mut self) -> Result<(), Failed>
        ensures durable { Syncing (state_of self.old) (state_of self.new) result }
        ensures stays { Stays (state_of self.old) (state_of self.new) }
        ensures cause { HasCause (state_of self.old) (state_of self.new) result }
        ensures fails { is_err result ≡ call_fails self.old 0 }
        ensures after { self.new ≡ after_sync self.old (is_err result) }
    {
        if self.fails(0) {
            self.note_look(true);
            return Err(Failed);
        }
        self.note_sync();
        Ok(())
    }
}

// Whether so many bytes at a place are within the room.
fn is_within(at: u64, count: usize, room: usize) -> bool
    ensures { result ≡ nat_le (at + count) room }
{
    count <= room && at <= (room - count) as u64
}

// Copies bytes from a place on, as many as there are and as fit.
fn copy_from(bytes: &[u8], at: u64, buf: &mut [u8]) -> usize
    ensures within { result ≤ length buf.new }
    ensures copied { take result buf.new ≡ take (length buf.new) (drop at bytes.now) }
{
    if at >= bytes.len() as u64 {
        return 0;
    }
    let rest = &bytes[at as usize..];
    let count = rest.len().min(buf.len());
    buf[..count].copy_from_slice(&rest[..count]);
    count
}
