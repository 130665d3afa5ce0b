//! The record of a disk's calls.
ghost use Rattle.std.specs.Prelude.{◌≡◌, ◌≤◌, [], length, nat_le, IfOk};
ghost use Rattle.crash_disk.specs.CallRecord.{Looked, Wrote, Synced, cost};
ghost use Rattle.crash_disk.specs.Recording.{with_call};

use crate::calls::{CALL_COST, Call, fill, replay, synced_count};
use crate::image::append;
use ali_base::NoMemory;
use std::alloc::Global;
use std::marker::Model;

/// The calls in the order in which they came, and the pieces that were written, one after the other.
#[derive(Drop)]
pub struct Record {
    calls: Vec<Call>,
    pieces: Vec<u8>,
    room: usize,
    left: usize,
}

impl Model for Record {
    ghost use Rattle.std.specs.Prelude.{◌+◌, ◌*◌, ◌<◌, ◌≤◌, length, vec_capacity};
    ghost use Rattle.crash_disk.specs.declared.calls.TheConstants.{CALL_COST};
    ghost use Rattle.crash_disk.specs.Recording.{RecordState, recorded, AllWithin};

    ghost Value = { RecordState };

    ghost view = { λ r. record {
      calls = recorded r.pieces.items r.calls.items;
      room = r.room;
      left = r.left;
    } };

    ghost invariant = { λ r.
        (CALL_COST * length r.calls.items + length r.pieces.items + r.left ≤ r.room)
        × (r.room < CALL_COST * (vec_capacity r.calls + 1)) × (r.room ≤ vec_capacity r.pieces)
        × AllWithin (length r.pieces.items) r.calls.items };
}

impl Record {
    /// An empty record with so many bytes of room, which are taken here.
    pub fn new(alloc: Global, room: usize) -> Result<Record, NoMemory>
        ensures { IfOk result (λ r. r ≡ record { calls = []; room = room; left = room }) }
    {
        Ok(Record {
            calls: Vec::with_capacity(alloc, room / CALL_COST)?,
            pieces: Vec::with_capacity(alloc, room)?,
            room,
            left: room,
        })
    }

    /// How many bytes of room it has, with those that are taken.
    pub fn room(&self) -> usize
        ensures { result ≡ self.now.room }
    {
        self.room
    }

    /// Whether there is room for a call with a piece of so many bytes.
    pub fn has_room(&self, count: usize) -> bool
        ensures { result ≡ nat_le (cost count) self.now.left }
    {
        CALL_COST <= self.left && count <= self.left - CALL_COST
    }

    /// Records a call that changed nothing.
    pub fn look(&mut self)
        requires { cost 0 ≤ self.old.left }
        ensures { self.new ≡ with_call self.old 0 Looked }
    {
        self.calls.push_reserved(Call::Looked);
        self.left -= CALL_COST;
    }

    /// Records a sync.
    pub fn sync(&mut self)
        requires { cost 0 ≤ self.old.left }
        ensures { self.new ≡ with_call self.old 0 Synced }
    {
        self.calls.push_reserved(Call::Synced);
        self.left -= CALL_COST;
    }

    /// Records a write, which was done or failed.
    pub fn write(&mut self, at: u64, piece: &[u8], done: bool)
        requires { cost (length piece.now) ≤ self.old.left }
        ensures { self.new ≡ with_call self.old (length piece.now) (Wrote at piece.now done) }
    {
        self.calls.push_reserved(Call::Wrote {
            at,
            from: self.pieces.len(),
            count: piece.len(),
            done,
        });
        append(&mut self.pieces, piece);
        self.left -= CALL_COST + piece.len();
    }
}

impl Record {
    ghost use Rattle.std.specs.Prelude.{◌≡◌, ◌≤◌, length, vec_capacity};
    ghost use Rattle.crash_disk.specs.CallRecord.{content};
    ghost use Rattle.crash_disk.specs.CrashImages.{up_to_sync, since_sync, filled};

    /// Makes the writes up to the last sync again.
    pub fn replay_synced(&self, bytes: &mut Vec<u8>)
        requires { length (content bytes.old.items self.now.calls) ≤ vec_capacity bytes.old }
        ensures bytes { bytes.new.items ≡ content bytes.old.items (up_to_sync self.now.calls) }
        ensures room { vec_capacity bytes.old ≤ vec_capacity bytes.new }
    {
        let calls = self.calls.as_slice();
        replay(&calls[..synced_count(calls)], &self.pieces, bytes);
    }

    /// Fills what the writes since the last sync reached and added.
    pub fn fill_unsynced(&self, byte: u8, bytes: &mut Vec<u8>)
        requires { length (filled byte bytes.old.items (since_sync self.now.calls))
            ≤ vec_capacity bytes.old }
        ensures bytes { bytes.new.items ≡ filled byte bytes.old.items (since_sync self.now.calls) }
        ensures room { vec_capacity bytes.old ≤ vec_capacity bytes.new }
    {
        let calls = self.calls.as_slice();
        fill(&calls[synced_count(calls)..], &self.pieces, byte, bytes);
    }
}
