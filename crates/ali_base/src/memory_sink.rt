//! A sink in memory.
ghost use Rattle.std.specs.Prelude.{◌≡◌, ◌+◌, ◌≤◌, ◌==◌, ◌&&◌, not, [], ◌++◌, length, take, Some, IfOk, if◌then◌else◌};
ghost use Rattle.ali_base.specs.Columns.{is_empty};
ghost use Rattle.ali_base.specs.Faults.{one_more};
ghost use Rattle.ali_base.specs.SinkCalls.{PutsWithin, PutsTo, PutCause};
ghost use Rattle.ali_base.specs.MemorySink.{new_sink, put_answer, after_put};

use crate::no_memory::NoMemory;
use crate::sink::{Put, Sink};
use std::alloc::Global;
use std::marker::Model;

/// Room in memory, with a list of calls that fail.
#[derive(Drop)]
pub struct MemSink {
    room: Vec<u8>,
    len: usize,
    failing: Vec<u64>,
    calls: u64,
    faults: u64,
}

impl Model for MemSink {
    ghost use Rattle.std.specs.Prelude.{◌≤◌, length, take};
    ghost use Rattle.ali_base.specs.MemorySink.{SinkState};

    ghost Value = { SinkState };

    ghost view = { λ s. record {
      held = take s.len s.room.items;
      capacity = length s.room.items;
      failing = s.failing.items;
      calls = s.calls;
      faults = s.faults;
    } };

    ghost invariant = { λ s. s.len ≤ length s.room.items };
}

impl MemSink {
    /// Room for `capacity` bytes, which is taken here; no later call takes memory. A put takes
    /// what still fits. The calls named in `failing` fail, counted from 1; with an empty list none does.
    pub fn new(alloc: Global, capacity: u64, failing: Vec<u64>) -> Result<Self, NoMemory>
        ensures { IfOk result (λ s. s ≡ new_sink capacity failing.items) }
    {
        Ok(MemSink {
            room: vec![in alloc; 0; capacity as usize]?,
            len: 0,
            failing,
            calls: 0,
            faults: 0,
        })
    }

    /// The bytes that it holds.
    pub fn bytes(&self) -> &[u8]
        ensures { result.now ≡ self.now.held }
    {
        &self.room[..self.len]
    }

    /// How often it has failed.
    pub fn faults(&self) -> u64
        ensures { result ≡ self.now.faults }
    {
        self.faults
    }
}

impl Sink for MemSink {
    ghost contents = { λ s. Some s.held };

    ghost faults = { λ s. s.faults };

    fn put(&mut self, bytes: &[u8]) -> Put
        ensures within { PutsWithin bytes.now result }
        ensures bytes { PutsTo (Some self.old.held) (Some self.new.held) bytes.now result }
        ensures cause { PutCause self.old.faults self.new.faults bytes.now result }
        ensures answer { result ≡ put_answer self.old bytes.now }
        ensures after { self.new ≡ after_put self.old bytes.now }
    {
        self.calls = self.calls.saturating_add(1);
        if self.failing.contains(&self.calls) {
            self.faults = self.faults.saturating_add(1);
            return Put::Failed;
        }
        let count = bytes.len().min(self.room.len() - self.len);
        self.faults = count_fault(self.faults, is_nothing(count, bytes));
        fill(&mut self.room, self.len, &bytes[..count]);
        self.len += count;
        Put::Took(count)
    }
}

// Whether a put takes none of a piece that is not empty.
fn is_nothing(count: usize, piece: &[u8]) -> bool
    ensures { result ≡ (not (is_empty piece.now) && (count == 0)) }
{
    match piece {
        [] => false,
        _ => count == 0,
    }
}

// The count after a put, of which nothing was taken or something.
fn count_fault(faults: u64, nothing: bool) -> u64
    ensures { result ≡ (if nothing then one_more faults else faults) }
{
    if nothing {
        faults.saturating_add(1)
    } else {
        faults
    }
}

// Writes bytes from a place on.
fn fill(room: &mut [u8], at: usize, bytes: &[u8])
    requires { at + length bytes.now ≤ length room.old }
    ensures { take (at + length bytes.now) room.new ≡ take at room.old ++ bytes.now }
{
    room[at..at + bytes.len()].copy_from_slice(bytes);
}
