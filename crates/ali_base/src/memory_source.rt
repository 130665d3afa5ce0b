//! A source in memory, for tests and for callers that have the bytes.
ghost use Rattle.std.specs.Prelude.{◌≡◌, ◌≤◌, length, take, Some};
ghost use Rattle.ali_base.specs.SourceCalls.{TakesWithin, TakesFrom, TakeCause};
ghost use Rattle.ali_base.specs.MemorySource.{new_source, take_answer, after_take};

use crate::source::{Source, Taken};
use std::marker::Model;

/// Bytes in memory, given in pieces, with a list of calls that fail.
#[derive(Drop)]
pub struct MemSource {
    bytes: Vec<u8>,
    at: usize,
    piece: usize,
    failing: Vec<u64>,
    calls: u64,
    faults: u64,
}

impl Model for MemSource {
    ghost use Rattle.std.specs.Prelude.{◌≤◌, length, drop};
    ghost use Rattle.ali_base.specs.MemorySource.{SourceState};

    ghost Value = { SourceState };

    ghost view = { λ s. record {
      left = drop s.at s.bytes.items;
      piece = s.piece;
      failing = s.failing.items;
      calls = s.calls;
      faults = s.faults;
    } };

    ghost invariant = { λ s. s.at ≤ length s.bytes.items };
}

impl MemSource {
    /// The bytes, of which a call gives at most `piece`, but at least one. The calls named in
    /// `failing` fail, counted from 1; with an empty list none does.
    pub fn new(bytes: Vec<u8>, piece: usize, failing: Vec<u64>) -> Self
        ensures { result ≡ new_source bytes.items piece failing.items }
    {
        MemSource {
            bytes,
            at: 0,
            piece,
            failing,
            calls: 0,
            faults: 0,
        }
    }

    /// How often it has failed.
    pub fn faults(&self) -> u64
        ensures { result ≡ self.now.faults }
    {
        self.faults
    }
}

impl Source for MemSource {
    ghost left = { λ s. Some s.left };

    ghost faults = { λ s. s.faults };

    fn take(&mut self, buf: &mut [u8]) -> Taken
        ensures within { TakesWithin buf.new result }
        ensures bytes { TakesFrom (Some self.old.left) (Some self.new.left) buf.new result }
        ensures cause { TakeCause self.old.faults self.new.faults result }
        ensures answer { result ≡ take_answer self.old (length buf.new) }
        ensures after { self.new ≡ after_take self.old (length buf.new) }
    {
        self.calls = self.calls.saturating_add(1);
        if self.failing.contains(&self.calls) {
            self.faults = self.faults.saturating_add(1);
            return Taken::Failed;
        }
        let left = self.bytes.len() - self.at;
        if left == 0 {
            return Taken::End;
        }
        let count = buf.len().min(self.piece.max(1)).min(left);
        copy_to_front(buf, &self.bytes[self.at..self.at + count]);
        self.at += count;
        Taken::Took(count)
    }
}

// Copies bytes to the front of a buffer.
fn copy_to_front(buf: &mut [u8], bytes: &[u8])
    requires { length bytes.now ≤ length buf.old }
    ensures { take (length bytes.now) buf.new ≡ bytes.now }
{
    buf[..bytes.len()].copy_from_slice(bytes);
}
