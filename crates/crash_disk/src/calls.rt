//! Calls as they are recorded.
ghost use Rattle.std.specs.Prelude.{◌≡◌, ◌≤◌, [], ◌∷◌, length, vec_capacity};
ghost use Rattle.crash_disk.specs.CallRecord.{content};
ghost use Rattle.crash_disk.specs.CrashImages.{filled};
ghost use Rattle.crash_disk.specs.Recording.{recorded, told, piece_end, is_sync, AllWithin, IsLastSync};

use crate::image::{fill_over, write_over};

/// What a call takes of the record's room, beside the bytes of its piece.
pub const CALL_COST: usize = 32;

/// What a call did to the bytes.
#[derive(Clone, Copy, Debug, PartialEq, Eq)]
pub enum Call {
    /// It changed nothing.
    Looked,
    /// It wrote so many bytes at a place, where it was done. They stand among the pieces, from
    /// there on.
    Wrote {
        at: u64,
        from: usize,
        count: usize,
        done: bool,
    },
    /// It synced.
    Synced,
}

/// Makes the writes of these calls again.
pub fn replay(calls: &[Call], pieces: &[u8], bytes: &mut Vec<u8>)
    requires within { AllWithin (length pieces.now) calls.now }
    requires room { length (content bytes.old.items (recorded pieces.now calls.now))
        ≤ vec_capacity bytes.old }
    ensures bytes { bytes.new.items ≡ content bytes.old.items (recorded pieces.now calls.now) }
    ensures room { vec_capacity bytes.old ≤ vec_capacity bytes.new }
{
    for call in calls {
        replay_call(call, pieces, bytes);
    }
}

/// Fills what the writes of these calls reached and added.
pub fn fill(calls: &[Call], pieces: &[u8], byte: u8, bytes: &mut Vec<u8>)
    requires within { AllWithin (length pieces.now) calls.now }
    requires room { length (filled byte bytes.old.items (recorded pieces.now calls.now))
        ≤ vec_capacity bytes.old }
    ensures bytes { bytes.new.items ≡ filled byte bytes.old.items (recorded pieces.now calls.now) }
    ensures room { vec_capacity bytes.old ≤ vec_capacity bytes.new }
{
    for call in calls {
        fill_call(call, pieces, byte, bytes);
    }
}

// Makes a call's write again, where it was done.
fn replay_call(call: &Call, pieces: &[u8], bytes: &mut Vec<u8>)
    requires within { piece_end call.now ≤ length pieces.now }
    requires room { length (content bytes.old.items (told pieces.now call.now ∷ []))
        ≤ vec_capacity bytes.old }
    ensures bytes { bytes.new.items ≡ content bytes.old.items (told pieces.now call.now ∷ []) }
    ensures room { vec_capacity bytes.old ≤ vec_capacity bytes.new }
{
    if let Call::Wrote {
        at,
        from,
        count,
        done,
    } = *call
    {
        if done {
            write_over(bytes, at as usize, &pieces[from..from + count]);
        }
    }
}

// Fills what a call's write reached and added.
fn fill_call(call: &Call, pieces: &[u8], byte: u8, bytes: &mut Vec<u8>)
    requires within { piece_end call.now ≤ length pieces.now }
    requires room { length (filled byte bytes.old.items (told pieces.now call.now ∷ []))
        ≤ vec_capacity bytes.old }
    ensures bytes { bytes.new.items ≡ filled byte bytes.old.items (told pieces.now call.now ∷ []) }
    ensures room { vec_capacity bytes.old ≤ vec_capacity bytes.new }
{
    if let Call::Wrote {
        at,
        from,
        count,
        done,
    } = *call
    {
        fill_over(bytes, at, pieces[from..from + count].len(), done, byte);
    }
}

/// How many calls there are up to the last sync.
pub fn synced_count(calls: &[Call]) -> usize
    ensures { IsLastSync calls.now result }
{
    let mut count = calls.len();
    while count > 0 {
        if is_sync(&calls[count - 1]) {
            return count;
        }
        count -= 1;
    }
    count
}

// Whether a call synced.
fn is_sync(call: &Call) -> bool
    ensures { result ≡ is_sync call.now }
{
    match call {
        Call::Synced => true,
        _ => false,
    }
}
