//! Bytes that are written over, in room that was taken for them.
ghost use Rattle.std.specs.Prelude.{◌≡◌, ℕ, ◌+◌, ◌-◌, ◌≤◌, ◌++◌, length, take, drop, replicate, vec_capacity, IsTrue};
ghost use Rattle.crash_disk.specs.CrashOutcomes.{written};
ghost use Rattle.crash_disk.specs.CrashImages.{filled_range, filled_write};

/// Writes a piece at a place, behind zeros where the place is past the end.
pub fn write_over(bytes: &mut Vec<u8>, at: usize, piece: &[u8])
    requires { at + length piece.now ≤ vec_capacity bytes.old }
    ensures written { bytes.new.items ≡ written at piece.now bytes.old.items }
    ensures room { vec_capacity bytes.old ≤ vec_capacity bytes.new }
{
    lengthen(bytes, at, 0);
    let inside = piece.len().min(bytes.len() - at);
    put(bytes, at, &piece[..inside]);
    append(bytes, &piece[inside..]);
}

/// Adds bytes of one value up to a length.
pub fn lengthen(bytes: &mut Vec<u8>, len: usize, byte: u8)
    requires { len ≤ vec_capacity bytes.old }
    ensures bytes { bytes.new.items
        ≡ bytes.old.items ++ replicate (len - length bytes.old.items) byte }
    ensures room { vec_capacity bytes.old ≤ vec_capacity bytes.new }
{
    let len = len.max(bytes.len());
    let _ = bytes.resize(len, byte);
}

/// Adds a piece.
pub fn append(bytes: &mut Vec<u8>, piece: &[u8])
    requires { length bytes.old.items + length piece.now ≤ vec_capacity bytes.old }
    ensures bytes { bytes.new.items ≡ bytes.old.items ++ piece.now }
    ensures room { vec_capacity bytes.old ≤ vec_capacity bytes.new }
{
    let _ = bytes.extend_from_slice(piece);
}

// Writes a piece over what is there.
fn put(bytes: &mut Vec<u8>, at: usize, piece: &[u8])
    requires { at + length piece.now ≤ length bytes.old.items }
    ensures bytes { bytes.new.items
        ≡ take at bytes.old.items ++ (piece.now ++ drop (at + length piece.now) bytes.old.items) }
    ensures room { vec_capacity bytes.old ≤ vec_capacity bytes.new }
{
    bytes[at..at + piece.len()].copy_from_slice(piece);
}

/// Fills what a write of `count` bytes at a place reached, and what it added where it was done.
pub fn fill_over(bytes: &mut Vec<u8>, at: u64, count: usize, done: bool, byte: u8)
    requires { IsTrue done → at + count ≤ vec_capacity bytes.old }
    ensures filled { bytes.new.items ≡ filled_write byte at count done bytes.old.items }
    ensures room { vec_capacity bytes.old ≤ vec_capacity bytes.new }
{
    if done {
        lengthen(bytes, at as usize + count, byte);
    }
    fill_range(bytes, at, count, byte);
}

// Fills a range, as far as there are bytes.
fn fill_range(bytes: &mut Vec<u8>, at: u64, count: usize, byte: u8)
    ensures filled { bytes.new.items ≡ filled_range byte at count bytes.old.items }
    ensures room { vec_capacity bytes.old ≤ vec_capacity bytes.new }
{
    fill_slice(bytes, at, count, byte);
}

// The same of a slice.
fn fill_slice(bytes: &mut [u8], at: u64, count: usize, byte: u8)
    ensures filled { bytes.new ≡ filled_range byte at count bytes.old }
    ensures len { length bytes.new ≡ length bytes.old }
{
    if at < bytes.len() as u64 {
        let from = at as usize;
        let to = from + count.min(bytes.len() - from);
        bytes[from..to].fill(byte);
    }
}
