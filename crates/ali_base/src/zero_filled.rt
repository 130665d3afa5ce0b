//! Bytes of a fixed width while they are put together.
ghost use Rattle.std.specs.Prelude.{◌≡◌, ℕ, ◌+◌, ◌≤◌, List, [], ◌++◌, length};
ghost use Rattle.ali_base.specs.Fronts.{number_bytes, zero_filled};

use std::marker::Model;

/// Fields one after the other, up to `N` bytes.
#[derive(Drop)]
pub struct ZeroFilled<const N: usize> {
    // Zeros after the fields.
    bytes: [u8; N],
    len: usize,
}

impl<const N: usize> Model for ZeroFilled<N> {
    ghost use Rattle.std.specs.Prelude.{ℕ, ◌≡◌, ◌≤◌, ◌-◌, List, take, drop, replicate};

    ghost Value = { List ℕ };

    ghost view = { λ f. take f.len f.bytes };

    ghost invariant = { λ f. (f.len ≤ N) × (drop f.len f.bytes ≡ replicate (N - f.len) 0) };
}

impl<const N: usize> ZeroFilled<N> {
    /// No field.
    pub fn new() -> Self
        ensures { result ≡ [] }
    {
        ZeroFilled {
            bytes: [0; N],
            len: 0,
        }
    }

    /// Adds a field at the end.
    pub fn push(&mut self, field: &[u8])
        requires { length self.old + length field.now ≤ N }
        ensures bytes { self.new ≡ self.old ++ field.now }
        ensures len { length self.new ≡ length self.old + length field.now }
    {
        let end = self.len + field.len();
        let bytes = &mut self.bytes[..];
        bytes[self.len..end].copy_from_slice(field);
        self.len = end;
    }

    /// Adds a number of four bytes, the highest first.
    pub fn push_number(&mut self, number: u32)
        requires { length self.old + 4 ≤ N }
        ensures bytes { self.new ≡ self.old ++ number_bytes number }
        ensures len { length self.new ≡ length self.old + 4 }
    {
        self.push(&number.to_be_bytes());
    }

    /// The fields, and zeros after them.
    pub fn whole(&self) -> [u8; N]
        ensures { result ≡ zero_filled N self.now }
    {
        self.bytes
    }
}
