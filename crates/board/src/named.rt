//! What a board is of, and the entries that a call names.
use std::marker::Brand;

/// The entries of a board, and the test that its history always meets.
pub trait Booked {
    type Entry;

    ghost use Rattle.std.specs.Prelude.{List};

    ghost lawful: { List Self.Entry → Type 0 };
}

/// Entries that a call names, in proofs alone: the history that a board opens with, or the one entry
/// that is booked.
pub trait Named<E> {
    ghost use Rattle.std.specs.Prelude.{List};

    ghost entries: { List E };
}

/// A call that passes `Brand` picks the entries in its own proof.
impl<E> Named<E> for Brand {
    ghost use Rattle.std.specs.Prelude.{[]};

    ghost entries = { [] };
}
