//! What a lock promises.
use board::Booked;
use std::sync::Wait;

/// Something that is of one board.
pub trait OfBoard {
    ghost use Rattle.atomic_table.specs.Seated.{TableId};

    /// What the board books.
    type Entries: Booked;

    ghost board: { Self → TableId };
}

/// A lock. While it is entered it tells what it keeps, and that changes only through what `kept` lends.
/// Which board that is of never changes.
pub trait Lock<T: OfBoard> {
    ghost use Rattle.std.specs.Prelude.{◌≡◌, Bool, true, false, Option, Some};
    ghost use Rattle.std.specs.Borrow.{Lends, sem};
    ghost use Rattle.atomic_table.specs.Seated.{TableId};
    ghost use Rattle.locks.specs.LockTelling.{TellsOneOf};

    ghost entered: { Self → Bool };

    /// What it keeps, where it tells it.
    ghost tells: { Self → Option T };

    /// It tells what it keeps also while it is not entered.
    ghost always: { Bool };

    /// The board of what it keeps.
    ghost board: { Self → TableId };

    /// The lock after a write through what it lends.
    ghost with_kept: { Self → T → Self };

    /// Takes the lock. It waits until nobody else has it.
    fn enter<R: Wait>(&mut self, rt: &R)
        requires { entered self.old ≡ false }
        ensures entered { entered self.new ≡ true }
        ensures kept { TellsOneOf T.board (tells self.new) (board self.new) }
        ensures board { board self.new ≡ board self.old }
        ensures told { always ≡ true → tells self.new ≡ tells self.old };

    /// Lends what it keeps.
    fn kept(&mut self) -> &mut T
        requires { entered self.old ≡ true }
        ensures* writes_back { sem 𝓛 (Lends Self.row T.row self.entry result (with_kept self.old)) }
        ensures value { tells self.old ≡ Some result.now };

    /// Gives the lock back. What it keeps is of its board again.
    fn leave(&mut self)
        requires entered { entered self.old ≡ true }
        requires board { TellsOneOf T.board (tells self.old) (board self.old) }
        ensures entered { entered self.new ≡ false }
        ensures board { board self.new ≡ board self.old }
        ensures told { always ≡ true → tells self.new ≡ tells self.old };

    /// After a write it is still entered.
    ghost with_entered: { (s : Self) (x : T) → entered s ≡ true → entered (with_kept s x) ≡ true };

    /// It then tells what was written.
    ghost with_tells: { (s : Self) (x : T) → entered s ≡ true → tells (with_kept s x) ≡ Some x };

    /// A write that keeps the board of what is kept keeps that of the lock.
    ghost with_board: { (s : Self) (x : T) →
        T.board x ≡ board s → board (with_kept s x) ≡ board s };
}
