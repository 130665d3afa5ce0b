//! A lock that threads share.
ghost use Rattle.std.specs.Prelude.{◌≡◌, [], ◌∷◌, false, is_some};
ghost use Rattle.locks.specs.SlotRule.{is_held};

use crate::guarded::Guarded;
use crate::lock::{Lock, OfBoard};
use crate::plays::{Coming, Giving, Taking};
use atomic_table::Seat;
use board::Board;
use std::sync::{MutexGuard, Wait};

/// One caller's lock over a guarded value. It has the mutex's guard while it is entered, and tells nothing
/// at other times.
#[derive(Drop)]
pub struct SharedLock<'h, T: OfBoard> {
    guarded: &'h Guarded<T>,
    seat: Seat<T, Board<T::Entries>>,
    guard: Option<MutexGuard<'h, ()>>,
    ghost of_slot: { seat.table_id ≡ guarded.now.slot },
    ghost guard_while_entered: { is_held seat.me.1 ≡ is_some guard },
}

impl<T: OfBoard> Guarded<T> {
    /// A lock over it that is not entered. It takes no memory and does not wait.
    pub fn lock<'h>(&'h self) -> SharedLock<'h, T>
        ensures entered { ⟦<SharedLock<'h, T> as Lock<T>>⟧.entered result ≡ false }
        ensures board { ⟦<SharedLock<'h, T> as Lock<T>>⟧.board result ≡ self.now.board }
    {
        let (_, seat) = self.table.shared.load_new_seat::<Coming>(0);
        SharedLock {
            guarded: self,
            seat,
            guard: None,
        }
    }

    /// Waits until the value is there, and takes it.
    fn take<'h, R: Wait>(&'h self, rt: &R) -> (MutexGuard<'h, ()>, Seat<T, Board<T::Entries>>)
        ensures slot { result.1.table_id ≡ self.now.slot }
        ensures value { (x : T) × (result.1.me.1 ≡ (0, x) ∷ []) × (T.board x ≡ self.now.board) }
    {
        for _ in rt.forever() {
            let guard = self.turn.lock(rt);
            let (found, seat) = self.table.shared.swap_new_seat::<Taking<T>>(0, 0);
            if found == 1 {
                return (guard, seat);
            }
        }
        unreachable!()
    }
}

impl<'h, T: OfBoard> Lock<T> for SharedLock<'h, T> {
    ghost use Rattle.std.specs.Prelude.{refl};
    ghost use Rattle.locks.specs.SlotRule.{told};
    ghost use Rattle.locks.specs.HeldWrites.{written_seat, written_on, told_written};

    ghost entered = { λ l. is_held l.seat.me.1 };

    ghost tells = { λ l. told l.seat.me.1 };

    ghost always = { false };

    ghost board = { λ l. l.guarded.now.board };

    ghost with_kept = { λ l x. record l {
      seat = written_seat l.seat x;
      guard_while_entered = written_on l.seat.me.1 x l.guard_while_entered;
    } };

    fn enter<R: Wait>(&mut self, rt: &R) {
        let (guard, seat) = self.guarded.take(rt);
        self.seat = seat;
        self.guard = Some(guard);
    }

    fn kept(&mut self) -> &mut T {
        let guarded = self.guarded;
        self.seat.slot_mut(&guarded.table.shared, 0)
    }

    fn leave(&mut self) {
        let guarded = self.guarded;
        guarded.table.shared.store::<Giving>(&mut self.seat, 0, 1);
        self.guard = None;
    }

    ghost with_entered = { λ s x on. written_on s.seat.me.1 x on };

    ghost with_tells = { λ s x on. told_written s.seat.me.1 x on };

    ghost with_board = { λ s x is. refl };
}
