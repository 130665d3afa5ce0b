//! A value that threads reach one at a time, beside the mutex by which they wait for it.
ghost use Rattle.std.specs.Prelude.{◌≡◌, IfOk, IfErr};

use crate::lock::OfBoard;
use ali_base::NoMemory;
use atomic_table::{Refused, Table, TableRule};
use board::Board;
use std::alloc::{AllocFailed, Global};
use std::marker::{Model, PhantomData};
use std::sync::Mutex;

/// The rule of the one word and the one slot: where the word is 1, the value is there, and it is of the
/// board that the table was told when it was made.
pub struct SlotRule<T> {
    of: PhantomData<T>,
}

impl<T: OfBoard> TableRule<T, Board<T::Entries>, Board<T::Entries>> for SlotRule<T> {
    ghost use Rattle.locks.specs.SlotRule.{Holds};

    ghost holds = { λ key. Holds T.board key };

    ghost first = { λ key. key };
}

/// The slot of a guarded value, with the word that says whether the value is there.
pub type GuardedTable<T> = Table<
    T,
    Board<<T as OfBoard>::Entries>,
    Board<<T as OfBoard>::Entries>,
    SlotRule<T>,
    Global,
>;

/// A value of one board, for locks that threads share. Contracts see which board that is, and which slot.
/// The mutex keeps nothing: whoever has its guard has the right to take the value.
pub struct Guarded<T: OfBoard> {
    pub(crate) turn: Mutex<()>,
    pub(crate) table: GuardedTable<T>,
}

impl<T: OfBoard> Model for Guarded<T> {
    ghost use Rattle.std.specs.Prelude.{◌≡◌};
    ghost use Rattle.locks.specs.LockTelling.{GuardedName};

    ghost Value = { GuardedName };

    ghost view = { λ g. record { board = g.table.shared.key; slot = g.table.shared.table_id } };

    ghost invariant = { λ g. (g.table.shared.table_id.words ≡ 1)
        × (g.table.shared.table_id.slots ≡ 1) };
}

/// A lock was dropped while it was entered. What was kept need not be of the board any more.
#[derive(Drop)]
pub struct LeftEntered<T> {
    pub kept: T,
}

impl<T: OfBoard> Guarded<T> {
    /// A value of this board behind a mutex. It comes back where there is no memory.
    pub fn new(
        alloc: Global,
        board: &Board<T::Entries>,
        kept: T,
    ) -> Result<Guarded<T>, (T, NoMemory)>
        requires { T.board kept ≡ board.now }
        ensures board { IfOk result (λ guarded. guarded.board ≡ board.now) }
        ensures back { IfErr result (λ back. back.0 ≡ kept) }
    {
        let mut slots = Vec::new(alloc);
        if let Err(AllocFailed { value }) = slots.push(kept) {
            slots.destroy_empty();
            return Err((value, NoMemory));
        }
        match Table::new(alloc, &[1], slots, board) {
            Ok((table, _)) => Ok(Guarded {
                turn: Mutex::new(()),
                table,
            }),
            Err(Refused { mut slots }) => {
                let Some(value) = slots.pop() else {
                    unreachable!()
                };
                slots.destroy_empty();
                Err((value, NoMemory))
            }
        }
    }

    /// The value, which is of the board unless a lock was dropped while it was entered.
    pub fn into_kept(self) -> Result<T, LeftEntered<T>>
        ensures { IfOk result (λ kept. T.board kept ≡ self.board) }
    {
        let Guarded { turn: _, table } = self;
        let mut closed = table.close();
        let there = closed.word(0) == 1;
        let kept = closed.take(0);
        closed.free();
        if there {
            Ok(kept)
        } else {
            Err(LeftEntered { kept })
        }
    }
}
