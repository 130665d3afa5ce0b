//! A small hall: it makes its own board, and hands out locks over it. What is done under a lock is written
//! once, for every kind of lock.
ghost use Rattle.std.specs.Prelude.{◌≡◌, ◌≤◌, ◌++◌, true, false, List, length, IfOk, IfSome, IsSomeAnd};
ghost use Rattle.board.specs.declared.front.TheConstants.{MOST_BOOKED};
ghost use mathlib.Core.List.{IsPrefix};
ghost use Rattle.locks.specs.SmallBookings.{IsBooked, Booked as WasBooked};

use crate::guarded::Guarded;
use crate::lock::{Lock, OfBoard};
use crate::shared_lock::SharedLock;
use ali_base::{Duty, NoMemory};
use board::{Board, Booked, MOST_BOOKED, Main, Named, Pass};
use std::alloc::Global;
use std::sync::Wait;

/// What the writer's lock keeps.
#[derive(Drop)]
pub struct Writer<T: Booked> {
    pub main: Main<T>,
}

impl<T: Booked> OfBoard for Writer<T> {
    type Entries = T;

    ghost board = { λ w. w.main.board };
}

/// Books the entry that N names, where there is room. The pass has seen it then.
pub fn book_lent<T: Booked, N: Named<T::Entry>>(
    board: &Board<T>,
    writer: &mut Writer<T>,
    pass: Pass<T>,
) -> (Pass<T>, Option<u32>)
    requires board { (pass.board ≡ board.now) × (writer.old.main.board ≡ board.now) }
    requires one { length N.entries ≡ 1 }
    requires lawful { (list : List T.Entry) → T.lawful list → T.lawful (list ++ N.entries) }
    ensures board { (result.0.board ≡ board.now) × (writer.new.main.board ≡ board.now) }
    ensures longer { IsPrefix pass.list result.0.list }
    ensures seen { IfSome result.1 (λ number. IsBooked N.entries number result.0.list) }
    ensures booked { WasBooked N.entries writer.old.main.list result.1 writer.new.main.list }
{
    if writer.main.count() >= MOST_BOOKED {
        return (pass, None);
    }
    let number = board.book::<N>(&mut writer.main);
    let copy = board.split(&mut writer.main);
    (board.join(pass, copy), Some(number))
}

/// The same, under any lock.
pub fn book_under<T: Booked, N: Named<T::Entry>, L: Lock<Writer<T>>, R: Wait>(
    rt: &R,
    board: &Board<T>,
    lock: &mut L,
    pass: Pass<T>,
) -> (Pass<T>, Option<u32>)
    requires board { (pass.board ≡ board.now) × (L.board lock.old ≡ board.now) }
    requires free { L.entered lock.old ≡ false }
    requires one { length N.entries ≡ 1 }
    requires lawful { (list : List T.Entry) → T.lawful list → T.lawful (list ++ N.entries) }
    ensures board { (result.0.board ≡ board.now) × (L.board lock.new ≡ L.board lock.old) }
    ensures free { L.entered lock.new ≡ false }
    ensures longer { IsPrefix pass.list result.0.list }
    ensures seen { IfSome result.1 (λ number. IsBooked N.entries number result.0.list) }
    ensures told { L.always ≡ true → IfSome (L.tells lock.old)
        (λ was. IsSomeAnd (L.tells lock.new)
        (λ is. WasBooked N.entries was.main.list result.1 is.main.list)) }
{
    lock.enter(rt);
    let answer = book_lent::<T, N>(board, lock.kept(), pass);
    lock.leave();
    answer
}

/// A board, and its writer behind a mutex.
pub struct SmallHall<T: Booked> {
    pub board: Board<T>,
    pub writer: Guarded<Writer<T>>,
    pub ghost of_board: { writer.board ≡ board },
}

impl<T: Booked> SmallHall<T> {
    /// A hall with a board of its own, which opens with the history that N names, and a pass of it.
    pub fn open<N: Named<T::Entry>>(
        alloc: Global,
        duty: Duty,
        count: u32,
    ) -> Result<(SmallHall<T>, Pass<T>), NoMemory>
        requires lawful { T.lawful N.entries }
        requires count { (length N.entries ≡ count) × (count ≤ MOST_BOOKED) }
        ensures board { IfOk result (λ made. made.1.board ≡ made.0.board) }
        ensures list { IfOk result (λ made. made.1.list ≡ N.entries) }
    {
        let (board, mut main) = Board::new::<N>(alloc, duty, count)?;
        let pass = board.split(&mut main);
        match Guarded::new(alloc, &board, Writer { main }) {
            Ok(writer) => Ok((SmallHall { board, writer }, pass)),
            Err((_, no_memory)) => Err(no_memory),
        }
    }

    /// A lock over its writer, for one caller.
    pub fn lock<'h>(&'h self) -> SharedLock<'h, Writer<T>>
        ensures entered { ⟦<SharedLock<'h, Writer<T>> as Lock<Writer<T>>>⟧.entered result ≡ false }
        ensures board { ⟦<SharedLock<'h, Writer<T>> as Lock<Writer<T>>>⟧.board result
            ≡ self.now.board }
    {
        self.writer.lock()
    }
}
