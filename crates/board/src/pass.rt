//! The tokens of a board: the one that writes, and those that have seen its history.
ghost use Rattle.std.specs.Prelude.{◌≡◌, ◌≤◌, length};
ghost use Rattle.board.specs.declared.front.TheConstants.{MOST_BOOKED};

use crate::named::Booked;
use crate::view::BoardSeat;
use ali_base::Duty;
use std::marker::{Model, PhantomData};

/// The right to write on a board. There is one for each board.
#[derive(Drop)]
pub struct Main<T: Booked> {
    pub(crate) seat: BoardSeat<T::Entry>,
    pub(crate) duty: Duty,
    pub(crate) count: u32,
    pub(crate) of: PhantomData<T>,
}

impl<T: Booked> Model for Main<T> {
    ghost use Rattle.board.specs.Histories.{MainHistory, IsMain};

    ghost Value = { MainHistory T.Entry };

    ghost view = { λ m.
        record { board = m.seat.table_id; list = m.seat.me.0.list; duty = m.duty } };

    ghost invariant = { λ m. IsMain T.lawful m.seat.me m.duty m.count };
}

/// A history token: the part of a board's history that its owner has seen. Of two tokens of one board
/// the shorter list begins the longer.
#[derive(Drop)]
pub struct Pass<T: Booked> {
    pub(crate) seat: BoardSeat<T::Entry>,
    pub(crate) count: u32,
    pub(crate) of: PhantomData<T>,
}

impl<T: Booked> Model for Pass<T> {
    ghost use Rattle.board.specs.Histories.{SeenHistory, IsPass};

    ghost Value = { SeenHistory T.Entry };

    ghost view = { λ p.
        record { board = p.seat.table_id; list = p.seat.me.0.list; front = p.seat.me.0.front } };

    ghost invariant = { λ p. IsPass T.lawful p.seat.me p.count };
}

impl<T: Booked> Main<T> {
    /// How many entries are booked.
    pub fn count(&self) -> u32
        ensures count { (result ≡ length self.now.list) × (result ≤ MOST_BOOKED) }
        ensures lawful { T.lawful self.now.list }
    {
        self.count
    }

    /// The present duty.
    pub fn duty(&self) -> Duty
        ensures { result ≡ self.now.duty }
    {
        self.duty
    }
}

impl<T: Booked> Pass<T> {
    /// How many entries it has seen.
    pub fn count(&self) -> u32
        ensures count { (result ≡ length self.now.list) × (result ≤ MOST_BOOKED) }
        ensures lawful { T.lawful self.now.list }
    {
        self.count
    }
}
