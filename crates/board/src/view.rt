//! What a seat at the board's word knows, and the rule of the word. No value of these types is made.
use crate::front::Front;
use crate::named::Booked;
use atomic_table::{Seat, Table, TableRule};
use std::alloc::Global;
use std::collections::LinkedList;
use std::marker::PhantomData;

/// What a seat is for.
pub enum Role {
    /// It gives the board its history.
    Opens,
    /// It is the one that books and notes.
    Writes,
    /// It is a history token.
    Reads,
    /// What it knew went into another one.
    Spent,
}

/// What a seat knows.
pub struct View<E> {
    pub role: Role,
    /// The history that it has seen.
    pub list: LinkedList<E>,
    /// The front that it was shown last.
    pub front: Front,
    /// Another seat's list, set beside its own to be compared.
    pub beside: LinkedList<E>,
    /// The front of that other seat.
    pub beside_front: Front,
}

/// The rule of the word: it shows the length of the one history and the present duty.
pub struct BoardRule<T> {
    of: PhantomData<T>,
}

impl<T: Booked> TableRule<(), View<T::Entry>, ()> for BoardRule<T> {
    ghost use Rattle.board.specs.BoardRule.{Holds, opening_view};

    ghost holds = { λ _. Holds T.lawful };

    ghost first = { λ _. opening_view };
}

/// The table of the board's one word.
pub type BoardTable<T> = Table<(), View<<T as Booked>::Entry>, (), BoardRule<T>, Global>;

/// A seat at the board's word.
pub type BoardSeat<E> = Seat<(), View<E>>;
