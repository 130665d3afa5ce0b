//! What each step on the word tells its caller, and how views are cut in two and put together.
use crate::named::{Booked, Named};
use crate::view::View;
use atomic_table::{Join, Play, Split};
use std::marker::PhantomData;

/// The board gets the history that N names.
pub struct Opening<N> {
    of: PhantomData<N>,
}

impl<E, N: Named<E>> Play<(), View<E>> for Opening<N> {
    ghost use Rattle.board.specs.BoardRule.{opened};

    ghost then = { opened N.entries };
}

/// Main's list gets the entry that N names.
pub struct Booking<N> {
    of: PhantomData<N>,
}

impl<E, N: Named<E>> Play<(), View<E>> for Booking<N> {
    ghost use Rattle.std.specs.Prelude.{◌++◌};
    ghost use Rattle.board.specs.BoardRule.{wrote};

    ghost then = { wrote (λ list. list ++ N.entries) };
}

/// Main's list stays, and the duty changes.
pub struct Noting;

impl<E> Play<(), View<E>> for Noting {
    ghost use Rattle.board.specs.BoardRule.{wrote};

    ghost then = { wrote (λ list. list) };
}

/// A pass sees the whole history, and what the word shows.
pub struct Looking<T> {
    of: PhantomData<T>,
}

impl<T: Booked> Play<(), View<T::Entry>> for Looking<T> {
    ghost use Rattle.std.specs.Prelude.{false};
    ghost use Rattle.board.specs.BoardRule.{saw};

    ghost then = { saw T.lawful false };
}

/// A joined pass sees the whole history, and keeps its front.
pub struct Comparing<T> {
    of: PhantomData<T>,
}

impl<T: Booked> Play<(), View<T::Entry>> for Comparing<T> {
    ghost use Rattle.std.specs.Prelude.{true};
    ghost use Rattle.board.specs.BoardRule.{saw};

    ghost then = { saw T.lawful true };
}

/// Main compares what was set beside with its own.
pub struct Meeting;

impl<E> Play<(), View<E>> for Meeting {
    ghost use Rattle.board.specs.BoardRule.{met};

    ghost then = { met };
}

/// A pass that has seen what this seat has.
pub struct Copying;

impl<E> Split<View<E>> for Copying {
    ghost use Rattle.board.specs.BoardRule.{reading};

    ghost left = { λ v. v };

    ghost right = { reading };
}

/// The other's list and front are set beside.
pub struct Beside;

impl<E> Join<View<E>> for Beside {
    ghost use Rattle.board.specs.BoardRule.{with_beside, spent_view};

    ghost both = { with_beside };

    ghost spent = { spent_view };
}
