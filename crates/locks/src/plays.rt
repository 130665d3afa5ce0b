//! What each step on the word of a guarded value tells its caller.
use crate::lock::OfBoard;
use atomic_table::Play;
use board::Board;
use std::marker::PhantomData;

/// A new seat that holds nothing.
pub struct Coming;

impl<T: OfBoard> Play<T, Board<T::Entries>> for Coming {
    ghost use Rattle.std.specs.Prelude.{⊤};

    ghost then = { λ _ _ _ _. ⊤ };
}

/// A new seat that takes the value, where it was there.
pub struct Taking<T> {
    of: PhantomData<T>,
}

impl<T: OfBoard> Play<T, Board<T::Entries>> for Taking<T> {
    ghost use Rattle.locks.specs.SlotRule.{took};

    ghost then = { took T.board };
}

/// The value is there again.
pub struct Giving;

impl<T: OfBoard> Play<T, Board<T::Entries>> for Giving {
    ghost use Rattle.locks.specs.SlotRule.{gave};

    ghost then = { gave };
}
