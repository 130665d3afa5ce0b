//! A lock that owns what it keeps.
ghost use Rattle.std.specs.Prelude.{◌≡◌, false, Some};

use crate::lock::{Lock, OfBoard};
use std::sync::Wait;

/// A lock for one owner. It always tells what it keeps, and never waits.
#[derive(Drop)]
pub struct OwnLock<T> {
    kept: T,
    entered: bool,
}

impl<T: OfBoard> OwnLock<T> {
    /// A lock that is not entered.
    pub fn new(kept: T) -> OwnLock<T>
        ensures entered { ⟦<OwnLock<T> as Lock<T>>⟧.entered result ≡ false }
        ensures kept { ⟦<OwnLock<T> as Lock<T>>⟧.tells result ≡ Some kept }
        ensures board { ⟦<OwnLock<T> as Lock<T>>⟧.board result ≡ T.board kept }
    {
        OwnLock {
            kept,
            entered: false,
        }
    }

    /// What it keeps.
    pub fn into_kept(self) -> T
        requires { ⟦<OwnLock<T> as Lock<T>>⟧.entered self ≡ false }
        ensures kept { ⟦<OwnLock<T> as Lock<T>>⟧.tells self ≡ Some result }
        ensures board { ⟦<OwnLock<T> as Lock<T>>⟧.board self ≡ T.board result }
    {
        let OwnLock { kept, entered: _ } = self;
        kept
    }
}

impl<T: OfBoard> Lock<T> for OwnLock<T> {
    ghost use Rattle.std.specs.Prelude.{true, refl};

    ghost entered = { λ l. l.entered };

    ghost tells = { λ l. Some l.kept };

    ghost always = { true };

    ghost board = { λ l. T.board l.kept };

    ghost with_kept = { λ l x. record l { kept = x } };

    fn enter<R: Wait>(&mut self, rt: &R) {
        self.entered = true;
    }

    fn kept(&mut self) -> &mut T {
        &mut self.kept
    }

    fn leave(&mut self) {
        self.entered = false;
    }

    ghost with_entered = { λ s x on. on };

    ghost with_tells = { λ s x on. refl };

    ghost with_board = { λ s x is. is };
}
