//! Where bytes come from.
ghost use Rattle.std.specs.Prelude.{ℕ, List};
ghost use Rattle.std.specs.declared.option.Option.{Option};

/// What a call of `take` answers.
#[derive(Clone, Copy, Debug, PartialEq, Eq)]
pub enum Taken {
    /// So many bytes were taken, and stand at the front of the buffer.
    Took(usize),
    /// Nothing is left.
    End,
    /// The source failed, and has left what it had.
    Failed,
}

/// A stream of bytes that is read from its front.
pub trait Source {
    ghost use Rattle.ali_base.specs.SourceCalls.{TakesWithin, TakesFrom, TakeCause};

    /// The bytes that are left, where the source tells.
    ghost left: { Self → Option (List ℕ) };

    /// The count of faults. It stays at its last value, 2^64 - 1.
    ghost faults: { Self → ℕ };

    /// Takes bytes from the front of what is left, into the front of `buf`.
    fn take(&mut self, buf: &mut [u8]) -> Taken
        ensures within { TakesWithin buf.new result }
        ensures bytes { TakesFrom (left self.old) (left self.new) buf.new result }
        ensures cause { TakeCause (faults self.old) (faults self.new) result };
}
