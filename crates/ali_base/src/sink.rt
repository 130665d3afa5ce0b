//! Where bytes go.
ghost use Rattle.std.specs.Prelude.{ℕ, List};
ghost use Rattle.std.specs.declared.option.Option.{Option};

/// What a call of `put` answers.
#[derive(Clone, Copy, Debug, PartialEq, Eq)]
pub enum Put {
    /// So many bytes of the piece's front were taken. Where it is none of a piece that is not empty,
    /// the sink failed.
    Took(usize),
    /// The sink failed, and holds what it held.
    Failed,
}

/// A stream of bytes that is written at its end.
pub trait Sink {
    ghost use Rattle.ali_base.specs.SinkCalls.{PutsWithin, PutsTo, PutCause};

    /// The bytes that it holds, where the sink tells.
    ghost contents: { Self → Option (List ℕ) };

    /// The count of faults. It stays at its last value, 2^64 - 1.
    ghost faults: { Self → ℕ };

    /// Puts the front of a piece, as much of it as the sink takes.
    fn put(&mut self, bytes: &[u8]) -> Put
        ensures within { PutsWithin bytes.now result }
        ensures bytes { PutsTo (contents self.old) (contents self.new) bytes.now result }
        ensures cause { PutCause (faults self.old) (faults self.new) bytes.now result };
}
