//! Which message is passed on next.
ghost use Rattle.std.specs.Prelude.{◌≡◌, ◌≤◌, true, is_some, Some};
ghost use Rattle.catch_up.specs.Plan.{next_of, next_after, number_of};

/// The greatest number that a message or an answer may have: one more than a journal has frames.
pub const MOST_NUMBER: u32 = 1_000_001;

/// What the other node answered to a message.
#[derive(Clone, Copy, Debug, PartialEq, Eq)]
pub enum CatchAnswer {
    /// The frame of this number was stored.
    Stored(u32),
    /// The frame of this number was there already.
    Have(u32),
    /// The frames from this number on were cut.
    Cut(u32),
    /// The journal has this many frames, and the one before the message's is missing.
    Behind(u32),
    /// The journal ends before this number, as the sender's does.
    HaveEnd(u32),
}

/// Which number is passed on next, until the other node has the end.
#[derive(Clone, Copy, Debug, PartialEq, Eq)]
pub struct CatchUp {
    next: Option<u32>,
}

impl CatchUp {
    /// Begins with this number.
    pub fn new(first: u32) -> CatchUp
        ensures { next_of result ≡ Some first }
    {
        CatchUp { next: Some(first) }
    }

    /// The number that is passed on next; none once the other node has the end.
    pub fn next(&self) -> Option<u32>
        ensures { result ≡ next_of self.now }
    {
        self.next
    }

    /// Hears what the message of the next number was answered.
    pub fn heard(&mut self, answer: CatchAnswer)
        requires asked { is_some (next_of self.old) ≡ true }
        requires within { number_of answer ≤ MOST_NUMBER }
        ensures { next_of self.new ≡ next_after answer }
    {
        self.next = match answer {
            CatchAnswer::Stored(k) | CatchAnswer::Have(k) => Some(k + 1),
            CatchAnswer::Cut(j) => Some(j),
            CatchAnswer::Behind(j) => Some(j + 1),
            CatchAnswer::HaveEnd(_) => None,
        };
    }
}
