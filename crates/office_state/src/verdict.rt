//! What an entry gets.

/// What an entry gets.
#[derive(Clone, Copy, Debug, PartialEq, Eq)]
pub struct Verdict {
    /// 0 where the entry was accepted.
    pub code: u16,
    /// What there is to say of an edit beside its code: the new id of an ADD or a SPLIT, how many rows a
    /// RENUMBER moved or a SETESN wrote, the range in the way of 502, the least telephone number of 504.
    /// Otherwise 0.
    pub detail: u64,
}
