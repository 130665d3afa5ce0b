//! What a crash keeps.

/// What a crash leaves in place of the bytes that were not synced.
#[derive(Clone, Copy, Debug, PartialEq, Eq)]
pub enum Kept {
    /// Those at the last sync.
    Old,
    /// Those that a read gives.
    New,
    /// This byte wherever a write was made, and in all that was added.
    Fill(u8),
}
