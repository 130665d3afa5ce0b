//! What an accepted record does.
use ali_base::Day;

/// What an accepted record does to the row of its number.
#[derive(Clone, Copy, Debug, PartialEq, Eq)]
pub enum LifeAct {
    /// The record becomes the row, locked.
    Store,
    /// The row goes.
    Remove,
    /// The row stays and is unlocked, on this day.
    Unlock(Day),
}
