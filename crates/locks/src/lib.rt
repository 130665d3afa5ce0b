//! Locks that say what they keep and of which board it is: one for a single owner, and one that threads
//! share over a mutex. What is done under a lock is written once, for every kind of lock.
#![tactic(auto)]

mod guarded;
mod lock;
mod own_lock;
mod plays;
mod shared_lock;

pub use guarded::{Guarded, GuardedTable, LeftEntered, SlotRule};
pub use lock::{Lock, OfBoard};
pub use own_lock::OwnLock;
pub use shared_lock::SharedLock;

#[cfg(test)]
mod small_hall;
#[cfg(test)]
mod tests;
