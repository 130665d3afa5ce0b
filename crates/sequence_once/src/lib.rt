//! Each carrier's file once: the kept cycles of every company, and what a file is to them; and each
//! guide edit once: the last edit of every editor, and what an edit is to it.
#![tactic(auto)]

mod cycle_record;
mod cycles;
mod edit_record;
mod hashing;
mod kept;
mod kept_laws;
mod serials;
mod standing;

pub use cycles::{Cycles, KEPT_CYCLES};
pub use hashing::digest;
pub use kept::{KeptCycle, Last};
pub use kept_laws::limit_of_kept_cycles;
pub use serials::Serials;
pub use standing::{CycleFault, Standing};

#[cfg(test)]
mod serial_tests;
#[cfg(test)]
mod tests;
