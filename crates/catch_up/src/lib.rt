//! The other node of a pair is brought to the journal of the duty's holder.
#![tactic(auto)]

mod laws;
mod passing;
mod plan;

pub use laws::catching_up_keeps_worlds_lawful;
pub use passing::catch_up;
pub use plan::{CatchAnswer, CatchUp, MOST_NUMBER};

#[cfg(test)]
mod tests;
