//! The desk of the office: it carries commands out over a pair of nodes, and puts their replies.
#![tactic(auto)]

mod answers;
mod counting;
mod desk;
mod lines;
mod not_read;
mod orders;
mod putting;
mod reading;
mod refusal;
mod reply;
mod told;
mod writing;

pub use desk::Desk;
pub use refusal::Refusal;
pub use reply::{LeftBehind, Replied, Reply};
