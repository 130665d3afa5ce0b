//! A node of the pair: its journal on a disk, and the table that it makes of the journal's entries.
#![tactic(auto)]

mod faults;
mod learning;
mod message;
mod node;
mod restarting;
mod sending;
mod storing;

pub use faults::{LearnFault, StartFault};
pub use message::{Ack, Delivered, Message, What};
pub use node::Node;
pub use node_journal::{AppendFault, DiskFault, ReadFault};

#[cfg(test)]
mod tests;
