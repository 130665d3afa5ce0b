//! The pair of nodes, with the duty register and the messages between them.
#![tactic(auto)]

mod duty_change;
mod faults;
mod laws;
mod node_calls;
mod nodes;
mod pair;
mod pair_duty;
mod pair_messages;
mod pair_opening;
mod pair_refusals;
mod pair_status;
mod pair_writes;
mod readiness;
mod sent;
mod starting;

pub use faults::{OpenEnd, PairFault};
pub use laws::{crashes_are_halts, formatted_worlds_are_lawful, ready_tables_have_the_history};
pub use nodes::other;
pub use pair::{Pair, PairStatus};
pub use pair_node::{Ack, Delivered, Message, Node, What};
pub use pair_refusals::MOST_MESSAGES;
pub use pair_writes::Booked;
pub use starting::Started;
