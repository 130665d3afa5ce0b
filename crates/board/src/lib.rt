//! The board of a running office: the booked history, which only grows, and the present duty. Threads
//! share one word, which shows the history's length and the duty; the history itself exists in proofs.
#![tactic(auto)]

mod board;
mod front;
mod laws;
mod named;
mod pass;
mod plays;
mod view;

pub use board::Board;
pub use front::{Front, MOST_BOOKED};
pub use laws::limit_of_bookings;
pub use named::{Booked, Named};
pub use pass::{Main, Pass};
pub use view::{BoardRule, BoardSeat, BoardTable, Role, View};

#[cfg(test)]
mod tests;
