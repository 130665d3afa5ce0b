//! Lines of words, as the office prints them and reads them.
#![tactic(auto)]

mod laws;
mod line;
mod reading;

pub use laws::numbers_are_read_as_spelled;
pub use line::Line;
pub use reading::{number_of, split_once};
