//! Lines of carriers' files: what the record of a line gets, and what it does to the table of numbers.
#![tactic(auto)]

mod booking;
mod judging;
mod laws;

pub use booking::apply_line;
pub use laws::{
    lines_change_one_number, locked_rows_stay, owners_change_by_migrates, owners_unlock,
};
