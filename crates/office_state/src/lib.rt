//! The state of the office: the table of numbers, the street guide, the kept cycles and the last edits, and
//! the entries of the booked history that change it.
#![tactic(auto)]

mod apply_fault;
mod booking;
mod counts;
mod due;
mod due_fault;
mod laws;
mod limits;
mod office;
mod readers;
mod tally;
mod verdict;

pub use apply_fault::ApplyFault;
pub use due_fault::DueFault;
pub use laws::{
    bookings_are_once, codes_are_below_1000, edits_keep_owners, finished_cycles_stay_complete,
    ids_are_never_used_again, legal_histories_are_sound, limit_of_entries, limits_are_kept,
    lines_change_one_number, locked_rows_are_their_owners, owners_change_by_migrate,
    owners_unlock_their_rows, rows_have_their_numbers,
};
pub use limits::Limits;
pub use number_table::RowsInOrder;
pub use office::{MOST_ENTRIES, Office};
pub use tally::Tally;
pub use verdict::Verdict;

#[cfg(test)]
mod tests;
