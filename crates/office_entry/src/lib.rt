//! Entries of the booked history; edits of the street guide, as values, as text and as bytes.
#![tactic(auto)]

mod difference;
mod edit;
mod edit_key;
mod entry;
mod entry_bytes;
mod entry_laws;
mod entry_reading;
mod esn_sent;
mod fields;
mod laws;
mod reading;
mod text;

pub use difference::Difference;
pub use edit::{Edit, HIGHEST_SENT};
pub use edit_key::EditKey;
pub use entry::Entry;
pub use entry_laws::{
    bytes_are_of_one_entry, entries_are_read_as_written, entries_in_range_are_entries,
};
pub use esn_sent::EsnSent;
pub use laws::{
    bytes_are_of_one_edit, bytes_are_read_as_written, limit_of_sent_numbers, texts_are_of_one_edit,
    texts_are_read_as_spelled,
};

#[cfg(test)]
mod entry_tests;
#[cfg(test)]
mod tests;
