//! The journal of a node: entries with their epochs, as frames of a log on the node's disk.
//!
//! The log's first block is `ALI OFFICE JRNL1`, the node's letter and zeros. A frame's body is its
//! number, its epoch and the bytes of its entry: 639 bytes, and 640 with the commit byte behind it.
#![tactic(auto)]

mod epochs;
mod faults;
mod formatting;
mod frame;
mod head;
mod journal;
mod laws;

pub use commit_log::FormatFault;
pub use faults::{AppendFault, DiskFault, JournalFault, ReadFault};
pub use formatting::format;
pub use frame::{LAST_EPOCH, MOST_FRAMES};
pub use journal::Journal;
pub use laws::{
    an_image_is_read_one_way, bodies_are_read_as_written, frames_are_found_after_a_crash,
    frames_are_known_from_the_image, limit_of_epochs, limit_of_frames,
};

#[cfg(test)]
mod image_tests;
#[cfg(test)]
mod tests;
