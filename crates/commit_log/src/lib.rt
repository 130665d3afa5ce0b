//! A log of frames on a disk, each of them written before the byte that commits it.
//!
//! A log has blocks of one length: the first block, and then the frames, from number 1 on. The last
//! byte of each block is the commit byte of the frame behind it: 0xA5 commits that frame, and any
//! other value does not. The log is the frames before the first one that is not committed.
//!
//! What the first block is and what the body of a frame may be are told by those who use the log.
#![tactic(auto)]

mod blocks;
mod body_reader;
mod durable;
mod formatting;
mod laws;
mod log;
mod opening;
mod pieces;
mod writing;

pub use body_reader::BodyReader;
pub use durable::write_durably;
pub use formatting::{FormatFault, format};
pub use laws::{an_image_is_read_one_way, bodies_are_known_from_the_image};
pub use log::{AppendFault, Log, ReadFault};
pub use opening::OpenFault;

#[cfg(test)]
mod tests;
