//! Carriers' files: the frame of header, records and trailer, with the first fault of bytes that are none.
#![tactic(auto)]

mod fault;
mod fields;
mod file;
mod framing;
mod laws;
mod separator;

pub use fault::{FrameFault, MOST_RECORDS};
pub use file::{FileFrame, FileView, read_file};
pub use laws::{
    faults_are_of_the_parts, limit_of_records, one_reading, parts_are_read_again,
    sound_bytes_are_a_file,
};
pub use separator::Separator;
