//! The register of duty: who holds it, as a log of duties on a disk of its own.
//!
//! The log's first block is `ALI OFFICE DUTY1` and zeros. A frame's body is a duty: its epoch, the
//! letters of its holder and its mode, its floor, and zeros: 31 bytes, and 32 with the commit byte
//! behind it. A disk without frames has the first duty: epoch 1, holder a, both nodes, floor 0.
#![tactic(auto)]

mod duty_bytes;
mod faults;
mod formatting;
mod head;
mod last_duty;
mod laws;
mod register;

pub use ali_base::{Duty, Mode};
pub use commit_log::FormatFault;
pub use faults::{DutyFault, RegisterFault};
pub use formatting::format_duty;
pub use laws::{
    a_change_is_found_again, an_image_is_read_one_way, duties_are_counted,
    duties_are_known_from_the_image, duties_are_read_as_written, limit_of_epochs,
};
pub use register::{LAST_EPOCH, Register};

#[cfg(test)]
mod tests;
