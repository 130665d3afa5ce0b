//! Disks that a crash may stop: what a read gives, and what a crash may leave.
#![tactic(auto)]

mod calls;
mod disk;
mod faults;
mod file_disk;
mod fuse_disk;
mod image;
mod kept;
mod memory_disk;
mod record;

pub use disk::{Disk, Failed};
pub use file_disk::FileDisk;
pub use fuse_disk::FuseDisk;
pub use kept::Kept;
pub use memory_disk::MemDisk;

#[cfg(test)]
mod tests;
