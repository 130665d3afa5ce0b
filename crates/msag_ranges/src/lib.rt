//! The street guide: ranges of house numbers, found by street and number.
#![tactic(auto)]

mod entries;
mod guide;
mod guide_fault;
mod held_numbers;
mod look_up;
mod overlap;
mod place;
mod range;
mod search;
mod steps;

pub use guide::Guide;
pub use guide_fault::GuideFault;
pub use held_numbers::{greatest_to, has_parity, has_sound_ends, holds, least_from};
pub use overlap::overlaps;
pub use range::Range;
pub use steps::Steps;

#[cfg(test)]
mod tests;
#[cfg(test)]
mod twin;
