//! The edits of the street guide, which change guide and rows together.
#![tactic(auto)]

mod add;
mod apply;
mod edit_verdict;
mod houses;
mod laws;
mod live_range;
mod renumber;
mod retire;
mod set_esn;
mod split;
mod telephone;

pub use apply::apply_edit;
pub use edit_verdict::EditVerdict;
pub use laws::{parts_of_a_split, shifted_numbers};
pub use number_table::RowMover;

#[cfg(test)]
mod tests;
