//! The table of numbers, and changes of the rows whose address a range of the street guide holds.
#![tactic(auto)]

mod houses;
mod row_changes;
mod row_mover;
mod rows;
mod rows_in_order;

pub use houses::added;
pub use row_mover::RowMover;
pub use rows::Rows;
pub use rows_in_order::RowsInOrder;
