//! The address check: where the street guide places a record, and with which ESN.
#![tactic(auto)]

mod esn_columns;
mod placing;

pub use placing::check;

#[cfg(test)]
mod tests;
