//! Records, carriers' files and streets, as the tests of other crates send them. No other code uses it.
#![tactic(auto)]

mod carrier_file;
mod columns;
mod sent_record;
mod streets;

pub use carrier_file::{header, joined, trailer};
pub use columns::put;
pub use sent_record::SentRecord;
pub use streets::street;

#[cfg(test)]
mod tests;
