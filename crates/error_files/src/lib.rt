//! Error files: what goes back to a carrier, with the refused records and their codes.
#![tactic(auto)]

mod parts;
mod writing;

pub use writing::{ErrorsEnd, count_refused, errors_len, put_error_file, write_errors};

#[cfg(test)]
mod tests;
