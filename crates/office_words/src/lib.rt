//! The words of the program's command line.
#![tactic(auto)]

mod form;
mod generate;
mod number;

pub use form::{Form, MOST_RECORDS, read_words};

#[cfg(test)]
mod tests;
