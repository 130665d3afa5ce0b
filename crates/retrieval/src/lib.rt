//! Retrieval: the form that answers a request for a number.
#![tactic(auto)]

mod answer;
mod forms;
mod laws;

pub use answer::Form;
pub use forms::{LONGEST_FORM, form};
pub use laws::limit_of_forms;

#[cfg(test)]
mod tests;
