//! Runs scripts: their grammar and its reading, and the call that does all that the program does.
#![tactic(auto)]

mod command;
mod formatting;
mod generate;
mod input;
mod laws;
mod run;
mod status;
mod tally;
mod text;

pub use laws::{
    commands_are_read_as_spelled, formatted_disks_are_honest, limit_of_scripts,
    scripts_have_one_reading,
};
pub use run::office;
pub use status::Status;

#[cfg(test)]
mod crash_tests;
#[cfg(test)]
mod fault_tests;
#[cfg(test)]
mod generate_tests;
#[cfg(test)]
mod tests;
