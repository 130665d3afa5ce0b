//! The generated script: an office filled by a seed, for trying it and for measuring it.
#![tactic(auto)]

mod columns;
mod draws;
mod file;
mod laws;
mod names;
mod script;
mod street;

pub use laws::{generated_commands_are_commands, limits_of_scripts};
pub use script::{FILE_RECORDS, GeneratedFile, MOST_RECORDS, STREETS, Script};
pub use street::street_command;

#[cfg(test)]
mod tests;
