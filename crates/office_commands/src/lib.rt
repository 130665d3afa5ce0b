//! The commands of the office as values, and the lines of a script that spell them.
#![tactic(auto)]

mod command;
mod command_line;
mod laws;
mod order;
#[cfg(test)]
mod tests;

pub use command::{Ask, Command, FILE_LIMIT, POSITIONS};
pub use command_line::CommandLine;
pub use laws::{command_lines_are_read_as_spelled, limit_of_files, limit_of_positions};
pub use order::Order;
