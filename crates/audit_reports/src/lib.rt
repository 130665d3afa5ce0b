//! Reports of the office, as texts of comma-separated values.
#![tactic(auto)]

mod code_listing;
mod csv_lines;
mod listed;
mod listings;
mod reading;
mod report;
mod report_fault;
mod rows;
mod statistics;
mod writing;

pub use report::{HIGHEST_CODE, Report};
pub use report_fault::ReportFault;
pub use writing::{report_text, write_report};

#[cfg(test)]
mod tests;
