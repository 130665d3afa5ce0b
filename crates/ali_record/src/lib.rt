//! Records of telephone numbers with their addresses, as carriers send them.
#![tactic(auto)]

mod address;
mod changes;
mod field;
mod function;
mod reading_fault;
mod record;

pub use field::Field;
pub use function::Function;
pub use reading_fault::ReadingFault;
pub use record::{Record, read_record};
