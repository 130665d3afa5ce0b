//! Small values that the whole office shares, and the traits of the outside.
#![tactic(auto)]

mod company;
mod cycle;
mod day;
mod duty;
mod editor;
mod esn;
mod fields;
mod fronts;
mod house;
mod laws;
mod memory_sink;
mod memory_source;
mod names;
mod no_memory;
mod numbers;
mod parity;
mod sink;
mod source;
mod std_streams;
mod street_key;
mod tn;
mod whole_puts;
mod zero_filled;

pub use company::Company;
pub use cycle::{Cycle, LAST_CYCLE};
pub use day::Day;
pub use duty::{Duty, Mode};
pub use editor::{EDITORS, Editor, LAST_SERIAL, Serial};
pub use esn::{Esn, HIGHEST_ESN};
pub use fields::{columns, digits_number, front_trimmed, is_blank, is_printable, trimmed};
pub use fronts::{are_zeros, first_bytes, front, number_at};
pub use house::{HIGHEST_HOUSE, House};
pub use laws::limits_of_values;
pub use memory_sink::MemSink;
pub use memory_source::MemSource;
pub use names::{DiskName, NodeName};
pub use no_memory::NoMemory;
pub use numbers::{fixed_number, write_zero_padded};
pub use parity::Parity;
pub use sink::{Put, Sink};
pub use source::{Source, Taken};
pub use std_streams::{ReaderSource, WriterSink};
pub use street_key::StreetKey;
pub use tn::Tn;
pub use whole_puts::{SinkFault, put_all};
pub use zero_filled::ZeroFilled;

#[cfg(test)]
mod tests;
