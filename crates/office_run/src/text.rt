//! A text in memory that grows.
ghost use Rattle.std.specs.Prelude.{◌≡◌, Some, []};

use ali_base::{Put, Sink};
use std::alloc::Global;

/// Holds all that is put into it. It fails only where memory runs out.
#[derive(Drop)]
pub(crate) struct Text {
    pub(crate) bytes: Vec<u8>,
    pub(crate) faults: u64,
}

impl Text {
    /// Nothing.
    pub(crate) fn new(alloc: Global) -> Self
        ensures { result.bytes.items ≡ [] }
    {
        Text {
            bytes: Vec::new(alloc),
            faults: 0,
        }
    }
}

impl Sink for Text {
    ghost contents = { λ s. Some s.bytes.items };

    ghost faults = { λ s. s.faults };

    fn put(&mut self, bytes: &[u8]) -> Put {
        match self.bytes.extend_from_slice(bytes) {
            Ok(()) => Put::Took(bytes.len()),
            Err(_) => {
                self.faults = self.faults.saturating_add(1);
                Put::Failed
            }
        }
    }
}
