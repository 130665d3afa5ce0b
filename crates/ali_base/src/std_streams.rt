//! The trusted edge: std's readers and writers as sources and sinks.
ghost use Rattle.std.specs.Prelude.{◌≡◌};

use crate::sink::{Put, Sink};
use crate::source::{Source, Taken};
use std::io::{Read, Write};

/// The bytes of a reader of std. Each `Err` of the reader is a fault.
#[derive(Drop)]
pub struct ReaderSource<R> {
    inner: R,
    faults: u64,
}

impl<R: Read> ReaderSource<R> {
    ghost use Rattle.ali_base.specs.StdStreams.{source_reader, source_faults};

    /// What the reader has left, with no fault so far.
    pub fn new(inner: R) -> Self
        ensures reader { source_reader result ≡ inner }
        ensures faults { source_faults result ≡ 0 }
    {
        ReaderSource { inner, faults: 0 }
    }
}

impl<R: Read> Source for ReaderSource<R> {
    ghost left = { λ s. R.remaining s.inner };

    ghost faults = { λ s. s.faults };

    fn take(&mut self, buf: &mut [u8]) -> Taken {
        match self.inner.read(buf) {
            Ok(0) => {
                if buf.is_empty() {
                    Taken::Took(0)
                } else {
                    Taken::End
                }
            }
            Ok(count) => Taken::Took(count),
            Err(_) => {
                self.faults = self.faults.saturating_add(1);
                Taken::Failed
            }
        }
    }
}

/// A writer of std. Each `Err` of the writer is a fault, and so is a write that takes nothing.
#[derive(Drop)]
pub struct WriterSink<W> {
    inner: W,
    faults: u64,
}

impl<W: Write> WriterSink<W> {
    ghost use Rattle.ali_base.specs.StdStreams.{sink_writer, sink_faults};

    /// What the writer has been given, with no fault so far.
    pub fn new(inner: W) -> Self
        ensures writer { sink_writer result ≡ inner }
        ensures faults { sink_faults result ≡ 0 }
    {
        WriterSink { inner, faults: 0 }
    }
}

impl<W: Write> Sink for WriterSink<W> {
    ghost contents = { λ s. W.contents s.inner };

    ghost faults = { λ s. s.faults };

    fn put(&mut self, bytes: &[u8]) -> Put {
        match self.inner.write(bytes) {
            Ok(count) => {
                if count == 0 && !bytes.is_empty() {
                    self.faults = self.faults.saturating_add(1);
                }
                Put::Took(count)
            }
            Err(_) => {
                self.faults = self.faults.saturating_add(1);
                Put::Failed
            }
        }
    }
}
