//! Putting a whole text.
ghost use Rattle.ali_base.specs.WholePuts.{Puts};

use crate::sink::{Put, Sink};

/// A sink failed, or took nothing of a piece that is not empty.
#[derive(Clone, Copy, Debug, PartialEq, Eq)]
pub struct SinkFault;

/// Puts the whole text, or stops at a fault with a front of it put.
pub fn put_all<K: Sink>(sink: &mut K, text: &[u8]) -> Result<(), SinkFault>
    ensures put { Puts K.contents K.faults sink.old sink.new text.now result }
{
    let mut rest = text;
    while !rest.is_empty() {
        match sink.put(rest) {
            Put::Took(count) => {
                if count == 0 {
                    return Err(SinkFault);
                }
                rest = &rest[count..];
            }
            Put::Failed => return Err(SinkFault),
        }
    }
    Ok(())
}
