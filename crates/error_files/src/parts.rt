//! The records of an error file.
ghost use Rattle.std.specs.Prelude.{◌≡◌, ◌++◌, ◌<◌, ◌≤◌, ◌+◌, ◌-◌, ◌^◌, length, take};
ghost use Rattle.ali_base.specs.Numbers.{zero_padded};
ghost use Rattle.ali_base.specs.WholePuts.{Puts};
ghost use Rattle.batch_frame.specs.CarrierFile.{separator_bytes};
ghost use Rattle.error_files.specs.ErrorFile.{overwritten, refused_record, counted_trailer};

use ali_base::{Sink, SinkFault, put_all, write_zero_padded};
use batch_frame::Separator;

/// A record with the last three digits of its code.
pub fn refused_record(bytes: &[u8; 512], code: u16) -> [u8; 512]
    ensures { result ≡ refused_record bytes.now code }
{
    overwritten(bytes, 509, 511, u32::from(code) % 1_000)
}

/// A trailer with this count.
pub fn counted_trailer(bytes: &[u8; 512], count: u32) -> [u8; 512]
    requires { count < 10 ^ 9 }
    ensures { result ≡ counted_trailer bytes.now count }
{
    overwritten(bytes, 15, 23, count)
}

// A record with this number over its columns `from` to `to`, with zeros before it.
fn overwritten(bytes: &[u8; 512], from: usize, to: usize, number: u32) -> [u8; 512]
    requires columns { (1 ≤ from) × (from ≤ to) × (to ≤ 512) }
    requires room { number < 10 ^ (to + 1 - from) }
    ensures { result ≡ overwritten bytes.now from to (zero_padded (to + 1 - from) number) }
{
    let mut changed = *bytes;
    write_zero_padded(&mut changed[from - 1..to], number);
    changed
}

/// Puts a record and the separator behind it, as one piece.
pub fn put_record<K: Sink>(
    sink: &mut K,
    bytes: &[u8; 512],
    separator: Separator,
) -> Result<(), SinkFault>
    ensures put { Puts K.contents K.faults sink.old sink.new
        (bytes.now ++ separator_bytes separator) result }
{
    let mut piece = [0; 514];
    let end = write_text(&mut piece, 0, bytes);
    let end = write_text(&mut piece, end, separator.bytes());
    put_all(sink, &piece[..end])
}

// Writes a text after the first `at` bytes of a piece, and answers where it ends.
fn write_text(piece: &mut [u8; 514], at: usize, text: &[u8]) -> usize
    requires { at + length text.now ≤ 514 }
    ensures text { take result piece.new ≡ take at piece.old ++ text.now }
    ensures end { result ≡ at + length text.now }
{
    let end = at + text.len();
    piece[at..end].copy_from_slice(text);
    end
}
