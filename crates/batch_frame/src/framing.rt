//! The bytes of a file as whole records, each followed by the separator.
ghost use Rattle.std.specs.Prelude.{◌≡◌, ◌+◌, ◌*◌, ◌≤◌, ◌^◌, ◌<◌, length, None, Some, MatchResult};
ghost use Rattle.batch_frame.specs.CarrierFile.{separator_of, piece_size, record_at};
ghost use Rattle.batch_frame.specs.FrameFault.{length_fault, too_many_fault, separator_fault, is_followed, is_whole, found};

use crate::fault::{FrameFault, MOST_RECORDS};
use crate::separator::Separator;

/// The separator that follows the first record.
pub fn separator_of(bytes: &[u8]) -> Separator
    ensures { result ≡ separator_of bytes.now }
{
    match (bytes.get(512), bytes.get(513)) {
        (Some(b'\n'), _) => Separator::Lf,
        (Some(b'\r'), Some(b'\n')) => Separator::CrLf,
        _ => Separator::Bare,
    }
}

/// Whether the bytes are whole records, at least two.
#[tactic(auto, unfolding(crate::specs::FrameFault::length_fault))]
pub fn check_length(bytes: &[u8], separator: Separator) -> Result<(), FrameFault>
    requires { separator ≡ separator_of bytes.now }
    ensures { MatchResult result
        (λ _. length_fault bytes.now ≡ None)
        (λ fault. length_fault bytes.now ≡ Some fault) }
{
    if 1_024 <= bytes.len() && is_whole(separator, bytes.len()) {
        Ok(())
    } else {
        Err(FrameFault::Length(bytes.len() as u64))
    }
}

// Whether so many bytes are whole records with their separators.
fn is_whole(separator: Separator, len: usize) -> bool
    requires { len < 2 ^ 63 }
    ensures { result ≡ is_whole separator len }
{
    let size = separator.piece_size();
    len % size == 0 || (len + separator.bytes().len()) % size == 0
}

/// How many records stand between the header and the trailer.
#[tactic(auto, using(crate::proofs::Faults::whole), unfolding(crate::specs::FrameFault::too_many_fault))]
pub fn count_records(bytes: &[u8], separator: Separator) -> Result<u32, FrameFault>
    requires same { separator ≡ separator_of bytes.now }
    requires sound { length_fault bytes.now ≡ None }
    ensures { MatchResult result
        (λ count. (too_many_fault bytes.now ≡ None)
        × (count ≡ found bytes.now)
        × (count ≤ MOST_RECORDS))
        (λ fault. too_many_fault bytes.now ≡ Some fault) }
{
    let count = (bytes.len() + separator.bytes().len()) / separator.piece_size() - 2;
    if count <= MOST_RECORDS as usize {
        Ok(count as u32)
    } else {
        Err(FrameFault::TooMany(count as u64))
    }
}

/// Whether each record is followed by the separator.
#[tactic(auto, unfolding(crate::specs::FrameFault::separator_fault))]
pub fn check_separators(bytes: &[u8], separator: Separator) -> Result<(), FrameFault>
    requires same { separator ≡ separator_of bytes.now }
    requires few { length bytes.now < 2 ^ 30 }
    ensures { MatchResult result
        (λ _. separator_fault bytes.now ≡ None)
        (λ fault. separator_fault bytes.now ≡ Some fault) }
{
    let count = bytes.len() / separator.piece_size();
    for i in 0..count {
        if !is_followed(bytes, separator, i) {
            return Err(FrameFault::Separator(i as u32 + 1));
        }
    }
    Ok(())
}

// Whether record i, from 0, is followed by the separator.
fn is_followed(bytes: &[u8], separator: Separator, i: usize) -> bool
    requires { piece_size separator * (i + 1) ≤ length bytes.now }
    ensures { result ≡ is_followed separator bytes.now (i + 1) }
{
    let end = separator.piece_size() * i + 512;
    &bytes[end..end + separator.bytes().len()] == separator.bytes()
}

/// The record at this place, from 0.
pub fn record_at(bytes: &[u8], separator: Separator, place: usize) -> &[u8; 512]
    requires { piece_size separator * place + 512 ≤ length bytes.now }
    ensures { result.now ≡ record_at separator place bytes.now }
{
    let at = separator.piece_size() * place;
    match bytes[at..].first_chunk() {
        Some(found) => found,
        None => unreachable!(),
    }
}
