//! Reading words and numbers.
ghost use Rattle.std.specs.Prelude.{◌≡◌, ◌<◌, ◌==◌, length, option_map, IfSome};
ghost use Rattle.std.specs.List.{position};
ghost use Rattle.text_line.specs.WordReading.{number_of, split_once};

use ali_base::digits_number;

/// The number below 2^32 that decimal digits write, without a sign or a needless leading zero. None
/// where the bytes are not one.
#[tactic(auto, unfolding(crate::specs::WordReading::number_of))]
pub fn number_of(bytes: &[u8]) -> Option<u32>
    ensures { result ≡ number_of bytes.now }
{
    if bytes.is_empty() || bytes.len() > 10 || (bytes[0] == b'0' && bytes.len() != 1) {
        return None;
    }
    let value = digits_number(bytes)?;
    if value < 1 << 32 {
        Some(value as u32)
    } else {
        None
    }
}

/// The bytes before the first of this mark, and those after it. None where it is not there.
#[tactic(auto, unfolding(crate::specs::WordReading::split_once))]
pub fn split_once(bytes: &[u8], mark: u8) -> Option<(&[u8], &[u8])>
    ensures parts { option_map (λ x. (x.0.now, x.1.now)) result ≡ split_once mark bytes.now }
    ensures shorter { IfSome result (λ x. length x.1.now < length bytes.now) }
{
    let at = place_of(bytes, mark)?;
    Some((&bytes[..at], &bytes[at + 1..]))
}

// The place of the first byte that is this one.
fn place_of(bytes: &[u8], byte: u8) -> Option<usize>
    ensures place { result ≡ position (λ b. b == byte) bytes.now }
    ensures inside { IfSome result (λ at. at < length bytes.now) }
{
    bytes.iter().position(|b| *b == byte)
}
