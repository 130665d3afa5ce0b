//! Numbers of fixed width.
ghost use Rattle.std.specs.Prelude.{◌≡◌, ◌-◌, ◌^◌, ◌<◌, ◌≤◌, ◌++◌, length, replicate, IfSome};
ghost use Rattle.ali_base.specs.Numbers.{fixed_number, zero_padded};

use crate::fields::digits_number;
use itoa::Buffer;

/// The number that exactly `width` digits write, where it lies from `low` to `high`.
#[tactic(auto, unfolding(crate::specs::Numbers::fixed_number))]
pub fn fixed_number(width: usize, low: u32, high: u32, bytes: &[u8]) -> Option<u32>
    requires { width ≤ 19 }
    ensures value { result ≡ fixed_number width low high bytes.now }
    ensures range { IfSome result (λ n. (low ≤ n) × (n ≤ high)) }
{
    if bytes.len() != width {
        return None;
    }
    let number = digits_number(bytes)?;
    if u64::from(low) <= number && number <= u64::from(high) {
        Some(number as u32)
    } else {
        None
    }
}

/// Writes the decimal number over all of `out`, with zeros before it.
pub fn write_zero_padded(out: &mut [u8], number: u32)
    requires some { 0 < length out.old }
    requires room { number < 10 ^ length out.old }
    ensures { out.new ≡ zero_padded (length out.old) number }
{
    let mut buffer = Buffer::new();
    write_right(out, buffer.format(number).as_bytes());
}

// Writes a text at the right, with zeros before it.
fn write_right(out: &mut [u8], text: &[u8])
    requires { length text.now ≤ length out.old }
    ensures { out.new ≡ replicate (length out.old - length text.now) 48 ++ text.now }
{
    let zeros = out.len() - text.len();
    out[..zeros].fill(b'0');
    out[zeros..].copy_from_slice(text);
}
