//! Columns of a text, the spaces in them, and the numbers that they spell.
ghost use Rattle.std.specs.Prelude.{◌≡◌, ◌+◌, ◌^◌, ◌<◌, ◌≤◌, length, IfSome};
ghost use Rattle.std.specs.List.{list_all};
ghost use Rattle.ali_base.specs.Columns.{columns, is_printable, trimmed, front_trimmed, is_blank};
ghost use Rattle.ali_base.specs.Digits.{digits_number};

/// The bytes in columns `from` to `to`, counted from 1.
pub fn columns(bytes: &[u8], from: usize, to: usize) -> &[u8]
    requires { (1 ≤ from) × (from ≤ to + 1) × (to ≤ length bytes.now) }
    ensures value { result.now ≡ columns bytes.now from to }
    ensures len { length result.now + from ≡ to + 1 }
{
    &bytes[from - 1..to]
}

/// Whether each byte is one from the space to the tilde.
pub fn is_printable(bytes: &[u8]) -> bool
    ensures { result ≡ list_all is_printable bytes.now }
{
    bytes.iter().all(|b| 0x20 <= *b && *b <= 0x7e)
}

/// Without the spaces at the end.
pub fn trimmed(bytes: &[u8]) -> &[u8]
    ensures value { result.now ≡ trimmed bytes.now }
    ensures len { length result.now ≤ length bytes.now }
{
    let mut rest = bytes;
    while let [front @ .., last] = rest {
        if *last != b' ' {
            return rest;
        }
        rest = front;
    }
    rest
}

/// Without the spaces at the front.
pub fn front_trimmed(bytes: &[u8]) -> &[u8]
    ensures value { result.now ≡ front_trimmed bytes.now }
    ensures len { length result.now ≤ length bytes.now }
{
    let mut rest = bytes;
    while let [b' ', behind @ ..] = rest {
        rest = behind;
    }
    rest
}

/// Whether there is nothing but spaces.
pub fn is_blank(bytes: &[u8]) -> bool
    ensures { result ≡ is_blank bytes.now }
{
    match trimmed(bytes) {
        [] => true,
        _ => false,
    }
}

/// The number that digits spell, leading zeros allowed; no digits spell 0. None where a byte is no
/// digit.
#[tactic(auto, unfolding(crate::specs::Digits::digits_number))]
pub fn digits_number(bytes: &[u8]) -> Option<u64>
    requires { length bytes.now ≤ 19 }
    ensures value { result ≡ digits_number bytes.now }
    ensures limit { IfSome result (λ n. n < 10 ^ length bytes.now) }
{
    let mut value: u64 = 0;
    for b in bytes {
        if !b.is_ascii_digit() {
            return None;
        }
        value = value * 10 + u64::from(*b - b'0');
    }
    Some(value)
}
