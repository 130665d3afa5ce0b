//! The ESN that a record was sent with.
ghost use Rattle.std.specs.Prelude.{◌≡◌};
ghost use Rattle.std.specs.Str.{bytes_eq};
ghost use Rattle.std.specs.Fmt.{decimal};
ghost use Rattle.address_check.specs.Placement.{esn_agrees, zeros_cut};

use ali_base::{Esn, front_trimmed, is_blank, trimmed};
use itoa::Buffer;

/// Whether the columns of an ESN are blank, or are the digits of this one once spaces at either end
/// and then leading zeros are cut.
pub fn agrees(field: &[u8], esn: Esn) -> bool
    ensures { result ≡ esn_agrees field.now esn }
{
    is_blank(field) || are_digits_of(zeros_cut(trimmed(front_trimmed(field))), esn)
}

// Whether the text is the decimal number.
fn are_digits_of(text: &[u8], esn: Esn) -> bool
    ensures { result ≡ bytes_eq text.now (decimal esn) }
{
    let mut buffer = Buffer::new();
    text == buffer.format(esn.number()).as_bytes()
}

// Without the zeros at the front.
fn zeros_cut(text: &[u8]) -> &[u8]
    ensures { result.now ≡ zeros_cut text.now }
{
    let mut rest = text;
    while let [b'0', behind @ ..] = rest {
        rest = behind;
    }
    rest
}
