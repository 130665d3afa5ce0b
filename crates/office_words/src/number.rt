//! Numbers in decimal digits.
ghost use Rattle.std.specs.Prelude.{◌≡◌};
ghost use Rattle.std.specs.Char.{is_ascii_digit};
ghost use Rattle.std.specs.List.{list_all};
ghost use Rattle.office_words.specs.Numbers.{is_number, number_up_to};

/// The number up to `most` that digits write, without a sign or a needless leading zero. None where the
/// text is not one.
pub(crate) fn number_up_to(most: u64, text: &str) -> Option<u64>
    ensures { result ≡ number_up_to most text.now }
{
    if !is_number(text.as_bytes()) {
        return None;
    }
    match text.parse::<u64>() {
        Ok(number) => (number <= most).then_some(number),
        Err(_) => None,
    }
}

// Whether there are digits alone, one or more, the first no 0 unless it is alone.
#[tactic(auto, using(crate::proofs::Numerals::number_begins))]
fn is_number(bytes: &[u8]) -> bool
    ensures { result ≡ is_number bytes.now }
{
    match bytes {
        [] => false,
        [first, ..] => are_digits(bytes) && (*first != b'0' || bytes.len() == 1),
    }
}

// Whether each byte is a digit.
fn are_digits(bytes: &[u8]) -> bool
    ensures { result ≡ list_all is_ascii_digit bytes.now }
{
    bytes.iter().all(|b| b.is_ascii_digit())
}
