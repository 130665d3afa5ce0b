//! Numbers and names of the generated records.
ghost use Rattle.std.specs.Prelude.{◌≡◌, ◌<◌, ◌≤◌, ◌+◌, ◌^◌, ◌∷◌, ◌++◌, length};
ghost use Rattle.std.specs.Fmt.{decimal};
ghost use Rattle.generated_script.specs.GeneratedScript.{number_of};

use ali_base::{Tn, write_zero_padded};
use text_line::Line;

/// The number of record `i`.
pub(crate) fn number_of(i: u32) -> Tn
    requires { i < 10 ^ 9 }
    ensures { result ≡ number_of i }
{
    let mut digits = [b'3'; 10];
    write_zero_padded(&mut digits[1..], i);
    match Tn::read(&digits) {
        Some(number) => number,
        None => unreachable!(),
    }
}

/// A word with a number behind it.
pub(crate) fn numbered(word: &[u8], number: u32) -> Line
    requires { (0 < length word.now) × (length word.now ≤ 20) }
    ensures text { result ≡ word.now ++ 32 ∷ decimal number }
    ensures len { length result ≤ length word.now + 22 }
{
    let mut line = Line::new();
    line.add_word(word);
    line.add_number(u64::from(number));
    line
}
