//! What the words of the command line say.
ghost use Rattle.std.specs.Prelude.{◌≡◌, true, IfOk, IsErr};
ghost use Rattle.office_words.specs.Words.{form_of, is_format, is_generate, is_run, is_word, texts};

use crate::generate::read_generate;
use ali_base::NoMemory;
use std::alloc::Global;

/// The most records that a script is generated of.
pub const MOST_RECORDS: u32 = 50_000;

/// What the program is told to do.
#[derive(Clone, Copy, Debug, PartialEq, Eq)]
pub enum Form {
    /// Runs a script.
    Run,
    /// Formats the disks.
    Format,
    /// Runs the generated script of this seed, with so many records.
    Generate { seed: u64, count: u32 },
}

/// What the words after the program's name say: `run DIR`, `format DIR` or `generate DIR SEED COUNT`, where
/// SEED is a number below 2^64 and COUNT one from 1 to `MOST_RECORDS`. None where they are none of these.
pub fn read_words(alloc: Global, words: &[&str]) -> Result<Option<Form>, NoMemory>
    ensures form { IfOk result (λ form. form ≡ form_of (texts words.now)) }
    // want of memory comes of `generate` and three words more alone, none of them empty or with `-` in front
    ensures memory { IsErr result → is_generate (texts words.now) ≡ true }
{
    if is_run(words) {
        return Ok(Some(Form::Run));
    }
    if is_format(words) {
        return Ok(Some(Form::Format));
    }
    if is_generate(words) {
        return read_generate(alloc, words);
    }
    Ok(None)
}

// Whether a word is not empty and does not begin with `-`.
fn is_word(text: &str) -> bool
    ensures { result ≡ is_word text.now }
{
    match text.as_bytes() {
        [] => false,
        [first, ..] => *first != b'-',
    }
}

// Whether the words are `run DIR`.
fn is_run(words: &[&str]) -> bool
    ensures { result ≡ is_run (texts words.now) }
{
    match words {
        [first, dir] => *first == "run" && is_word(dir),
        _ => false,
    }
}

// Whether the words are `format DIR`.
fn is_format(words: &[&str]) -> bool
    ensures { result ≡ is_format (texts words.now) }
{
    match words {
        [first, dir] => *first == "format" && is_word(dir),
        _ => false,
    }
}

// Whether the words are `generate` and three more.
fn is_generate(words: &[&str]) -> bool
    ensures { result ≡ is_generate (texts words.now) }
{
    match words {
        [first, dir, seed, count] => {
            *first == "generate" && is_word(dir) && is_word(seed) && is_word(count)
        }
        _ => false,
    }
}
