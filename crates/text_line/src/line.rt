//! A line of words.
ghost use Rattle.std.specs.Prelude.{◌≡◌, ℕ, ◌+◌, ◌≤◌, List, [], ◌∷◌, ◌++◌, length};
ghost use Rattle.std.specs.Fmt.{decimal};
ghost use Rattle.hex.specs.Hex.{encode_lower};
ghost use Rattle.ali_base.specs.Columns.{is_empty};
ghost use Rattle.text_line.specs.WordLines.{with_word};

use itoa::Buffer;
use std::marker::Model;

/// A line, or the beginning of one: up to 160 bytes.
#[derive(Drop)]
pub struct Line {
    bytes: [u8; 160],
    len: usize,
}

impl Model for Line {
    ghost use Rattle.std.specs.Prelude.{ℕ, ◌≤◌, List, take};

    ghost Value = { List ℕ };

    ghost view = { λ l. take l.len l.bytes };

    ghost invariant = { λ l. l.len ≤ 160 };
}

impl Line {
    /// No bytes.
    pub fn new() -> Self
        ensures { result ≡ [] }
    {
        Line {
            bytes: [0; 160],
            len: 0,
        }
    }

    /// The bytes so far, 160 at most.
    pub fn bytes(&self) -> &[u8]
        ensures same { result.now ≡ self.now }
        ensures limit { length result.now ≤ 160 }
    {
        &self.bytes[..self.len]
    }

    /// Adds a word, after a space where there is something before it; an empty word is left out.
    pub fn add_word(&mut self, word: &[u8])
        requires { length self.old + 1 + length word.now ≤ 160 }
        ensures line { self.new ≡ with_word self.old word.now }
        ensures len { length self.new ≤ length self.old + 1 + length word.now }
    {
        if is_empty(word) {
            return;
        }
        if !is_empty(self.bytes()) {
            self.push(b" ");
        }
        self.push(word);
    }

    /// Adds a number as a word.
    pub fn add_number(&mut self, number: u64)
        requires { length self.old + 21 ≤ 160 }
        ensures line { self.new ≡ with_word self.old (decimal number) }
        ensures len { length self.new ≤ length self.old + 21 }
    {
        let mut buffer = Buffer::new();
        self.add_word(buffer.format(number).as_bytes());
    }

    /// Adds a digest as a word: 64 lower-case hexadecimal digits.
    pub fn add_digest(&mut self, digest: &[u8; 32])
        requires { length self.old + 65 ≤ 160 }
        ensures line { self.new ≡ with_word self.old (encode_lower digest.now) }
        ensures len { length self.new ≤ length self.old + 65 }
    {
        let mut digits = [0; 64];
        match hex::encode_to_slice(digest, &mut digits) {
            Ok(()) => self.add_word(&digits),
            Err(_) => unreachable!(),
        }
    }

    /// Ends the line.
    pub fn end(&mut self)
        requires { length self.old + 1 ≤ 160 }
        ensures { self.new ≡ self.old ++ 10 ∷ [] }
    {
        self.push(b"\n");
    }

    // Adds a text at the end.
    fn push(&mut self, text: &[u8])
        requires { length self.old + length text.now ≤ 160 }
        ensures { self.new ≡ self.old ++ text.now }
    {
        let end = self.len + text.len();
        self.bytes[self.len..end].copy_from_slice(text);
        self.len = end;
    }
}

// Whether there is nothing.
fn is_empty(bytes: &[u8]) -> bool
    ensures { result ≡ is_empty bytes.now }
{
    match bytes {
        [] => true,
        _ => false,
    }
}
