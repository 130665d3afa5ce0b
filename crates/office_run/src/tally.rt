//! What is told of the generated script, counted: the lines that are refused, and the digest of the replies.
ghost use Rattle.std.specs.Prelude.{◌≡◌, ◌≤◌, ◌+◌, ◌^◌, ◌++◌, ℕ, List, [], ◌∷◌, codes, length};
ghost use Rattle.std.specs.Fmt.{decimal};
ghost use Rattle.ali_base.specs.WholePuts.{Puts};
ghost use Rattle.command_desk.specs.RefusedLines.{refused_lines};
ghost use Rattle.command_machine.specs.Replies.{Reply};
ghost use Rattle.command_machine.specs.ReplyText.{text_of};
ghost use Rattle.hex.specs.Hex.{encode_lower};
ghost use Rattle.office_run.specs.Generated.{summary};
ghost use Rattle.sha2.specs.Hashers.{Holds256};
ghost use Rattle.text_line.specs.WordLines.{line_of};

use ali_base::{Sink, SinkFault, put_all};
use sha2::{Digest, Sha256};
use text_line::Line;

/// Counts over replies.
#[derive(Drop)]
pub(crate) struct Tally {
    /// How many lines of carriers' files are told as refused.
    pub(crate) refused: u64,
    /// The text of the replies so far.
    pub(crate) replies: Sha256,
}

impl Tally {
    /// Of no replies.
    pub(crate) fn new() -> Self
        ensures refused { result.refused ≡ 0 }
        ensures replies { Holds256 result.replies [] }
    {
        Tally {
            refused: 0,
            replies: Sha256::new(),
        }
    }

    /// Counts one more: so many refused lines, and the text of its replies.
    pub(crate) fn add(&mut self, refused: u32, text: &[u8])
        requires { self.old.refused ≤ 2 ^ 60 }
        ensures refused { self.new.refused ≡ self.old.refused + refused }
        ensures replies { (before : List ℕ) → Holds256 self.old.replies before
            → Holds256 self.new.replies (before ++ text.now) }
    {
        self.refused += u64::from(refused);
        self.replies.update(text);
    }

    /// Puts the summary of so many commands, after which so many entries are booked.
    pub(crate) fn put<K: Sink>(
        self,
        commands: u32,
        booked: u32,
        sink: &mut K,
    ) -> Result<(), SinkFault>
        ensures { (told : List Reply) → self.refused ≡ refused_lines told → Holds256 self.replies (text_of told)
            → Puts K.contents K.faults sink.old sink.new (summary commands booked told) result }
    {
        put_all(sink, number_line(b"COMMANDS", u64::from(commands)).bytes())?;
        put_all(sink, number_line(b"BOOKED", u64::from(booked)).bytes())?;
        put_all(sink, number_line(b"REFUSED", self.refused).bytes())?;
        put_all(sink, digest_line(&self.replies.finalize()).bytes())
    }
}

// A word and a number.
fn number_line(word: &[u8], number: u64) -> Line
    requires { length word.now ≤ 20 }
    ensures { result ≡ line_of (word.now ∷ decimal number ∷ []) }
{
    let mut line = Line::new();
    line.add_word(word);
    line.add_number(number);
    line.end();
    line
}

// The digest of the replies.
fn digest_line(digest: &[u8; 32]) -> Line
    ensures { result ≡ line_of (codes "DIGEST" ∷ encode_lower digest.now ∷ []) }
{
    let mut line = Line::new();
    line.add_word(b"DIGEST");
    line.add_digest(digest);
    line.end();
    line
}
