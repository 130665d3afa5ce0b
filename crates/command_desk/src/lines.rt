//! The lines of replies, each of a few words.
ghost use Rattle.std.specs.Prelude.{◌≡◌, ◌≤◌, ◌+◌, ◌∷◌, [], length, codes};
ghost use Rattle.std.specs.Fmt.{decimal};
ghost use Rattle.text_line.specs.WordLines.{line_of, with_word};
ghost use Rattle.ali_base.specs.NodeNames.{node_text};
ghost use Rattle.command_machine.specs.ReplyText.{disk_text, mode_text, number_or};
ghost use Rattle.command_machine.specs.ReplyText.{told_line, number_line as number_text};
ghost use Rattle.command_machine.specs.ReplyText.{numbers_line as numbers_text};
ghost use Rattle.pair_core.specs.PairAnswers.{acked_told, delivered_told, report_told};
ghost use Rattle.world_rows.specs.Told as tells;

use ali_base::{DiskName, Duty, Mode, NodeName};
use pair_core::{Ack, Delivered, PairStatus};
use text_line::Line;

// The name of a disk, as a word.
fn add_disk(line: &mut Line, disk: DiskName)
    requires { length line.old ≤ 100 }
    ensures line { line.new ≡ with_word line.old (disk_text disk) }
    ensures len { length line.new ≤ length line.old + 5 }
{
    match disk {
        DiskName::A => line.add_word(b"a"),
        DiskName::B => line.add_word(b"b"),
        DiskName::Duty => line.add_word(b"duty"),
    }
}

/// Two words.
pub(crate) fn words_line(first: &[u8], second: &[u8]) -> Line
    requires { (length first.now ≤ 60) × (length second.now ≤ 60) }
    ensures { result ≡ line_of (first.now ∷ second.now ∷ []) }
{
    let mut line = Line::new();
    line.add_word(first);
    line.add_word(second);
    line.end();
    line
}

/// A word and a number.
pub(crate) fn number_line(word: &[u8], n: u32) -> Line
    requires { length word.now ≤ 60 }
    ensures { result ≡ number_text word.now n }
{
    let mut line = Line::new();
    line.add_word(word);
    line.add_number(u64::from(n));
    line.end();
    line
}

/// A word and two numbers.
pub(crate) fn numbers_line(word: &[u8], m: u32, n: u32) -> Line
    requires { length word.now ≤ 60 }
    ensures { result ≡ numbers_text word.now m n }
{
    let mut line = Line::new();
    line.add_word(word);
    line.add_number(u64::from(m));
    line.add_number(u64::from(n));
    line.end();
    line
}

/// `REPORT count len`
pub(crate) fn report_line(count: u32, len: usize) -> Line
    ensures { result ≡ numbers_text (codes "REPORT") count len }
{
    let mut line = Line::new();
    line.add_word(b"REPORT");
    line.add_number(u64::from(count));
    line.add_number(len as u64);
    line.end();
    line
}

/// A word and a disk.
pub(crate) fn disk_line(word: &[u8], disk: DiskName) -> Line
    requires { length word.now ≤ 60 }
    ensures { result ≡ line_of (word.now ∷ disk_text disk ∷ []) }
{
    let mut line = Line::new();
    line.add_word(word);
    add_disk(&mut line, disk);
    line.end();
    line
}

/// Two words and a number: `IN FLIGHT number`, `MESSAGES FULL limit`, `EPOCH END epoch`, `CAUGHT UP len`.
pub(crate) fn words_number_line(first: &[u8], second: &[u8], n: u32) -> Line
    requires { (length first.now ≤ 60) × (length second.now ≤ 60) }
    ensures { result ≡ line_of (first.now ∷ second.now ∷ decimal n ∷ []) }
{
    let mut line = Line::new();
    line.add_word(first);
    line.add_word(second);
    line.add_number(u64::from(n));
    line.end();
    line
}

/// Two words and two numbers: `NO ENTRY number len`, `NO MESSAGE number sent`, `HAVE END number made`,
/// `ACK END number epoch`.
pub(crate) fn words_numbers_line(first: &[u8], second: &[u8], m: u32, n: u32) -> Line
    requires { (length first.now ≤ 30) × (length second.now ≤ 30) }
    ensures { result ≡ line_of (first.now ∷ second.now ∷ decimal m ∷ decimal n ∷ []) }
{
    let mut line = Line::new();
    line.add_word(first);
    line.add_word(second);
    line.add_number(u64::from(m));
    line.add_number(u64::from(n));
    line.end();
    line
}

/// `OUT OF DUTY node epoch holder`
pub(crate) fn out_of_duty_line(node: NodeName, epoch: u32, holder: NodeName) -> Line
    ensures { result ≡ line_of
        (codes "OUT" ∷ codes "OF" ∷ codes "DUTY" ∷ node_text node ∷ decimal epoch ∷ node_text holder ∷ []) }
{
    let mut line = Line::new();
    line.add_word(b"OUT");
    line.add_word(b"OF");
    line.add_word(b"DUTY");
    line.add_word(&node.text());
    line.add_number(u64::from(epoch));
    line.add_word(&holder.text());
    line.end();
    line
}

/// `NOT PAIRED epoch holder`
pub(crate) fn not_paired_line(epoch: u32, holder: NodeName) -> Line
    ensures { result ≡ line_of (codes "NOT" ∷ codes "PAIRED" ∷ decimal epoch ∷ node_text holder ∷ []) }
{
    let mut line = Line::new();
    line.add_word(b"NOT");
    line.add_word(b"PAIRED");
    line.add_number(u64::from(epoch));
    line.add_word(&holder.text());
    line.end();
    line
}

/// `PAIRED epoch holder`
pub(crate) fn paired_line(epoch: u32, holder: NodeName) -> Line
    ensures { result ≡ line_of (codes "PAIRED" ∷ decimal epoch ∷ node_text holder ∷ []) }
{
    let mut line = Line::new();
    line.add_word(b"PAIRED");
    line.add_number(u64::from(epoch));
    line.add_word(&holder.text());
    line.end();
    line
}

/// `NOT IN STEP ended due`
pub(crate) fn not_in_step_line(ended: u32, due: u32) -> Line
    ensures { result ≡ line_of (codes "NOT" ∷ codes "IN" ∷ codes "STEP" ∷ decimal ended ∷ decimal due ∷ []) }
{
    let mut line = Line::new();
    line.add_word(b"NOT");
    line.add_word(b"IN");
    line.add_word(b"STEP");
    line.add_number(u64::from(ended));
    line.add_number(u64::from(due));
    line.end();
    line
}

/// A mode as a word.
fn add_mode(line: &mut Line, mode: Mode)
    requires { length line.old ≤ 100 }
    ensures line { line.new ≡ with_word line.old (mode_text mode) }
    ensures len { length line.new ≤ length line.old + 6 }
{
    match mode {
        Mode::Both => line.add_word(b"BOTH"),
        Mode::Alone => line.add_word(b"ALONE"),
    }
}

/// `DUTY epoch holder mode floor`
pub(crate) fn duty_line(duty: &Duty) -> Line
    ensures { result ≡ told_line (tells.On_duty duty.now) }
{
    let mut line = Line::new();
    line.add_word(b"DUTY");
    line.add_number(u64::from(duty.epoch));
    line.add_word(&duty.holder.text());
    add_mode(&mut line, duty.mode);
    line.add_number(u64::from(duty.floor));
    line.end();
    line
}

/// `STARTED duty epoch floor`
pub(crate) fn started_duty_line(duty: &Duty) -> Line
    ensures { result ≡ told_line (tells.Started_duty duty.now) }
{
    let mut line = Line::new();
    line.add_word(b"STARTED");
    line.add_word(b"duty");
    line.add_number(u64::from(duty.epoch));
    line.add_number(u64::from(duty.floor));
    line.end();
    line
}

/// A number as a word, or this word for none.
fn add_number_or(line: &mut Line, none: &[u8], n: Option<u32>)
    requires { (length line.old ≤ 130) × (length none.now ≤ 10) }
    ensures line { line.new ≡ with_word line.old (number_or none.now n) }
    ensures len { length line.new ≤ length line.old + 21 }
{
    match n {
        Some(n) => line.add_number(u64::from(n)),
        None => line.add_word(none),
    }
}

/// `STATUS epoch holder mode floor count flight len_a len_b`
pub(crate) fn status_line(status: &PairStatus) -> Line
    ensures { result ≡ told_line (report_told status.now) }
{
    let mut line = Line::new();
    line.add_word(b"STATUS");
    line.add_number(u64::from(status.duty.epoch));
    line.add_word(&status.duty.holder.text());
    add_mode(&mut line, status.duty.mode);
    line.add_number(u64::from(status.duty.floor));
    line.add_number(u64::from(status.count));
    add_number_or(&mut line, b"-", status.flight);
    add_number_or(&mut line, b"down", status.len_a);
    add_number_or(&mut line, b"down", status.len_b);
    line.end();
    line
}

/// What a delivery came to, and the number of the acknowledgement that it made.
pub(crate) fn delivered_line(delivered: &Delivered, made: u32) -> Line
    ensures { result ≡ told_line (delivered_told (delivered.now, made)) }
{
    match delivered {
        Delivered::Stale { epoch, known } => numbers_line(b"STALE", *epoch, *known),
        Delivered::Behind { len, number } => numbers_line(b"BEHIND", *len, *number),
        Delivered::Cut(number) => number_line(b"CUT", *number),
        Delivered::Stored(ack) => numbers_line(b"STORED", ack.number, made),
        Delivered::Have(ack) => numbers_line(b"HAVE", ack.number, made),
        Delivered::HaveEnd(ack) => words_numbers_line(b"HAVE", b"END", ack.number, made),
        Delivered::Acked(ack) => acked_line(ack),
    }
}

/// `ACK number epoch`, `ACK END number epoch`
fn acked_line(ack: &Ack) -> Line
    ensures { result ≡ told_line (acked_told ack.now.end ack.now) }
{
    if ack.end {
        words_numbers_line(b"ACK", b"END", ack.number, ack.epoch)
    } else {
        numbers_line(b"ACK", ack.number, ack.epoch)
    }
}

/// `DAMAGED disk frame`
pub(crate) fn damaged_line(disk: DiskName, frame: u32) -> Line
    ensures { result ≡ line_of (codes "DAMAGED" ∷ disk_text disk ∷ decimal frame ∷ []) }
{
    let mut line = Line::new();
    line.add_word(b"DAMAGED");
    add_disk(&mut line, disk);
    line.add_number(u64::from(frame));
    line.end();
    line
}

/// `STOPPED node`
pub(crate) fn stopped_line(node: NodeName) -> Line
    ensures { result ≡ line_of (codes "STOPPED" ∷ node_text node ∷ []) }
{
    let mut line = Line::new();
    line.add_word(b"STOPPED");
    line.add_word(&node.text());
    line.end();
    line
}

/// A word, a node and two numbers: `SHORT node have need`, `STARTED node len known`.
pub(crate) fn node_line(word: &[u8], node: NodeName, m: u32, n: u32) -> Line
    requires { length word.now ≤ 60 }
    ensures { result ≡ line_of (word.now ∷ node_text node ∷ decimal m ∷ decimal n ∷ []) }
{
    let mut line = Line::new();
    line.add_word(word);
    line.add_word(&node.text());
    line.add_number(u64::from(m));
    line.add_number(u64::from(n));
    line.end();
    line
}
