//! The line of a command.
ghost use Rattle.std.specs.Prelude.{◌≡◌, ◌<◌, length, IfSome};
ghost use Rattle.office_commands.specs.LineReading as reading;
ghost use Rattle.office_commands.specs.LineReading.{line_of};

use crate::command::{Ask, FILE_LIMIT, POSITIONS};
use crate::order::Order;
use ali_base::{EDITORS, Editor, NodeName, Serial, Tn};
use audit_reports::Report;
use office_entry::Edit;
use text_line::{number_of, split_once};

/// What the line of a command tells.
#[derive(Clone, Copy, Debug)]
pub enum CommandLine {
    /// `ASK node position tn since`
    Ask(Ask),
    /// `REPORT node report`
    Report {
        node: NodeName,
        report: Report,
    },
    /// `FILE length`: so many bytes of a carrier's file follow.
    File(u32),
    /// `EDIT editor serial edit`
    Edit {
        editor: Editor,
        serial: Serial,
        edit: Edit,
    },
    /// `WRITE node`
    Write(NodeName),
    /// `NEXT`
    Next,
    /// `BATCH`
    Batch,
    /// `CATCHUP`
    CatchUp,
    /// `BOOK`, `SHIP node number`, `DELIVER message`, `TAKE node`, `ALONE`, `PAIR`, `STOP node`,
    /// `START node`, `START duty` and `STATUS`
    Order(Order),
}

impl CommandLine {
    /// The line with this text, without its end. None where no command has it.
    #[tactic(auto, unfolding(crate::specs::LineReading::line_of))]
    pub fn read(line: &[u8]) -> Option<Self>
        ensures line { result ≡ line_of line.now }
        ensures some { IfSome result (λ read. 0 < length line.now) }
    {
        match split_once(line, b' ') {
            Some((word, words)) => by_word(word, words),
            None => word_alone(line),
        }
    }
}

// A word alone.
fn word_alone(word: &[u8]) -> Option<CommandLine>
    ensures line { result ≡ reading.word_alone word.now }
    ensures some { IfSome result (λ read. 0 < length word.now) }
{
    if word == b"NEXT".as_slice() {
        Some(CommandLine::Next)
    } else if word == b"BATCH".as_slice() {
        Some(CommandLine::Batch)
    } else if word == b"CATCHUP".as_slice() {
        Some(CommandLine::CatchUp)
    } else if word == b"BOOK".as_slice() {
        Some(CommandLine::Order(Order::Book))
    } else if word == b"ALONE".as_slice() {
        Some(CommandLine::Order(Order::Alone))
    } else if word == b"PAIR".as_slice() {
        Some(CommandLine::Order(Order::Pair))
    } else if word == b"STATUS".as_slice() {
        Some(CommandLine::Order(Order::Status))
    } else {
        None
    }
}

// A word, and the words behind it.
fn by_word(word: &[u8], words: &[u8]) -> Option<CommandLine>
    ensures { result ≡ reading.by_word word.now words.now }
{
    if word == b"ASK".as_slice() {
        ask_of(words)
    } else if word == b"REPORT".as_slice() {
        report_of(words)
    } else if word == b"FILE".as_slice() {
        file_of(words)
    } else if word == b"EDIT".as_slice() {
        edit_of(words)
    } else if word == b"WRITE".as_slice() {
        write_of(words)
    } else {
        order_by_word(word, words)
    }
}

// The same of an order to the nodes.
fn order_by_word(word: &[u8], words: &[u8]) -> Option<CommandLine>
    ensures { result ≡ reading.order_by_word word.now words.now }
{
    if word == b"SHIP".as_slice() {
        ship_of(words)
    } else if word == b"DELIVER".as_slice() {
        deliver_of(words)
    } else if word == b"TAKE".as_slice() {
        take_of(words)
    } else if word == b"STOP".as_slice() {
        stop_of(words)
    } else if word == b"START".as_slice() {
        start_of(words)
    } else {
        None
    }
}

// Behind `ASK`: `node position tn since`
#[tactic(auto, unfolding(crate::specs::LineReading::ask_of))]
fn ask_of(words: &[u8]) -> Option<CommandLine>
    ensures { result ≡ reading.ask_of words.now }
{
    let (node, rest) = split_once(words, b' ')?;
    let (position, rest) = split_once(rest, b' ')?;
    let (tn, since) = split_once(rest, b' ')?;
    let node = NodeName::read(node)?;
    let position = number_of(position)?;
    let tn = Tn::read(tn)?;
    let since = number_of(since)?;
    if position < 1 || position > POSITIONS {
        return None;
    }
    Some(CommandLine::Ask(Ask {
        node,
        position,
        tn,
        since,
    }))
}

// Behind `REPORT`: `node report`
#[tactic(auto, unfolding(crate::specs::LineReading::report_of))]
fn report_of(words: &[u8]) -> Option<CommandLine>
    ensures { result ≡ reading.report_of words.now }
{
    let (node, report) = split_once(words, b' ')?;
    let node = NodeName::read(node)?;
    let report = Report::read_text(report)?;
    Some(CommandLine::Report { node, report })
}

// Behind `FILE`: `length`, at most 16,777,216
#[tactic(auto, unfolding(crate::specs::LineReading::file_of))]
fn file_of(words: &[u8]) -> Option<CommandLine>
    ensures { result ≡ reading.file_of words.now }
{
    let len = number_of(words)?;
    if len > FILE_LIMIT {
        return None;
    }
    Some(CommandLine::File(len))
}

// Behind `EDIT`: `editor serial edit`
#[tactic(auto, unfolding(crate::specs::LineReading::edit_of))]
fn edit_of(words: &[u8]) -> Option<CommandLine>
    ensures { result ≡ reading.edit_of words.now }
{
    let (editor, rest) = split_once(words, b' ')?;
    let (serial, edit) = split_once(rest, b' ')?;
    let editor = number_of(editor)?;
    let serial = number_of(serial)?;
    let edit = Edit::read_text(edit)?;
    if editor > u32::from(EDITORS) {
        return None;
    }
    Some(CommandLine::Edit {
        editor: Editor::new(editor as u8)?,
        serial: Serial::new(serial)?,
        edit,
    })
}

// Behind `WRITE`: `node`
#[tactic(auto, unfolding(crate::specs::LineReading::write_of))]
fn write_of(words: &[u8]) -> Option<CommandLine>
    ensures { result ≡ reading.write_of words.now }
{
    let node = NodeName::read(words)?;
    Some(CommandLine::Write(node))
}

// Behind `SHIP`: `node number`
#[tactic(auto, unfolding(crate::specs::LineReading::ship_of))]
fn ship_of(words: &[u8]) -> Option<CommandLine>
    ensures { result ≡ reading.ship_of words.now }
{
    let (node, number) = split_once(words, b' ')?;
    let node = NodeName::read(node)?;
    let number = number_of(number)?;
    if number < 1 {
        return None;
    }
    Some(CommandLine::Order(Order::Ship { node, number }))
}

// Behind `DELIVER`: `message`
#[tactic(auto, unfolding(crate::specs::LineReading::deliver_of))]
fn deliver_of(words: &[u8]) -> Option<CommandLine>
    ensures { result ≡ reading.deliver_of words.now }
{
    let message = number_of(words)?;
    if message < 1 {
        return None;
    }
    Some(CommandLine::Order(Order::Deliver(message)))
}

// Behind `TAKE`: `node`
#[tactic(auto, unfolding(crate::specs::LineReading::take_of))]
fn take_of(words: &[u8]) -> Option<CommandLine>
    ensures { result ≡ reading.take_of words.now }
{
    let node = NodeName::read(words)?;
    Some(CommandLine::Order(Order::Take(node)))
}

// Behind `STOP`: `node`
#[tactic(auto, unfolding(crate::specs::LineReading::stop_of))]
fn stop_of(words: &[u8]) -> Option<CommandLine>
    ensures { result ≡ reading.stop_of words.now }
{
    let node = NodeName::read(words)?;
    Some(CommandLine::Order(Order::Stop(node)))
}

// Behind `START`: `node`, or `duty`
#[tactic(auto, unfolding(crate::specs::LineReading::start_of))]
fn start_of(words: &[u8]) -> Option<CommandLine>
    ensures { result ≡ reading.start_of words.now }
{
    if words == b"duty".as_slice() {
        return Some(CommandLine::Order(Order::StartDuty));
    }
    let node = NodeName::read(words)?;
    Some(CommandLine::Order(Order::Start(node)))
}
