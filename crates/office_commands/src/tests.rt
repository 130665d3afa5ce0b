//! Lines that are commands, with what they tell, and lines that are none.

use super::*;
use ali_base::NodeName;
use audit_reports::Report;
use office_entry::Edit;

// What a line tells; of an edit that retires a range, its editor, its serial and the range.
#[derive(Clone, Copy, Debug, PartialEq, Eq)]
enum Told {
    Ask(NodeName, u32, [u8; 10], u32),
    Report(NodeName, Report),
    File(u32),
    Retire(u8, u32, u32),
    Write(NodeName),
    Next,
    Batch,
    CatchUp,
    Order(Order),
}

// What this line tells. None where no command has it, and of other edits.
fn read(line: &[u8]) -> Option<Told> {
    match CommandLine::read(line)? {
        CommandLine::Ask(ask) => {
            Some(Told::Ask(ask.node, ask.position, ask.tn.text(), ask.since))
        }
        CommandLine::Report { node, report } => Some(Told::Report(node, report)),
        CommandLine::File(len) => Some(Told::File(len)),
        CommandLine::Edit {
            editor,
            serial,
            edit,
        } => match edit {
            Edit::Retire { id } => Some(Told::Retire(editor.number(), serial.number(), id)),
            _ => None,
        },
        CommandLine::Write(node) => Some(Told::Write(node)),
        CommandLine::Next => Some(Told::Next),
        CommandLine::Batch => Some(Told::Batch),
        CommandLine::CatchUp => Some(Told::CatchUp),
        CommandLine::Order(order) => Some(Told::Order(order)),
    }
}

const COMMANDS: [(&[u8], Told); 16] = [
    (
        b"ASK a 1 3035550100 0",
        Told::Ask(NodeName::A, 1, *b"3035550100", 0),
    ),
    (
        b"ASK b 64 0000000000 4294967295",
        Told::Ask(NodeName::B, 64, *b"0000000000", 4_294_967_295),
    ),
    (b"REPORT a STATS", Told::Report(NodeName::A, Report::Stats)),
    (
        b"REPORT a RANGE 0",
        Told::Report(NodeName::A, Report::InRange(0)),
    ),
    (
        b"REPORT b CODE 999",
        Told::Report(NodeName::B, Report::Code(999)),
    ),
    (b"FILE 0", Told::File(0)),
    (b"FILE 512", Told::File(512)),
    (b"FILE 16777216", Told::File(16_777_216)),
    (b"EDIT 1 1 RETIRE 0", Told::Retire(1, 1, 0)),
    (b"EDIT 2 10 RETIRE 7", Told::Retire(2, 10, 7)),
    (
        b"EDIT 64 999999999 RETIRE 4294967295",
        Told::Retire(64, 999_999_999, 4_294_967_295),
    ),
    (b"WRITE a", Told::Write(NodeName::A)),
    (b"WRITE b", Told::Write(NodeName::B)),
    (b"NEXT", Told::Next),
    (b"BATCH", Told::Batch),
    (b"CATCHUP", Told::CatchUp),
];

const ORDERS: [(&[u8], Order); 16] = [
    (b"BOOK", Order::Book),
    (
        b"SHIP a 1",
        Order::Ship {
            node: NodeName::A,
            number: 1,
        },
    ),
    (
        b"SHIP b 20",
        Order::Ship {
            node: NodeName::B,
            number: 20,
        },
    ),
    (
        b"SHIP b 4294967295",
        Order::Ship {
            node: NodeName::B,
            number: 4_294_967_295,
        },
    ),
    (b"DELIVER 1", Order::Deliver(1)),
    (b"DELIVER 4294967295", Order::Deliver(4_294_967_295)),
    (b"TAKE a", Order::Take(NodeName::A)),
    (b"TAKE b", Order::Take(NodeName::B)),
    (b"ALONE", Order::Alone),
    (b"PAIR", Order::Pair),
    (b"STOP a", Order::Stop(NodeName::A)),
    (b"STOP b", Order::Stop(NodeName::B)),
    (b"START a", Order::Start(NodeName::A)),
    (b"START b", Order::Start(NodeName::B)),
    (b"START duty", Order::StartDuty),
    (b"STATUS", Order::Status),
];

#[test]
fn commands_are_read(rt: HostRuntime) {
    for (line, tells) in COMMANDS {
        assert_eq!(rt; read(line), Some(tells));
    }
}

#[test]
fn orders_are_read(rt: HostRuntime) {
    for (line, order) in ORDERS {
        assert_eq!(rt; read(line), Some(Told::Order(order)));
    }
}

const NO_COMMANDS: [&[u8]; 62] = [
    b"",
    b" ",
    b"a",
    b"HELLO",
    b"next",
    b"NEXT ",
    b" NEXT",
    b"NEXT a",
    b"NEXT\n",
    b"NEXT\r",
    b"NEXTBATCH",
    b"BATCH 1",
    b"BATC",
    b"CATCHUP a",
    b"CATCH UP",
    b"ASK",
    b"ASK a",
    b"ASK a 1 3035550100",
    b"ASK 1 3035550100 0",
    b"ask a 1 3035550100 0",
    b"ASK A 1 3035550100 0",
    b"ASK c 1 3035550100 0",
    b"ASK ab 1 3035550100 0",
    b"ASK a 0 3035550100 0",
    b"ASK a 65 3035550100 0",
    b"ASK a 01 3035550100 0",
    b"ASK a +1 3035550100 0",
    b"ASK a 1 303555010 0",
    b"ASK a 1 30355501000 0",
    b"ASK a 1 303555010O 0",
    b"ASK a 1 3035550100 00",
    b"ASK a 1 3035550100 -1",
    b"ASK a 1 3035550100 4294967296",
    b"ASK a 1 3035550100 0 ",
    b"ASK a 1 3035550100 0 0",
    b"ASK a  1 3035550100 0",
    b"ASK  a 1 3035550100 0",
    b"REPORT",
    b"REPORT a",
    b"REPORT a ",
    b"REPORT STATS",
    b"REPORT c STATS",
    b"REPORT a stats",
    b"REPORT a STATS ",
    b"REPORT a CODE 1000",
    b"FILE",
    b"FILE ",
    b"FILE 00",
    b"FILE 16777217",
    b"FILE 4294967296",
    b"EDIT 0 1 RETIRE 1",
    b"EDIT 65 1 RETIRE 1",
    b"EDIT 257 1 RETIRE 1",
    b"EDIT 1 0 RETIRE 1",
    b"EDIT 1 1000000000 RETIRE 1",
    b"EDIT 1 RETIRE 1",
    b"EDIT 1 1 retire 1",
    b"EDIT 1 1 RETIRE 1 ",
    b"WRITE",
    b"WRITE ",
    b"WRITE c",
    b"WRITE a b",
];

const NO_ORDERS: [&[u8]; 41] = [
    b"BOOK ",
    b"BOOK a",
    b"book",
    b"BOOKS",
    b"SHIP",
    b"SHIP a",
    b"SHIP 1",
    b"SHIP a ",
    b"SHIP a 0",
    b"SHIP a 01",
    b"SHIP a -1",
    b"SHIP a b",
    b"SHIP c 1",
    b"SHIP a 1 ",
    b"SHIP a  1",
    b"SHIP a 4294967296",
    b"DELIVER",
    b"DELIVER ",
    b"DELIVER 0",
    b"DELIVER 01",
    b"DELIVER a",
    b"DELIVER 1 1",
    b"DELIVER 4294967296",
    b"TAKE",
    b"TAKE ",
    b"TAKE c",
    b"TAKE duty",
    b"TAKE a 1",
    b"ALONE a",
    b"PAIR ",
    b"STOP",
    b"STOP c",
    b"STOP duty",
    b"STOP a ",
    b"START",
    b"START ",
    b"START c",
    b"START  a",
    b"START DUTY",
    b"START duty ",
    b"STATUS a",
];

#[test]
fn other_lines_are_no_command(rt: HostRuntime) {
    for line in NO_COMMANDS {
        assert!(rt; CommandLine::read(line).is_none());
    }
}

#[test]
fn other_lines_are_no_order(rt: HostRuntime) {
    for line in NO_ORDERS {
        assert!(rt; CommandLine::read(line).is_none());
    }
}
