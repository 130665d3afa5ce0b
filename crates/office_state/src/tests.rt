//! Offices with small limits, against answers that were written down apart from them.

use crate::{ApplyFault, DueFault, Limits, Office, Tally, Verdict};
use ali_base::{Company, Cycle, Day, Editor, Serial, Tn};
use office_entry::{Edit, Entry};
use office_fixtures::{SentRecord, put};
use sequence_once::{CycleFault, Standing};
use std::alloc::Global;
use std::process::Abort;
use std::test::Fail;

// An entry of the tests. Files are of cycle 1.
#[derive(Clone, Copy, Debug)]
enum Sent {
    /// The edit, serial 1, that makes the even numbers 0 to 98 of MAIN ST a range.
    Street,
    /// Serial 2, which makes those of OAK ST one.
    Oak,
    /// Serial 1, but another edit.
    Retire,
    /// Serial 2, with an ESN that is none.
    NoEsn,
    /// Serial 3.
    Third,
    /// The opening of ABC01's file of so many lines.
    Open(u32),
    /// The opening of XYZ02's.
    OpenXyz,
    /// A line of ABC01's file that inserts 3035550100 plus so much, at house 0 of MAIN ST.
    Insert(u32, u8),
    /// A line with a record of XYZ02 in ABC01's file.
    Foreign(u32),
    /// A line that unlocks 3035550100.
    Unlock(u32),
}

// An edit of editor 1, by its text.
fn edit(serial: u32, text: &[u8]) -> Option<Entry> {
    Some(Entry::Edit {
        editor: Editor::new(1)?,
        serial: Serial::new(serial)?,
        edit: Edit::read_text(text)?,
    })
}

// The opening of a company's cycle 1.
fn opening(company: &[u8; 5], count: u32) -> Option<Entry> {
    Some(Entry::Open {
        company: Company::read(company)?,
        cycle: Cycle::new(1)?,
        count,
        day: Day::read(b"010224")?,
        digest: [7; 32],
    })
}

// A line of ABC01's cycle 1.
fn line(number: u32, bytes: &[u8; 512]) -> Option<Entry> {
    Some(Entry::Line {
        company: Company::read(b"ABC01")?,
        cycle: Cycle::new(1)?,
        line: number,
        bytes: *bytes,
    })
}

// The record that inserts 3035550100 plus so much.
fn inserted(more: u8) -> [u8; 512] {
    let mut bytes = SentRecord::new(b'I', b"3035550100", b"").bytes();
    bytes[10] = b'0'.saturating_add(more);
    bytes
}

// A record of another company.
fn foreign() -> [u8; 512] {
    let sent = SentRecord {
        company: b"XYZ02",
        ..SentRecord::new(b'I', b"3035550100", b"")
    };
    sent.bytes()
}

impl Sent {
    fn entry(self) -> Option<Entry> {
        match self {
            Sent::Street => edit(1, b"ADD DENVER|CO||MAIN|ST||0|98|E|101"),
            Sent::Oak => edit(2, b"ADD DENVER|CO||OAK|ST||0|98|E|101"),
            Sent::Retire => edit(1, b"RETIRE 1"),
            Sent::NoEsn => edit(2, b"SETESN 1 0"),
            Sent::Third => edit(3, b"RETIRE 7"),
            Sent::Open(count) => opening(b"ABC01", count),
            Sent::OpenXyz => opening(b"XYZ02", 2),
            Sent::Insert(number, more) => line(number, &inserted(more)),
            Sent::Foreign(number) => line(number, &foreign()),
            Sent::Unlock(number) => line(
                number,
                &SentRecord::new(b'U', b"3035550100", b"").bytes(),
            ),
        }
    }
}

// A call of an office.
#[derive(Clone, Copy, Debug)]
enum Call {
    Apply(Sent),
    Due(Sent),
    /// The standing of a company's file of cycle 1.
    Standing([u8; 5]),
    Clear,
    Look(Look),
}

// What is looked at.
#[derive(Clone, Copy, Debug)]
enum Look {
    /// How many entries, openings, lines and edits were booked.
    Booked,
    /// How many numbers, unlocked numbers, ranges and companies there are.
    Held,
    /// How often this code came.
    Code(u16),
    /// The codes of ABC01's cycle 1, at most three.
    Codes,
    /// How many lines that cycle has, and how many of the last cycle are told and noted.
    Counts,
    /// Whether the first kept cycle is ABC01's.
    FirstKept,
    /// Whether the row of 3035550100 is as it was sent, with its ESN.
    Stored,
    /// The last digits of the numbers of the first three rows, in their order.
    Rows,
    /// The last edit of editor 1.
    EditKept,
    NextId,
}

// What a call answers.
#[derive(Clone, Copy, Debug, PartialEq, Eq)]
enum Said {
    Verdict(u16, u64),
    NotDue(DueFault),
    /// The kept digest differs.
    Differs,
    NoMemory,
    Due,
    Stands(Result<Standing, CycleFault>),
    Four([u32; 4]),
    Number(u32),
    Codes([Option<u16>; 3]),
    Counts(Option<u32>, Option<(u32, u32)>),
    Is(Option<bool>),
    Rows([Option<u8>; 3]),
    Edit(Option<(u32, Verdict)>),
    Done,
}

fn not_due(fault: DueFault) -> Said {
    match fault {
        DueFault::Differs { .. } => Said::Differs,
        fault => Said::NotDue(fault),
    }
}

// What an entry gets that is applied to an office of few entries.
fn got(office: &mut Office, e: &Entry) -> Option<Said> {
    if office.entries() > 100 {
        return None;
    }
    Some(match office.apply(e) {
        Ok(verdict) => Said::Verdict(verdict.code, verdict.detail),
        Err(ApplyFault::NotDue(fault)) => not_due(fault),
        Err(ApplyFault::NoMemory) => Said::NoMemory,
    })
}

fn applied(office: &mut Office, sent: Sent) -> Option<Said> {
    match sent.entry() {
        Some(entry) => got(office, &entry),
        None => None,
    }
}

// Whether an entry may be booked next.
fn is_due(office: &Office, e: &Entry) -> Said {
    match office.due(e) {
        Ok(()) => Said::Due,
        Err(fault) => not_due(fault),
    }
}

fn due(office: &Office, sent: Sent) -> Option<Said> {
    match sent.entry() {
        Some(entry) => Some(is_due(office, &entry)),
        None => None,
    }
}

fn stands(office: &Office, company: &[u8; 5]) -> Option<Said> {
    let company = Company::read(company)?;
    Some(Said::Stands(office.standing(company, Cycle::new(1)?, &[7; 32])))
}

fn booked(tally: &Tally) -> Said {
    Said::Four([tally.entries, tally.opens, tally.lines, tally.edits])
}

fn held(tally: &Tally) -> Said {
    Said::Four([tally.numbers, tally.unlocked, tally.ranges, tally.companies])
}

fn codes(office: &Office) -> Option<Said> {
    let codes = office.codes(Company::read(b"ABC01")?, Cycle::new(1)?)?;
    Some(Said::Codes([
        codes.get(0).copied(),
        codes.get(1).copied(),
        codes.get(2).copied(),
    ]))
}

fn counts(office: &Office) -> Option<Said> {
    let abc = Company::read(b"ABC01")?;
    let last = match office.last(abc) {
        Some(last) => Some((last.count, last.noted)),
        None => None,
    };
    Some(Said::Counts(office.count(abc, Cycle::new(1)?), last))
}

fn first_kept(office: &Office) -> Option<Said> {
    let abc = Company::read(b"ABC01")?;
    Some(Said::Is(match office.kept(0) {
        Some(kept) => Some(kept.company == abc),
        None => None,
    }))
}

fn stored(office: &Office) -> Option<Said> {
    let mut bytes = inserted(0);
    put(&mut bytes, 226, b"00101");
    Some(Said::Is(match office.row(Tn::read(b"3035550100")?) {
        Some(row) => Some(row.rec.bytes() == &bytes),
        None => None,
    }))
}

fn rows(office: &Office) -> Said {
    let mut rows = office.rows_in_order();
    let mut digits = [None; 3];
    for digit in &mut digits {
        *digit = match rows.next() {
            Some(row) => Some(row.rec.tn().text()[9]),
            None => None,
        };
    }
    Said::Rows(digits)
}

fn looked(office: &Office, look: Look) -> Option<Said> {
    Some(match look {
        Look::Booked => booked(&office.tally()),
        Look::Held => held(&office.tally()),
        Look::Code(code) => Said::Number(office.tally().count_of(code)),
        Look::Codes => codes(office)?,
        Look::Counts => counts(office)?,
        Look::FirstKept => first_kept(office)?,
        Look::Stored => stored(office)?,
        Look::Rows => rows(office),
        Look::EditKept => Said::Edit(office.edit_kept(Editor::new(1)?)),
        Look::NextId => Said::Number(office.guide().next_id()),
    })
}

fn called(office: &mut Office, call: Call) -> Option<Said> {
    Some(match call {
        Call::Apply(sent) => applied(office, sent)?,
        Call::Due(sent) => due(office, sent)?,
        Call::Standing(company) => stands(office, &company)?,
        Call::Clear => {
            office.clear();
            Said::Done
        }
        Call::Look(look) => looked(office, look)?,
    })
}

// The unlocked rows, counted one by one: the slow twin of the count that the table keeps.
fn walked(office: &Office) -> usize {
    let rows = office.rows_in_order();
    rows.filter(|row| row.unlocked.is_some()).count()
}

// An office with these limits does the calls of a script, each of which answers what stands behind it.
fn follow(
    rt: &impl Abort,
    alloc: Global,
    limits: Limits,
    script: &[(Call, Said)],
) -> Result<(), Fail> {
    let mut office = Office::new(alloc, limits)?;
    for (call, said) in script {
        assert_eq!(rt; called(&mut office, *call), Some(*said), "{call:?}");
        assert_eq!(rt;
            office.tally().unlocked as usize,
            walked(&office),
            "{call:?}"
        );
    }
    Ok(())
}

const DONE: Said = Said::Verdict(0, 0);

// With ample memory an office is made and books entries one by one, and look-ups show them.
const LINE_BY_LINE: [(Call, Said); 15] = [
    (Call::Apply(Sent::Street), Said::Verdict(0, 1)),
    (Call::Apply(Sent::Open(3)), DONE),
    (Call::Apply(Sent::Insert(1, 0)), DONE),
    (
        Call::Standing(*b"ABC01"),
        Said::Stands(Ok(Standing::Resume(2))),
    ),
    (Call::Apply(Sent::Insert(2, 0)), Said::Verdict(301, 0)),
    (Call::Apply(Sent::Foreign(3)), Said::Verdict(106, 0)),
    (Call::Look(Look::Booked), Said::Four([5, 1, 3, 1])),
    (
        Call::Look(Look::Codes),
        Said::Codes([Some(0), Some(301), Some(106)]),
    ),
    (
        Call::Look(Look::Counts),
        Said::Counts(Some(3), Some((3, 3))),
    ),
    (Call::Look(Look::FirstKept), Said::Is(Some(true))),
    (Call::Look(Look::Stored), Said::Is(Some(true))),
    (Call::Clear, Said::Done),
    (Call::Look(Look::Booked), Said::Four([0; 4])),
    (Call::Look(Look::Stored), Said::Is(None)),
    (Call::Look(Look::Counts), Said::Counts(None, None)),
];

#[test]
fn a_cycle_is_booked_line_by_line(rt: HostRuntime) -> Result<(), Fail> {
    follow(&rt, rt.alloc(), Limits::office(), &LINE_BY_LINE)
}

// Openings, lines and edits are counted each for themselves; of the codes those of lines and edits, the
// refused ones too. What is not booked is not counted, and nothing is once all is forgotten.
const COUNTED: [(Call, Said); 16] = [
    (Call::Apply(Sent::Street), Said::Verdict(0, 1)),
    (Call::Apply(Sent::Open(3)), DONE),
    (Call::Apply(Sent::Insert(1, 0)), DONE),
    (
        Call::Apply(Sent::Insert(1, 0)),
        Said::NotDue(DueFault::NotNext { cycle: 1, line: 2 }),
    ),
    (Call::Apply(Sent::Insert(2, 0)), Said::Verdict(301, 0)),
    (Call::Apply(Sent::Foreign(3)), Said::Verdict(106, 0)),
    (Call::Look(Look::Booked), Said::Four([5, 1, 3, 1])),
    (Call::Look(Look::Held), Said::Four([1, 0, 1, 1])),
    (Call::Look(Look::Code(0)), Said::Number(2)),
    (Call::Look(Look::Code(301)), Said::Number(1)),
    (Call::Look(Look::Code(106)), Said::Number(1)),
    (Call::Look(Look::Code(302)), Said::Number(0)),
    (Call::Look(Look::Code(1000)), Said::Number(0)),
    (Call::Clear, Said::Done),
    (Call::Look(Look::Held), Said::Four([0; 4])),
    (Call::Look(Look::Code(0)), Said::Number(0)),
];

#[test]
fn what_is_booked_is_counted(rt: HostRuntime) -> Result<(), Fail> {
    follow(&rt, rt.alloc(), Limits::office(), &COUNTED)
}

// A number that is unlocked stays a number, and is counted among the unlocked ones, until the office is cleared.
const UNLOCKED: [(Call, Said); 8] = [
    (Call::Apply(Sent::Street), Said::Verdict(0, 1)),
    (Call::Apply(Sent::Open(2)), DONE),
    (Call::Apply(Sent::Insert(1, 0)), DONE),
    (Call::Look(Look::Held), Said::Four([1, 0, 1, 1])),
    (Call::Apply(Sent::Unlock(2)), DONE),
    (Call::Look(Look::Held), Said::Four([1, 1, 1, 1])),
    (Call::Clear, Said::Done),
    (Call::Look(Look::Held), Said::Four([0, 0, 0, 0])),
];

#[test]
fn unlocked_numbers_are_counted(rt: HostRuntime) -> Result<(), Fail> {
    follow(&rt, rt.alloc(), Limits::office(), &UNLOCKED)
}

const NONE_OPEN: Said = Said::NotDue(DueFault::NotNext { cycle: 0, line: 0 });

const FIRST_DUE: Said = Said::NotDue(DueFault::NotNext { cycle: 1, line: 1 });

// An entry that is not the next is refused with the one that is, and changes nothing.
const OUT_OF_TURN: [(Call, Said); 10] = [
    (Call::Apply(Sent::Insert(1, 0)), NONE_OPEN),
    (Call::Apply(Sent::Open(3)), DONE),
    (Call::Due(Sent::Open(3)), FIRST_DUE),
    (Call::Apply(Sent::Insert(2, 0)), FIRST_DUE),
    (Call::Look(Look::Booked), Said::Four([1, 1, 0, 0])),
    (Call::Apply(Sent::Insert(1, 0)), Said::Verdict(201, 0)),
    (Call::Apply(Sent::Insert(2, 0)), Said::Verdict(201, 0)),
    (Call::Apply(Sent::Foreign(3)), Said::Verdict(106, 0)),
    (Call::Due(Sent::Open(3)), Said::NotDue(DueFault::Complete)),
    (Call::Due(Sent::Foreign(3)), NONE_OPEN),
];

#[test]
fn entries_out_of_turn(rt: HostRuntime) -> Result<(), Fail> {
    follow(&rt, rt.alloc(), Limits::office(), &OUT_OF_TURN)
}

// Serials of an editor are used one after the other, each once.
const SERIALS: [(Call, Said); 10] = [
    (Call::Due(Sent::Third), Said::NotDue(DueFault::Gap(1))),
    (Call::Apply(Sent::Street), Said::Verdict(0, 1)),
    (Call::Due(Sent::Street), Said::NotDue(DueFault::Complete)),
    (Call::Due(Sent::Retire), Said::Differs),
    (Call::Due(Sent::Third), Said::NotDue(DueFault::Gap(2))),
    (Call::Apply(Sent::NoEsn), Said::Verdict(508, 0)),
    (
        Call::Look(Look::EditKept),
        Said::Edit(Some((
            2,
            Verdict {
                code: 508,
                detail: 0,
            },
        ))),
    ),
    (Call::Due(Sent::Street), Said::NotDue(DueFault::TooOld(2))),
    (Call::Look(Look::Booked), Said::Four([2, 0, 0, 2])),
    (Call::Look(Look::NextId), Said::Number(2)),
];

#[test]
fn edits_out_of_turn(rt: HostRuntime) -> Result<(), Fail> {
    follow(&rt, rt.alloc(), Limits::office(), &SERIALS)
}

// Rows are shown in the order of their numbers, whatever the order in which they came.
const HIGHER_FIRST: [(Call, Said); 5] = [
    (Call::Apply(Sent::Street), Said::Verdict(0, 1)),
    (Call::Apply(Sent::Open(2)), DONE),
    (Call::Apply(Sent::Insert(1, 1)), DONE),
    (Call::Apply(Sent::Insert(2, 0)), DONE),
    (
        Call::Look(Look::Rows),
        Said::Rows([Some(b'0'), Some(b'1'), None]),
    ),
];

#[test]
fn rows_are_in_order(rt: HostRuntime) -> Result<(), Fail> {
    follow(&rt, rt.alloc(), Limits::office(), &HIGHER_FIRST)
}

// One company, one number and one range.
const SMALL: Limits = Limits {
    companies: 1,
    numbers: 1,
    ranges: 1,
};

// The second range finds the guide at its limit.
const TWO_STREETS: [(Call, Said); 2] = [
    (Call::Apply(Sent::Street), Said::Verdict(0, 1)),
    (Call::Apply(Sent::Oak), Said::Verdict(509, 0)),
];

#[test]
fn the_limit_of_ranges_is_told(rt: HostRuntime) -> Result<(), Fail> {
    follow(&rt, rt.alloc(), SMALL, &TWO_STREETS)
}

// The second number finds the table at its limit, and the second company the office.
const TWO_COMPANIES: [(Call, Said); 6] = [
    (Call::Apply(Sent::Street), Said::Verdict(0, 1)),
    (Call::Apply(Sent::Open(2)), DONE),
    (Call::Apply(Sent::Insert(1, 0)), DONE),
    (Call::Apply(Sent::Insert(2, 1)), Said::Verdict(509, 0)),
    (
        Call::Due(Sent::OpenXyz),
        Said::NotDue(DueFault::CompaniesFull(1)),
    ),
    (
        Call::Standing(*b"XYZ02"),
        Said::Stands(Err(CycleFault::CompaniesFull(1))),
    ),
];

#[test]
fn limits_are_told(rt: HostRuntime) -> Result<(), Fail> {
    follow(&rt, rt.alloc(), SMALL, &TWO_COMPANIES)
}
