//! Worked scripts.
ghost use Rattle.std.specs.Prelude.{◌+◌, ◌≤◌, length};

use crate::{Status, office};
use ali_base::{MemSink, MemSource, NoMemory, NodeName};
use crash_disk::MemDisk;
use duty_register::format_duty;
use node_journal::format;
use office_fixtures::{SentRecord, put};
use std::alloc::Global;
use std::test::Fail;

// The header of a cycle, whose number is one digit.
pub(crate) fn header(cycle: u8) -> [u8; 512] {
    let mut header = office_fixtures::header(b"ABC01", b"000000");
    header[19] = cycle;
    header
}

// The trailer that tells this count, which is one digit.
pub(crate) fn trailer(count: u8) -> [u8; 512] {
    let mut trailer = office_fixtures::trailer(b"ABC01", b"000000000");
    trailer[22] = count;
    trailer
}

// The edit that makes the even numbers 100 to 198 of MAIN ST a range, and what it gets.
const STREET: &[u8] = b"EDIT 1 1 ADD DENVER|CO||MAIN|ST||100|198|E|101
BATCH
";

const STREET_MADE: &[u8] = b"READ EDIT 1 1
EDITED 1 1 0 1
";

// Adds 512-byte records one after the other.
pub(crate) fn add_records(script: &mut Vec<u8>, records: &[[u8; 512]]) -> Result<(), Fail> {
    for record in records {
        script.extend_from_slice(record)?;
    }
    Ok(())
}

// Adds the command that reads a file of these records, of which the first is the header and the last
// the trailer.
pub(crate) fn add_file(
    alloc: Global,
    script: &mut Vec<u8>,
    records: &[[u8; 512]],
) -> Result<(), Fail>
    requires { length records.now ≤ 100 }
{
    let line = format!(in alloc; "FILE {}\n", records.len() * 512)?;
    script.extend_from_slice(line.as_bytes())?;
    add_records(script, records)?;
    script.push(b'\n')?;
    Ok(())
}

// A run that ended, and what it put.
#[derive(Drop)]
pub(crate) struct Ended {
    pub(crate) status: Status,
    pub(crate) sink: MemSink,
}

// An empty disk with room for a journal of 99 entries.
pub(crate) fn empty(alloc: Global) -> Result<MemDisk, NoMemory> {
    MemDisk::new(alloc, 64_000, 262_144, Vec::new(alloc))
}

// Formatted disks: of the nodes, and of the register.
pub(crate) fn disks(alloc: Global) -> Result<(MemDisk, MemDisk, MemDisk), NoMemory> {
    let mut a = empty(alloc)?;
    let mut b = empty(alloc)?;
    let mut duty = empty(alloc)?;
    let _ = format(&mut a, NodeName::A);
    let _ = format(&mut b, NodeName::B);
    let _ = format_duty(&mut duty);
    Ok((a, b, duty))
}

// Runs a script, of which a take gives 300 bytes at most, with calls that fail.
pub(crate) fn run(
    alloc: Global,
    script: &[u8],
    failing_takes: &[u64],
    failing_puts: &[u64],
) -> Result<Ended, Fail> {
    let takes = failing_takes.to_vec(alloc)?;
    let puts = failing_puts.to_vec(alloc)?;
    let mut source = MemSource::new(script.to_vec(alloc)?, 300, takes);
    let mut sink = MemSink::new(alloc, 16384, puts)?;
    let (a, b, duty) = disks(alloc)?;
    let (status, ..) = office(alloc, &["run", "DIR"], &mut source, &mut sink, a, b, duty);
    Ok(Ended { status, sink })
}

const ENTRY_BY_ENTRY: &[u8] = b"READ EDIT 1 1
BOOKED 1 0
EDITED 1 1 0 1
READ FILE ABC01 1 3 0
BOOKED 2 0
BOOKED 3 0
BOOKED 4 0
BOOKED 5 313
COMPLETE ABC01 1 3 1
COMPLETE ABC01 1 3 1
ERRORS 1536
";

const READ_AGAIN: &[u8] = b"
ANSWER 5 109
TN 3035550100 CLASS 1 TYPE 0
NAME JOHN SMITH
ADDR 100 MAIN ST
CITY DENVER CO
LOC
ESN 00101 CO ABC01 UNLOCKED
READ FILE ABC01 1 3 4
COMPLETE ABC01 1 3 1
ERRORS 1536
";

const NO_RECORD: &[u8] = b"
ANSWER 5 30
TN 3035550199 NO RECORD FOUND
";

// An edit, and a file of an insert, an unlocking and a change, which is refused since the number is
// unlocked. The entries are booked one by one, the reply has the error file, and the file again gets the
// same reply and books nothing.
#[test]
fn file_entry_by_entry(rt: HostRuntime) -> Result<(), Fail> {
    let insert = SentRecord::new(b'I', b"3035550100", b"100").bytes();
    let unlock = SentRecord::new(b'U', b"3035550100", b"").bytes();
    let change = SentRecord::new(b'C', b"3035550100", b"102").bytes();
    let file = [header(b'1'), insert, unlock, change, trailer(b'3')];
    let mut script = b"EDIT 1 1 ADD DENVER|CO||MAIN|ST||100|198|E|101\nNEXT\nNEXT\n".to_vec(
        rt.alloc(),
    )?;
    add_file(rt.alloc(), &mut script, &file)?;
    script.extend_from_slice(b"NEXT\nNEXT\nNEXT\nNEXT\nNEXT\nBATCH\nASK a 1 3035550100 5\n")?;
    add_file(rt.alloc(), &mut script, &file)?;
    script.extend_from_slice(b"BATCH\nASK a 1 3035550199 5")?;
    let ended = run(rt.alloc(), &script, &[], &[])?;
    let mut refused = change;
    put(&mut refused, 509, b"313");
    let errors = [header(b'1'), refused, trailer(b'1')];
    let mut expected = ENTRY_BY_ENTRY.to_vec(rt.alloc())?;
    add_records(&mut expected, &errors)?;
    expected.extend_from_slice(READ_AGAIN)?;
    add_records(&mut expected, &errors)?;
    expected.extend_from_slice(NO_RECORD)?;
    assert_eq!(rt; ended.status, Status::Done);
    assert_eq!(rt; ended.sink.bytes(), expected.as_slice());
    Ok(())
}

// A company's file of one record, and the code that the record gets.
#[derive(Clone, Copy)]
struct SmallFile {
    company: [u8; 5],
    cycle: u8,
    function: u8,
    code: u16,
}

fn sent(company: &[u8; 5], cycle: u8, function: u8, code: u16) -> SmallFile {
    SmallFile {
        company: *company,
        cycle,
        function,
        code,
    }
}

// Adds the commands that read the file and book its opening and its record.
fn add_small_file(alloc: Global, script: &mut Vec<u8>, file: &SmallFile) -> Result<(), Fail> {
    let company = file.company;
    let mut first = header(file.cycle);
    let mut only = SentRecord::new(b'I', b"3035550100", b"100").bytes();
    let mut last = trailer(b'1');
    only[0] = file.function;
    put(&mut first, 10, &company);
    put(&mut only, 261, &company);
    put(&mut last, 10, &company);
    add_file(alloc, script, &[first, only, last])?;
    script.extend_from_slice(b"NEXT\nNEXT\n")?;
    Ok(())
}

// Adds what these commands print, where so many entries are booked before them.
fn add_told(alloc: Global, told: &mut Vec<u8>, file: &SmallFile, booked: usize) -> Result<(), Fail>
    requires { booked ≤ 1000 }
{
    let company = file.company;
    told.extend_from_slice(b"READ FILE ")?;
    told.extend_from_slice(&company)?;
    told.extend_from_slice(&[b' ', file.cycle])?;
    let entries = format!(in alloc;
        " 1 0\nBOOKED {} 0\nBOOKED {} {}\n",
        booked + 1,
        booked + 2,
        file.code
    )?;
    told.extend_from_slice(entries.as_bytes())?;
    Ok(())
}

const WHILE_UNLOCKED: &[u8] = b"REPORT 5 105
tn,company,state,esn,house,street,community,days
3035550100,ABC01,UNLOCKED,00101,100,MAIN ST,DENVER CO,1
";

const MOVED: &[u8] = b"ANSWER 9 107
TN 3035550100 CLASS 1 TYPE 0
NAME JOHN SMITH
ADDR 100 MAIN ST
CITY DENVER CO
LOC
ESN 00101 CO XYZ02 LOCKED
REPORT 9 49
tn,company,state,esn,house,street,community,days
";

// A number moves from a donor company to a recipient company, and what either may do to it before and
// after. It is among the unlocked numbers until it has moved.
#[test]
fn a_number_moves(rt: HostRuntime) -> Result<(), Fail> {
    let files = [
        sent(b"ABC01", b'1', b'I', 0),
        sent(b"ABC01", b'2', b'U', 0),
        sent(b"ABC01", b'3', b'C', 313),
        sent(b"XYZ02", b'1', b'M', 0),
        sent(b"ABC01", b'4', b'M', 311),
        sent(b"ABC01", b'5', b'C', 304),
        sent(b"XYZ02", b'2', b'U', 0),
        sent(b"XYZ02", b'3', b'M', 0),
        sent(b"XYZ02", b'4', b'U', 0),
        sent(b"XYZ02", b'5', b'U', 309),
        sent(b"XYZ02", b'6', b'D', 313),
        sent(b"ABC01", b'6', b'D', 306),
        sent(b"XYZ02", b'7', b'M', 0),
        sent(b"XYZ02", b'8', b'D', 0),
        sent(b"XYZ02", b'9', b'U', 307),
    ];
    let mut script = STREET.to_vec(rt.alloc())?;
    let mut expected = STREET_MADE.to_vec(rt.alloc())?;
    for (i, file) in files.iter().enumerate() {
        add_small_file(rt.alloc(), &mut script, file)?;
        add_told(rt.alloc(), &mut expected, file, 2 * i + 1)?;
        if i == 1 {
            script.extend_from_slice(b"REPORT a UNLOCKED 010324\n")?;
            expected.extend_from_slice(WHILE_UNLOCKED)?;
        }
        if i == 3 {
            script.extend_from_slice(b"ASK a 1 3035550100 9\nREPORT a UNLOCKED 010324\n")?;
            expected.extend_from_slice(MOVED)?;
        }
    }
    script.extend_from_slice(b"ASK a 1 3035550100 31\n")?;
    expected.extend_from_slice(b"ANSWER 31 30\nTN 3035550100 NO RECORD FOUND\n")?;
    let ended = run(rt.alloc(), &script, &[], &[])?;
    assert_eq!(rt; ended.status, Status::Done);
    assert_eq!(rt; ended.sink.bytes(), expected.as_slice());
    Ok(())
}

// A record of the next number of a file, at this house of MAIN ST.
fn at_house(last_digit: u8, house: &[u8; 6]) -> [u8; 512] {
    let mut at = SentRecord::new(b'I', b"3035550100", house).bytes();
    at[10] = last_digit;
    at
}

const STREETS: &[u8] = b"EDIT 1 2 ADD DENVER|CO||EDGE|ST||999999|999999|O|7
BATCH
EDIT 1 3 ADD DENVER|CO||ZERO|ST||0|0|E|8
BATCH
";

const STREETS_MADE: &[u8] = b"READ EDIT 1 2
EDITED 1 2 0 2
READ EDIT 1 3
EDITED 1 3 0 3
READ FILE ABC01 1 6 0
BOOKED 4 0
BOOKED 5 203
BOOKED 6 202
BOOKED 7 201
BOOKED 8 204
BOOKED 9 0
BOOKED 10 0
COMPLETE ABC01 1 6 4
ERRORS 3072
";

const AFTER_THE_ODD_SIDE: &[u8] = b"
READ EDIT 1 4
EDITED 1 4 0 4
READ FILE ABC01 1 6 7
COMPLETE ABC01 1 6 4
ERRORS 3072
";

const AT_HOUSE_0: &[u8] = b"
ANSWER 11 103
TN 3035550105 CLASS 1 TYPE 0
NAME JOHN SMITH
ADDR ZERO ST
CITY DENVER CO
LOC
ESN 00008 CO ABC01 LOCKED
";

// Six numbers: on the other side of MAIN ST, past its end, on a street that is not in the guide, with the
// ESN of another range, and at the greatest house number and at none.
fn addresses() -> [[u8; 512]; 6] {
    let other_side = at_house(b'0', b"101   ");
    let past_the_end = at_house(b'1', b"199   ");
    let mut unknown_street = at_house(b'2', b"100   ");
    put(&mut unknown_street, 28, b"OAK ");
    let mut other_esn = at_house(b'3', b"100   ");
    put(&mut other_esn, 226, b"00102");
    let mut edge = at_house(b'4', b"999999");
    put(&mut edge, 28, b"EDGE");
    let mut zero = at_house(b'5', b"      ");
    put(&mut zero, 28, b"ZERO");
    [
        other_side,
        past_the_end,
        unknown_street,
        other_esn,
        edge,
        zero,
    ]
}

// A record in an error file.
fn refused(record: &[u8; 512], code: &[u8; 3]) -> [u8; 512] {
    let mut refused = *record;
    put(&mut refused, 509, code);
    refused
}

// Each code of the address check, and the edges of house numbers. A range that would hold a refused
// record changes nothing in the error file of the file that was booked before it.
#[test]
fn addresses_are_checked(rt: HostRuntime) -> Result<(), Fail> {
    let [first, second, third, fourth, fifth, sixth] = addresses();
    let (top, end) = (header(b'1'), trailer(b'6'));
    let file = [top, first, second, third, fourth, fifth, sixth, end];
    let mut script = STREET.to_vec(rt.alloc())?;
    script.extend_from_slice(STREETS)?;
    add_file(rt.alloc(), &mut script, &file)?;
    script.extend_from_slice(b"NEXT\nNEXT\nNEXT\nNEXT\nNEXT\nNEXT\nNEXT\nBATCH\n")?;
    script.extend_from_slice(b"EDIT 1 4 ADD DENVER|CO||MAIN|ST||101|199|O|101\nBATCH\n")?;
    add_file(rt.alloc(), &mut script, &file)?;
    script.extend_from_slice(b"BATCH\nASK a 1 3035550105 11\n")?;
    let ended = run(rt.alloc(), &script, &[], &[])?;
    let errors = [
        top,
        refused(&first, b"203"),
        refused(&second, b"202"),
        refused(&third, b"201"),
        refused(&fourth, b"204"),
        trailer(b'4'),
    ];
    let mut expected = STREET_MADE.to_vec(rt.alloc())?;
    expected.extend_from_slice(STREETS_MADE)?;
    add_records(&mut expected, &errors)?;
    expected.extend_from_slice(AFTER_THE_ODD_SIDE)?;
    add_records(&mut expected, &errors)?;
    expected.extend_from_slice(AT_HOUSE_0)?;
    assert_eq!(rt; ended.status, Status::Done);
    assert_eq!(rt; ended.sink.bytes(), expected.as_slice());
    Ok(())
}

// The bytes of records that are lines, each with CR LF at its end.
fn lines(alloc: Global, records: &[[u8; 512]]) -> Result<Vec<u8>, Fail> {
    let mut lines = Vec::new(alloc);
    for record in records {
        lines.extend_from_slice(record)?;
        lines.extend_from_slice(b"\r\n")?;
    }
    Ok(lines)
}

const LINES_BOOKED: &[u8] = b"READ FILE ABC01 1 3 0
COMPLETE ABC01 1 3 0
ERRORS 1028
";

const AFTER_THE_LINES: &[u8] = b"
ANSWER 5 107
TN 3035550100 CLASS 1 TYPE 0
NAME JOHN SMITH
ADDR 100 MAIN ST
CITY DENVER CO
LOC
ESN 00101 CO ABC01 LOCKED
REPORT 5 96
name,value
entries,5
opens,1
lines,3
edits,1
numbers,3
unlocked,0
ranges,1
companies,1
code 0,4
";

// A file whose records are lines, with coordinates in columns that are not read. None is refused, so the
// error file has two lines, and their ends. The statistics then count all that was booked.
#[test]
fn a_file_of_lines(rt: HostRuntime) -> Result<(), Fail> {
    let mut first = at_house(b'0', b"100   ");
    put(&mut first, 300, b"+39.739236-104.990251");
    let second = at_house(b'2', b"102   ");
    let third = at_house(b'4', b"104   ");
    let file = [header(b'1'), first, second, third, trailer(b'3')];
    let mut script = STREET.to_vec(rt.alloc())?;
    script.extend_from_slice(b"FILE 2570\n")?;
    script.extend_from_slice(&lines(rt.alloc(), &file)?)?;
    script.extend_from_slice(b"\nBATCH\nASK a 1 3035550100 5\nREPORT a STATS\n")?;
    let ended = run(rt.alloc(), &script, &[], &[])?;
    let mut expected = STREET_MADE.to_vec(rt.alloc())?;
    expected.extend_from_slice(LINES_BOOKED)?;
    expected.extend_from_slice(&lines(rt.alloc(), &[header(b'1'), trailer(b'0')])?)?;
    expected.extend_from_slice(AFTER_THE_LINES)?;
    assert_eq!(rt; ended.status, Status::Done);
    assert_eq!(rt; ended.sink.bytes(), expected.as_slice());
    Ok(())
}

const EDITS: &[u8] = b"EDIT 1 3 ADD DENVER|CO||OAK|ST||100|198|E|101
EDIT 1 2 SPLIT 1 149 102
BATCH
ASK a 1 3035550101 0
EDIT 1 3 SPLIT 1 198 103
BATCH
EDIT 1 4 RETIRE 2
BATCH
EDIT 1 5 RENUMBER 2 -52
BATCH
EDIT 1 6 RENUMBER 2 -51
BATCH
EDIT 1 7 RENUMBER 1 -102
BATCH
EDIT 1 8 RENUMBER 2 +50
BATCH
EDIT 1 9 SETESN 2 7
BATCH
ASK a 1 3035550101 0
EDIT 1 10 SETESN 1 0
BATCH
EDIT 1 11 RETIRE 7
BATCH
EDIT 1 11 RETIRE 7
EDIT 1 11 RETIRE 8
EDIT 1 10 RETIRE 7
EDIT 2 1 RENUMBER 1 +0
BATCH
";

const EDITED: &[u8] = b"GAP 2
READ EDIT 1 2
EDITED 1 2 0 2
ANSWER 5 107
TN 3035550101 CLASS 1 TYPE 0
NAME JOHN SMITH
ADDR 150 MAIN ST
CITY DENVER CO
LOC
ESN 00102 CO ABC01 LOCKED
READ EDIT 1 3
EDITED 1 3 505 0
READ EDIT 1 4
EDITED 1 4 504 3035550101
READ EDIT 1 5
EDITED 1 5 502 1
READ EDIT 1 6
EDITED 1 6 507 0
READ EDIT 1 7
EDITED 1 7 506 0
READ EDIT 1 8
EDITED 1 8 0 1
READ EDIT 1 9
EDITED 1 9 0 1
ANSWER 12 107
TN 3035550101 CLASS 1 TYPE 0
NAME JOHN SMITH
ADDR 200 MAIN ST
CITY DENVER CO
LOC
ESN 00007 CO ABC01 LOCKED
READ EDIT 1 10
EDITED 1 10 508 0
READ EDIT 1 11
EDITED 1 11 501 0
READ EDIT 1 11
DIFFERS b3f68cf84a61644e3a67ac9de52ca3662d6edfbf8324d277ac95c01282af1a71 0270a1c8fc9277abb81863414d2d3ff8c307da849f9d622485aaaccc4b206dbe
TOO OLD 11
READ EDIT 2 1
EDITED 2 1 0 1
";

// Each edit of the street guide with each of its codes but two, and the rows that they change.
#[test]
fn edits_change_guide_and_rows(rt: HostRuntime) -> Result<(), Fail> {
    let first = at_house(b'0', b"100   ");
    let second = at_house(b'1', b"150   ");
    let file = [header(b'1'), first, second, trailer(b'2')];
    let mut script = STREET.to_vec(rt.alloc())?;
    add_file(rt.alloc(), &mut script, &file)?;
    script.extend_from_slice(b"NEXT\nNEXT\nNEXT\n")?;
    script.extend_from_slice(EDITS)?;
    let ended = run(rt.alloc(), &script, &[], &[])?;
    let mut expected = STREET_MADE.to_vec(rt.alloc())?;
    expected.extend_from_slice(b"READ FILE ABC01 1 2 0\nBOOKED 2 0\nBOOKED 3 0\nBOOKED 4 0\n")?;
    expected.extend_from_slice(EDITED)?;
    assert_eq!(rt; ended.status, Status::Done);
    assert_eq!(rt; ended.sink.bytes(), expected.as_slice());
    Ok(())
}

// Without a file there is no job; a file of no records is complete once its opening is booked.
#[test]
fn no_file_and_an_empty_one(rt: HostRuntime) -> Result<(), Fail> {
    let file = [header(b'1'), trailer(b'0')];
    let mut script = b"NEXT\nBATCH\n".to_vec(rt.alloc())?;
    add_file(rt.alloc(), &mut script, &file)?;
    script.extend_from_slice(b"BATCH\n")?;
    let ended = run(rt.alloc(), &script, &[], &[])?;
    let mut expected = b"NO JOB
NO JOB
READ FILE ABC01 1 0 0
COMPLETE ABC01 1 0 0
ERRORS 1024
"
        .to_vec(rt.alloc())?;
    add_records(&mut expected, &file)?;
    expected.push(b'\n')?;
    assert_eq!(rt; ended.status, Status::Done);
    assert_eq!(rt; ended.sink.bytes(), expected.as_slice());
    Ok(())
}

// Adds the command that reads a file of the letter A alone.
fn add_letters(script: &mut Vec<u8>, line: &[u8], len: usize) -> Result<(), Fail> {
    script.extend_from_slice(line)?;
    for _ in 0..len {
        script.push(b'A')?;
    }
    script.push(b'\n')?;
    Ok(())
}

// Files whose frame is wrong: a count that is not told, lengths, a header, too many records. A refused
// file leaves the job that was.
#[test]
fn files_with_a_wrong_frame(rt: HostRuntime) -> Result<(), Fail> {
    let one = SentRecord::new(b'I', b"3035550100", b"100").bytes();
    let two = SentRecord::new(b'I', b"3035550101", b"101").bytes();
    let mut script = Vec::new(rt.alloc());
    add_file(rt.alloc(), &mut script, &[header(b'1'), trailer(b'0')])?;
    add_file(
        rt.alloc(),
        &mut script,
        &[header(b'1'), one, two, trailer(b'3')],
    )?;
    add_letters(&mut script, b"FILE 1500\n", 1500)?;
    add_letters(&mut script, b"FILE 1024\n", 1024)?;
    add_letters(&mut script, b"FILE 5121536\n", 5_121_536)?;
    script.extend_from_slice(b"NEXT\nNEXT\nFILE 0")?;
    let ended = run(rt.alloc(), &script, &[], &[])?;
    let expected = b"READ FILE ABC01 1 0 0
FRAME COUNT 3 2
FRAME LENGTH 1500
FRAME HEADER 1
FRAME TOO MANY 10001
BOOKED 1 0
COMPLETE ABC01 1 0 0
FRAME LENGTH 0
";
    assert_eq!(rt; ended.status, Status::Done);
    assert_eq!(rt; ended.sink.bytes(), expected.as_slice());
    Ok(())
}

const OUT_OF_TURN: &[u8] = b"READ EDIT 1 1
EDITED 1 1 0 1
GAP 1
READ FILE ABC01 1 1 0
BOOKED 2 0
BOOKED 3 0
GAP 2
DIFFERS f035c2d3a4340f84d869f7f1180f814f4e3405a0d81c561d61b80d567b0bc1f6 f29181b02fe36e4a67f2d15f2e5c156cf394f0266827d00f5aef9eef1e1cf565
READ FILE ABC01 2 0 0
BOOKED 4 0
READ FILE ABC01 3 0 0
BOOKED 5 0
READ FILE ABC01 4 0 0
BOOKED 6 0
READ FILE ABC01 5 0 0
BOOKED 7 0
READ FILE ABC01 6 0 0
BOOKED 8 0
READ FILE ABC01 7 0 0
BOOKED 9 0
READ FILE ABC01 8 0 0
BOOKED 10 0
READ FILE ABC01 9 0 0
BOOKED 11 0
TOO OLD 2
";

// Cycles that are not the next: a gap, another file under the same cycle, and one that is no longer
// kept.
#[test]
fn files_out_of_turn(rt: HostRuntime) -> Result<(), Fail> {
    let one = SentRecord::new(b'I', b"3035550100", b"100").bytes();
    let mut other = one;
    put(&mut other, 276, b"x");
    let mut script = STREET.to_vec(rt.alloc())?;
    add_file(rt.alloc(), &mut script, &[header(b'2'), one, trailer(b'1')])?;
    add_file(rt.alloc(), &mut script, &[header(b'1'), one, trailer(b'1')])?;
    script.extend_from_slice(b"NEXT\nNEXT\n")?;
    add_file(rt.alloc(), &mut script, &[header(b'3'), one, trailer(b'1')])?;
    add_file(
        rt.alloc(),
        &mut script,
        &[header(b'1'), other, trailer(b'1')],
    )?;
    for cycle in b'2'..b'9' + 1 {
        add_file(rt.alloc(), &mut script, &[header(cycle), trailer(b'0')])?;
        script.extend_from_slice(b"NEXT\n")?;
    }
    add_file(rt.alloc(), &mut script, &[header(b'1'), one, trailer(b'1')])?;
    let ended = run(rt.alloc(), &script, &[], &[])?;
    assert_eq!(rt; ended.status, Status::Done);
    assert_eq!(rt; ended.sink.bytes(), OUT_OF_TURN);
    Ok(())
}

pub(crate) const THREE: &[u8] =
    b"ASK a 1 3035550199 0\nASK a 1 3035550199 1\nASK a 1 3035550100 0\n";

pub(crate) const REPLIES: &[u8] = b"ANSWER 0 30
TN 3035550199 NO RECORD FOUND
AHEAD 1 0
ANSWER 0 30
TN 3035550100 NO RECORD FOUND
";

// A line outside the grammar is the first of its kind, and the replies before it stand.
#[test]
fn lines_outside_the_grammar(rt: HostRuntime) -> Result<(), Fail> {
    let cases: [&[u8]; 25] = [
        b"HELLO\n",
        b"\n",
        b"ASK c 1 3035550100 0\n",
        b"ASK a 0 3035550100 0\n",
        b"ASK a 65 3035550100 0\n",
        b"ASK a 01 3035550100 0\n",
        b"ASK a 1 303555010 0\n",
        b"ASK a 1 3035550100 4294967296\n",
        b"ASK a 1 3035550100 0 \n",
        b"LINE\n",
        b"NEXT \n",
        b"WRITE\n",
        b"SHIP a 0\n",
        b"DELIVER 0\n",
        b"TAKE c\n",
        b"STOP duty\n",
        b"START\n",
        b"EDIT 0 1 RETIRE 1\n",
        b"EDIT 65 1 RETIRE 1\n",
        b"EDIT 1 1000000000 RETIRE 1\n",
        b"EDIT 1 1 RETIRE 1 \n",
        b"EDIT 1 1 SPLIT 1 149\n",
        b"FILE 5\nAAAA",
        b"FILE 4\nAAAA.\n",
        b"FILE 16777217\nA\n",
    ];
    for line in cases {
        let mut script = THREE.to_vec(rt.alloc())?;
        script.extend_from_slice(line)?;
        let ended = run(rt.alloc(), &script, &[], &[])?;
        assert_eq!(rt; ended.status, Status::Script(4));
        assert_eq!(rt; ended.sink.bytes(), REPLIES);
    }
    Ok(())
}

// An empty script has no replies; words that are no form touch nothing.
#[test]
fn empty_script_and_other_words(rt: HostRuntime) -> Result<(), Fail> {
    let empty = run(rt.alloc(), b"", &[], &[])?;
    assert_eq!(rt; empty.status, Status::Done);
    assert_eq!(rt; empty.sink.bytes().len(), 0);
    let cases: [&[&str]; 11] = [
        &[],
        &["run"],
        &["format"],
        &["format", "-d"],
        &["format", "DIR", "DIR"],
        &["run", ""],
        &["run", "-d"],
        &["walk", "DIR"],
        &["run", "DIR", "DIR"],
        &["generate", "DIR", "1"],
        &["generate", "DIR", "1", "50001"],
    ];
    for words in cases {
        let mut source = MemSource::new(THREE.to_vec(rt.alloc())?, 300, Vec::new(rt.alloc()));
        let mut sink = MemSink::new(rt.alloc(), 0, Vec::new(rt.alloc()))?;
        let (a, b, duty) = disks(rt.alloc())?;
        let (status, ..) = office(rt.alloc(), words, &mut source, &mut sink, a, b, duty);
        assert_eq!(rt; status, Status::Usage);
    }
    Ok(())
}
