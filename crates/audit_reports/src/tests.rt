//! Reports of small offices, against texts that were written down apart from them.
ghost use Rattle.std.specs.Prelude.{◌≤◌, length};

use crate::{Report, ReportFault, write_report};
use ali_base::{Company, Cycle, Day, Editor, MemSink, Serial};
use office_entry::{Edit, Entry};
use office_fixtures::{SentRecord, put};
use office_state::{Limits, MOST_ENTRIES, Office};
use std::alloc::Global;
use std::test::Fail;

const NO_ROWS: &[u8] = b"tn,company,state,esn,house,street,community\n";

const NO_UNLOCKED: &[u8] = b"tn,company,state,esn,house,street,community,days\n";

const NO_CODES: &[u8] = b"company,cycle,line,code\n";

const NO_STATISTICS: &[u8] =
    b"name,value\nentries,0\nopens,0\nlines,0\nedits,0\nnumbers,0\nunlocked,0\nranges,0\ncompanies,0\n";

const TWO_NUMBERS: &[u8] =
    b"name,value\nentries,4\nopens,1\nlines,2\nedits,1\nnumbers,2\nunlocked,0\nranges,1\ncompanies,1\ncode 0,3\n";

const THREE_NUMBERS: &[u8] =
    b"name,value\nentries,5\nopens,1\nlines,3\nedits,1\nnumbers,3\nunlocked,0\nranges,1\ncompanies,1\ncode 0,4\n";

const BOTH_ROWS: &[u8] =
    b"tn,company,state,esn,house,street,community\n3035550100,ABC01,LOCKED,00101,100,MAIN ST,DENVER CO\n3035550102,ABC01,LOCKED,00101,102,MAIN ST,DENVER CO\n";

const BOTH_LINES: &[u8] = b"company,cycle,line,code\nABC01,1,1,0\nABC01,1,2,0\n";

const TWO_COMPANIES: &[u8] =
    b"name,value\nentries,9\nopens,2\nlines,5\nedits,2\nnumbers,3\nunlocked,1\nranges,2\ncompanies,2\ncode 0,6\ncode 301,1\n";

const OF_ABC01: &[u8] =
    b"tn,company,state,esn,house,street,community\n3035550100,ABC01,LOCKED,00101,100,MAIN ST,DENVER CO\n3035550101,ABC01,UNLOCKED,00007,7,\"O\"\"HARE, EAST ST\",DENVER CO\n";

const OF_101: &[u8] =
    b"tn,company,state,esn,house,street,community\n3035550099,XYZ02,LOCKED,00101,102,MAIN ST,DENVER CO\n3035550100,ABC01,LOCKED,00101,100,MAIN ST,DENVER CO\n";

const IN_RANGE_2: &[u8] =
    b"tn,company,state,esn,house,street,community\n3035550101,ABC01,UNLOCKED,00007,7,\"O\"\"HARE, EAST ST\",DENVER CO\n";

const SAME_DAY: &[u8] =
    b"tn,company,state,esn,house,street,community,days\n3035550101,ABC01,UNLOCKED,00007,7,\"O\"\"HARE, EAST ST\",DENVER CO,0\n";

const LATER: &[u8] =
    b"tn,company,state,esn,house,street,community,days\n3035550101,ABC01,UNLOCKED,00007,7,\"O\"\"HARE, EAST ST\",DENVER CO,30\n";

const BEFORE: &[u8] =
    b"tn,company,state,esn,house,street,community,days\n3035550101,ABC01,UNLOCKED,00007,7,\"O\"\"HARE, EAST ST\",DENVER CO,-2\n";

const ACCEPTED: &[u8] =
    b"company,cycle,line,code\nABC01,1,1,0\nABC01,1,2,0\nABC01,1,4,0\nXYZ02,1,1,0\n";

const TWICE: &[u8] = b"company,cycle,line,code\nABC01,1,3,301\n";

const WITHOUT_HOUSE: &[u8] =
    b"tn,company,state,esn,house,street,community\n3035550107,AB,LOCKED,00007,0,N MAIN ST E,DENVER CO\n";

const OF_AB: &[u8] = b"company,cycle,line,code\nAB,1,1,0\n";

// The words of reports, each with the text of its report, of an office in which nothing was booked.
const OF_NOTHING: [(&[u8], &[u8]); 6] = [
    (b"STATS", NO_STATISTICS),
    (b"COMPANY ABC01", NO_ROWS),
    (b"ESN 101", NO_ROWS),
    (b"UNLOCKED 010224", NO_UNLOCKED),
    (b"RANGE 1", NO_ROWS),
    (b"CODE 0", NO_CODES),
];

// Those of one range and two numbers of one company.
const OF_TWO_NUMBERS: [(&[u8], &[u8]); 10] = [
    (b"STATS", TWO_NUMBERS),
    (b"COMPANY ABC01", BOTH_ROWS),
    (b"COMPANY XYZ02", NO_ROWS),
    (b"ESN 101", BOTH_ROWS),
    (b"ESN 102", NO_ROWS),
    (b"UNLOCKED 010224", NO_UNLOCKED),
    (b"RANGE 1", BOTH_ROWS),
    (b"RANGE 2", NO_ROWS),
    (b"CODE 0", BOTH_LINES),
    (b"CODE 301", NO_CODES),
];

// Those of two ranges and three numbers of two companies, of which one is unlocked; a line was refused.
const OF_TWO_COMPANIES: [(&[u8], &[u8]); 9] = [
    (b"STATS", TWO_COMPANIES),
    (b"COMPANY ABC01", OF_ABC01),
    (b"ESN 101", OF_101),
    (b"UNLOCKED 010224", SAME_DAY),
    (b"UNLOCKED 020124", LATER),
    (b"UNLOCKED 123123", BEFORE),
    (b"RANGE 2", IN_RANGE_2),
    (b"CODE 0", ACCEPTED),
    (b"CODE 301", TWICE),
];

// Those of one number, whose house is blank and whose street has all parts, of a company with spaces at
// the end of its name.
const OF_BLANKS: [(&[u8], &[u8]); 3] = [
    (b"COMPANY AB", WITHOUT_HOUSE),
    (b"RANGE 1", WITHOUT_HOUSE),
    (b"CODE 0", OF_AB),
];

// Numbers of MAIN ST, each with its house.
const SENT: [(&[u8; 10], &[u8; 3]); 3] = [
    (b"3035550100", b"100"),
    (b"3035550102", b"102"),
    (b"3035550104", b"104"),
];

// Books an entry.
fn book(office: &mut Office, entry: Option<Entry>) -> Result<(), Fail> {
    let Some(entry) = entry else {
        return Err(Fail::new("no entry"));
    };
    if office.entries() >= MOST_ENTRIES {
        return Err(Fail::new("too many entries"));
    }
    office.apply(&entry)?;
    Ok(())
}

// Books an edit of editor 1, by its text.
fn book_edit(office: &mut Office, serial: u32, text: &[u8]) -> Result<(), Fail> {
    book(office, edit(serial, text))
}

fn edit(serial: u32, text: &[u8]) -> Option<Entry> {
    Some(Entry::Edit {
        editor: Editor::new(1)?,
        serial: Serial::new(serial)?,
        edit: Edit::read_text(text)?,
    })
}

// Books the opening of the first cycle of a company, with so many lines.
fn book_opening(office: &mut Office, company: &[u8; 5], count: u32) -> Result<(), Fail> {
    book(office, opening(company, count))
}

fn opening(company: &[u8; 5], count: u32) -> Option<Entry> {
    Some(Entry::Open {
        company: Company::read(company)?,
        cycle: Cycle::new(1)?,
        count,
        day: Day::read(b"010224")?,
        digest: [7; 32],
    })
}

// Books a line of that cycle.
fn book_line(office: &mut Office, line: u32, sent: &SentRecord<'_>) -> Result<(), Fail>
    requires house { length sent.now.house.now ≤ 10 }
    requires street { length sent.now.street.now ≤ 60 }
    requires esn { length sent.now.esn.now ≤ 5 }
{
    book(office, line_of(line, sent.company, sent.bytes()))
}

fn line_of(line: u32, company: &[u8; 5], bytes: [u8; 512]) -> Option<Entry> {
    Some(Entry::Line {
        company: Company::read(company)?,
        cycle: Cycle::new(1)?,
        line,
        bytes,
    })
}

// The office after the edit that makes the even numbers 100 to 198 of MAIN ST a range with the ESN 101,
// and a file of ABC01 that inserts these numbers.
fn with_numbers(alloc: Global, sent: &[(&[u8; 10], &[u8; 3])]) -> Result<Office, Fail>
    requires { length sent.now ≤ 3 }
{
    let mut office = Office::new(alloc, Limits::office())?;
    book_edit(&mut office, 1, b"ADD DENVER|CO||MAIN|ST||100|198|E|101")?;
    book_opening(&mut office, b"ABC01", sent.len() as u32)?;
    for (i, (tn, house)) in sent.iter().enumerate() {
        book_line(
            &mut office,
            i as u32 + 1,
            &SentRecord::new(b'I', tn, *house),
        )?;
    }
    Ok(office)
}

// The office with two ranges, and with two companies' files. The second street has a comma and a quote
// in its name; its number was unlocked on 2 January 2024.
fn with_companies(alloc: Global) -> Result<Office, Fail> {
    let mut office = Office::new(alloc, Limits::office())?;
    book_edit(&mut office, 1, b"ADD DENVER|CO||MAIN|ST||100|198|E|101")?;
    book_edit(
        &mut office,
        2,
        b"ADD DENVER|CO||O\"HARE, EAST|ST||0|9999|B|7",
    )?;
    let main = SentRecord::new(b'I', b"3035550100", b"100");
    let quoted = SentRecord {
        street: b"O\"HARE, EAST",
        ..SentRecord::new(b'I', b"3035550101", b"7")
    };
    let unlock = SentRecord::new(b'U', b"3035550101", b"");
    let other = SentRecord {
        company: b"XYZ02",
        ..SentRecord::new(b'I', b"3035550099", b"102")
    };
    book_opening(&mut office, b"ABC01", 4)?;
    book_line(&mut office, 1, &main)?;
    book_line(&mut office, 2, &quoted)?;
    book_line(&mut office, 3, &main)?;
    book_line(&mut office, 4, &unlock)?;
    book_opening(&mut office, b"XYZ02", 1)?;
    book_line(&mut office, 1, &other)?;
    Ok(office)
}

// The office with the number whose house is blank.
fn with_blanks(alloc: Global) -> Result<Office, Fail> {
    let mut office = Office::new(alloc, Limits::office())?;
    book_edit(&mut office, 1, b"ADD DENVER|CO|N|MAIN|ST|E|0|9|B|7")?;
    book_opening(&mut office, b"AB   ", 1)?;
    let sent = SentRecord {
        company: b"AB   ",
        ..SentRecord::new(b'I', b"3035550107", b"")
    };
    let mut bytes = sent.bytes();
    put(&mut bytes, 26, b"N");
    put(&mut bytes, 92, b"E");
    book(&mut office, line_of(1, b"AB   ", bytes))?;
    Ok(office)
}

// Whether the report with these words has this text.
fn has_text(alloc: Global, office: &Office, words: &[u8], text: &[u8]) -> Result<bool, Fail> {
    let Some(report) = Report::read_text(words) else {
        return Ok(false);
    };
    let mut sink = MemSink::new(alloc, 1_000, Vec::new(alloc))?;
    write_report(alloc, office, &report, &mut sink)?;
    Ok(sink.bytes() == text)
}

// The first words whose report has another text.
fn first_other<'a>(
    alloc: Global,
    office: &Office,
    reports: &[(&'a [u8], &[u8])],
) -> Result<Option<&'a [u8]>, Fail> {
    for (words, text) in reports {
        if !has_text(alloc, office, words, text)? {
            return Ok(Some(words));
        }
    }
    Ok(None)
}

#[test]
fn reports_of_an_empty_office(rt: HostRuntime) -> Result<(), Fail> {
    let alloc = rt.alloc();
    let office = Office::new(alloc, Limits::office())?;
    assert_eq!(rt; first_other(alloc, &office, &OF_NOTHING)?, None);
    Ok(())
}

#[test]
fn reports_of_two_numbers(rt: HostRuntime) -> Result<(), Fail> {
    let alloc = rt.alloc();
    let office = with_numbers(alloc, &SENT[..2])?;
    assert_eq!(rt; first_other(alloc, &office, &OF_TWO_NUMBERS)?, None);
    Ok(())
}

#[test]
fn statistics_of_three_numbers(rt: HostRuntime) -> Result<(), Fail> {
    let alloc = rt.alloc();
    let office = with_numbers(alloc, &SENT)?;
    assert!(rt; has_text(alloc, &office, b"STATS", THREE_NUMBERS)?);
    Ok(())
}

#[test]
fn reports_of_two_companies(rt: HostRuntime) -> Result<(), Fail> {
    let alloc = rt.alloc();
    let office = with_companies(alloc)?;
    assert_eq!(rt; first_other(alloc, &office, &OF_TWO_COMPANIES)?, None);
    Ok(())
}

#[test]
fn reports_with_blanks(rt: HostRuntime) -> Result<(), Fail> {
    let alloc = rt.alloc();
    let office = with_blanks(alloc)?;
    assert_eq!(rt; first_other(alloc, &office, &OF_BLANKS)?, None);
    Ok(())
}

#[test]
fn words_are_those_of_a_report(rt: HostRuntime) {
    let company = Company::read(b"AB   ").map(Report::Company);
    assert_eq!(rt; Report::read_text(b"COMPANY AB"), company);
    assert_eq!(rt; Report::read_text(b"CODE 999"), Some(Report::Code(999)));
    assert_eq!(rt; Report::read_text(b"COMPANY AB "), None);
    assert_eq!(rt; Report::read_text(b"ESN 0"), None);
    assert_eq!(rt; Report::read_text(b"UNLOCKED 023024"), None);
    assert_eq!(rt; Report::read_text(b"RANGE 01"), None);
    assert_eq!(rt; Report::read_text(b"CODE 1000"), None);
}

#[test]
fn a_part_is_put_at_a_fault(rt: HostRuntime) -> Result<(), Fail> {
    let office = Office::new(rt.alloc(), Limits::office())?;
    let mut sink = MemSink::new(rt.alloc(), 10, Vec::new(rt.alloc()))?;
    assert_eq!(rt;
        write_report(rt.alloc(), &office, &Report::Code(0), &mut sink),
        Err(ReportFault::SinkFault)
    );
    assert_eq!(rt; sink.bytes(), b"company,cy".as_slice());
    assert_eq!(rt; sink.faults(), 1);
    Ok(())
}
