//! Worked forms.
use crate::form;
use ali_base::{Company, Day, Tn};
use ali_record::{Record, read_record};
use number_life::Row;
use office_fixtures::{SentRecord, put};
use std::test::Fail;

// The record of a company, where it is one.
fn record(bytes: &[u8; 512]) -> Option<Record> {
    read_record(bytes, Company::read(b"ABC01")?).ok()
}

// The form of a number that has this record and this day of unlocking.
fn form_of(bytes: &[u8; 512], unlocked: Option<Day>, out: &mut [u8; 640]) -> Option<usize> {
    let rec = record(bytes)?;
    let tn = rec.tn();
    Some(form(Some(&Row { rec, unlocked }), tn, out))
}

// Whether the bytes begin with a text.
fn begins(out: &[u8; 640], text: &[u8]) -> bool {
    out.starts_with(text)
}

#[test]
fn forms_of_numbers(rt: HostRuntime) -> Result<(), Fail> {
    let mut out = [0; 640];
    let sent = SentRecord::new(b'I', b"3035550100", b"00100").bytes();
    let len = form_of(&sent, None, &mut out);
    let want =
        b"TN 3035550100 CLASS 1 TYPE 0\nNAME JOHN SMITH\nADDR 100 MAIN ST\nCITY DENVER CO\nLOC\nESN CO ABC01 LOCKED\n";
    assert_eq!(rt; len, Some(want.len()));
    assert!(rt; begins(&out, want.as_slice()));
    // The longest, with a text in every column.
    let mut sent = SentRecord::new(b'I', b"3035550100", b"999999").bytes();
    put(&mut sent, 22, &[b'A'; 198]);
    put(&mut sent, 226, b"00101");
    let day = Day::read(b"010224");
    assert_eq!(rt; form_of(&sent, day, &mut out), Some(290));
    Ok(())
}

#[test]
fn the_form_of_no_record(rt: HostRuntime) -> Result<(), Fail> {
    let mut out = [0; 640];
    let want = b"TN 3035550100 NO RECORD FOUND\n";
    let len = Tn::read(b"3035550100").map(|tn| form(None, tn, &mut out));
    assert_eq!(rt; len, Some(want.len()));
    assert!(rt; begins(&out, want.as_slice()));
    Ok(())
}
