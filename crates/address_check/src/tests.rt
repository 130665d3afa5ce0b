//! Addresses with the range that holds each, or the code that each gets.
ghost use Rattle.std.specs.Prelude.{◌≤◌, length};

use super::*;
use ali_base::{Company, Esn, HIGHEST_HOUSE, House, Parity};
use ali_record::{Record, read_record};
use msag_ranges::{Guide, Range, has_sound_ends};
use office_fixtures::{SentRecord, street};
use std::test::Fail;

// Adds a range with the parity of its low end where it may stand and there is room, and answers its id.
fn add(guide: &mut Guide, name: &[u8], low: u32, high: u32, esn: u32) -> Option<u32>
    requires { length name.now ≤ 60 }
{
    let range = Range {
        id: guide.next_id(),
        key: street(name),
        low: House::new(low)?,
        high: House::new(high)?,
        parity: if low % 2 == 1 {
            Parity::Odd
        } else {
            Parity::Even
        },
        esn: Esn::new(esn)?,
    };
    if !has_sound_ends(&range) || guide.overlap(&range, None).is_some() || range.id == u32::MAX {
        return None;
    }
    guide.ready().ok()?;
    Some(guide.add(range.key, range.low, range.high, range.parity, range.esn))
}

// An insert of one number at an address in Denver.
fn record(house: &[u8], street: &[u8], esn: &[u8]) -> Option<Record>
    requires house { length house.now ≤ 10 }
    requires street { length street.now ≤ 60 }
    requires esn { length esn.now ≤ 5 }
{
    let sent = SentRecord {
        street,
        esn,
        ..SentRecord::new(b'I', b"3035550100", house)
    };
    read_record(&sent.bytes(), Company::read(b"ABC01")?).ok()
}

// The id of the range that holds the address, or the code.
fn placed(guide: &Guide, rec: &Record) -> (u32, u16) {
    if rec.house().is_none() {
        return (0, 0);
    }
    match check(guide, rec) {
        Ok((id, _)) => (id, 0),
        Err(code) => (0, code),
    }
}

// Addresses with the range that holds each, or the code that it gets.
#[test]
fn places_addresses(rt: HostRuntime) -> Result<(), Fail> {
    let mut guide = Guide::new(rt.alloc(), 3)?;
    assert_eq!(rt; add(&mut guide, b"MAIN", 100, 198, 101), Some(1));
    assert_eq!(rt;
        add(&mut guide, b"EDGE", HIGHEST_HOUSE, HIGHEST_HOUSE, 7),
        Some(2)
    );
    assert_eq!(rt; add(&mut guide, b"ZERO", 0, 0, 8), Some(3));
    let cases = [
        (
            b"101".as_slice(),
            b"MAIN".as_slice(),
            b"".as_slice(),
            (0, 203),
        ),
        (b"199", b"MAIN", b"", (0, 202)),
        (b"100", b"OAK", b"", (0, 201)),
        (b"100", b"MAIN", b"00102", (0, 204)),
        (b"999999", b"EDGE", b"", (2, 0)),
        (b"", b"ZERO", b"", (3, 0)),
        (b" 0198", b"Main", b"  101", (1, 0)),
        (b"100", b"MAIN", b"0101 ", (1, 0)),
        (b"100", b"MAIN", b"101", (1, 0)),
        (b"100", b"MAIN", b"00000", (0, 204)),
        (b"100", b"MAIN", b"0 101", (0, 204)),
        (b"100", b"MAIN", b"1O1", (0, 204)),
    ];
    for (house, name, esn, want) in cases {
        assert!(rt; house.len() <= 10 && name.len() <= 60 && esn.len() <= 5);
        let rec = record(house, name, esn).expect(&rt, "a record");
        assert_eq!(rt; placed(&guide, &rec), want, "{want:?}");
    }
    Ok(())
}
