ghost use Rattle.std.specs.Prelude.{◌≤◌, length};

use super::*;
use ali_base::{Company, Tn};
use ali_record::{Field, Record, read_record};
use msag_ranges::Guide;
use number_life::Row;
use number_table::Rows;
use office_entry::Edit;
use office_fixtures::SentRecord;
use std::test::Fail;

// Applies the edit of a text, and answers its code and detail; None where it is no edit, or memory
// or ids ran out.
fn apply(guide: &mut Guide, rows: &mut Rows, text: &[u8]) -> Option<(u16, u64)> {
    let edit = Edit::read_text(text)?;
    if guide.next_id() == u32::MAX {
        return None;
    }
    let verdict = apply_edit(guide, rows, &edit).ok()?;
    Some((verdict.code, verdict.detail))
}

// An insert of a number at an address in Denver.
fn record(tn: &[u8; 10], house: &[u8], street: &[u8], esn: &[u8]) -> Option<Record>
    requires house { length house.now ≤ 10 }
    requires street { length street.now ≤ 60 }
    requires esn { length esn.now ≤ 5 }
{
    let sent = SentRecord {
        street,
        esn,
        ..SentRecord::new(b'I', tn, house)
    };
    read_record(&sent.bytes(), Company::read(b"ABC01")?).ok()
}

// Puts a locked row of a street into the table; None where it is no record, or there is no room.
fn insert(rows: &mut Rows, tn: &[u8; 10], house: &[u8], name: &[u8], esn: &[u8]) -> Option<()>
    requires house { length house.now ≤ 10 }
    requires name { length name.now ≤ 60 }
    requires esn { length esn.now ≤ 5 }
{
    let rec = record(tn, house, name, esn)?;
    let tn = rec.tn();
    let unlocked = None;
    if rows.len() == u32::MAX {
        return None;
    }
    rows.insert(tn, Row { rec, unlocked }).ok()
}

// Whether the number has a row with these columns of house number and ESN.
fn shows(rows: &Rows, tn: &[u8], house: &[u8], esn: &[u8]) -> bool {
    let Some(tn) = Tn::read(tn) else {
        return false;
    };
    match rows.get(tn) {
        Some(row) => row.rec.field(Field::HouseNumber) == house && row.rec.field(Field::Esn) == esn,
        None => false,
    }
}

// The ends and the ESN of the range of this id.
fn range(guide: &Guide, id: u32) -> Option<(u32, u32, u32)> {
    let range = guide.get(id)?;
    Some((range.low.number(), range.high.number(), range.esn.number()))
}

// A split takes the rows above it along; a part that holds no number, and a range in use, are refused.
#[test]
fn splits_a_used_range(rt: HostRuntime) -> Result<(), Fail> {
    let mut guide = Guide::new(rt.alloc(), 10)?;
    let mut rows = Rows::new(rt.alloc());
    let add = b"ADD DENVER|CO||MAIN|ST||100|198|E|101";
    assert_eq!(rt; apply(&mut guide, &mut rows, add), Some((0, 1)));
    assert_eq!(rt;
        insert(&mut rows, b"3035550100", b"100", b"MAIN", b"00101"),
        Some(())
    );
    assert_eq!(rt;
        insert(&mut rows, b"3035550150", b"150", b"MAIN", b"00101"),
        Some(())
    );
    assert_eq!(rt;
        apply(&mut guide, &mut rows, b"SPLIT 1 149 102"),
        Some((0, 2))
    );
    assert_eq!(rt; range(&guide, 1), Some((100, 148, 101)));
    assert_eq!(rt; range(&guide, 2), Some((150, 198, 102)));
    assert!(rt; shows(&rows, b"3035550150", b"150       ", b"00102"));
    assert!(rt; shows(&rows, b"3035550100", b"100       ", b"00101"));
    assert_eq!(rt;
        apply(&mut guide, &mut rows, b"SPLIT 1 198 103"),
        Some((505, 0))
    );
    assert_eq!(rt;
        apply(&mut guide, &mut rows, b"RETIRE 2"),
        Some((504, 3_035_550_150))
    );
    assert_eq!(rt; range(&guide, 2), Some((150, 198, 102)));
    Ok(())
}

// A renumbering is refused over another range, by an odd difference and past 0, and else moves ends
// and rows.
#[test]
fn renumbers_a_used_range(rt: HostRuntime) -> Result<(), Fail> {
    let mut guide = Guide::new(rt.alloc(), 10)?;
    let mut rows = Rows::new(rt.alloc());
    let add = b"ADD DENVER|CO||MAIN|ST||100|198|E|101";
    assert_eq!(rt; apply(&mut guide, &mut rows, add), Some((0, 1)));
    let other = b"ADD DENVER|CO||MAIN|ST||200|298|E|101";
    assert_eq!(rt; apply(&mut guide, &mut rows, other), Some((0, 2)));
    assert_eq!(rt;
        insert(&mut rows, b"3035550200", b"200", b"MAIN", b"00101"),
        Some(())
    );
    let cases = [
        (b"RENUMBER 2 -100".as_slice(), (502, 1)),
        (b"RENUMBER 2 -101", (507, 0)),
        (b"RENUMBER 1 -102", (506, 0)),
        (b"RENUMBER 2 +50", (0, 1)),
        (b"RENUMBER 3 +2", (501, 0)),
        // An odd difference is told before an end past 0, and that before an overlap.
        (b"RENUMBER 1 -999999", (507, 0)),
        (b"RENUMBER 1 +999802", (506, 0)),
        (b"RENUMBER 1 +999800", (0, 0)),
    ];
    for (text, want) in cases {
        assert_eq!(rt; apply(&mut guide, &mut rows, text), Some(want), "{want:?}");
    }
    assert_eq!(rt; range(&guide, 2), Some((250, 348, 101)));
    assert_eq!(rt; range(&guide, 1), Some((999_900, 999_998, 101)));
    assert!(rt; shows(&rows, b"3035550200", b"250       ", b"00101"));
    Ok(())
}

// A renumbering by 0 is lawful: it writes the house numbers anew, and answers how many they are.
#[test]
fn renumbers_by_nothing(rt: HostRuntime) -> Result<(), Fail> {
    let mut guide = Guide::new(rt.alloc(), 10)?;
    let mut rows = Rows::new(rt.alloc());
    let add = b"ADD DENVER|CO||ZERO|ST||0|9|B|8";
    assert_eq!(rt; apply(&mut guide, &mut rows, add), Some((0, 1)));
    assert_eq!(rt;
        apply(&mut guide, &mut rows, b"RENUMBER 1 +0"),
        Some((0, 0))
    );
    assert_eq!(rt;
        insert(&mut rows, b"3035550001", b"", b"ZERO", b"00008"),
        Some(())
    );
    assert_eq!(rt;
        insert(&mut rows, b"3035550002", b"  007", b"Zero", b"00008"),
        Some(())
    );
    assert_eq!(rt;
        insert(&mut rows, b"3035550003", b"000", b"NULL", b"00008"),
        Some(())
    );
    assert_eq!(rt;
        apply(&mut guide, &mut rows, b"RENUMBER 1 +0"),
        Some((0, 2))
    );
    assert!(rt; shows(&rows, b"3035550001", b"0         ", b"00008"));
    assert!(rt; shows(&rows, b"3035550002", b"7         ", b"00008"));
    assert!(rt; shows(&rows, b"3035550003", b"000       ", b"00008"));
    Ok(())
}

// Each code, where several apply the first of its edit's order, and then what is done.
#[test]
fn tests_codes_in_order(rt: HostRuntime) -> Result<(), Fail> {
    let mut guide = Guide::new(rt.alloc(), 3)?;
    let mut rows = Rows::new(rt.alloc());
    let cases = [
        (b"RETIRE 1".as_slice(), (501, 0)),
        (b"SETESN 1 0", (501, 0)),
        (b"SPLIT 1 0 0", (501, 0)),
        (b"RENUMBER 1 -1", (501, 0)),
        (b"ADD DENVER|CO||MAIN|ST||101|198|E|0", (503, 0)),
        (b"ADD DENVER|CO||MAIN|ST||100|199|E|101", (503, 0)),
        (b"ADD DENVER|CO||MAIN|ST||200|198|E|101", (503, 0)),
        (b"ADD DENVER|CO||MAIN|ST||100|198|E|0", (508, 0)),
        (b"ADD DENVER|CO||MAIN|ST||100|198|E|100000", (508, 0)),
        (b"ADD DENVER|CO||MAIN|ST||100|198|E|101", (0, 1)),
        (b"ADD denver|CO||MAIN|ST||198|300|B|101", (502, 1)),
        (b"ADD denver|CO||MAIN|ST||198|300|B|0", (508, 0)),
        (b"ADD DENVER|CO||MAIN|ST||101|199|O|99999", (0, 2)),
        (b"SETESN 1 0", (508, 0)),
        (b"SETESN 1 100000", (508, 0)),
        (b"SETESN 1 7", (0, 0)),
        // Nothing at `at` or below it, or nothing above it.
        (b"SPLIT 1 99 0", (505, 0)),
        (b"SPLIT 1 198 0", (505, 0)),
        (b"SPLIT 1 999999 0", (505, 0)),
        (b"SPLIT 1 197 0", (508, 0)),
        // The last number alone, and the first alone.
        (b"SPLIT 1 197 9", (0, 3)),
        (b"SPLIT 2 101 9", (509, 0)),
        (b"ADD DENVER|CO||OAK|ST||1|1|O|1", (509, 0)),
        (b"ADD DENVER|CO||MAIN|ST||198|198|E|1", (502, 3)),
        (b"RETIRE 3", (0, 0)),
        (b"RETIRE 3", (501, 0)),
        // Ids are never used again.
        (b"SPLIT 2 102 9", (0, 4)),
    ];
    for (text, want) in cases {
        assert_eq!(rt; apply(&mut guide, &mut rows, text), Some(want), "{want:?}");
    }
    assert_eq!(rt; range(&guide, 1), Some((100, 196, 7)));
    assert_eq!(rt; range(&guide, 2), Some((101, 101, 99_999)));
    assert_eq!(rt; range(&guide, 3), None);
    assert_eq!(rt; range(&guide, 4), Some((103, 199, 9)));
    Ok(())
}

// A new number of a range is written into its rows, and into no others.
#[test]
fn sets_the_number_of_a_range(rt: HostRuntime) -> Result<(), Fail> {
    let mut guide = Guide::new(rt.alloc(), 3)?;
    let mut rows = Rows::new(rt.alloc());
    let add = b"ADD DENVER|CO||MAIN|ST||100|198|E|101";
    assert_eq!(rt; apply(&mut guide, &mut rows, add), Some((0, 1)));
    let add = b"ADD DENVER|CO||MAIN|ST||101|199|O|101";
    assert_eq!(rt; apply(&mut guide, &mut rows, add), Some((0, 2)));
    assert_eq!(rt;
        insert(&mut rows, b"3035550100", b"100", b"MAIN", b"00101"),
        Some(())
    );
    assert_eq!(rt;
        insert(&mut rows, b"3035550101", b"101", b"MAIN", b"00101"),
        Some(())
    );
    assert_eq!(rt;
        insert(&mut rows, b"0000000007", b"198", b"MAIN", b"00101"),
        Some(())
    );
    assert_eq!(rt;
        apply(&mut guide, &mut rows, b"SETESN 1 99999"),
        Some((0, 2))
    );
    assert!(rt; shows(&rows, b"3035550100", b"100       ", b"99999"));
    assert!(rt; shows(&rows, b"3035550101", b"101       ", b"00101"));
    assert!(rt; shows(&rows, b"0000000007", b"198       ", b"99999"));
    assert_eq!(rt; apply(&mut guide, &mut rows, b"RETIRE 1"), Some((504, 7)));
    assert_eq!(rt; range(&guide, 1), Some((100, 198, 99_999)));
    Ok(())
}
