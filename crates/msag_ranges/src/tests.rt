//! Ranges and guides, against answers that were written down apart from them.
ghost use Rattle.std.specs.Prelude.{◌≤◌, length};

use super::*;
use ali_base::{Esn, House, Parity};
use office_fixtures::street;
use std::test::Fail;

// A range of a street, if the numbers are in their limits.
fn range(name: &[u8], low: u32, high: u32, parity: Parity, esn: u32) -> Option<Range>
    requires { length name.now ≤ 60 }
{
    Some(Range {
        id: 0,
        key: street(name),
        low: House::new(low)?,
        high: House::new(high)?,
        parity,
        esn: Esn::new(esn)?,
    })
}

// Adds the range where it may stand and there is room, and answers its id.
pub(crate) fn add(guide: &mut Guide, range: Option<Range>) -> Option<u32> {
    let mut range = range?;
    range.id = guide.next_id();
    if !has_sound_ends(&range) || guide.overlap(&range, None).is_some() || range.id == u32::MAX {
        return None;
    }
    guide.ready().ok()?;
    Some(guide.add(range.key, range.low, range.high, range.parity, range.esn))
}

// Gives the range of this id other ends and another number, where it may stand so.
pub(crate) fn move_to(guide: &mut Guide, id: u32, low: House, high: House, esn: Esn) -> bool {
    let Some(found) = guide.get(id).copied() else {
        return false;
    };
    let moved = Range {
        id: found.id,
        key: found.key,
        low,
        high,
        parity: found.parity,
        esn,
    };
    if !has_sound_ends(&moved) || guide.overlap(&moved, Some(id)).is_some() {
        return false;
    }
    guide.set(id, low, high, esn);
    true
}

// Whether the range has the number, from scratch.
fn has(low: u32, high: u32, parity: Parity, n: u32) -> bool {
    let fits = match parity {
        Parity::Both => true,
        Parity::Odd => n % 2 == 1,
        Parity::Even => n % 2 == 0,
    };
    low <= n && n <= high && fits
}

// Two ranges overlap exactly where a number is counted in both: ends that are equal, nested, touching,
// next to one another, apart and crossed, under each pair of parities.
#[test]
fn overlap_is_a_shared_number(rt: HostRuntime) -> Result<(), Fail> {
    let parities = [Parity::Odd, Parity::Even, Parity::Both];
    let spans = [
        (4, 8),
        (5, 7),
        (8, 8),
        (7, 9),
        (8, 12),
        (9, 12),
        (10, 11),
        (3, 5),
        (4, 4),
        (9, 3),
    ];
    for a in parities {
        for b in parities {
            for (low, high) in spans {
                let mut shared = 0_u64;
                for n in 0..16 {
                    if has(4, 8, a, n) && has(low, high, b, n) {
                        shared = shared.saturating_add(1);
                    }
                }
                let one = range(b"MAIN", 4, 8, a, 1);
                let other = range(b"MAIN", low, high, b, 1);
                if let (Some(one), Some(other)) = (one, other) {
                    assert_eq!(rt;
                        overlaps(&one, &other),
                        shared > 0,
                        "{a:?} {b:?} {low} {high}"
                    );
                    assert_eq!(rt;
                        overlaps(&other, &one),
                        shared > 0,
                        "{a:?} {b:?} {low} {high}"
                    );
                }
            }
        }
    }
    Ok(())
}

// With ample memory there is room up to the limit; ids are not used again; clearing begins anew.
#[test]
fn guide_keeps_its_limit_and_its_ids(rt: HostRuntime) -> Result<(), Fail> {
    let mut guide = Guide::new(rt.alloc(), 2)?;
    assert_eq!(rt;
        add(&mut guide, range(b"MAIN", 100, 198, Parity::Even, 101)),
        Some(1)
    );
    assert_eq!(rt;
        add(&mut guide, range(b"MAIN", 150, 160, Parity::Both, 102)),
        None
    );
    assert_eq!(rt;
        add(&mut guide, range(b"MAIN", 101, 199, Parity::Odd, 102)),
        Some(2)
    );
    assert_eq!(rt; guide.ready(), Err(GuideFault::Full(2)));
    if guide.get(1).is_some() {
        guide.remove(1);
    }
    assert_eq!(rt; guide.in_order().len(), 1);
    assert_eq!(rt;
        add(&mut guide, range(b"MAIN", 200, 298, Parity::Both, 103)),
        Some(3)
    );
    assert_eq!(rt; guide.next_id(), 4);
    guide.clear();
    assert_eq!(rt; guide.next_id(), 1);
    assert_eq!(rt;
        add(&mut guide, range(b"MAIN", 7, 7, Parity::Odd, 1)),
        Some(1)
    );
    Ok(())
}

// A range is moved where it overlaps no other than itself.
#[test]
fn range_is_compared_with_the_others(rt: HostRuntime) -> Result<(), Fail> {
    let mut guide = Guide::new(rt.alloc(), 9)?;
    assert_eq!(rt;
        add(&mut guide, range(b"MAIN", 100, 198, Parity::Even, 101)),
        Some(1)
    );
    assert_eq!(rt;
        add(&mut guide, range(b"MAIN", 200, 298, Parity::Even, 101)),
        Some(2)
    );
    assert_eq!(rt;
        add(&mut guide, range(b"MAIN", 300, 300, Parity::Both, 101)),
        Some(3)
    );
    if let Some(moved) = range(b"MAIN", 198, 300, Parity::Even, 104) {
        assert_eq!(rt; guide.overlap(&moved, None), Some(1));
        assert_eq!(rt; guide.overlap(&moved, Some(1)), Some(2));
    }
    if let Some(moved) = range(b"MAIN", 210, 220, Parity::Even, 104) {
        assert_eq!(rt; guide.overlap(&moved, Some(2)), None);
        assert!(rt; move_to(&mut guide, 2, moved.low, moved.high, moved.esn));
    }
    let ends = guide.in_order().iter().map(|r| (
        r.id,
        r.low.number(),
        r.high.number(),
        r.esn.number(),
    ));
    let mut want = [(1, 100, 198, 101), (2, 210, 220, 104), (3, 300, 300, 101)].iter();
    for found in ends {
        assert_eq!(rt; Some(&found), want.next());
    }
    Ok(())
}
