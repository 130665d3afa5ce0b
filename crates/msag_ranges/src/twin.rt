//! The guide's slow twin: each look-up as a scan of all ranges, over guides that are made at random.

use super::*;
use crate::tests::{add, move_to};
use ali_base::{Esn, House, Parity, StreetKey};
use office_fixtures::street;
use std::test::Fail;

// A small linear congruential generator.
#[derive(Drop)]
struct Dice {
    state: u32,
}

impl Dice {
    // A number below this one; 0 where there is none.
    fn below(&mut self, limit: u32) -> u32 {
        self.state = self
            .state
            .wrapping_mul(1_664_525)
            .wrapping_add(1_013_904_223);
        (self.state >> 8).checked_rem(limit).unwrap_or(0)
    }

    fn street(&mut self) -> StreetKey {
        match self.below(3) {
            0 => street(b"MAIN"),
            1 => street(b"OAK"),
            _ => street(b"ELM"),
        }
    }

    fn parity(&mut self) -> Parity {
        match self.below(3) {
            0 => Parity::Odd,
            1 => Parity::Even,
            _ => Parity::Both,
        }
    }

    fn range(&mut self) -> Option<Range> {
        let low = self.below(60);
        let high = low.saturating_add(self.below(9));
        Some(Range {
            id: 0,
            key: self.street(),
            low: House::new(low)?,
            high: House::new(high)?,
            parity: self.parity(),
            esn: Esn::new(1)?,
        })
    }

    fn id(&mut self, guide: &Guide) -> u32 {
        self.below(guide.next_id())
    }
}

fn remove(guide: &mut Guide, id: u32) {
    if guide.get(id).is_some() {
        guide.remove(id);
    }
}

// A change at random.
fn change(guide: &mut Guide, dice: &mut Dice) {
    let Some(range) = dice.range() else {
        return;
    };
    let id = dice.id(guide);
    match dice.below(8) {
        0 => remove(guide, id),
        1 | 2 => {
            move_to(guide, id, range.low, range.high, range.esn);
        }
        _ => {
            add(guide, Some(range));
        }
    }
}

// The id of the range that holds the number, or why none does.
fn looked_up(guide: &Guide, key: &StreetKey, n: House) -> (Option<u32>, u16) {
    match guide.holder_of(key, n) {
        Some(range) => (Some(range.id), 0),
        None => (None, guide.nearest_fault(key, n)),
    }
}

fn scanned(ranges: &[Range], key: &StreetKey, n: House) -> (Option<u32>, u16) {
    let mut code = 201;
    for range in ranges {
        if holds(range, key, n) {
            return (Some(range.id), 0);
        }
        if range.key == *key {
            if range.low <= n && n <= range.high {
                code = 203;
            } else if code == 201 {
                code = 202;
            }
        }
    }
    (None, code)
}

fn scanned_overlap(ranges: &[Range], range: &Range, except: Option<u32>) -> Option<u32> {
    for other in ranges {
        if Some(other.id) != except && overlaps(range, other) {
            return Some(other.id);
        }
    }
    None
}

fn scanned_esn(ranges: &[Range], id: u32) -> Option<u32> {
    for range in ranges {
        if range.id == id {
            return Some(range.esn.number());
        }
    }
    None
}

// Over each of 500 guides, of up to 30 ranges in three streets, a look-up by the index answers as the
// scan does.
#[test]
fn index_answers_as_a_scan(rt: HostRuntime) -> Result<(), Fail> {
    let mut dice = Dice { state: 9 };
    let mut guide = Guide::new(rt.alloc(), 30)?;
    for _ in 0..500 {
        change(&mut guide, &mut dice);
        let key = dice.street();
        if let Some(n) = House::new(dice.below(70)) {
            assert_eq!(rt;
                looked_up(&guide, &key, n),
                scanned(guide.in_order(), &key, n)
            );
        }
        let id = dice.id(&guide);
        if let Some(range) = dice.range() {
            assert_eq!(rt;
                guide.overlap(&range, Some(id)),
                scanned_overlap(guide.in_order(), &range, Some(id))
            );
        }
        let esn = guide.get(id).map(|range| range.esn.number());
        assert_eq!(rt; esn, scanned_esn(guide.in_order(), id));
    }
    Ok(())
}
