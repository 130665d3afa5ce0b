//! Entries go into the index and out of it, in the room that is there.
ghost use Rattle.std.specs.Prelude.{◌≡◌, ◌+◌, ◌<◌, ◌≤◌, Bool, true, length, vec_capacity, vec_len, Contains, ◌↔◌, ◌⊎◌};
ghost use Rattle.msag_ranges.specs.declared.place.Entry.{Entry};
ghost use Rattle.msag_ranges.specs.GuideIndex.{Rises, IsFree, IsClassEntry, IsEntryOf, class_of, class_entry, has_class, entry_of};

use crate::held_numbers::{has_parity, least_from};
use crate::place::{Entry, Place};
use crate::range::Range;
use crate::search::split;
use ali_base::Parity;

// The parity of the odd numbers, or of the even ones.
fn class_of(odd: bool) -> Parity
    ensures { result ≡ class_of odd }
{
    if odd { Parity::Odd } else { Parity::Even }
}

// The range's entry for its odd numbers, or for its even ones; None where it holds none of them.
fn class_entry(range: &Range, odd: bool) -> Option<Entry>
    ensures { result ≡ class_entry range.now odd }
{
    let number = least_from(class_of(odd), range.low.number());
    if number <= range.high.number() && has_parity(range.parity, number) {
        let key = range.key;
        Some(Entry {
            place: Place { key, odd, number },
            id: range.id,
        })
    } else {
        None
    }
}

// Puts an entry where it belongs.
fn put(index: &mut Vec<Entry>, entry: Entry)
    requires room { vec_len index.old < vec_capacity index.old }
    requires rising { Rises index.old.items }
    requires free { IsFree index.old.items entry.place }
    ensures rising { Rises index.new.items }
    ensures among { (e : Entry) → Contains index.new.items e
        ↔ (Contains index.old.items e ⊎ (e ≡ entry)) }
    ensures len { length index.new.items ≡ length index.old.items + 1 }
    ensures room { vec_capacity index.old ≤ vec_capacity index.new }
{
    let at = split(index, &entry.place);
    match index.insert(at, entry) {
        Ok(()) => {}
        Err(_) => unreachable!(),
    }
}

// Takes an entry out.
fn take(index: &mut Vec<Entry>, entry: &Entry)
    requires rising { Rises index.old.items }
    requires there { Contains index.old.items entry.now }
    ensures rising { Rises index.new.items }
    ensures among { (e : Entry) → Contains index.new.items e
        ↔ (Contains index.old.items e × (e ≡ entry.now → ⊥)) }
    ensures room { vec_capacity index.old ≤ vec_capacity index.new }
{
    let count = split(index, &entry.place);
    index.remove(count - 1);
}

// Puts the range's entry of one class in, where it has one.
fn put_class(index: &mut Vec<Entry>, range: &Range, odd: bool)
    requires room { vec_len index.old < vec_capacity index.old }
    requires rising { Rises index.old.items }
    requires free { has_class range.now odd ≡ true
        → IsFree index.old.items (entry_of range.now odd).place }
    ensures rising { Rises index.new.items }
    ensures among { (e : Entry) → Contains index.new.items e
        ↔ (Contains index.old.items e ⊎ IsClassEntry range.now odd e) }
    ensures len { length index.new.items ≤ length index.old.items + 1 }
    ensures room { vec_capacity index.old ≤ vec_capacity index.new }
{
    if let Some(entry) = class_entry(range, odd) {
        put(index, entry);
    }
}

// Takes the range's entry of one class out, where it has one.
fn take_class(index: &mut Vec<Entry>, range: &Range, odd: bool)
    requires rising { Rises index.old.items }
    requires there { has_class range.now odd ≡ true
        → Contains index.old.items (entry_of range.now odd) }
    ensures rising { Rises index.new.items }
    ensures among { (e : Entry) → Contains index.new.items e
        ↔ (Contains index.old.items e × (IsClassEntry range.now odd e → ⊥)) }
    ensures room { vec_capacity index.old ≤ vec_capacity index.new }
{
    if let Some(entry) = class_entry(range, odd) {
        take(index, &entry);
    }
}

/// Puts the range's entries into the index. No entry stands at the place of one of them.
pub(crate) fn put_range(index: &mut Vec<Entry>, range: &Range)
    requires room { length index.old.items + 2 ≤ vec_capacity index.old }
    requires rising { Rises index.old.items }
    requires free { (odd : Bool) → has_class range.now odd ≡ true
        → IsFree index.old.items (entry_of range.now odd).place }
    ensures rising { Rises index.new.items }
    ensures among { (e : Entry) → Contains index.new.items e
        ↔ (Contains index.old.items e ⊎ IsEntryOf range.now e) }
    ensures room { vec_capacity index.old ≤ vec_capacity index.new }
{
    put_class(index, range, false);
    put_class(index, range, true);
}

/// Takes the range's entries out of the index, which has them.
pub(crate) fn take_range(index: &mut Vec<Entry>, range: &Range)
    requires rising { Rises index.old.items }
    requires there { (odd : Bool) → has_class range.now odd ≡ true
        → Contains index.old.items (entry_of range.now odd) }
    ensures rising { Rises index.new.items }
    ensures among { (e : Entry) → Contains index.new.items e
        ↔ (Contains index.old.items e × (IsEntryOf range.now e → ⊥)) }
    ensures room { vec_capacity index.old ≤ vec_capacity index.new }
{
    take_class(index, range, false);
    take_class(index, range, true);
}
