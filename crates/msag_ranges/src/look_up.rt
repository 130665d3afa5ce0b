//! What is looked up in a guide, by its index.
ghost use Rattle.std.specs.Prelude.{◌≡◌, ℕ, ◌+◌, ◌-◌, ◌*◌, ◌^◌, ◌≤◌, ◌&&◌, length, Some, None, IfSome, IsSomeAnd, Contains, IsTrue, ◌↔◌, ◌<◌, true};
ghost use Rattle.std.specs.List.{list_any};
ghost use Rattle.std.specs.Option.{option_copied};
ghost use Rattle.ali_base.specs.StreetKey.{same_key};
ghost use Rattle.msag_ranges.specs.StreetGuide.{IsSoundGuide, is_between_ends, is_held, holds, holder, nearest_fault, least_overlap};
ghost use Rattle.msag_ranges.specs.GuideIndex.{Rises, is_odd, entry_of, lesser, overlaps_id, IsOf};
ghost use Rattle.msag_ranges.specs.declared.range.Range.{Range};
ghost use Rattle.msag_ranges.specs.declared.place.Entry.{Entry};

use crate::guide::Guide;
use crate::held_numbers::{holds, same_key};
use crate::overlap::{is_other, overlaps};
use crate::place::{Entry, Place};
use crate::range::Range;
use crate::search::{entries_to, split};
use crate::steps::Steps;
use ali_base::{House, StreetKey};
use std::marker::Brand;
use std::sync::ledger::{Blank, Ledger};

impl Guide {
    /// The range that holds this number of this street.
    pub fn holder_of(&self, key: &StreetKey, n: House) -> Option<&Range>
        ensures value { option_copied result ≡ holder self.now.ranges key.now n }
        // Whichever range holds it is the one.
        ensures only { (r : Range) → Contains self.now.ranges r → holds r key.now n ≡ true
            → option_copied result ≡ Some r }
    {
        self.find_with::<Brand>(key, n, Blank::new(1))
    }

    // The same, by a count that nobody reads.
    fn find_with<L: Ledger>(&self, key: &StreetKey, n: House, blank: Blank) -> Option<&Range>
        requires name { blank.name ≡ L.name }
        requires parts { blank.parts ≡ L.parts }
        requires some { 0 < L.parts }
        ensures value { option_copied result ≡ holder self.now.ranges key.now n }
        ensures only { (r : Range) → Contains self.now.ranges r → holds r key.now n ≡ true
            → option_copied result ≡ Some r }
    {
        self.find(key, n, &mut Steps::<L>::new(blank))
    }

    /// The range that holds this number of this street. A step compares its place with one entry of
    /// the index.
    pub fn find<L: Ledger>(&self, key: &StreetKey, n: House, steps: &mut Steps<L>) -> Option<&Range>
        ensures value { option_copied result ≡ holder self.now.ranges key.now n }
        // Whichever range holds it is the one.
        ensures only { (r : Range) → Contains self.now.ranges r → holds r key.now n ≡ true
            → option_copied result ≡ Some r }
        // With R ranges it takes t steps, where 2 ^ t ≤ 4 * R + 1: in an empty guide none.
        ensures cost { 2 ^ (steps.new - steps.old) ≤ 4 * length self.now.ranges + 1 }
        ensures counts { steps.old ≤ steps.new }
    {
        match self.last_begun(key, n, steps) {
            Some(range) => {
                if holds(range, key, n) {
                    Some(range)
                } else {
                    None
                }
            }
            None => None,
        }
    }

    // The range of the last entry that stands at the number's place or before it, if there is one. If a
    // range holds the number, it is this one.
    fn last_begun<L: Ledger>(
        &self,
        key: &StreetKey,
        n: House,
        steps: &mut Steps<L>,
    ) -> Option<&Range>
        ensures there { IfSome (option_copied result) (λ r. Contains self.now.ranges r) }
        ensures holder { (r : Range) → Contains self.now.ranges r → holds r key.now n ≡ true
            → option_copied result ≡ Some r }
        ensures cost { 2 ^ (steps.new - steps.old) ≤ 4 * length self.now.ranges + 1 }
        ensures counts { steps.old ≤ steps.new }
        ensures sound { IsSoundGuide self.now.ranges self.now.next self.now.limit }
    {
        let number = n.number();
        let place = Place {
            key: *key,
            odd: number % 2 == 1,
            number,
        };
        let entries = self.entries();
        let count = entries_to(entries, &place, steps);
        if count == 0 {
            return None;
        }
        self.get(entries[count - 1].id)
    }

    /// Why no range holds this number of this street, asked where none does: 201 no range has the
    /// street, 203 one of the street has the number between its ends, 202 otherwise.
    pub fn nearest_fault(&self, key: &StreetKey, n: House) -> u16
        requires { holder self.now.ranges key.now n ≡ None }
        ensures { result ≡ nearest_fault self.now.ranges key.now n }
    {
        if !self.has_street(key) {
            201
        } else if self.has_between_ends(key, n) {
            203
        } else {
            202
        }
    }

    // Whether a range has this street.
    fn has_street(&self, key: &StreetKey) -> bool
        ensures value { result ≡ list_any (λ r. same_key r.key key.now) self.now.ranges }
        ensures sound { IsSoundGuide self.now.ranges self.now.next self.now.limit }
    {
        let entries = self.entries();
        let place = Place {
            key: *key,
            odd: false,
            number: 0,
        };
        let count = split(entries, &place);
        count > 0 && is_of(entries, count - 1, key) || is_of(entries, count, key)
    }

    // Whether a range of this street has the number between its ends, where none holds it: such a
    // range holds the number before it.
    fn has_between_ends(&self, key: &StreetKey, n: House) -> bool
        requires none { holder self.now.ranges key.now n ≡ None }
        requires sound { IsSoundGuide self.now.ranges self.now.next self.now.limit }
        ensures { result
            ≡ list_any (λ r. same_key r.key key.now && is_between_ends r n) self.now.ranges }
    {
        let number = n.number();
        if number == 0 {
            return false;
        }
        match House::new(number - 1) {
            Some(before) => match self.holder_of(key, before) {
                Some(range) => number <= range.high.number(),
                None => false,
            },
            None => false,
        }
    }

    /// The least id of the ranges, other than the one of the id `except`, that share a number of a
    /// street with `range`.
    pub fn overlap(&self, range: &Range, except: Option<u32>) -> Option<u32>
        ensures { result ≡ least_overlap self.now.ranges range.now except }
    {
        let even = self.overlap_among(self.near(range, false), range, except);
        let odd = self.overlap_among(self.near(range, true), range, except);
        lesser(even, odd)
    }

    // The entries of one class that stand from the last that begins at the range's low end or before
    // it to the last at its high end or before it.
    fn near(&self, range: &Range, odd: bool) -> &[Entry]
        ensures all { (s : Range) (n : ℕ) → Contains self.now.ranges s
            → holds s range.now.key n ≡ true → is_held range.now n ≡ true → is_odd n ≡ odd
            → Contains result.now (entry_of s odd) }
        ensures sound { IsSoundGuide self.now.ranges self.now.next self.now.limit }
    {
        let key = range.key;
        let number = range.low.number();
        let entries = self.entries();
        let from = split(entries, &Place { key, odd, number }).saturating_sub(1);
        let number = range.high.number();
        let to = split(entries, &Place { key, odd, number });
        if from < to { &entries[from..to] } else { &[] }
    }

    // The least id of these entries whose range is not the excepted one and overlaps `range`.
    fn overlap_among(&self, entries: &[Entry], range: &Range, except: Option<u32>) -> Option<u32>
        ensures some { IfSome result
            (λ id. overlaps_id self.now.ranges range.now except id ≡ true) }
        ensures least { (e : Entry) → Contains entries.now e
            → overlaps_id self.now.ranges range.now except e.id ≡ true
            → IsSomeAnd result (λ id. id ≤ e.id) }
    {
        let mut found = None;
        for entry in entries {
            if self.overlaps_id(range, except, entry.id) {
                found = lesser(found, Some(entry.id));
            }
        }
        found
    }

    // Whether the range of this id is not the excepted one, and overlaps `range`.
    fn overlaps_id(&self, range: &Range, except: Option<u32>, id: u32) -> bool
        ensures { result ≡ overlaps_id self.now.ranges range.now except id }
    {
        match self.get(id) {
            Some(found) => is_other(except, found.id) && overlaps(range, found),
            None => false,
        }
    }
}

// Whether an entry stands at this index, of this street.
fn is_of(entries: &[Entry], at: usize, key: &StreetKey) -> bool
    ensures { IsTrue result ↔ IsOf entries.now at key.now }
{
    at < entries.len() && same_key(&entries[at].place.key, key)
}

// The lesser of two numbers, where there are both.
fn lesser(a: Option<u32>, b: Option<u32>) -> Option<u32>
    ensures { result ≡ lesser a b }
{
    match (a, b) {
        (Some(m), Some(n)) => Some(m.min(n)),
        (None, found) | (found, None) => found,
    }
}
