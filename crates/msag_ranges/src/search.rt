//! The search of the index.
ghost use Rattle.std.specs.Prelude.{◌≡◌, ◌+◌, ◌-◌, ◌*◌, ◌^◌, ◌<◌, ◌≤◌, ◌==◌, length, position, AllPairs};
ghost use Rattle.msag_ranges.specs.GuideIndex.{Rises, IsSplitAt};

use crate::place::{Entry, Place, is_after};
use crate::range::Range;
use crate::steps::Steps;
use std::marker::Brand;
use std::sync::ledger::{Blank, Ledger};

/// How many entries begin at the place or before it. A step compares the place with one entry.
pub(crate) fn entries_to<L: Ledger>(entries: &[Entry], place: &Place, steps: &mut Steps<L>) -> usize
    requires { Rises entries.now }
    ensures split { IsSplitAt entries.now place.now result }
    ensures cost { 2 ^ (steps.new - steps.old) ≤ 2 * length entries.now + 1 }
    ensures counts { steps.old ≤ steps.new }
{
    let mut low = 0;
    let mut high = entries.len();
    while low < high {
        let middle = low + (high - low) / 2;
        steps.tick();
        if is_after(&entries[middle], place) {
            high = middle;
        } else {
            low = middle + 1;
        }
    }
    low
}

// The same, by a count that nobody reads.
fn split_with<L: Ledger>(entries: &[Entry], place: &Place, blank: Blank) -> usize
    requires name { blank.name ≡ L.name }
    requires parts { blank.parts ≡ L.parts }
    requires some { 0 < L.parts }
    requires rising { Rises entries.now }
    ensures { IsSplitAt entries.now place.now result }
{
    entries_to(entries, place, &mut Steps::<L>::new(blank))
}

/// How many entries begin at the place or before it.
pub(crate) fn split(entries: &[Entry], place: &Place) -> usize
    requires { Rises entries.now }
    ensures { IsSplitAt entries.now place.now result }
{
    split_with::<Brand>(entries, place, Blank::new(1))
}

/// Where the range of this id stands, among ranges in the order of their ids.
pub(crate) fn place_of_id(ranges: &[Range], id: u32) -> Option<usize>
    requires { AllPairs (λ r s. r.id < s.id) ranges.now }
    ensures { result ≡ position (λ r. r.id == id) ranges.now }
{
    ranges.binary_search_by_key(&id, |r| r.id).ok()
}
