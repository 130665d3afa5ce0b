//! The street guide: its ranges with their index, the id of the next one, and its changes.
ghost use Rattle.std.specs.Prelude.{◌≡◌, ◌+◌, ◌*◌, ◌<◌, ◌≤◌, ◌==◌, [], ◌∷◌, ◌++◌, length, position, IsSome, Some, None, IfOk, OnOk, IfErr, IfSome};
ghost use Rattle.std.specs.Option.{option_copied};
ghost use Rattle.msag_ranges.specs.StreetGuide.{IsSoundGuide, MayStand, range_of, new_range, moved, with_moved, without};
ghost use Rattle.msag_ranges.specs.GuideIndex.{IsIndexOf};
ghost use Rattle.msag_ranges.specs.GuideChanges.{HasNoRoom, HasRanges, HasRoom, empty_guide};

use crate::entries::{put_range, take_range};
use crate::guide_fault::GuideFault;
use crate::place::Entry;
use crate::range::Range;
use crate::search::place_of_id;
use ali_base::{Esn, HIGHEST_HOUSE, House, NoMemory, Parity, StreetKey};
use std::alloc::Global;
use std::marker::Model;

/// The street guide: the ranges in the order of their ids, and the id that the next one gets.
/// Beside them stands their index, by street and number.
#[derive(Drop)]
pub struct Guide {
    ranges: Vec<Range>,
    index: Vec<Entry>,
    next_id: u32,
    limit: u32,
}

impl Model for Guide {
    ghost use Rattle.std.specs.Prelude.{◌-◌, ◌/◌, min, length, vec_capacity};
    ghost use Rattle.msag_ranges.specs.StreetGuide.{StreetGuide};
    ghost use Rattle.msag_ranges.specs.GuideIndex.{IsIndexedGuide};

    ghost Value = { StreetGuide };

    ghost view = { λ g. record {
      ranges = g.ranges.items;
      next = g.next_id;
      limit = g.limit;
      spare = min (min (vec_capacity g.ranges) g.limit) (vec_capacity g.index / 2) - length g.ranges.items;
    } };

    ghost invariant = { λ g.
        IsIndexedGuide g.ranges.items g.index.items g.next_id g.limit (vec_capacity g.index) };
}

impl Guide {
    /// A guide with no ranges, which holds at most `limit` of them.
    pub fn new(alloc: Global, limit: u32) -> Result<Guide, NoMemory>
        ensures { IfOk result (λ g. g ≡ empty_guide limit g.spare) }
    {
        Ok(Guide {
            ranges: Vec::new(alloc),
            index: Vec::new(alloc),
            next_id: 1,
            limit,
        })
    }

    /// The id that the next new range gets. Ids count up from 1 and are never used again.
    pub fn next_id(&self) -> u32
        ensures value { result ≡ self.now.next }
        ensures sound { IsSoundGuide self.now.ranges self.now.next self.now.limit }
    {
        self.next_id
    }

    /// The ranges, in the order of their ids.
    pub fn in_order(&self) -> &[Range]
        ensures value { result.now ≡ self.now.ranges }
        ensures sound { IsSoundGuide self.now.ranges self.now.next self.now.limit }
    {
        &self.ranges
    }

    // The index of the ranges.
    pub(crate) fn entries(&self) -> &[Entry]
        ensures index { IsIndexOf result.now self.now.ranges }
        ensures few { length result.now ≤ 2 * length self.now.ranges }
        ensures sound { IsSoundGuide self.now.ranges self.now.next self.now.limit }
    {
        &self.index
    }

    /// The range of this id.
    pub fn get(&self, id: u32) -> Option<&Range>
        ensures value { option_copied result ≡ range_of self.now.ranges id }
        ensures sound { IsSoundGuide self.now.ranges self.now.next self.now.limit }
    {
        let ranges = self.in_order();
        match place_of_id(ranges, id) {
            Some(at) => Some(&ranges[at]),
            None => None,
        }
    }

    /// Makes room for one more range, so that one `add` cannot fail; nothing else changes. `Full`
    /// comes exactly where the guide holds its limit of ranges.
    pub fn ready(&mut self) -> Result<(), GuideFault>
        ensures ok { OnOk result (HasRoom self.old self.new) }
        ensures err { IfErr result (HasNoRoom self.old) }
        ensures kept { self.new ≡ record self.old { spare = self.new.spare } }
        ensures spare { self.old.spare ≤ self.new.spare }
    {
        if self.ranges.len() >= self.limit as usize {
            return Err(GuideFault::Full(self.limit));
        }
        if self.ranges.reserve(1).is_err() {
            return Err(GuideFault::NoMemory);
        }
        let more = 2 * (self.ranges.len() + 1) - self.index.len();
        if self.index.reserve(more).is_err() {
            return Err(GuideFault::NoMemory);
        }
        Ok(())
    }

    /// Adds a range, and answers its id. Takes no memory. It asks for room (`ready`), for ends that
    /// are in order and of the parity, for numbers that no range of the street holds, and for a next
    /// id below 4,294,967,295.
    pub fn add(&mut self, key: StreetKey, low: House, high: House, parity: Parity, esn: Esn) -> u32
        requires spare { 1 ≤ self.old.spare }
        requires stands { let range = new_range self.old.next key low high parity esn in
            MayStand self.old.ranges range None }
        requires ids { self.old.next < 4_294_967_295 }
        ensures id { result ≡ self.old.next }
        ensures after { let range = new_range self.old.next key low high parity esn in
            HasRanges self.old self.new (self.old.ranges ++ range ∷ []) (self.old.next + 1) }
        ensures spare { self.old.spare ≤ self.new.spare + 1 }
        ensures sound { IsSoundGuide self.new.ranges self.new.next self.new.limit }
    {
        prove!(high.number() <= HIGHEST_HOUSE);
        let id = self.next_id;
        let range = Range {
            id,
            key,
            low,
            high,
            parity,
            esn,
        };
        put_range(&mut self.index, &range);
        self.ranges.push_reserved(range);
        self.next_id = id + 1;
        id
    }

    /// Removes the range of this id, which is live. Takes no memory.
    pub fn remove(&mut self, id: u32)
        requires { IsSome (range_of self.old.ranges id) }
        ensures after { HasRanges self.old self.new (without self.old.ranges id) self.old.next }
        ensures spare { self.old.spare ≤ self.new.spare }
        ensures sound { IsSoundGuide self.new.ranges self.new.next self.new.limit }
    {
        if let Some(at) = self.place_of(id) {
            let range = self.ranges.remove(at);
            take_range(&mut self.index, &range);
        }
    }

    /// Gives the range of this id, which is live, other ends and another ESN. Takes no memory. It asks
    /// for ends that are in order and of the range's parity, and for numbers that no other range of
    /// the street holds.
    pub fn set(&mut self, id: u32, low: House, high: House, esn: Esn)
        requires live { IsSome (range_of self.old.ranges id) }
        requires stands { IfSome (range_of self.old.ranges id)
            (λ r. MayStand self.old.ranges (moved r low high esn) (Some id)) }
        ensures after { let ranges = with_moved self.old.ranges id low high esn in
            HasRanges self.old self.new ranges self.old.next }
        ensures spare { self.old.spare ≤ self.new.spare }
        ensures sound { IsSoundGuide self.new.ranges self.new.next self.new.limit }
    {
        prove!(high.number() <= HIGHEST_HOUSE);
        if let Some(at) = self.place_of(id) {
            let range = self.ranges[at];
            let moved = Range {
                low,
                high,
                esn,
                ..range
            };
            take_range(&mut self.index, &range);
            put_range(&mut self.index, &moved);
            self.ranges[at] = moved;
        }
    }

    /// Leaves the guide as `new` made it. Takes no memory.
    pub fn clear(&mut self)
        ensures after { self.new ≡ empty_guide self.old.limit self.new.spare }
        ensures spare { self.old.spare ≤ self.new.spare }
    {
        self.ranges.clear();
        self.index.clear();
        self.next_id = 1;
    }

    // Where the range of this id stands.
    fn place_of(&self, id: u32) -> Option<usize>
        ensures { result ≡ position (λ r. r.id == id) self.now.ranges }
    {
        place_of_id(self.in_order(), id)
    }
}
