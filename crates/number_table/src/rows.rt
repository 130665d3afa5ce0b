//! The table of numbers.
ghost use Rattle.std.specs.Prelude.{◌≡◌, ◌<◌, ◌≤◌, ◌⊎◌, IsSome, OnOk, OnErr, length, filter, find};
ghost use Rattle.std.specs.Option.{option_copied, option_map};
ghost use Rattle.std.specs.BTreeMap.{IsOrdered, values};
ghost use Rattle.std.specs.Map.Iter.{deref_pair};
ghost use Rattle.std.specs.FinMap as map;
ghost use Rattle.number_table.specs.NumberTable.{tn_cmp, no_numbers, with_unlocked, unlocked_of, unlocked_in};
ghost use Rattle.number_table.specs.HeldRows.{holds_row, count_held};

use crate::row_changes::{is_held, set_row_esn, shift_row};
use crate::row_mover::RowMover;
use crate::rows_in_order::RowsInOrder;
use ali_base::{Day, Esn, NoMemory, Tn};
use msag_ranges::Range;
use number_life::Row;
use std::alloc::Global;
use std::collections::BTreeMap;
use std::marker::Model;

/// A map from telephone numbers to rows: at most 4,294,967,295 of them.
#[derive(Drop)]
pub struct Rows {
    by_tn: BTreeMap<Tn, Row>,
    // How many of the rows are unlocked.
    unlocked: u32,
}

impl Model for Rows {
    ghost use Rattle.std.specs.Prelude.{◌≡◌, ◌<◌, ◌^◌, length};
    ghost use Rattle.std.specs.FinMap as map;
    ghost use Rattle.number_table.specs.NumberTable.{NumberTable, coded_table, unlocked_in};

    ghost Value = { NumberTable };

    ghost coded = { coded_table };

    ghost view = { λ r. map.from_entries r.by_tn.entries };

    ghost invariant = { λ r. (length r.by_tn.entries < 2 ^ 32)
        × (r.unlocked ≡ unlocked_in (map.from_entries r.by_tn.entries)) };
}

// How many rows the range holds.
fn count_in(by_tn: &BTreeMap<Tn, Row>, r: &Range) -> usize
    ensures value { result ≡ length (filter (holds_row r.now) (values by_tn.now)) }
    ensures limit { result ≤ length by_tn.now.entries }
    ensures ordered { IsOrdered tn_cmp by_tn.now }
{
    by_tn.values().filter(|row| is_held(row, r)).count()
}

// 1 where there is a row and it is unlocked.
fn count_of(row: Option<&Row>) -> u32
    ensures { result ≡ unlocked_of (option_copied row.entry) }
{
    match row {
        Some(row) if row.unlocked.is_some() => 1,
        _ => 0,
    }
}

// The first entry whose row the range holds.
fn first_in<'a>(by_tn: &'a BTreeMap<Tn, Row>, r: &Range) -> Option<(&'a Tn, &'a Row)>
    ensures value { option_map deref_pair result
        ≡ find (λ e. holds_row r.now e.1) by_tn.now.entries }
    ensures ordered { IsOrdered tn_cmp by_tn.now }
{
    by_tn.iter().find(|(_, row)| is_held(row, r))
}

impl Rows {
    /// A table with no rows.
    pub fn new(alloc: Global) -> Self
        ensures { result ≡ no_numbers }
    {
        Rows {
            by_tn: BTreeMap::new(alloc),
            unlocked: 0,
        }
    }

    /// How many numbers have a row, at most 4,294,967,295.
    pub fn len(&self) -> u32
        ensures { result ≡ map.len self.now }
    {
        self.by_tn.len() as u32
    }

    /// How many of the rows are unlocked. It is kept, not counted anew.
    pub fn unlocked(&self) -> u32
        ensures { result ≡ unlocked_in self.now }
    {
        self.unlocked
    }

    /// The row of a number.
    pub fn get(&self, tn: Tn) -> Option<&Row>
        ensures { option_copied result ≡ map.get self.now tn }
    {
        self.by_tn.get(&tn)
    }

    /// The rows in the order of their numbers, each once.
    pub fn in_order(&self) -> RowsInOrder<'_>
        ensures { result ≡ map.values self.now }
    {
        RowsInOrder {
            rows: self.by_tn.values(),
        }
    }

    /// Makes this the row of the number. Asks that the number has a row, or that there is room for one
    /// more.
    ///
    /// # Errors
    ///
    /// `NoMemory`, and nothing has changed.
    pub fn insert(&mut self, tn: Tn, row: Row) -> Result<(), NoMemory>
        requires { IsSome (map.get self.old tn) ⊎ (map.len self.old < 4_294_967_295) }
        ensures ok { OnOk result (self.new ≡ map.insert self.old tn row) }
        ensures err { OnErr result (self.new ≡ self.old) }
    {
        let added = count_of(Some(&row));
        let replaced = self.by_tn.insert(tn, row)?;
        self.unlocked -= count_of(replaced.as_ref());
        self.unlocked += added;
        Ok(())
    }

    /// The number has no row from now on.
    pub fn remove(&mut self, tn: Tn)
        ensures { self.new ≡ map.remove self.old tn }
    {
        let removed = self.by_tn.remove(&tn);
        self.unlocked -= count_of(removed.as_ref());
    }

    /// Unlocks the row of the number, if there is one, on this day.
    pub fn unlock(&mut self, tn: Tn, day: Day)
        ensures { self.new ≡ with_unlocked self.old tn day }
    {
        if let Some(row) = self.by_tn.get_mut(&tn) {
            self.unlocked -= count_of(Some(&*row));
            row.unlocked = Some(day);
            self.unlocked += 1;
        }
    }

    /// No number has a row from now on. Takes no memory.
    pub fn clear(&mut self)
        ensures { self.new ≡ no_numbers }
    {
        self.by_tn.clear();
        self.unlocked = 0;
    }

    // How many rows the range holds.
    fn count_held(&self, r: &Range) -> u32
        ensures { result ≡ count_held self.now r.now }
    {
        count_in(&self.by_tn, r) as u32
    }
}

impl RowMover for Rows {
    ghost rows = { λ t. t };

    fn least_held(&self, r: &Range) -> Option<Tn> {
        match first_in(&self.by_tn, r) {
            Some((tn, _)) => Some(*tn),
            None => None,
        }
    }

    fn shift(&mut self, r: &Range, by: i32) -> u32 {
        let count = self.count_held(r);
        self.by_tn.retain(|_, row| {
            shift_row(row, r, by);
            true
        });
        count
    }

    fn set_esn(&mut self, r: &Range, esn: Esn) -> u32 {
        let count = self.count_held(r);
        self.by_tn.retain(|_, row| {
            set_row_esn(row, r, esn);
            true
        });
        count
    }
}
