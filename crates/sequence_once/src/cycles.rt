//! The kept cycles of all companies.
ghost use Rattle.std.specs.Prelude.{◌≡◌, ◌≢◌, ℕ, List, ◌+◌, ◌-◌, ◌^◌, ◌<◌, ◌≤◌, ◌==◌, [], length, false, find, insert, remove, slice_get, slice_range, option_map, IfOk, OnOk, OnErr, Some, Ok, Err, ◌↔◌, if◌then◌else◌};
ghost use Rattle.std.specs.List.Sorted.{IsStrictlySortedBy};
ghost use Rattle.std.specs.Option.{option_copied};
ghost use Rattle.sequence_once.specs.KeptCycles.{IsSound, OthersStay, of_company, before_company, cycle_order, newest, last_of, is_last_finished, known_companies, opened, after_open, after_note, codes_of, count_of};
ghost use Rattle.sequence_once.specs.CycleStanding.{IsTooOld, last_number, oldest_number, is_full, repeated, standing_among, standing_of};
ghost use Rattle.sequence_once.specs.CycleReaders.{last_shown, record_of};
ghost use Rattle.sequence_once.specs.declared.standing.Standing.TheVariants.{New};

use crate::cycle_record::CycleRecord;
use crate::kept::{KeptCycle, Last};
use crate::standing::{CycleFault, Standing};
use ali_base::{Company, Cycle, LAST_CYCLE, NoMemory};
use std::alloc::Global;
use std::marker::Model;

/// How many cycles of a company are kept at most.
pub const KEPT_CYCLES: usize = 8;

/// The kept cycles of all companies, in the order of company and cycle: at most eight a company,
/// one after the other, of which all but the last are finished.
#[derive(Drop)]
pub struct Cycles {
    kept: Vec<CycleRecord>,
    known: u32,
    companies: u32,
}

impl Model for Cycles {
    ghost use Rattle.std.specs.Prelude.{◌≡◌};
    ghost use Rattle.sequence_once.specs.KeptCycles.{CyclesState, IsSound, known_companies};

    ghost Value = { CyclesState };

    ghost view = { λ c. record { kept = c.kept.items; limit = c.companies } };

    ghost invariant = { λ c. IsSound (record { kept = c.kept.items; limit = c.companies })
        × (c.known ≡ known_companies c.kept.items) };
}

impl Cycles {
    /// No cycles yet, of at most so many companies.
    pub fn new(alloc: Global, companies: u32) -> Result<Self, NoMemory>
        ensures { IfOk result (λ c. c ≡ record { kept = []; limit = companies }) }
    {
        Ok(Cycles {
            kept: Vec::new(alloc),
            known: 0,
            companies,
        })
    }

    /// What a file is to the kept cycles.
    ///
    /// # Errors
    ///
    /// `CompaniesFull` where its cycle is due and its company is one too many; `Gap` where its cycle
    /// is above the one that is due; `Differs` where its cycle is kept with another digest; `TooOld`
    /// where its cycle is below the oldest kept.
    #[tactic(auto, unfolding(crate::specs::CycleStanding::standing_of))]
    pub fn standing(
        &self,
        company: Company,
        cycle: Cycle,
        digest: &[u8; 32],
    ) -> Result<Standing, CycleFault>
        ensures table { result ≡ standing_of self.now company cycle digest.now }
        ensures too_old { IsTooOld self.now company cycle result }
        ensures sound { IsSound self.now }
    {
        let cycles = self.cycles_of(company);
        let full = self.is_full(cycles);
        standing_among(cycles, full, self.companies, cycle, digest)
    }

    /// Opens the next cycle of a company, whose file has so many lines and this digest; the oldest
    /// kept cycle of the company goes where nine would stand. Room for all codes is taken here.
    ///
    /// # Errors
    ///
    /// `NoMemory`, and nothing has changed.
    pub fn open(
        &mut self,
        alloc: Global,
        company: Company,
        cycle: Cycle,
        count: u32,
        digest: &[u8; 32],
    ) -> Result<(), NoMemory>
        requires { standing_of self.old company cycle digest.now ≡ Ok New }
        ensures opened { OnOk result
            (self.new ≡ after_open self.old company cycle count digest.now) }
        ensures last { OnOk result
            (last_of company self.new.kept ≡ Some (opened company cycle count digest.now)) }
        ensures others { OnOk result (OthersStay company self.old self.new) }
        ensures sound { OnOk result (IsSound self.new) }
        ensures unchanged { OnErr result (self.new ≡ self.old) }
    {
        let fresh = CycleRecord::new(alloc, company, cycle, count, digest)?;
        let (from, to) = self.span(company);
        put_cycle(&mut self.kept, from, to, fresh)?;
        self.known = count_company(self.known, to - from);
        Ok(())
    }

    /// Notes the code of the next line of a company's last cycle, which is unfinished.
    pub fn note(&mut self, company: Company, code: u16)
        requires { is_last_finished (last_of company self.old.kept) ≡ false }
        ensures noted { self.new ≡ after_note self.old company code }
        ensures others { OthersStay company self.old self.new }
        ensures sound { IsSound self.new }
    {
        let (_, to) = self.span(company);
        let last = &mut self.kept[to - 1];
        last.note(code);
    }

    /// The codes of a company's cycle, where it is kept.
    pub fn codes(&self, company: Company, cycle: Cycle) -> Option<&[u16]>
        ensures { option_copied result ≡ codes_of company cycle self.now.kept }
    {
        let kept = find_cycle(self.cycles_of(company), cycle)?;
        Some(kept.codes())
    }

    /// How many lines the file of a company's cycle has, where it is kept.
    pub fn count(&self, company: Company, cycle: Cycle) -> Option<u32>
        ensures { result ≡ count_of company cycle self.now.kept }
    {
        let kept = find_cycle(self.cycles_of(company), cycle)?;
        Some(kept.count())
    }

    /// The last cycle of a company.
    pub fn last(&self, company: Company) -> Option<Last>
        ensures same { result ≡ option_map last_shown (last_of company self.now.kept) }
        ensures sound { IsSound self.now }
    {
        let last = self.cycles_of(company).last()?;
        Some(Last {
            cycle: last.cycle(),
            count: last.count(),
            noted: last.noted(),
        })
    }

    /// How many companies have a kept cycle.
    pub fn companies(&self) -> u32
        ensures { result ≡ known_companies self.now.kept }
    {
        self.known
    }

    /// The i-th kept cycle, from 0, in the order of company and cycle.
    pub fn kept(&self, i: u32) -> Option<KeptCycle<'_>>
        ensures same { option_map record_of result ≡ slice_get self.now.kept i }
        ensures sound { IsSound self.now }
    {
        let kept = self.kept.get(i as usize)?;
        Some(KeptCycle {
            company: kept.company(),
            cycle: kept.cycle(),
            count: kept.count(),
            digest: kept.digest(),
            codes: kept.codes(),
        })
    }

    /// Forgets all cycles, as if newly made with the same limit.
    pub fn clear(&mut self)
        ensures { self.new ≡ record { kept = []; limit = self.old.limit } }
    {
        self.kept.clear();
        self.known = 0;
    }

    // Where the cycles of the company begin and end, or would stand.
    fn span(&self, company: Company) -> (usize, usize)
        ensures from { result.0 ≡ length (before_company company self.now.kept) }
        ensures to { result.1 ≡ length (before_company company self.now.kept)
            + length (of_company company self.now.kept) }
        ensures within { result.1 ≤ length self.now.kept }
        ensures sound { IsSound self.now }
    {
        (
            count_before(&self.kept, company),
            count_through(&self.kept, company),
        )
    }

    // The cycles of the company, the oldest first.
    fn cycles_of(&self, company: Company) -> &[CycleRecord]
        ensures same { result.now ≡ of_company company self.now.kept }
        ensures sound { IsSound self.now }
    {
        let (from, to) = self.span(company);
        part(&self.kept, from, to)
    }

    // Whether the company whose cycles these are is new and there are as many as the limit.
    fn is_full(&self, cycles: &[CycleRecord]) -> bool
        ensures { (company : List ℕ) → cycles.now ≡ of_company company self.now.kept
            → result ≡ is_full self.now company }
    {
        cycles.is_empty() && self.companies <= self.known
    }
}

// The standing of a file among the cycles of its company.
fn standing_among(
    cycles: &[CycleRecord],
    full: bool,
    limit: u32,
    cycle: Cycle,
    digest: &[u8; 32],
) -> Result<Standing, CycleFault>
    ensures table { result ≡ standing_among cycles.now full limit cycle digest.now }
    ensures counted { 1 ≤ cycle }
{
    let (last, finished) = last_of(cycles);
    let number = cycle.number();
    if number == last + 1 && finished {
        return if full {
            Err(CycleFault::CompaniesFull(limit))
        } else {
            Ok(Standing::New)
        };
    }
    if number > last + 1 || (!finished && number > last) {
        return Err(CycleFault::Gap(if finished { last + 1 } else { last }));
    }
    match find_cycle(cycles, cycle) {
        Some(kept) => repeated(kept, digest),
        None => Err(CycleFault::TooOld(oldest(cycles))),
    }
}

// The number of the last cycle and whether it is finished.
fn last_of(cycles: &[CycleRecord]) -> (u32, bool)
    ensures number { result.0 ≡ last_number (newest cycles.now) }
    ensures finished { result.1 ≡ is_last_finished (newest cycles.now) }
    ensures low { result.0 ≤ LAST_CYCLE }
{
    match cycles.last() {
        Some(last) => (last.cycle().number(), last.is_finished()),
        None => (0, true),
    }
}

// The number of the oldest cycle, 0 of none.
fn oldest(cycles: &[CycleRecord]) -> u32
    ensures { result ≡ oldest_number cycles.now }
{
    match cycles {
        [first, ..] => first.cycle().number(),
        [] => 0,
    }
}

// The cycle of this number.
fn find_cycle(cycles: &[CycleRecord], cycle: Cycle) -> Option<&CycleRecord>
    ensures { option_copied result ≡ find (λ k. k.cycle == cycle) cycles.now }
{
    cycles.iter().find(|e| e.cycle() == cycle)
}

// The standing of a file whose cycle is kept.
fn repeated(kept: &CycleRecord, digest: &[u8; 32]) -> Result<Standing, CycleFault>
    ensures { result ≡ repeated kept.now digest.now }
{
    if kept.digest() != digest {
        return Err(CycleFault::Differs {
            kept: *kept.digest(),
            sent: *digest,
        });
    }
    if kept.is_finished() {
        Ok(Standing::Complete)
    } else {
        Ok(Standing::Resume(kept.noted() + 1))
    }
}

// How many kept cycles are of companies before this one.
fn count_before(kept: &[CycleRecord], company: Company) -> usize
    requires { IsStrictlySortedBy cycle_order kept.now }
    ensures { result ≡ length (before_company company kept.now) }
{
    kept.partition_point(|e| e.company().cmp(&company).is_lt())
}

// How many kept cycles are of this company and of those before it.
fn count_through(kept: &[CycleRecord], company: Company) -> usize
    requires { IsStrictlySortedBy cycle_order kept.now }
    ensures sum { result ≡ length (before_company company kept.now)
        + length (of_company company kept.now) }
    ensures within { result ≤ length kept.now }
{
    kept.partition_point(|e| e.company().cmp(&company).is_le())
}

// The kept cycles from one place to another.
fn part(kept: &[CycleRecord], from: usize, to: usize) -> &[CycleRecord]
    requires order { from ≤ to }
    requires within { to ≤ length kept.now }
    ensures { result.now ≡ slice_range kept.now from to }
{
    &kept[from..to]
}

// Puts a cycle behind those of its company, of which the oldest goes where there are eight.
fn put_cycle(
    kept: &mut Vec<CycleRecord>,
    from: usize,
    to: usize,
    fresh: CycleRecord,
) -> Result<(), NoMemory>
    requires order { from ≤ to }
    requires within { to ≤ length kept.old.items }
    ensures put { OnOk result (kept.new.items ≡ (if to - from == KEPT_CYCLES
        then remove (insert kept.old.items to fresh) from
        else insert kept.old.items to fresh)) }
    ensures unchanged { OnErr result (kept.new.items ≡ kept.old.items) }
{
    if kept.insert(to, fresh).is_err() {
        return Err(NoMemory);
    }
    if to - from == KEPT_CYCLES {
        kept.remove(from);
    }
    Ok(())
}

// The number of companies after an opening of one that has so many cycles.
fn count_company(known: u32, kept: usize) -> u32
    requires { kept ≡ 0 → known + 1 < 2 ^ 32 }
    ensures { result ≡ known + (if kept == 0 then 1 else 0) }
{
    if kept == 0 { known + 1 } else { known }
}
