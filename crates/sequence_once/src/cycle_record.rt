//! One kept cycle, with room for all its codes.
ghost use Rattle.std.specs.Prelude.{◌≡◌, ◌+◌, ◌^◌, ◌<◌, ◌≤◌, false, ◌++◌, ◌∷◌, [], length, IfOk};
ghost use Rattle.sequence_once.specs.KeptCycles.{opened, is_finished};

use ali_base::{Company, Cycle, NoMemory};
use std::alloc::Global;
use std::marker::Model;

/// A kept cycle. Room for as many codes as its file has lines is taken when it is made.
#[derive(Drop)]
pub struct CycleRecord {
    company: Company,
    cycle: Cycle,
    count: u32,
    digest: [u8; 32],
    codes: Vec<u16>,
}

impl Model for CycleRecord {
    ghost use Rattle.std.specs.Prelude.{◌≤◌, length};
    ghost use Rattle.std.specs.Vec.{vec_capacity};
    ghost use Rattle.sequence_once.specs.KeptCycles.{CycleRecord};

    ghost Value = { CycleRecord };

    ghost view = { λ k. record {
      company = k.company;
      cycle = k.cycle;
      count = k.count;
      digest = k.digest;
      codes = k.codes.items;
    } };

    ghost invariant = { λ k. (length k.codes.items ≤ k.count)
        × (k.count ≤ vec_capacity k.codes) };
}

impl CycleRecord {
    /// A cycle with no codes yet, and room for all of them.
    pub fn new(
        alloc: Global,
        company: Company,
        cycle: Cycle,
        count: u32,
        digest: &[u8; 32],
    ) -> Result<Self, NoMemory>
        ensures { IfOk result (λ k. k ≡ opened company cycle count digest.now) }
    {
        Ok(CycleRecord {
            company,
            cycle,
            count,
            digest: *digest,
            codes: Vec::with_capacity(alloc, count as usize)?,
        })
    }

    pub fn company(&self) -> Company
        ensures { result ≡ self.now.company }
    {
        self.company
    }

    pub fn cycle(&self) -> Cycle
        ensures { result ≡ self.now.cycle }
    {
        self.cycle
    }

    /// How many lines the file has.
    pub fn count(&self) -> u32
        ensures { result ≡ self.now.count }
    {
        self.count
    }

    /// The digest of the file.
    pub fn digest(&self) -> &[u8; 32]
        ensures { result.now ≡ self.now.digest }
    {
        &self.digest
    }

    /// The codes so far.
    pub fn codes(&self) -> &[u16]
        ensures same { result.now ≡ self.now.codes }
        ensures within { length result.now ≤ self.now.count }
    {
        &self.codes
    }

    /// How many codes are noted.
    pub fn noted(&self) -> u32
        ensures same { result ≡ length self.now.codes }
        ensures within { result ≤ self.now.count }
    {
        let _count = self.count;
        self.codes.len() as u32
    }

    /// Whether it has as many codes as its file has lines.
    pub fn is_finished(&self) -> bool
        ensures same { result ≡ is_finished self.now }
        ensures room { result ≡ false → length self.now.codes + 1 < 2 ^ 32 }
    {
        self.noted() == self.count
    }

    /// One code more, for which there is room.
    pub fn note(&mut self, code: u16)
        requires { length self.old.codes < self.old.count }
        ensures { self.new ≡ record self.old { codes = self.old.codes ++ code ∷ [] } }
    {
        self.codes.push_reserved(code);
    }
}
