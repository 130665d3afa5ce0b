//! The office: the state that the booked history makes.
ghost use Rattle.std.specs.Prelude.{◌≡◌, [], IfOk};
ghost use Rattle.office_state.specs.OfficeState.{empty_office, limits_of};
ghost use Rattle.office_state.specs.History.{Represents, ForgetsHistory};

use crate::counts::Counts;
use crate::limits::Limits;
use ali_base::NoMemory;
use msag_ranges::Guide;
use number_table::Rows;
use sequence_once::{Cycles, Serials};
use std::alloc::Global;
use std::marker::Model;

/// The most entries that are applied, the refused ones too.
pub const MOST_ENTRIES: u32 = 4_000_000_000;

/// The state after a list of entries.
#[derive(Drop)]
pub struct Office {
    pub(crate) alloc: Global,
    pub(crate) rows: Rows,
    pub(crate) most_numbers: u32,
    pub(crate) guide: Guide,
    pub(crate) cycles: Cycles,
    pub(crate) edits: Serials,
    pub(crate) entries: u32,
    pub(crate) counts: Counts,
}

impl Model for Office {
    ghost use Rattle.office_state.specs.OfficeState.{OfficeState, office_of};
    ghost use Rattle.office_state.specs.StoredState.{coded_office};
    ghost use Rattle.office_state.specs.Soundness.{IsSoundOffice};

    ghost Value = { OfficeState };

    ghost coded = { coded_office };

    ghost view = { λ o.
        office_of o.rows o.most_numbers o.guide o.cycles o.edits o.entries o.counts };

    ghost invariant = { λ o. IsSoundOffice
        (office_of o.rows o.most_numbers o.guide o.cycles o.edits o.entries o.counts) };
}

impl Office {
    /// The empty office, with these limits.
    pub fn new(alloc: Global, limits: Limits) -> Result<Self, NoMemory>
        ensures empty { IfOk result (λ office. office ≡ empty_office limits) }
        ensures history { IfOk result (λ office. Represents limits office []) }
    {
        Ok(Office {
            alloc,
            rows: Rows::new(alloc),
            most_numbers: limits.numbers,
            guide: Guide::new(alloc, limits.ranges)?,
            cycles: Cycles::new(alloc, limits.companies)?,
            edits: Serials::new(alloc)?,
            entries: 0,
            counts: Counts::new(),
        })
    }

    /// Forgets all that was applied, as if newly made with the same limits. Takes no memory.
    pub fn clear(&mut self)
        ensures empty { self.new ≡ empty_office (limits_of self.old.state) }
        ensures history { ForgetsHistory self.old self.new }
        ensures begins { Represents (limits_of self.old.state) self.new [] }
    {
        self.rows.clear();
        self.guide.clear();
        self.cycles.clear();
        self.edits.clear();
        self.entries = 0;
        self.counts = Counts::new();
    }

    /// How many entries were applied, the refused ones too.
    pub fn entries(&self) -> u32
        ensures { result ≡ self.now.entries }
    {
        self.entries
    }
}
