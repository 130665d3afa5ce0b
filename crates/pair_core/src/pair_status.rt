//! How a pair stands.
ghost use Rattle.std.specs.Prelude.{◌≡◌};
ghost use Rattle.pair_core.specs.Pair.{Does, is_node_up, is_up, count_of, len_of, table_of, duty_of};
ghost use Rattle.pair_core.specs.PairAnswers.{told, report_told, StatusCauses};
ghost use Rattle.pair_core.specs.PairRefusals.{length_told, flight_told};
ghost use Rattle.world_rows.specs.WorldRows.{status_row};

use crate::faults::PairFault;
use crate::pair::{Pair, PairStatus};
use ali_base::{Duty, NodeName};
use crash_disk::Disk;
use office_state::Office;

impl<D: Disk + Drop> Pair<D> {
    /// Whether the register is up: no change of duty is in doubt.
    pub fn register_up(&self) -> bool
        ensures { result ≡ is_up self.now }
    {
        self.failed.is_none()
    }

    /// Whether the node is up: it was started, and was not stopped and did not fail since.
    pub fn up(&self, n: NodeName) -> bool
        ensures { result ≡ is_node_up self.now n }
    {
        self.nodes.get(n).usable()
    }

    /// The present duty; after a change that the disk refused, the one from before.
    pub fn duty(&self) -> Duty
        ensures { result ≡ duty_of self.now }
    {
        self.duty
    }

    /// How many entries are booked.
    pub fn count(&self) -> u32
        ensures { result ≡ count_of self.now }
    {
        self.count
    }

    /// How many frames the node's journal has.
    pub fn len(&self, n: NodeName) -> u32
        ensures { result ≡ len_of self.now n }
    {
        self.nodes.get(n).len()
    }

    /// The node's table: once it is ready, the one after the booked history.
    pub fn table(&self, n: NodeName) -> &Office
        ensures { result.now ≡ table_of self.now n }
    {
        self.nodes.get(n).office()
    }

    /// How things stand.
    pub fn status(&self) -> Result<PairStatus, PairFault>
        ensures does { Does D.state self.now self.now (λ limits lasted w. status_row limits w) (told report_told result) }
        ensures causes { StatusCauses self.now result }
    {
        if let Some(refusal) = self.duty_is_down() {
            return Err(refusal);
        }
        Ok(PairStatus {
            duty: self.duty,
            count: self.count,
            flight: self.flight(),
            len_a: self.len_up(NodeName::A),
            len_b: self.len_up(NodeName::B),
        })
    }

    // The length of the node's journal, where the node is up.
    fn len_up(&self, n: NodeName) -> Option<u32>
        ensures { result ≡ length_told self.now n }
    {
        if self.up(n) { Some(self.len(n)) } else { None }
    }

    // The number of the pending entry, where there is one and the holder is up.
    fn flight(&self) -> Option<u32>
        ensures { result ≡ flight_told self.now }
    {
        let holder = self.duty.holder;
        if self.up(holder) && self.count < self.len(holder) {
            Some(self.count + 1)
        } else {
            None
        }
    }
}
