//! A pair writes entries and books them.
ghost use Rattle.std.specs.Prelude.{◌≡◌, ◌<◌, true};
ghost use Rattle.pair_node.specs.LearnedEntries.{Learns, NextAnswers};
ghost use Rattle.pair_node.specs.NodeState.{learned_of};
ghost use Rattle.pair_core.specs.Pair.{Does, Moments, IsCall, node_of, is_node_up, len_of, count_of, bounds_of, duty_of};
ghost use Rattle.pair_core.specs.PairAnswers.{told, written_told, booked_told, WriteCauses, BookCauses, KeepsOther};
ghost use Rattle.pair_core.specs.PairRefusals as rows;
ghost use Rattle.pair_core.specs.PairWrites.{AppendAnswers, CountsNext};
ghost use Rattle.pair_world.specs.Step as events;
ghost use Rattle.world_rows.specs.WorldRows.{write_row, book_row};

use crate::faults::PairFault;
use crate::nodes::disk_of;
use crate::pair::Pair;
use ali_base::NodeName;
use crash_disk::Disk;
use node_journal::AppendFault;
use office_entry::Entry;
use office_state::Verdict;
use pair_node::LearnFault;

/// An entry that was booked: its number in the booked history, and its verdict.
#[derive(Clone, Copy, Debug, PartialEq, Eq)]
pub struct Booked {
    pub number: u32,
    pub code: u16,
    pub detail: u64,
}

impl<D: Disk + Drop> Pair<D> {
    /// The holder writes an entry that may be booked next behind the booked ones, and answers its number.
    pub fn write(&mut self, n: NodeName, e: &Entry) -> Result<u32, PairFault>
        ensures does { Does D.state self.old self.new
            (λ limits lasted w. write_row limits w (bounds_of self.old) n e.now)
            (told (written_told (duty_of self.old).epoch) result) }
        ensures moments { Moments D.state self.old self.new (events.Write e.now) }
        ensures causes { WriteCauses D.state self.old self.new n e.now result }
        ensures beside { KeepsOther self.old self.new n }
        ensures call { IsCall D.state self.old self.new }
    {
        if let Some(refusal) = self.write_refusal(n) {
            return Err(refusal);
        }
        if let Err(fault) = self.learn(n) {
            return Err(fault);
        }
        self.append(n, e)
    }

    // A node whose table is ready writes an entry that may be booked next in it.
    fn append(&mut self, n: NodeName, e: &Entry) -> Result<u32, PairFault>
        requires { is_node_up self.old n ≡ true }
        ensures { AppendAnswers D.state self.old self.new n e.now result }
    {
        if let Err(fault) = self.table(n).due(e) {
            return Err(PairFault::NotDue(fault));
        }
        match self.write_node(n, e) {
            Ok(number) => Ok(number),
            Err(AppendFault::Full(limit)) => Err(PairFault::Full(limit)),
            Err(AppendFault::DiskFault) => Err(PairFault::Fault(disk_of(n))),
        }
    }

    /// Books the pending entry, and answers its number and its verdict.
    pub fn book(&mut self) -> Result<Booked, PairFault>
        ensures does { Does D.state self.old self.new (λ limits lasted w. book_row limits w) (told booked_told result) }
        ensures moments { Moments D.state self.old self.new events.Book }
        ensures causes { BookCauses D.state self.old self.new result }
        ensures beside { KeepsOther self.old self.new (rows.holder self.old) }
        ensures call { IsCall D.state self.old self.new }
    {
        if let Some(refusal) = self.book_refusal() {
            return Err(refusal);
        }
        let holder = self.duty.holder;
        if let Err(fault) = self.learn(holder) {
            return Err(fault);
        }
        match self.learn_next(holder) {
            Ok(verdict) => Ok(Booked {
                number: self.count,
                code: verdict.code,
                detail: verdict.detail,
            }),
            Err(fault) => Err(self.not_learned(holder, fault)),
        }
    }

    // A node whose table is ready learns the pending entry, which is booked then.
    fn learn_next(&mut self, n: NodeName) -> Result<Verdict, LearnFault>
        requires up { is_node_up self.old n ≡ true }
        requires ready { learned_of (node_of self.old n) ≡ count_of self.old }
        requires pending { count_of self.old < len_of self.old n }
        ensures answer { NextAnswers D.state (node_of self.old n) (node_of self.new n) result }
        ensures learns { Learns D.state (node_of self.old n) (node_of self.new n) }
        ensures counts { CountsNext self.old self.new n result }
    {
        match self.nodes.get_mut(n).learn_next() {
            Ok(verdict) => {
                self.count += 1;
                Ok(verdict)
            }
            Err(fault) => Err(fault),
        }
    }
}
