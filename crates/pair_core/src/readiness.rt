//! The table of a node of a pair learns what is booked.
ghost use Rattle.std.specs.Prelude.{◌≡◌, true};
ghost use Rattle.pair_core.specs.Pair.{Does, Moments, IsCall, is_node_up};
ghost use Rattle.pair_core.specs.PairAnswers.{told, ready_told, ReadyCauses, ReadyRest, KeepsOther};
ghost use Rattle.pair_core.specs.PairChanges.{NotLearnedAt, IsLearned};
ghost use Rattle.world_rows.specs.WorldRows.{ready_row};
ghost use Rattle.world_rows.specs.WorldSteps.{OfficeEvent};

use crate::faults::PairFault;
use crate::nodes::disk_of;
use crate::pair::Pair;
use ali_base::NodeName;
use crash_disk::Disk;
use pair_node::LearnFault;

impl<D: Disk + Drop> Pair<D> {
    /// Makes the node's table the one after the booked history.
    pub fn ready(&mut self, n: NodeName) -> Result<(), PairFault>
        ensures does { Does D.state self.old self.new (λ limits lasted w. ready_row limits w n) (told ready_told result) }
        // No byte is changed: a crash leaves what it might have left before, in whatever event this is a part of.
        ensures moments { (event : OfficeEvent) → Moments D.state self.old self.new event }
        ensures causes { ReadyCauses D.state self.old self.new n result }
        ensures beside { KeepsOther self.old self.new n }
        ensures call { IsCall D.state self.old self.new }
    {
        if let Some(refusal) = self.ready_refusal(n) {
            return Err(refusal);
        }
        self.learn(n)
    }

    // The table of a node that is up is made the one after the booked history.
    pub(crate) fn learn(&mut self, n: NodeName) -> Result<(), PairFault>
        requires { is_node_up self.old n ≡ true }
        ensures causes { ReadyRest D.state self.old self.new n result }
        ensures learned { IsLearned D.state self.old self.new n }
        ensures call { IsCall D.state self.old self.new }
    {
        let len = self.len(n);
        if len < self.count {
            self.stop_node(n);
            return Err(PairFault::Damaged(disk_of(n), len + 1));
        }
        match self.learn_node(n) {
            Ok(()) => Ok(()),
            Err(fault) => Err(self.not_learned(n, fault)),
        }
    }

    // Why an entry is not learned. A frame that reads as no entry, or as one that may not be booked,
    // shows a disk that is not honest: the node goes down.
    pub(crate) fn not_learned(&mut self, n: NodeName, fault: LearnFault) -> PairFault
        ensures { NotLearnedAt self.old self.new n fault result }
    {
        match fault {
            LearnFault::DiskFault => PairFault::Fault(disk_of(n)),
            LearnFault::Changed(frame) | LearnFault::NotDue(frame) => {
                self.stop_node(n);
                PairFault::Damaged(disk_of(n), frame)
            }
            LearnFault::NoMemory => PairFault::NoMemory,
        }
    }
}
