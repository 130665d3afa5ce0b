//! The table of a node learns the entries of its journal.
ghost use Rattle.std.specs.Prelude.{◌≡◌, ◌≤◌, ◌<◌, true};

use crate::faults::LearnFault;
use crate::node::Node;
use crash_disk::Disk;
use node_journal::ReadFault;
use office_entry::Entry;
use office_state::{ApplyFault, Verdict};

impl<D: Disk + Drop> Node<D> {
    ghost use Rattle.pair_node.specs.NodeState.{count_of, learned_of, is_usable};
    ghost use Rattle.pair_node.specs.LearnedEntries.{Learns, NextAnswers, LearnAnswers};

    /// Learns the entries up to a number, those that are learned already left out. Where it ends
    /// before, the entries up to there are learned.
    pub fn learn(&mut self, upto: u32) -> Result<(), LearnFault>
        requires usable { is_usable self.old ≡ true }
        requires within { upto ≤ count_of self.old }
        ensures answer { LearnAnswers D.state self.old self.new upto result }
        ensures learns { Learns D.state self.old self.new }
    {
        while self.learned < upto {
            self.learn_next()?;
        }
        Ok(())
    }

    /// Learns the entry after those that are learned, and answers its verdict.
    pub fn learn_next(&mut self) -> Result<Verdict, LearnFault>
        requires usable { is_usable self.old ≡ true }
        requires more { learned_of self.old < count_of self.old }
        ensures answer { NextAnswers D.state self.old self.new result }
        ensures learns { Learns D.state self.old self.new }
    {
        let next = self.learned + 1;
        match self.journal.read(next) {
            Ok(entry) => match self.office.apply(&entry) {
                Ok(verdict) => {
                    self.learned = next;
                    Ok(verdict)
                }
                Err(ApplyFault::NotDue(_)) => Err(LearnFault::NotDue(next)),
                Err(ApplyFault::NoMemory) => Err(LearnFault::NoMemory),
            },
            Err(ReadFault::DiskFault) => {
                self.usable = false;
                Err(LearnFault::DiskFault)
            }
            Err(ReadFault::Changed(frame)) => Err(LearnFault::Changed(frame)),
        }
    }
}
