//! A node stops, and starts again in place.

use crate::faults::{StartFault, refusal};
use crate::node::Node;
use crash_disk::Disk;

impl<D: Disk + Drop> Node<D> {
    ghost use Rattle.pair_node.specs.StartedNode.{IsStopped, RestartAnswers};

    /// Stops it: it is not usable until it is started again.
    pub fn stop(&mut self)
        ensures { IsStopped self.old self.new }
    {
        self.usable = false;
    }

    /// Starts it again over its disk, as `start` does after `close`, with the same name and limits,
    /// usable or not. It forgets what it learned. Where it is refused, it is not usable. It takes no
    /// memory.
    pub fn restart(&mut self, known: u32, need: u32) -> Result<(), StartFault>
        ensures { RestartAnswers D.state self.old self.new known need result }
    {
        self.usable = false;
        self.office.clear();
        self.learned = 0;
        match self.journal.reopen() {
            Ok(()) => {}
            Err(fault) => return Err(refusal(fault)),
        }
        let have = self.journal.len();
        if have < need {
            return Err(StartFault::Short { have, need });
        }
        self.known = known;
        self.usable = true;
        Ok(())
    }
}
