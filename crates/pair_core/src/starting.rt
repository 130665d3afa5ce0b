//! The nodes of a pair are stopped and started.
ghost use Rattle.std.specs.Prelude.{◌≡◌};
ghost use Rattle.pair_core.specs.Pair.{Does, Moments, IsCall};
ghost use Rattle.pair_core.specs.PairAnswers.{told, stopped_told, started_told, StopCauses, StartCauses, KeepsOther, pair_fault};
ghost use Rattle.pair_world.specs.Step as events;
ghost use Rattle.world_rows.specs.WorldRows.{stop_row, start_row};

use crate::faults::PairFault;
use crate::nodes::{disk_of, is_node};
use crate::pair::Pair;
use ali_base::NodeName;
use crash_disk::Disk;
use node_journal::{an_image_is_read_one_way, frames_are_known_from_the_image};
use pair_node::StartFault;

/// A node that was started: how many frames its journal has, and the latest epoch that it knows.
#[derive(Clone, Copy, Debug, PartialEq, Eq)]
pub struct Started {
    pub len: u32,
    pub known: u32,
}

impl<D: Disk + Drop> Pair<D> {
    /// Stops the node. What was acknowledged is the holder's, and goes with it.
    pub fn stop(&mut self, n: NodeName) -> Result<(), PairFault>
        ensures does { Does D.state self.old self.new (λ limits lasted w. stop_row limits w n) (told (stopped_told n) result) }
        ensures moments { Moments D.state self.old self.new (events.Stop n) }
        ensures causes { StopCauses D.state self.old self.new n result }
        ensures beside { KeepsOther self.old self.new n }
        ensures call { IsCall D.state self.old self.new }
    {
        if let Some(refusal) = self.node_is_down(n) {
            return Err(refusal);
        }
        self.stop_node(n);
        if is_node(n, self.duty.holder) {
            self.acked = 0;
            self.ended = 0;
        }
        Ok(())
    }

    /// Starts the node, which is down: its journal is opened again, and the holder, and in mode Both
    /// either node, has to have what is booked.
    pub fn start(&mut self, n: NodeName) -> Result<Started, PairFault>
        ensures does { Does D.state self.old self.new (λ limits lasted w. start_row limits w n lasted) (told (started_told n) result) }
        ensures moments { Moments D.state self.old self.new (events.Start n) }
        ensures causes { StartCauses D.state self.old self.new n result }
        ensures beside { KeepsOther self.old self.new n }
        ensures call { IsCall D.state self.old self.new }
    {
        if let Some(refusal) = self.start_refusal(n) {
            return Err(refusal);
        }
        // What the images of a disk may be.
        frames_are_known_from_the_image();
        an_image_is_read_one_way();
        let need = self.needed_length(n);
        match self.restart_node(n, need) {
            Ok(()) => Ok(Started {
                len: self.len(n),
                known: self.nodes.get(n).known(),
            }),
            Err(fault) => Err(pair_fault(n, fault)),
        }
    }
}

// Why the node is not started.
fn pair_fault(n: NodeName, fault: StartFault) -> PairFault
    ensures { result ≡ pair_fault n fault }
{
    match fault {
        StartFault::DiskFault => PairFault::Fault(disk_of(n)),
        StartFault::Foreign => PairFault::Foreign(disk_of(n)),
        StartFault::Damaged(frame) => PairFault::Damaged(disk_of(n), frame),
        StartFault::Short { have, need } => PairFault::Short {
            node: n,
            have,
            need,
        },
        StartFault::NoMemory => PairFault::NoMemory,
    }
}
