//! A pair is opened over its disks, and closed.
ghost use Rattle.std.specs.Prelude.{◌≡◌, ◌≤◌};
ghost use Rattle.duty_register.specs.declared.register.TheConstants.{LAST_EPOCH};
ghost use Rattle.node_journal.specs.declared.frame.TheConstants.{MOST_FRAMES};
ghost use Rattle.pair_core.specs.Pair.{OpenAnswers, Closes, length_at_opening};
ghost use Rattle.pair_core.specs.PairOpening.{StartsUnder, MayJoin, IsJoined, booked_in, register_end, node_end};

use crate::faults::OpenEnd;
use crate::nodes::{Nodes, disk_of, is_node, other};
use crate::pair::Pair;
use ali_base::{DiskName, Duty, Mode, NodeName};
use crash_disk::Disk;
use duty_register::{Register, RegisterFault};
use office_state::Limits;
use pair_node::{Node, StartFault};
use std::alloc::Global;

impl<D: Disk + Drop> Pair<D> {
    /// Opens the pair over its disks: journals of at most `frames` frames, and duties of at most this
    /// last epoch. The register is opened first, then node a, then node b.
    pub fn open(
        alloc: Global,
        a: D,
        b: D,
        duty: D,
        limits: Limits,
        frames: u32,
        last_epoch: u32,
    ) -> Result<Pair<D>, (D, D, D, OpenEnd)>
        requires frames { frames ≤ MOST_FRAMES }
        requires epochs { (1 ≤ last_epoch) × (last_epoch ≤ LAST_EPOCH) }
        ensures { OpenAnswers D.state a b duty limits frames last_epoch result }
    {
        let register = match Register::open(duty, last_epoch) {
            Ok(register) => register,
            Err((duty, fault)) => return Err((a, b, duty, register_end(fault))),
        };
        let present = register.duty();
        let node_a = match start_under(alloc, a, NodeName::A, present, limits, frames) {
            Ok(node) => node,
            Err((a, end)) => return Err((a, b, register.close(), end)),
        };
        let node_b = match start_under(alloc, b, NodeName::B, present, limits, frames) {
            Ok(node) => node,
            Err((b, end)) => return Err((node_a.close(), b, register.close(), end)),
        };
        Ok(joined(alloc, node_a, node_b, register))
    }

    /// Gives the disks a, b and duty back.
    pub fn close(self) -> (D, D, D)
        ensures { Closes self result }
    {
        (
            self.nodes.a.close(),
            self.nodes.b.close(),
            self.register.close(),
        )
    }
}

// Starts a node under this duty.
fn start_under<D: Disk + Drop>(
    alloc: Global,
    disk: D,
    n: NodeName,
    duty: Duty,
    limits: Limits,
    frames: u32,
) -> Result<Node<D>, (D, OpenEnd)>
    requires { frames ≤ MOST_FRAMES }
    ensures { StartsUnder D.state disk n duty limits frames result }
{
    let need = needed_length(duty, n);
    match Node::start(alloc, disk, n, duty.epoch, need, limits, frames) {
        Ok(node) => Ok(node),
        Err((disk, fault)) => Err((disk, node_end(n, fault))),
    }
}

// The pair of these nodes, under the register's duty.
fn joined<D: Disk + Drop>(alloc: Global, a: Node<D>, b: Node<D>, register: Register<D>) -> Pair<D>
    requires { MayJoin a b register }
    ensures { IsJoined a b register result }
{
    let duty = register.duty();
    let nodes = Nodes { a, b };
    let count = booked_length(&nodes, duty);
    Pair {
        nodes,
        register,
        duty,
        failed: None,
        count,
        acked: 0,
        ended: 0,
        messages: Vec::new(alloc),
    }
}

// Why the pair is not opened, by why its register or its node is not.
fn register_end(fault: RegisterFault) -> OpenEnd
    ensures { result ≡ register_end fault }
{
    match fault {
        RegisterFault::DiskFault => OpenEnd::OpenFault(DiskName::Duty),
        RegisterFault::Foreign => OpenEnd::Foreign(DiskName::Duty),
        RegisterFault::Damaged(frame) => OpenEnd::Damaged(DiskName::Duty, frame),
    }
}

fn node_end(n: NodeName, fault: StartFault) -> OpenEnd
    ensures { result ≡ node_end n fault }
{
    match fault {
        StartFault::DiskFault => OpenEnd::OpenFault(disk_of(n)),
        StartFault::Foreign => OpenEnd::Foreign(disk_of(n)),
        StartFault::Damaged(frame) => OpenEnd::Damaged(disk_of(n), frame),
        StartFault::Short { have, need } => OpenEnd::Short {
            node: n,
            have,
            floor: need,
        },
        StartFault::NoMemory => OpenEnd::NoMemory,
    }
}

// How long the node's journal must be under this duty: as the history was when it began, where the
// node is its holder or the mode is Both.
fn needed_length(duty: Duty, n: NodeName) -> u32
    ensures { result ≡ length_at_opening duty n }
{
    match duty.mode {
        Mode::Both => duty.floor,
        Mode::Alone if is_node(n, duty.holder) => duty.floor,
        Mode::Alone => 0,
    }
}

// How many entries are booked at the start: in mode Alone the holder's journal, in mode Both as much
// of it as the other has too.
fn booked_length<D: Disk + Drop>(nodes: &Nodes<D>, duty: Duty) -> u32
    ensures { result ≡ booked_in nodes.now duty }
{
    let holder = nodes.get(duty.holder).len();
    match duty.mode {
        Mode::Alone => holder,
        Mode::Both => holder.min(nodes.get(other(duty.holder)).len()),
    }
}
