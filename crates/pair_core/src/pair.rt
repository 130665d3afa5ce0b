//! Two nodes, the duty register and the messages between the nodes.
ghost use Rattle.std.specs.Prelude.{◌≡◌, ◌≤◌, ◌+◌, ℕ, true, Some, None, slice_get, length};
ghost use Rattle.ali_base.specs.declared.duty.Duty.{Duty as AnyDuty};
ghost use Rattle.ali_base.specs.declared.names.NodeName.{NodeName as AnyName};
ghost use Rattle.duty_register.specs.OpenRegister as registers;
ghost use Rattle.node_journal.specs.OpenJournal as journals;
ghost use Rattle.pair_node.specs.NodeState as node_states;
ghost use Rattle.pair_core.specs.PairNodes.{node_in, IsSent};
ghost use Rattle.pair_world.specs.Refusals.{message_limit};
ghost use Rattle.pair_core.specs.declared.sent.Sent.{Sent as AnySent};

use crate::nodes::Nodes;
use crate::sent::Sent;
use ali_base::Duty;
use duty_register::Register;

/// The office of two nodes. A node that is down stays in its place. A change of duty that the
/// register's disk refused is kept: the register is down until it is started again, and the present
/// duty is the one from before.
#[derive(Drop)]
pub struct Pair<D> {
    pub(crate) nodes: Nodes<D>,
    pub(crate) register: Register<D>,
    pub(crate) duty: Duty,
    pub(crate) failed: Option<Duty>,
    pub(crate) count: u32,
    pub(crate) acked: u32,
    pub(crate) ended: u32,
    pub(crate) messages: Vec<Sent>,
    ghost named: { (n : AnyName) → journals.name_of (node_states.journal_of (node_in nodes n)) ≡ n },
    ghost limits: { journals.limit_of nodes.a.journal ≡ journals.limit_of nodes.b.journal },
    ghost learned: { (n : AnyName) → node_states.learned_of (node_in nodes n) ≤ count },
    ghost known: { (n : AnyName) → node_states.known_of (node_in nodes n) ≤ duty.epoch },
    ghost counted: { (1 ≤ duty.epoch) × (duty.epoch ≤ registers.last_epoch_of register) },
    ghost present: { failed ≡ None → (registers.is_usable register ≡ true) × (registers.duty_of register ≡ duty) },
    ghost next: { (d : AnyDuty) → failed ≡ Some d → (d.epoch ≡ duty.epoch + 1) × (d.epoch ≤ registers.last_epoch_of register) × (d.floor ≤ journals.limit_of nodes.a.journal) },
    ghost within: { count ≤ journals.limit_of nodes.a.journal },
    ghost floor: { duty.floor ≤ count },
    ghost few: { length messages.items ≤ message_limit },
    ghost sent: { (index : ℕ) (s : AnySent) → slice_get messages.items index ≡ Some s → IsSent (journals.limit_of nodes.a.journal) duty.epoch s },
}

/// How things stand: the duty, how many entries are booked, the number of the pending one, and the
/// lengths of the journals of the nodes that are up.
#[derive(Clone, Copy, Debug, PartialEq, Eq)]
pub struct PairStatus {
    pub duty: Duty,
    pub count: u32,
    pub flight: Option<u32>,
    pub len_a: Option<u32>,
    pub len_b: Option<u32>,
}
