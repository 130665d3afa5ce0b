//! The two nodes by their names.
ghost use Rattle.std.specs.Prelude.{◌≡◌, ◌≤◌, true};
ghost use Rattle.std.specs.Borrow.{Lends, sem};
ghost use Rattle.node_journal.specs.OpenJournal.{limit_of};
ghost use Rattle.pair_node.specs.NodeState.{journal_of, is_usable};
ghost use Rattle.pair_node.specs.StoredMessage.{FitsIn};
ghost use Rattle.pair_node.specs.contracts.node.Node.{the_row as node_row};
ghost use Rattle.pair_core.specs.contracts.nodes.Nodes.{the_row as nodes_row};
ghost use Rattle.pair_core.specs.PairMessages.{IsStoring};
ghost use Rattle.pair_core.specs.PairNodes.{node_in, put};
ghost use Rattle.pair_world.specs.Refusals.{disk_of};
ghost use Rattle.pair_world.specs.World as worlds;

use ali_base::{DiskName, NodeName};
use crash_disk::Disk;
use node_journal::DiskFault;
use pair_node::{Delivered, Message, Node};

/// Two nodes.
#[derive(Drop)]
pub struct Nodes<D> {
    pub(crate) a: Node<D>,
    pub(crate) b: Node<D>,
}

impl<D> Nodes<D> {
    /// The node of this name.
    pub(crate) fn get(&self, n: NodeName) -> &Node<D>
        ensures { result.now ≡ node_in self.now n }
    {
        match n {
            NodeName::A => &self.a,
            NodeName::B => &self.b,
        }
    }

    /// The same, to be changed.
    pub(crate) fn get_mut(&mut self, n: NodeName) -> &mut Node<D>
        ensures* writes_back { sem 𝓛 (Lends (nodes_row D.row) (node_row D.row) self.entry result (put self.old n)) }
        ensures value { result.now ≡ node_in self.old n }
    {
        match n {
            NodeName::A => &mut self.a,
            NodeName::B => &mut self.b,
        }
    }
}

impl<D: Disk + Drop> Nodes<D> {
    /// The node does with a message what it answers.
    pub(crate) fn store(&mut self, n: NodeName, m: &Message) -> Result<Delivered, DiskFault>
        requires usable { is_usable (node_in self.old n) ≡ true }
        requires number { 1 ≤ m.now.number }
        requires fits { FitsIn (limit_of (journal_of (node_in self.old n))) m.now.number m.now.what }
        ensures stored { IsStoring D.state (node_in self.old n) (node_in self.new n) m.now result }
        ensures beside { self.new ≡ put self.old n (node_in self.new n) }
    {
        self.get_mut(n).store(m)
    }
}

/// The disk of a node.
pub(crate) fn disk_of(n: NodeName) -> DiskName
    ensures { result ≡ disk_of n }
{
    match n {
        NodeName::A => DiskName::A,
        NodeName::B => DiskName::B,
    }
}

/// The node beside this one.
pub fn other(n: NodeName) -> NodeName
    ensures { result ≡ worlds.other n }
{
    match n {
        NodeName::A => NodeName::B,
        NodeName::B => NodeName::A,
    }
}

/// Whether the two names are one.
pub(crate) fn is_node(n: NodeName, m: NodeName) -> bool
    ensures { result ≡ worlds.is_node n m }
{
    match (n, m) {
        (NodeName::A, NodeName::A) | (NodeName::B, NodeName::B) => true,
        _ => false,
    }
}
