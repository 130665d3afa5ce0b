//! Orders to the nodes.
use ali_base::NodeName;

/// What the nodes and the duty register are told to do: one event of theirs.
#[derive(Clone, Copy, Debug, PartialEq, Eq)]
pub enum Order {
    /// The entry that is written and not booked is booked.
    Book,
    /// The node, which has to be the holder, tells the other its frame of this number, from 1, or its end.
    Ship { node: NodeName, number: u32 },
    /// The message of this number, from 1, is delivered.
    Deliver(u32),
    /// The node takes the duty, and is then alone.
    Take(NodeName),
    /// The holder goes on alone.
    Alone,
    /// Both nodes are in step again.
    Pair,
    /// The node is stopped.
    Stop(NodeName),
    /// The node, which is down, is started again.
    Start(NodeName),
    /// The duty register, which is down, is started again.
    StartDuty,
    /// How things stand is told.
    Status,
}
