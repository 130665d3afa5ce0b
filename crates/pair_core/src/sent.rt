//! What is on its way between the nodes.

use ali_base::NodeName;
use pair_node::{Ack, Message};

/// What is on its way between the nodes.
#[derive(Drop)]
pub(crate) enum Sent {
    /// To the node that is not its sender.
    Shipment { sender: NodeName, message: Message },
    Acknowledgement { to: NodeName, ack: Ack },
}
