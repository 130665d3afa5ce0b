//! Who may write, and which nodes are in step.
use crate::names::NodeName;

/// Which nodes are in step with the booked history, and may answer.
#[derive(Clone, Copy, Debug, PartialEq, Eq)]
pub enum Mode {
    /// Both nodes.
    Both,
    /// The holder alone.
    Alone,
}

/// A duty: the order under which the office works until the next one.
#[derive(Clone, Copy, Debug, PartialEq, Eq)]
pub struct Duty {
    /// Counts the duties, from 1.
    pub epoch: u32,
    /// The one node that may write.
    pub holder: NodeName,
    pub mode: Mode,
    /// How many entries were booked when the duty began.
    pub floor: u32,
}
