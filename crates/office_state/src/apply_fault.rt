//! Why an entry was not applied.
use crate::due_fault::DueFault;

/// Why an entry was not applied.
#[derive(Clone, Copy, Debug, PartialEq, Eq)]
pub enum ApplyFault {
    /// It may not be booked next.
    NotDue(DueFault),
    /// Memory ran out.
    NoMemory,
}
