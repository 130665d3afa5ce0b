//! Why a report was not written whole.

#[derive(Clone, Copy, Debug, PartialEq, Eq)]
pub enum ReportFault {
    /// The sink failed, or took nothing of a piece that is not empty; a part of the report was put.
    SinkFault,
    /// Memory ran out; nothing was put.
    NoMemory,
}
