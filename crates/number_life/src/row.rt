//! A row of the table.
use ali_base::Day;
use ali_record::Record;

/// What the table has of a telephone number.
#[derive(Drop)]
pub struct Row {
    /// The record.
    pub rec: Record,
    /// The day on which its company unlocked it; none while it is locked.
    pub unlocked: Option<Day>,
}
