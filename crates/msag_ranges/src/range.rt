//! A line of the street guide.
use ali_base::{Esn, House, Parity, StreetKey};

/// A range of the street guide: it holds the numbers of its street from `low` to `high` that have
/// its parity, and gives them their emergency service number.
#[derive(Clone, Copy, Debug, PartialEq, Eq)]
pub struct Range {
    /// Names the range; never used again.
    pub id: u32,
    pub key: StreetKey,
    pub low: House,
    pub high: House,
    pub parity: Parity,
    pub esn: Esn,
}
