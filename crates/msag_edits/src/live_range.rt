//! The range that an edit names.
ghost use Rattle.std.specs.Prelude.{◌≡◌};
ghost use Rattle.msag_ranges.specs.StreetGuide.{IsSoundGuide, range_of};

use msag_ranges::{Guide, Range};

/// The range of this id, and with it what every guide keeps.
pub(crate) fn live_range(guide: &Guide, id: u32) -> Option<Range>
    ensures value { result ≡ range_of guide.now.ranges id }
    ensures sound { IsSoundGuide guide.now.ranges guide.now.next guide.now.limit }
{
    guide.get(id).copied()
}
