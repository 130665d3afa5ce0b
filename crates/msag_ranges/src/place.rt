//! Places in the index of a guide.
ghost use Rattle.std.specs.Prelude.{◌≡◌};
ghost use Rattle.msag_ranges.specs.GuideIndex.{before};

use ali_base::StreetKey;

/// A number of a street. Places are ordered by street, then even before odd, then by number.
#[derive(Clone, Copy, Debug, PartialEq, Eq, PartialOrd, Ord)]
pub(crate) struct Place {
    pub(crate) key: StreetKey,
    pub(crate) odd: bool,
    pub(crate) number: u32,
}

/// Where a range begins in one class of numbers, odd or even: at the first that it holds.
#[derive(Clone, Copy, Debug, PartialEq, Eq, Drop)]
pub(crate) struct Entry {
    pub(crate) place: Place,
    /// The range's.
    pub(crate) id: u32,
}

/// Whether the entry begins after the place.
pub(crate) fn is_after(entry: &Entry, place: &Place) -> bool
    ensures { result ≡ before place.now entry.now.place }
{
    place.cmp(&entry.place).is_lt()
}
