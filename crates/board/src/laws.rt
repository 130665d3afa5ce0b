//! A law for whoever reads the definitions.
ghost use Rattle.std.specs.Prelude.{◌≡◌};
ghost use Rattle.board.specs.declared.front.TheConstants.{MOST_BOOKED};

/// A board's history has at most 1,000,000 entries.
pub fn limit_of_bookings()
    ensures { MOST_BOOKED ≡ 1_000_000 }
{}
