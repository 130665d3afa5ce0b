//! What the limits of kept cycles are.
ghost use Rattle.std.specs.Prelude.{◌≡◌};

use crate::cycles::KEPT_CYCLES;

/// Eight cycles of a company are kept.
pub fn limit_of_kept_cycles()
    ensures { KEPT_CYCLES ≡ 8 }
{}
