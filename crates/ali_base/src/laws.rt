//! What the limits of small values are.
ghost use Rattle.std.specs.Prelude.{◌≡◌};

use crate::cycle::LAST_CYCLE;
use crate::editor::{EDITORS, LAST_SERIAL};
use crate::esn::HIGHEST_ESN;
use crate::house::HIGHEST_HOUSE;

/// The limits of house numbers, emergency service numbers, cycles, editors and serials.
pub fn limits_of_values()
    ensures house { HIGHEST_HOUSE ≡ 999_999 }
    ensures esn { HIGHEST_ESN ≡ 99_999 }
    ensures cycle { LAST_CYCLE ≡ 999_999 }
    ensures editors { EDITORS ≡ 64 }
    ensures serial { LAST_SERIAL ≡ 999_999_999 }
{}
