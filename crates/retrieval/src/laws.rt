//! What the limit of forms is.
ghost use Rattle.std.specs.Prelude.{◌≡◌};

use crate::forms::LONGEST_FORM;

/// A form has at most 290 bytes.
pub fn limit_of_forms()
    ensures { LONGEST_FORM ≡ 290 }
{}
