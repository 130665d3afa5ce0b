//! A telephone number as the detail of a verdict.
ghost use Rattle.std.specs.Prelude.{◌≡◌};
ghost use Rattle.msag_edits.specs.EditRules.{tn_number};

use ali_base::{Tn, digits_number};

/// The number that its ten digits write.
pub(crate) fn tn_number(tn: Tn) -> u64
    ensures { result ≡ tn_number tn }
{
    digits_number(&tn.text()).unwrap_or(0)
}
