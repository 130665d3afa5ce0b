//! RENUMBER: adds a difference to the ends of a range and to the house numbers in it.
ghost use Rattle.msag_edits.specs.Edits.{IsApplied};

use crate::edit_verdict::EditVerdict;
use crate::houses::{shifted, swaps_parity};
use crate::live_range::live_range;
use msag_ranges::Guide;
use number_table::RowMover;
use office_entry::Edit;

/// Adds `by` to both ends of the range of this id, and to the house number of each row that it holds.
pub(crate) fn renumber<R: RowMover>(
    guide: &mut Guide,
    rows: &mut R,
    id: u32,
    by: i32,
) -> EditVerdict
    ensures { let edit = Edit.Renumber id by in
        IsApplied edit guide.old guide.new (R.rows rows.old) (R.rows rows.new) (Ok result) }
{
    let Some(range) = live_range(guide, id) else {
        return EditVerdict::refused(501);
    };
    if swaps_parity(range.parity, by) {
        return EditVerdict::refused(507);
    }
    let Some(shifted) = shifted(&range, by) else {
        return EditVerdict::refused(506);
    };
    if let Some(other) = guide.overlap(&shifted, Some(id)) {
        return EditVerdict {
            code: 502,
            detail: u64::from(other),
        };
    }
    guide.set(id, shifted.low, shifted.high, shifted.esn);
    let count = rows.shift(&range, by);
    EditVerdict::done(u64::from(count))
}
