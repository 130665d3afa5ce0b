//! RETIRE: removes a range that no row uses.
ghost use Rattle.msag_edits.specs.Edits.{IsApplied};

use crate::edit_verdict::EditVerdict;
use crate::live_range::live_range;
use crate::telephone::tn_number;
use msag_ranges::Guide;
use number_table::RowMover;
use office_entry::Edit;

/// Removes the range of this id, which no row uses.
pub(crate) fn retire<R: RowMover>(guide: &mut Guide, rows: &R, id: u32) -> EditVerdict
    ensures { let edit = Edit.Retire id in
        IsApplied edit guide.old guide.new (R.rows rows.now) (R.rows rows.now) (Ok result) }
{
    let Some(range) = live_range(guide, id) else {
        return EditVerdict::refused(501);
    };
    if let Some(tn) = rows.least_held(&range) {
        return EditVerdict {
            code: 504,
            detail: tn_number(tn),
        };
    }
    guide.remove(id);
    EditVerdict::done(0)
}
