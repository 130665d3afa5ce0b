//! SETESN: sets the ESN of a range and of its rows.
ghost use Rattle.msag_edits.specs.Edits.{IsApplied};

use crate::edit_verdict::EditVerdict;
use crate::live_range::live_range;
use ali_base::Esn;
use msag_ranges::Guide;
use number_table::RowMover;
use office_entry::Edit;

/// Gives the range of this id, and each row that it holds, this ESN.
pub(crate) fn set_esn<R: RowMover>(
    guide: &mut Guide,
    rows: &mut R,
    id: u32,
    esn: u32,
) -> EditVerdict
    ensures { let edit = Edit.SetEsn id esn in
        IsApplied edit guide.old guide.new (R.rows rows.old) (R.rows rows.new) (Ok result) }
{
    let Some(range) = live_range(guide, id) else {
        return EditVerdict::refused(501);
    };
    let Some(esn) = Esn::new(esn) else {
        return EditVerdict::refused(508);
    };
    guide.set(id, range.low, range.high, esn);
    let count = rows.set_esn(&range, esn);
    EditVerdict::done(u64::from(count))
}
