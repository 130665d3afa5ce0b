//! SPLIT: the numbers of a range above a place become a new range.
ghost use Rattle.std.specs.Prelude.{◌<◌};
ghost use Rattle.msag_edits.specs.Edits.{IsApplied};

use crate::edit_verdict::EditVerdict;
use crate::houses::{greatest_up_to, has_empty_part, least_above};
use crate::live_range::live_range;
use ali_base::{Esn, House, NoMemory};
use msag_ranges::{Guide, GuideFault, Range};
use number_table::RowMover;
use office_entry::Edit;

/// Makes the numbers of the range of this id above `at` a new range with this ESN, which the rows of
/// that part get.
pub(crate) fn split<R: RowMover>(
    guide: &mut Guide,
    rows: &mut R,
    id: u32,
    at: House,
    esn: u32,
) -> Result<EditVerdict, NoMemory>
    requires { guide.old.next < 4_294_967_295 }
    ensures { let edit = Edit.Split id at esn in
        IsApplied edit guide.old guide.new (R.rows rows.old) (R.rows rows.new) result }
{
    let Some(range) = live_range(guide, id) else {
        return Ok(EditVerdict::refused(501));
    };
    if has_empty_part(&range, at) {
        return Ok(EditVerdict::refused(505));
    }
    let Some(esn) = Esn::new(esn) else {
        return Ok(EditVerdict::refused(508));
    };
    match guide.ready() {
        Ok(()) => {}
        Err(GuideFault::Full(_)) => return Ok(EditVerdict::refused(509)),
        Err(GuideFault::NoMemory) => return Err(NoMemory),
    }
    guide.set(id, range.low, greatest_up_to(range.parity, at), range.esn);
    let low = least_above(range.parity, at);
    let new_id = guide.add(range.key, low, range.high, range.parity, esn);
    let part = Range {
        id: new_id,
        low,
        esn,
        ..range
    };
    rows.set_esn(&part, esn);
    Ok(EditVerdict::done(u64::from(new_id)))
}
