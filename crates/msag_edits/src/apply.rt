//! Any edit.
ghost use Rattle.std.specs.Prelude.{◌<◌};
ghost use Rattle.msag_edits.specs.Edits.{IsApplied};
ghost use Rattle.msag_edits.specs.GuideSoundness.{AreSound};

use crate::add::add;
use crate::edit_verdict::EditVerdict;
use crate::renumber::renumber;
use crate::retire::retire;
use crate::set_esn::set_esn;
use crate::split::split;
use ali_base::NoMemory;
use msag_ranges::Guide;
use number_table::RowMover;
use office_entry::Edit;

// Applies an edit.
fn carry_out<R: RowMover>(
    guide: &mut Guide,
    rows: &mut R,
    edit: &Edit,
) -> Result<EditVerdict, NoMemory>
    requires { guide.old.next < 4_294_967_295 }
    ensures { IsApplied edit.now guide.old guide.new (R.rows rows.old) (R.rows rows.new) result }
{
    match edit {
        Edit::Add {
            key,
            low,
            high,
            parity,
            esn,
        } => add(guide, key.key(), *low, *high, *parity, esn.number()),
        Edit::Retire { id } => Ok(retire(guide, rows, *id)),
        Edit::Split { id, at, esn } => split(guide, rows, *id, *at, esn.number()),
        Edit::Renumber { id, by } => Ok(renumber(guide, rows, *id, by.number())),
        Edit::SetEsn { id, esn } => Ok(set_esn(guide, rows, *id, esn.number())),
    }
}

/// Applies an edit: gives its verdict, and where that has code 0 changes guide and rows as the edit
/// says. It asks for a next id below 4,294,967,295. Want of memory, and each other code, leaves guide
/// and rows as they were. Guide and rows that were sound are sound afterwards.
pub fn apply_edit<R: RowMover>(
    guide: &mut Guide,
    rows: &mut R,
    edit: &Edit,
) -> Result<EditVerdict, NoMemory>
    requires { guide.old.next < 4_294_967_295 }
    ensures applied { let before = R.rows rows.old in
        IsApplied edit.now guide.old guide.new before (R.rows rows.new) result }
    ensures sound { AreSound guide.old (R.rows rows.old) → AreSound guide.new (R.rows rows.new) }
{
    carry_out(guide, rows, edit)
}
