//! ADD: a new range.
ghost use Rattle.std.specs.Prelude.{◌≡◌, ◌<◌};
ghost use Rattle.number_table.specs.NumberTable.{NumberTable};
ghost use Rattle.msag_edits.specs.EditRules.{are_sound_ends};
ghost use Rattle.msag_edits.specs.Edits.{IsApplied};

use crate::edit_verdict::EditVerdict;
use ali_base::{Esn, House, NoMemory, Parity, StreetKey};
use msag_ranges::{Guide, GuideFault, Range, has_parity};
use office_entry::Edit;

// Whether the ends are in order and of the parity.
fn are_sound_ends(parity: Parity, low: House, high: House) -> bool
    ensures { result ≡ are_sound_ends parity low high }
{
    low <= high && has_parity(parity, low.number()) && has_parity(parity, high.number())
}

/// Adds a range.
pub(crate) fn add(
    guide: &mut Guide,
    key: &StreetKey,
    low: House,
    high: House,
    parity: Parity,
    esn: u32,
) -> Result<EditVerdict, NoMemory>
    requires { guide.old.next < 4_294_967_295 }
    ensures { let edit = Edit.Add key.now low high parity esn in
        (rows : NumberTable) → IsApplied edit guide.old guide.new rows rows result }
{
    if !are_sound_ends(parity, low, high) {
        return Ok(EditVerdict::refused(503));
    }
    let Some(esn) = Esn::new(esn) else {
        return Ok(EditVerdict::refused(508));
    };
    let range = Range {
        id: guide.next_id(),
        key: *key,
        low,
        high,
        parity,
        esn,
    };
    if let Some(id) = guide.overlap(&range, None) {
        return Ok(EditVerdict {
            code: 502,
            detail: u64::from(id),
        });
    }
    match guide.ready() {
        Ok(()) => {}
        Err(GuideFault::Full(_)) => return Ok(EditVerdict::refused(509)),
        Err(GuideFault::NoMemory) => return Err(NoMemory),
    }
    let id = guide.add(*key, low, high, parity, esn);
    Ok(EditVerdict::done(u64::from(id)))
}
