//! What the record of a line asks for.
ghost use Rattle.std.specs.Prelude.{◌≡◌, ◌^◌, ◌<◌, ◌==◌, ◌&&◌, nat_le, Some, None, Ok, Err, MatchResult, length};
ghost use Rattle.std.specs.FinMap as map;
ghost use Rattle.line_booking.specs.AskedLines.{IsAsked};
ghost use Rattle.line_booking.specs.LineVerdict.{address_fault, record_act, stored};

use address_check::check;
use ali_base::{Company, Tn};
use ali_record::{Record, read_record};
use msag_ranges::Guide;
use number_life::{LifeAct, judge};
use number_table::Rows;

/// What a line asks for.
#[derive(Drop)]
pub(crate) struct Asked {
    /// Its number.
    pub(crate) tn: Tn,
    /// Its record as it is stored.
    pub(crate) rec: Record,
    /// What is done to the number.
    pub(crate) act: LifeAct,
}

/// What a line asks for, or the code of its refusal.
#[tactic(auto, unfolding(crate::specs::LineVerdict::record_act))]
pub(crate) fn judge_line(
    guide: &Guide,
    rows: &Rows,
    most_numbers: u32,
    company: Company,
    bytes: &[u8; 512],
) -> Result<Asked, u16>
    ensures { MatchResult result
        (λ asked. IsAsked guide.now.ranges rows.now most_numbers company bytes.now asked)
        (λ code. record_act guide.now.ranges rows.now most_numbers company bytes.now ≡ Err code) }
{
    let rec = read_record(bytes, company)?;
    let tn = rec.tn();
    let act = judge(rows.get(tn), &rec)?;
    let function = rec.function();
    let rec = filled(guide, rec)?;
    if is_full(rows, most_numbers, function) {
        return Err(509);
    }
    Ok(Asked { tn, rec, act })
}

// Whether a record of this function finds the table at its limit, which is asked of inserts.
fn is_full(rows: &Rows, most_numbers: u32, function: u8) -> bool
    ensures full { result ≡ ((function == 73) && nat_le most_numbers (map.len rows.now)) }
    ensures small { most_numbers < 2 ^ 32 }
{
    function == b'I' && most_numbers <= rows.len()
}

// A record as it is stored: where it sends an address, with the ESN of the range that holds it; or the
// code of the address check.
fn filled(guide: &Guide, rec: Record) -> Result<Record, u16>
    ensures { MatchResult result
        (λ filled. (filled ≡ stored guide.now.ranges rec)
        × (address_fault guide.now.ranges rec ≡ None)
        × (length rec ≡ 512 → length filled ≡ 512))
        (λ code. address_fault guide.now.ranges rec ≡ Some code) }
{
    if !rec.sends_address() {
        return Ok(rec);
    }
    let (_, esn) = check(guide, &rec)?;
    let mut filled = rec;
    filled.set_esn(esn);
    Ok(filled)
}
