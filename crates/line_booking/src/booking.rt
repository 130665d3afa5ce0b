//! A line, judged and carried out.
ghost use Rattle.std.specs.Prelude.{◌≡◌, OnOk, OnErr, IfOk};
ghost use Rattle.msag_edits.specs.GuideSoundness.{AreSound};
ghost use Rattle.line_booking.specs.Rooms.{HasRoom};
ghost use Rattle.line_booking.specs.LineVerdict.{acted, line_code, table_with_line};

use crate::judging::{Asked, judge_line};
use ali_base::{Company, NoMemory};
use msag_ranges::Guide;
use number_life::{LifeAct, Row};
use number_table::Rows;

/// Carries a line of a company's file out, over a guide and a table of at most so many numbers: gives
/// its code, and where that is 0 changes the row of its number. Each other code leaves the table as it
/// was. Guide and rows that were sound are sound afterwards.
///
/// # Errors
///
/// `NoMemory`, and nothing has changed.
pub fn apply_line(
    guide: &Guide,
    rows: &mut Rows,
    most_numbers: u32,
    company: Company,
    bytes: &[u8; 512],
) -> Result<u16, NoMemory>
    ensures code { IfOk result (λ code.
        code ≡ line_code guide.now.ranges rows.old most_numbers company bytes.now) }
    ensures rows { OnOk result
        (rows.new ≡ table_with_line guide.now.ranges rows.old most_numbers company bytes.now) }
    ensures err { OnErr result (rows.new ≡ rows.old) }
    ensures sound { AreSound guide.now rows.old → AreSound guide.now rows.new }
{
    match judge_line(guide, rows, most_numbers, company, bytes) {
        Ok(asked) => {
            change(rows, asked)?;
            Ok(0)
        }
        Err(code) => Ok(code),
    }
}

// Does what a line asks for.
fn change(rows: &mut Rows, asked: Asked) -> Result<(), NoMemory>
    requires { HasRoom rows.old asked.tn asked.act }
    ensures ok { OnOk result (rows.new ≡ acted rows.old asked.tn asked.rec asked.act) }
    ensures err { OnErr result (rows.new ≡ rows.old) }
{
    let Asked { tn, rec, act } = asked;
    match act {
        LifeAct::Store => rows.insert(
            tn,
            Row {
                rec,
                unlocked: None,
            },
        ),
        LifeAct::Remove => {
            rows.remove(tn);
            Ok(())
        }
        LifeAct::Unlock(day) => {
            rows.unlock(tn, day);
            Ok(())
        }
    }
}
