//! The report of how much was booked, and what there is now.
ghost use Rattle.std.specs.Prelude.{◌≡◌, ◌≤◌, ◌^◌, List, flat_map, IfOk, OnOk};
ghost use Rattle.office_entry.specs.declared.entry.Entry.{Entry};
ghost use Rattle.office_state.specs.declared.limits.Limits.{Limits};
ghost use Rattle.office_state.specs.History.{Represents};
ghost use Rattle.office_state.specs.Tallies.{count_in};
ghost use Rattle.audit_reports.specs.CsvLines.{IsAtLine, Writes, csv_line};
ghost use Rattle.audit_reports.specs.Statistics.{all_code_statistics, code_name, code_statistics, statistic, statistics_text};
ghost use Rattle.audit_reports.specs.TallyRows.{number_rows};

use crate::csv_lines::{finish, new_writer, write_line};
use ali_base::NoMemory;
use csv::Writer;
use itoa::Buffer;
use office_state::{Office, Tally};
use std::alloc::Global;
use text_line::Line;

/// How many codes a `u16` can be.
const CODES: u32 = 1 << 16;

/// How much was booked, and what there is now.
pub(crate) fn statistics_text(alloc: Global, office: &Office) -> Result<Vec<u8>, NoMemory>
    ensures { IfOk result (λ text. (limits : Limits) (history : List Entry)
        → Represents limits office.now history → text.items ≡ statistics_text limits history) }
{
    let tally = office.tally();
    let mut out = new_writer(alloc);
    write_line(&mut out, &[b"name", b"value"])?;
    write_numbers(&mut out, &tally)?;
    write_all_codes(&mut out, &tally)?;
    finish(out)
}

// Writes the numbers of a tally but those of its codes.
fn write_numbers(out: &mut Writer<Vec<u8>>, tally: &Tally) -> Result<(), NoMemory>
    requires { IsAtLine out.old }
    ensures { OnOk result (Writes out.old out.new (flat_map csv_line (number_rows tally.now))) }
{
    write_number(out, b"entries", tally.entries)?;
    write_number(out, b"opens", tally.opens)?;
    write_number(out, b"lines", tally.lines)?;
    write_number(out, b"edits", tally.edits)?;
    write_number(out, b"numbers", tally.numbers)?;
    write_number(out, b"unlocked", tally.unlocked)?;
    write_number(out, b"ranges", tally.ranges)?;
    write_number(out, b"companies", tally.companies)
}

// Writes how often each code came that came.
#[tactic(auto, unfolding(crate::specs::Statistics::all_code_statistics))]
fn write_all_codes(out: &mut Writer<Vec<u8>>, tally: &Tally) -> Result<(), NoMemory>
    requires { IsAtLine out.old }
    ensures { OnOk result (Writes out.old out.new
        (flat_map csv_line (all_code_statistics (count_in tally.now)))) }
{
    write_codes(out, tally, CODES)
}

// Writes how often each code came that came, of the codes below the limit.
fn write_codes(out: &mut Writer<Vec<u8>>, tally: &Tally, limit: u32) -> Result<(), NoMemory>
    requires ready { IsAtLine out.old }
    requires limit { limit ≤ 2 ^ 16 }
    ensures { OnOk result (Writes out.old out.new
        (flat_map csv_line (code_statistics (count_in tally.now) limit))) }
{
    for code in 0..limit {
        let times = tally.count_of(code as u16);
        if times > 0 {
            write_code(out, code as u16, times)?;
        }
    }
    Ok(())
}

// Writes how often a code came.
fn write_code(out: &mut Writer<Vec<u8>>, code: u16, times: u32) -> Result<(), NoMemory>
    requires { IsAtLine out.old }
    ensures { OnOk result (Writes out.old out.new
        (csv_line (statistic (code_name code) times))) }
{
    let mut name = Line::new();
    name.add_word(b"code");
    name.add_number(u64::from(code));
    write_number(out, name.bytes(), times)
}

// Writes a number behind its name.
fn write_number(out: &mut Writer<Vec<u8>>, name: &[u8], number: u32) -> Result<(), NoMemory>
    requires { IsAtLine out.old }
    ensures { OnOk result (Writes out.old out.new (csv_line (statistic name.now number))) }
{
    write_line(out, &[name, Buffer::new().format(number).as_bytes()])
}
