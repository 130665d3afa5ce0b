//! The report of the lines that got a code.
ghost use Rattle.std.specs.Prelude.{◌≡◌, ◌+◌, ◌^◌, ◌<◌, ◌≤◌, length, map, flat_map, IfOk, OnOk};
ghost use Rattle.sequence_once.specs.CycleReaders.{record_of};
ghost use Rattle.audit_reports.specs.CodeLines.{code_listing, cycle_rows, line_fields};
ghost use Rattle.audit_reports.specs.CsvLines.{IsAtLine, Writes, csv_line};

use crate::csv_lines::{finish, new_writer, write_line};
use ali_base::{NoMemory, trimmed};
use csv::Writer;
use itoa::Buffer;
use office_state::Office;
use sequence_once::KeptCycle;
use std::alloc::Global;

/// The lines of the kept cycles that got this code.
pub(crate) fn code_listing(alloc: Global, office: &Office, code: u16) -> Result<Vec<u8>, NoMemory>
    // No more cycles are kept than openings were booked.
    ensures { IfOk result (λ text. length office.now.state.cycles.kept ≤ office.now.entries
        → text.items ≡ code_listing code office.now.state) }
{
    let mut out = new_writer(alloc);
    write_line(&mut out, &[b"company", b"cycle", b"line", b"code"])?;
    write_cycles(&mut out, office, code)?;
    finish(out)
}

// Writes the lines of each kept cycle that got this code.
fn write_cycles(out: &mut Writer<Vec<u8>>, office: &Office, code: u16) -> Result<(), NoMemory>
    requires { IsAtLine out.old }
    ensures ready { OnOk result (IsAtLine out.new) }
    ensures lines { OnOk result (length office.now.state.cycles.kept ≤ office.now.entries
        → Writes out.old out.new
        (flat_map csv_line (flat_map (cycle_rows code) office.now.state.cycles.kept))) }
{
    for i in 0..office.entries() {
        match office.kept(i) {
            Some(kept) => write_cycle(out, &kept, code)?,
            None => return Ok(()),
        }
    }
    Ok(())
}

// Writes the lines of a kept cycle that got this code.
fn write_cycle(out: &mut Writer<Vec<u8>>, kept: &KeptCycle<'_>, code: u16) -> Result<(), NoMemory>
    requires { IsAtLine out.old }
    ensures { OnOk result (Writes out.old out.new
        (flat_map csv_line (cycle_rows code (record_of kept.now)))) }
{
    for i in 0..kept.codes.len() {
        if kept.codes[i] == code {
            write_code(out, kept, i + 1, code)?;
        }
    }
    Ok(())
}

// Writes a line of a kept cycle.
fn write_code(
    out: &mut Writer<Vec<u8>>,
    kept: &KeptCycle<'_>,
    line: usize,
    code: u16,
) -> Result<(), NoMemory>
    requires { IsAtLine out.old }
    ensures { OnOk result (Writes out.old out.new
        (csv_line (line_fields code (record_of kept.now) line))) }
{
    let company = kept.company.text();
    write_line(
        out,
        &[
            trimmed(&company),
            Buffer::new().format(kept.cycle.number()).as_bytes(),
            Buffer::new().format(line).as_bytes(),
            Buffer::new().format(code).as_bytes(),
        ],
    )
}
