//! Reports that list rows.
ghost use Rattle.std.specs.Prelude.{◌≡◌, [], ◌∷◌, ◌++◌, map, flat_map, filter_map, IfOk, OnOk};
ghost use Rattle.std.specs.Fmt.{signed_decimal};
ghost use Rattle.ali_base.specs.CivilDay.{days_between};
ghost use Rattle.audit_reports.specs.CsvLines.{IsAtLine, Writes, csv_line};
ghost use Rattle.audit_reports.specs.Listings.{listing, listed_rows, row_fields, row_names, rows_in_range, rows_of, unlocked_fields, unlocked_listing};

use crate::csv_lines::{finish, new_writer, write_line};
use crate::listed::Listed;
use crate::rows::MadeFields;
use ali_base::{Day, NoMemory};
use csv::Writer;
use itoa::Buffer;
use number_life::Row;
use office_state::Office;
use std::alloc::Global;

/// The listing of these rows.
pub(crate) fn listing(alloc: Global, office: &Office, listed: &Listed) -> Result<Vec<u8>, NoMemory>
    ensures { IfOk result (λ text.
        text.items ≡ listing (listed_rows listed.now office.now.state)) }
{
    let mut out = new_writer(alloc);
    write_names(&mut out)?;
    write_rows(&mut out, office, listed)?;
    finish(out)
}

/// The listing of the rows of the range with this id; without rows where no range has it.
pub(crate) fn range_listing(alloc: Global, office: &Office, id: u32) -> Result<Vec<u8>, NoMemory>
    ensures { IfOk result (λ text. text.items ≡ listing (rows_in_range id office.now.state)) }
{
    match office.guide().get(id) {
        Some(range) => listing(alloc, office, &Listed::InRange(*range)),
        None => empty_listing(alloc),
    }
}

/// The listing of the unlocked rows.
pub(crate) fn unlocked_listing(
    alloc: Global,
    office: &Office,
    day: Day,
) -> Result<Vec<u8>, NoMemory>
    ensures { IfOk result (λ text. text.items ≡ unlocked_listing day office.now.state) }
{
    let mut out = new_writer(alloc);
    write_line(
        &mut out,
        &[
            b"tn",
            b"company",
            b"state",
            b"esn",
            b"house",
            b"street",
            b"community",
            b"days",
        ],
    )?;
    write_unlocked_rows(&mut out, office, day)?;
    finish(out)
}

// The listing of no rows.
fn empty_listing(alloc: Global) -> Result<Vec<u8>, NoMemory>
    ensures { IfOk result (λ text. text.items ≡ listing []) }
{
    let mut out = new_writer(alloc);
    write_names(&mut out)?;
    finish(out)
}

// Writes the names of the columns.
fn write_names(out: &mut Writer<Vec<u8>>) -> Result<(), NoMemory>
    requires { IsAtLine out.old }
    ensures { OnOk result (Writes out.old out.new (csv_line row_names)) }
{
    write_line(
        out,
        &[
            b"tn",
            b"company",
            b"state",
            b"esn",
            b"house",
            b"street",
            b"community",
        ],
    )
}

// Writes a line for each row that is listed.
fn write_rows(out: &mut Writer<Vec<u8>>, office: &Office, listed: &Listed) -> Result<(), NoMemory>
    requires { IsAtLine out.old }
    ensures { OnOk result (Writes out.old out.new
        (flat_map csv_line (map row_fields (listed_rows listed.now office.now.state)))) }
{
    for row in office.rows_in_order() {
        if listed.has(row) {
            write_row(out, row)?;
        }
    }
    Ok(())
}

// Writes the line of a row.
fn write_row(out: &mut Writer<Vec<u8>>, row: &Row) -> Result<(), NoMemory>
    requires { IsAtLine out.old }
    ensures { OnOk result (Writes out.old out.new (csv_line (row_fields row.now))) }
{
    let made = MadeFields::of(row);
    write_line(out, &made.with(row))
}

// Writes a line for each row that is unlocked.
fn write_unlocked_rows(out: &mut Writer<Vec<u8>>, office: &Office, day: Day) -> Result<(), NoMemory>
    requires { IsAtLine out.old }
    ensures { OnOk result (Writes out.old out.new
        (flat_map csv_line (filter_map (unlocked_fields day) (rows_of office.now.state)))) }
{
    for row in office.rows_in_order() {
        if let Some(from) = row.unlocked {
            write_unlocked_row(out, row, from, day)?;
        }
    }
    Ok(())
}

// Writes the line of a row, and the days from its day of unlocking to the given day.
fn write_unlocked_row(
    out: &mut Writer<Vec<u8>>,
    row: &Row,
    from: Day,
    day: Day,
) -> Result<(), NoMemory>
    requires { IsAtLine out.old }
    ensures { OnOk result (Writes out.old out.new
        (csv_line (row_fields row.now ++ signed_decimal (days_between from day) ∷ []))) }
{
    let mut buffer = Buffer::new();
    let made = MadeFields::of(row);
    let days = buffer.format(day.days_from(from)).as_bytes();
    write_line(out, &made.with_days(row, days))
}
