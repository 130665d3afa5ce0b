//! Lines of comma-separated values, in memory.
ghost use Rattle.std.specs.Prelude.{◌≡◌, [], map, IfOk, OnOk};
ghost use Rattle.audit_reports.specs.CsvLines.{IsAtLine, Writes, csv_line, written};

use ali_base::NoMemory;
use csv::Writer;
use std::alloc::Global;

/// A writer with nothing written.
pub(crate) fn new_writer(alloc: Global) -> Writer<Vec<u8>>
    ensures ready { IsAtLine result }
    ensures empty { written result ≡ [] }
{
    Writer::from_writer(Vec::new(alloc))
}

/// Writes the fields as a line.
#[tactic(auto, unfolding(crate::specs::CsvLines::csv_line))]
pub(crate) fn write_line(out: &mut Writer<Vec<u8>>, fields: &[&[u8]]) -> Result<(), NoMemory>
    requires { IsAtLine out.old }
    ensures { OnOk result (Writes out.old out.new (csv_line (map (λ f. f.now) fields.now))) }
{
    match out.write_fields(fields) {
        Ok(()) => Ok(()),
        Err(_) => Err(NoMemory),
    }
}

/// What was written.
pub(crate) fn finish(out: Writer<Vec<u8>>) -> Result<Vec<u8>, NoMemory>
    ensures { IfOk result (λ text. text.items ≡ written out) }
{
    match out.into_inner() {
        Ok(text) => Ok(text),
        Err(_) => Err(NoMemory),
    }
}
