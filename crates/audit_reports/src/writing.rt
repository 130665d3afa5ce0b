//! Writing a report.
ghost use Rattle.std.specs.Prelude.{◌≡◌, List, IfOk};
ghost use Rattle.office_entry.specs.declared.entry.Entry.{Entry};
ghost use Rattle.office_state.specs.declared.limits.Limits.{Limits};
ghost use Rattle.office_state.specs.History.{Represents};
ghost use Rattle.audit_reports.specs.ReportText.{report_text};
ghost use Rattle.audit_reports.specs.ReportPuts.{PutsText, PutsCause};

use crate::code_listing::code_listing;
use crate::listed::Listed;
use crate::listings::{listing, range_listing, unlocked_listing};
use crate::report::Report;
use crate::report_fault::ReportFault;
use crate::statistics::statistics_text;
use ali_base::{NoMemory, Sink, SinkFault, put_all};
use office_state::Office;
use std::alloc::Global;

/// Writes a report of the office and puts it into the sink.
///
/// # Errors
///
/// `SinkFault` where the sink failed or took nothing, with a part of the report put; `NoMemory`, with
/// nothing put.
pub fn write_report<K: Sink>(
    alloc: Global,
    office: &Office,
    report: &Report,
    sink: &mut K,
) -> Result<(), ReportFault>
    ensures text { (limits : Limits) (history : List Entry) → Represents limits office.now history
        → PutsText (K.contents sink.old) (K.contents sink.new)
        (report_text limits history report.now) result }
    ensures cause { PutsCause K.faults sink.old sink.new result }
{
    let text = match report_text(alloc, office, report) {
        Ok(text) => text,
        Err(NoMemory) => return Err(ReportFault::NoMemory),
    };
    match put_all(sink, &text) {
        Ok(()) => Ok(()),
        Err(SinkFault) => Err(ReportFault::SinkFault),
    }
}

/// The text of a report of the office.
pub fn report_text(alloc: Global, office: &Office, report: &Report) -> Result<Vec<u8>, NoMemory>
    ensures { IfOk result (λ text. (limits : Limits) (history : List Entry)
        → Represents limits office.now history
        → text.items ≡ report_text limits history report.now) }
{
    match *report {
        Report::Stats => statistics_text(alloc, office),
        Report::Company(company) => listing(alloc, office, &Listed::Company(company)),
        Report::Esn(esn) => listing(alloc, office, &Listed::Esn(esn)),
        Report::Unlocked(day) => unlocked_listing(alloc, office, day),
        Report::InRange(id) => range_listing(alloc, office, id),
        Report::Code(code) => code_listing(alloc, office, code),
    }
}
