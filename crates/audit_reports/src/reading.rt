//! Reading the words of a report.
ghost use Rattle.std.specs.Prelude.{◌≡◌, ◌↔◌, Some, codes};
ghost use Rattle.std.specs.Str.{bytes_eq};
ghost use Rattle.ali_base.specs.Steps.{when};
ghost use Rattle.audit_reports.specs.Reports.{IsReport};
ghost use Rattle.audit_reports.specs.ReportWords.{report_words};
ghost use Rattle.audit_reports.specs.WordsReading.{company_named, company_report, esn_report, unlocked_report, range_report, code_report, by_word, report_of};

use crate::report::{HIGHEST_CODE, Report};
use ali_base::{Company, Day, Esn, trimmed};
use text_line::{number_of, split_once};

impl Report {
    /// The report that these words name: `STATS`, `COMPANY company`, `ESN number`, `UNLOCKED MMDDYY`,
    /// `RANGE id` or `CODE code`. A company stands without the spaces at its end. None where they
    /// name no report.
    pub fn read_text(bytes: &[u8]) -> Option<Report>
        ensures words { (report : Report) → (result ≡ Some report)
            ↔ (IsReport report × (bytes.now ≡ report_words report)) }
        ensures reading { result ≡ report_of bytes.now }
    {
        report_of(bytes)
    }
}

// The report that these words name.
#[tactic(auto, unfolding(crate::specs::WordsReading::report_of))]
fn report_of(words: &[u8]) -> Option<Report>
    ensures { result ≡ report_of words.now }
{
    match split_once(words, b' ') {
        Some((word, rest)) => by_word(word, rest),
        None => stats_report(words),
    }
}

// `STATS`
fn stats_report(words: &[u8]) -> Option<Report>
    ensures { result ≡ when (bytes_eq words.now (codes "STATS")) Report.Stats }
{
    if words == b"STATS".as_slice() {
        Some(Report::Stats)
    } else {
        None
    }
}

// A word, and what stands behind it.
fn by_word(word: &[u8], rest: &[u8]) -> Option<Report>
    ensures { result ≡ by_word word.now rest.now }
{
    if word == b"COMPANY".as_slice() {
        company_report(rest)
    } else if word == b"ESN".as_slice() {
        esn_report(rest)
    } else if word == b"UNLOCKED".as_slice() {
        unlocked_report(rest)
    } else if word == b"RANGE".as_slice() {
        range_report(rest)
    } else if word == b"CODE".as_slice() {
        code_report(rest)
    } else {
        None
    }
}

// Behind `COMPANY`: its letters and digits, at most five.
fn company_report(word: &[u8]) -> Option<Report>
    ensures { result ≡ company_report word.now }
{
    Some(Report::Company(company_named(word)?))
}

// The company that a word without spaces at its end names.
#[tactic(auto, unfolding(crate::specs::WordsReading::company_named))]
fn company_named(word: &[u8]) -> Option<Company>
    ensures { result ≡ company_named word.now }
{
    if word.len() > 5 || trimmed(word) != word {
        return None;
    }
    let mut padded = [b' '; 5];
    padded[..word.len()].copy_from_slice(word);
    Company::read(&padded)
}

// Behind `ESN`: 1 to 99,999.
#[tactic(auto, unfolding(crate::specs::WordsReading::esn_report))]
fn esn_report(word: &[u8]) -> Option<Report>
    ensures { result ≡ esn_report word.now }
{
    Some(Report::Esn(Esn::new(number_of(word)?)?))
}

// Behind `UNLOCKED`: MMDDYY.
fn unlocked_report(word: &[u8]) -> Option<Report>
    ensures { result ≡ unlocked_report word.now }
{
    Some(Report::Unlocked(Day::read(word)?))
}

// Behind `RANGE`: an id.
fn range_report(word: &[u8]) -> Option<Report>
    ensures { result ≡ range_report word.now }
{
    Some(Report::InRange(number_of(word)?))
}

// Behind `CODE`: 0 to 999.
#[tactic(auto, unfolding(crate::specs::WordsReading::code_report))]
fn code_report(word: &[u8]) -> Option<Report>
    ensures { result ≡ code_report word.now }
{
    let code = number_of(word)?;
    if code <= u32::from(HIGHEST_CODE) {
        Some(Report::Code(code as u16))
    } else {
        None
    }
}
