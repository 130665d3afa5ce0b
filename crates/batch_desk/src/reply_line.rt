//! The lines that answer a file that was read or refused.
ghost use Rattle.std.specs.Prelude.{◌≡◌, ◌≤◌, ◌+◌, length};
ghost use Rattle.ali_base.specs.Columns.{trimmed};
ghost use Rattle.text_line.specs.WordLines.{with_word};
ghost use Rattle.batch_desk.specs.ReplyLines.{frame_line, refusal_line, read_line, done_line, errors_line};

use ali_base::{Company, Cycle, Editor, Serial, trimmed};
use batch_frame::FrameFault;
use sequence_once::CycleFault;
use text_line::Line;

/// What is told of a file that was read.
#[derive(Clone, Copy, Debug, PartialEq, Eq)]
pub struct FileRead {
    pub company: Company,
    pub cycle: Cycle,
    /// How many lines it has.
    pub count: u32,
    /// The line that is next: 0 where the opening is, and one past the last where it is complete.
    pub next: u32,
}

/// What is told of a file that is complete.
#[derive(Clone, Copy, Debug, PartialEq, Eq)]
pub struct FileDone {
    pub company: Company,
    pub cycle: Cycle,
    /// How many lines it has.
    pub count: u32,
    /// How many of them were refused.
    pub refused: u32,
}

/// What is told of an edit that is complete.
#[derive(Clone, Copy, Debug, PartialEq, Eq)]
pub struct EditDone {
    pub editor: Editor,
    pub serial: Serial,
    /// 0 where it was carried out.
    pub code: u16,
    /// What there is to say of it beside its code.
    pub detail: u64,
}

/// What is told of a job that was read.
#[derive(Clone, Copy, Debug, PartialEq, Eq)]
pub enum JobRead {
    File(FileRead),
    Edit { editor: Editor, serial: Serial },
}

/// What is told of a job that is complete.
#[derive(Clone, Copy, Debug, PartialEq, Eq)]
pub enum JobDone {
    File(FileDone),
    Edit(EditDone),
}

/// The line for the first fault of a file's frame.
pub fn frame_line(fault: &FrameFault) -> Line
    ensures { result ≡ frame_line fault.now }
{
    let mut line = Line::new();
    line.add_word(b"FRAME");
    match fault {
        FrameFault::Length(n) => {
            line.add_word(b"LENGTH");
            line.add_number(*n);
        }
        FrameFault::TooMany(n) => {
            line.add_word(b"TOO");
            line.add_word(b"MANY");
            line.add_number(*n);
        }
        FrameFault::Separator(place) => {
            line.add_word(b"SEPARATOR");
            line.add_number(u64::from(*place));
        }
        FrameFault::Header(field) => {
            line.add_word(b"HEADER");
            line.add_number(u64::from(*field));
        }
        FrameFault::Trailer(field) => {
            line.add_word(b"TRAILER");
            line.add_number(u64::from(*field));
        }
        FrameFault::Company { header, trailer } => {
            line.add_word(b"COMPANY");
            add_company(&mut line, *header);
            add_company(&mut line, *trailer);
        }
        FrameFault::Count { told, found } => {
            line.add_word(b"COUNT");
            line.add_number(u64::from(*told));
            line.add_number(u64::from(*found));
        }
    }
    line.end();
    line
}

/// The line for the fault of the standing of a file or an edit.
pub fn refusal_line(fault: &CycleFault) -> Line
    ensures { result ≡ refusal_line fault.now }
{
    let mut line = Line::new();
    match fault {
        CycleFault::Gap(cycle) => {
            line.add_word(b"GAP");
            line.add_number(u64::from(*cycle));
        }
        CycleFault::Differs { kept, sent } => {
            line.add_word(b"DIFFERS");
            line.add_digest(kept);
            line.add_digest(sent);
        }
        CycleFault::TooOld(oldest) => {
            line.add_word(b"TOO");
            line.add_word(b"OLD");
            line.add_number(u64::from(*oldest));
        }
        CycleFault::CompaniesFull(limit) => {
            line.add_word(b"COMPANIES");
            line.add_word(b"FULL");
            line.add_number(u64::from(*limit));
        }
    }
    line.end();
    line
}

/// The line for a job that was read.
pub fn read_line(job: &JobRead) -> Line
    ensures { result ≡ read_line job.now }
{
    let mut line = Line::new();
    line.add_word(b"READ");
    match job {
        JobRead::File(file) => {
            line.add_word(b"FILE");
            add_company(&mut line, file.company);
            line.add_number(u64::from(file.cycle.number()));
            line.add_number(u64::from(file.count));
            line.add_number(u64::from(file.next));
        }
        JobRead::Edit { editor, serial } => {
            line.add_word(b"EDIT");
            line.add_number(u64::from(editor.number()));
            line.add_number(u64::from(serial.number()));
        }
    }
    line.end();
    line
}

/// The line for a job that is complete.
pub fn done_line(job: &JobDone) -> Line
    ensures { result ≡ done_line job.now }
{
    let mut line = Line::new();
    match job {
        JobDone::File(file) => {
            line.add_word(b"COMPLETE");
            add_company(&mut line, file.company);
            line.add_number(u64::from(file.cycle.number()));
            line.add_number(u64::from(file.count));
            line.add_number(u64::from(file.refused));
        }
        JobDone::Edit(edit) => {
            line.add_word(b"EDITED");
            line.add_number(u64::from(edit.editor.number()));
            line.add_number(u64::from(edit.serial.number()));
            line.add_number(u64::from(edit.code));
            line.add_number(edit.detail);
        }
    }
    line.end();
    line
}

/// The line before an error file of so many bytes.
pub(crate) fn errors_line(len: usize) -> Line
    ensures { result ≡ errors_line len }
{
    let mut line = Line::new();
    line.add_word(b"ERRORS");
    line.add_number(len as u64);
    line.end();
    line
}

// Adds a company, without the spaces at its end.
fn add_company(line: &mut Line, company: Company)
    requires { length line.old + 6 ≤ 160 }
    ensures line { line.new ≡ with_word line.old (trimmed company) }
    ensures len { length line.new ≤ length line.old + 6 }
{
    line.add_word(trimmed(&company.text()));
}
