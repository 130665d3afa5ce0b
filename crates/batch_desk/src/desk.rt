//! The entries of a job, one after the other, and what is told of it.
ghost use Rattle.std.specs.Prelude.{◌≡◌, ◌≤◌, length, IfOk, Ok};
ghost use Rattle.ali_base.specs.Editors.{IsEditor};
ghost use Rattle.ali_base.specs.declared.editor.TheConstants.{EDITORS};
ghost use Rattle.ali_base.specs.WholePuts.{Puts};
ghost use Rattle.batch_frame.specs.declared.fault.TheConstants.{MOST_RECORDS};
ghost use Rattle.error_files.specs.ErrorFile.{error_file};
ghost use Rattle.error_files.specs.TextPuts.{PutsText};
ghost use Rattle.sequence_once.specs.KeptCycles.{IsSound};
ghost use Rattle.sequence_once.specs.declared.standing.Standing.TheVariants.{Complete};
ghost use Rattle.sequence_once.specs.SerialStanding.{AreKeptEdits, last_edit};
ghost use Rattle.office_state.specs.Due.{IsDue};
ghost use Rattle.batch_desk.specs.FileJobs.{file_standing, opening, line_entry, is_other_count, with_count, standing_by, next_by};
ghost use Rattle.batch_desk.specs.EditJobs.{edit_standing};
ghost use Rattle.batch_desk.specs.Jobs.{job_standing, next_of, IsReady};
ghost use Rattle.batch_desk.specs.JobReplies.{read_of, done_of, edit_done, kept_codes, next_line, sized, job_reply};

use crate::job::{FileJob, Job};
use crate::reply_line::{EditDone, FileDone, FileRead, JobDone, JobRead, done_line, errors_line};
use ali_base::{Editor, Serial, Sink, SinkFault, put_all};
use batch_frame::FileView;
use error_files::{ErrorsEnd, count_refused, errors_len, put_error_file};
use office_entry::{Edit, Entry};
use office_state::{DueFault, Office};
use sequence_once::{CycleFault, Standing};

/// The entry of a job that may be booked next.
///
/// # Errors
///
/// `Complete` where all entries are booked; otherwise the fault of the job's standing. `NotNext`
/// never comes.
pub fn next_entry(office: &Office, job: &Job) -> Result<Entry, DueFault>
    ensures exact { result ≡ next_of office.now.state job.now }
    ensures due { IfOk result (λ e. IsDue office.now.state e) }
    ensures ready { IsReady office.now.state job.now }
{
    match job {
        Job::File(file) => next_of_file(office, file),
        Job::Edit {
            editor,
            serial,
            edit,
        } => next_of_edit(office, *editor, *serial, edit),
    }
}

/// What is told of a job that was read.
pub fn job_read(office: &Office, job: &Job) -> JobRead
    ensures { result ≡ read_of office.now.state job.now }
{
    match job {
        Job::File(job) => JobRead::File(read_of_file(office, job)),
        Job::Edit { editor, serial, .. } => JobRead::Edit {
            editor: *editor,
            serial: *serial,
        },
    }
}

/// What is told of a job that is complete.
pub fn job_done(office: &Office, job: &Job) -> JobDone
    requires { job_standing office.now.state job.now ≡ Ok Complete }
    ensures { result ≡ done_of office.now.state job.now }
{
    match job {
        Job::File(job) => JobDone::File(done_of_file(office, job)),
        Job::Edit { editor, serial, .. } => JobDone::Edit(done_of_edit(office, *editor, *serial)),
    }
}

/// Puts the reply to a complete job: its line, and of a file the error file with its length before
/// it.
pub fn desk_reply<K: Sink>(office: &Office, job: &Job, sink: &mut K) -> ErrorsEnd
    requires { job_standing office.now.state job.now ≡ Ok Complete }
    ensures put { PutsText K.contents K.faults sink.old sink.new
        (job_reply office.now.state job.now) result }
{
    match put_reply(office, job, sink) {
        Ok(()) => ErrorsEnd::Done,
        Err(SinkFault) => ErrorsEnd::SinkFault,
    }
}

// What a job's file is to the office.
#[tactic(auto, unfolding(crate::specs::FileJobs::file_standing))]
fn file_standing(office: &Office, job: &FileJob) -> Result<Standing, CycleFault>
    ensures exact { result ≡ file_standing office.now.state job.now }
    ensures sound { IsSound office.now.state.cycles }
{
    view_standing(office, &job.file(), job.digest())
}

// What a file is to the office, by its parts and its digest.
pub(crate) fn view_standing(
    office: &Office,
    file: &FileView<'_>,
    digest: &[u8; 32],
) -> Result<Standing, CycleFault>
    ensures exact { result ≡ standing_by office.now.state file.now digest.now }
    ensures sound { IsSound office.now.state.cycles }
{
    let standing = office.standing(file.company(), file.cycle(), digest);
    let other = is_other_count(office.count(file.company(), file.cycle()), file.count());
    with_count(other, digest, standing)
}

// Whether a cycle is kept, for a file of another count.
fn is_other_count(kept: Option<u32>, count: u32) -> bool
    ensures { result ≡ is_other_count kept count }
{
    match kept {
        Some(kept) => kept != count,
        None => false,
    }
}

// A file whose cycle is kept with its digest differs all the same where the kept count is another.
fn with_count(
    other: bool,
    digest: &[u8; 32],
    standing: Result<Standing, CycleFault>,
) -> Result<Standing, CycleFault>
    ensures { result ≡ with_count other digest.now standing }
{
    match standing {
        Ok(Standing::Resume(_)) | Ok(Standing::Complete) if other => Err(CycleFault::Differs {
            kept: *digest,
            sent: *digest,
        }),
        standing => standing,
    }
}

// The entry of a file that may be booked next.
fn next_of_file(office: &Office, job: &FileJob) -> Result<Entry, DueFault>
    ensures exact { result ≡ next_by job.now (file_standing office.now.state job.now) }
    ensures due { IfOk result (λ e. IsDue office.now.state e) }
    ensures sound { IsSound office.now.state.cycles }
{
    match file_standing(office, job) {
        Ok(Standing::New) => Ok(opening(job)),
        Ok(Standing::Resume(line)) => Ok(line_entry(&job.file(), line)),
        Ok(Standing::Complete) => Err(DueFault::Complete),
        Err(fault) => Err(DueFault::of(fault)),
    }
}

// What an edit is to the office. Its digest is taken only where its serial is its editor's last one:
// no other standing depends on it.
pub(crate) fn standing_of_edit(
    office: &Office,
    editor: Editor,
    serial: Serial,
    edit: &Edit,
) -> Result<Standing, CycleFault>
    ensures exact { result ≡ edit_standing office.now.state editor serial edit.now }
    ensures sound { AreKeptEdits office.now.state.edits }
{
    match office.edit_kept(editor) {
        Some((last, _)) if last == serial.number() => {
            office.edit_standing(editor, serial, &edit.digest())
        }
        _ => office.edit_standing(editor, serial, &[0; 32]),
    }
}

// The entry of an edit that may be booked next.
fn next_of_edit(
    office: &Office,
    editor: Editor,
    serial: Serial,
    edit: &Edit,
) -> Result<Entry, DueFault>
    ensures exact { result ≡ next_of office.now.state (Job.Edit editor serial edit.now) }
    ensures due { IfOk result (λ e. IsDue office.now.state e) }
    ensures place { length office.now.state.edits ≡ EDITORS }
    ensures editor { IsEditor editor }
{
    match standing_of_edit(office, editor, serial, edit) {
        Ok(Standing::New) => Ok(Entry::Edit {
            editor,
            serial,
            edit: *edit,
        }),
        Ok(Standing::Resume(_)) | Ok(Standing::Complete) => Err(DueFault::Complete),
        Err(fault) => Err(DueFault::of(fault)),
    }
}

// The opening of a file's cycle.
fn opening(job: &FileJob) -> Entry
    ensures { result ≡ opening job.now }
{
    let file = job.file();
    Entry::Open {
        company: file.company(),
        cycle: file.cycle(),
        count: file.count(),
        day: file.day(),
        digest: *job.digest(),
    }
}

// A line of a file, from 1.
fn line_entry(file: &FileView<'_>, line: u32) -> Entry
    requires { (1 ≤ line) × (line ≤ file.now.count) }
    ensures { result ≡ line_entry file.now line }
{
    Entry::Line {
        company: file.company(),
        cycle: file.cycle(),
        line,
        bytes: *file.records(line),
    }
}

// The line of a file that is next, by its standing.
fn next_line(count: u32, standing: Result<Standing, CycleFault>) -> u32
    requires { count ≤ MOST_RECORDS }
    ensures { result ≡ next_line count standing }
{
    match standing {
        Ok(Standing::New) | Err(_) => 0,
        Ok(Standing::Resume(line)) => line,
        Ok(Standing::Complete) => count + 1,
    }
}

// What is told of a file that was read.
fn read_of_file(office: &Office, job: &FileJob) -> FileRead
    ensures { JobRead.File result ≡ read_of office.now.state (Job.File job.now) }
{
    let file = job.file();
    FileRead {
        company: file.company(),
        cycle: file.cycle(),
        count: file.count(),
        next: next_line(file.count(), file_standing(office, job)),
    }
}

// What is told of a complete edit.
fn done_of_edit(office: &Office, editor: Editor, serial: Serial) -> EditDone
    ensures { JobDone.Edit result
        ≡ edit_done editor serial (last_edit editor office.now.state.edits) }
{
    let (code, detail) = match office.edit_kept(editor) {
        Some((_, verdict)) => (verdict.code, verdict.detail),
        None => (0, 0),
    };
    EditDone {
        editor,
        serial,
        code,
        detail,
    }
}

// What is told of a complete file.
fn done_of_file(office: &Office, job: &FileJob) -> FileDone
    requires { file_standing office.now.state job.now ≡ Ok Complete }
    ensures { JobDone.File result ≡ done_of office.now.state (Job.File job.now) }
{
    let file = job.file();
    FileDone {
        company: file.company(),
        cycle: file.cycle(),
        count: file.count(),
        refused: count_refused(kept_codes(office, job)),
    }
}

// The codes that are kept for a file's cycle.
fn kept_codes<'a>(office: &'a Office, job: &FileJob) -> &'a [u16]
    ensures { result.now ≡ kept_codes office.now.state job.now }
{
    let file = job.file();
    match office.codes(file.company(), file.cycle()) {
        Some(codes) => codes,
        None => &[],
    }
}

/// Puts the reply to a complete job, as `desk_reply` does.
#[tactic(auto, unfolding(crate::specs::JobReplies::job_reply))]
pub fn put_reply<K: Sink>(office: &Office, job: &Job, sink: &mut K) -> Result<(), SinkFault>
    requires { job_standing office.now.state job.now ≡ Ok Complete }
    ensures put { Puts K.contents K.faults sink.old sink.new
        (job_reply office.now.state job.now) result }
{
    put_all(sink, done_line(&job_done(office, job)).bytes())?;
    match job {
        Job::File(job) => put_sized_errors(&job.file(), kept_codes(office, job), sink),
        Job::Edit { .. } => Ok(()),
    }
}

// Puts the error file with its length before it and the end of a line behind it.
fn put_sized_errors<K: Sink>(
    file: &FileView<'_>,
    codes: &[u16],
    sink: &mut K,
) -> Result<(), SinkFault>
    requires { length codes.now ≡ file.now.count }
    ensures put { Puts K.contents K.faults sink.old sink.new
        (sized (error_file file.now codes.now)) result }
{
    put_all(sink, errors_line(errors_len(file, codes)).bytes())?;
    put_error_file(file, codes, sink)?;
    put_all(sink, b"\n")
}
