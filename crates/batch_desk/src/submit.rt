//! Files and edits that become jobs.
ghost use Rattle.std.specs.Prelude.{◌≡◌, None, MatchResult, IfOk, IsOk};
ghost use Rattle.sha2.specs.Sha256.{sha256};
ghost use Rattle.batch_frame.specs.FrameFault.{frame_fault, file_of};
ghost use Rattle.batch_frame.specs.Told.{frame_of};
ghost use Rattle.batch_desk.specs.FileJobs.{file_standing};
ghost use Rattle.batch_desk.specs.SubmitFaults.{IsJobOf, IsSubmitFault, IsEditFault};
ghost use Rattle.batch_desk.specs.EditJobs.{edit_standing};

use crate::desk::{standing_of_edit, view_standing};
use crate::job::{FileJob, Job};
use ali_base::{Editor, NoMemory, Serial};
use batch_frame::{FileFrame, FrameFault, read_file};
use office_entry::Edit;
use office_state::{DueFault, Office};
use sequence_once::digest;
use std::alloc::Global;

/// Why a file or an edit is no job.
#[derive(Clone, Copy, Debug, PartialEq, Eq)]
pub enum SubmitFault {
    /// The first fault of a file's frame.
    Frame(FrameFault),
    /// It may not be booked next, and is neither open nor complete with its digest.
    Due(DueFault),
}

/// Makes a job of a carrier's file whose cycle may be opened, is open or is complete. Takes no
/// memory and changes nothing.
///
/// # Errors
///
/// `Frame` with the first fault of the file's frame, and otherwise `Due` with the fault of its
/// standing; the bytes are given back.
pub fn submit_file(office: &Office, bytes: Vec<u8>) -> Result<Job, (Vec<u8>, SubmitFault)>
    ensures { MatchResult result
        (λ job. IsJobOf office.now.state bytes.items job)
        (λ refused. (refused.0 ≡ bytes) × IsSubmitFault office.now.state bytes.items refused.1) }
{
    match judge_file(office, &bytes) {
        Ok(judged) => {
            let digest = judged.digest;
            Ok(Job::File(FileJob::of_file(bytes, judged.frame, digest)))
        }
        Err(fault) => Err((bytes, fault)),
    }
}

/// Makes a job of a carrier's file that is lent, as `submit_file` does of one that is given. A copy
/// is taken of a file that becomes a job, and of no other.
pub fn submit_lent(
    alloc: Global,
    office: &Office,
    content: &[u8],
) -> Result<Result<Job, SubmitFault>, NoMemory>
    ensures { IfOk result (λ told. MatchResult told
        (λ job. IsJobOf office.now.state content.now job)
        (λ fault. IsSubmitFault office.now.state content.now fault)) }
{
    let judged = match judge_file(office, content) {
        Ok(judged) => judged,
        Err(fault) => return Ok(Err(fault)),
    };
    let bytes = content.to_vec(alloc)?;
    Ok(Ok(Job::File(FileJob::of_file(bytes, judged.frame, judged.digest))))
}

/// Makes a job of an editor's edit that may be booked next or is complete. Takes no memory and
/// changes nothing.
///
/// # Errors
///
/// `Due` with the fault of its standing.
pub fn submit_edit(
    office: &Office,
    editor: Editor,
    serial: Serial,
    edit: Edit,
) -> Result<Job, SubmitFault>
    ensures { MatchResult result
        (λ job. (job ≡ Job.Edit editor serial edit)
        × IsOk (edit_standing office.now.state editor serial edit))
        (λ fault. IsEditFault (edit_standing office.now.state editor serial edit) fault) }
{
    match standing_of_edit(office, editor, serial, &edit) {
        Ok(_) => Ok(Job::Edit {
            editor,
            serial,
            edit,
        }),
        Err(fault) => Err(SubmitFault::Due(DueFault::of(fault))),
    }
}

// What a file that becomes a job told, and its digest.
#[derive(Clone, Copy)]
struct JudgedFile {
    frame: FileFrame,
    digest: [u8; 32],
}

// Judges a file: it becomes a job, or this is why not.
#[tactic(auto, unfolding(crate::specs::FileJobs::file_standing))]
fn judge_file(office: &Office, bytes: &[u8]) -> Result<JudgedFile, SubmitFault>
    ensures { MatchResult result
        (λ judged. (judged.frame ≡ frame_of (file_of bytes.now))
        × (judged.digest ≡ sha256 bytes.now)
        × (frame_fault bytes.now ≡ None)
        × IsOk (file_standing office.now.state bytes.now))
        (λ fault. IsSubmitFault office.now.state bytes.now fault) }
{
    let file = match read_file(bytes) {
        Ok(file) => file,
        Err(fault) => return Err(SubmitFault::Frame(fault)),
    };
    let digest = digest(bytes);
    match view_standing(office, &file, &digest) {
        Ok(_) => Ok(JudgedFile {
            frame: file.frame(),
            digest,
        }),
        Err(fault) => Err(SubmitFault::Due(DueFault::of(fault))),
    }
}
