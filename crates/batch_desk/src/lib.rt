//! Jobs: a carrier's file or an editor's edit that was read, its entries one after the other, and
//! the reply when all are booked.
#![tactic(auto)]

mod desk;
mod job;
mod laws;
mod reply_line;
mod submit;

pub use desk::{desk_reply, job_done, job_read, next_entry, put_reply};
pub use job::{FileJob, Job};
pub use laws::{complete_jobs_repeat, jobs_can_be_completed};
pub use reply_line::{
    EditDone, FileDone, FileRead, JobDone, JobRead, done_line, frame_line, read_line, refusal_line,
};
pub use submit::{SubmitFault, submit_edit, submit_file, submit_lent};
