//! Laws of jobs.
ghost use Rattle.std.specs.Prelude.{◌≡◌, List, [], ◌++◌, Ok};
ghost use Rattle.sequence_once.specs.declared.standing.Standing.{Standing};
ghost use Rattle.sequence_once.specs.declared.standing.Standing.TheVariants.{Complete};
ghost use Rattle.office_entry.specs.declared.entry.Entry.{Entry};
ghost use Rattle.office_state.specs.declared.limits.Limits.{Limits};
ghost use Rattle.office_state.specs.History.{IsLegal, state};
ghost use Rattle.batch_desk.specs.declared.job.Job.{Job};
ghost use Rattle.batch_desk.specs.Jobs.{IsJob, IsStillKept, job_standing, entries_left};
ghost use Rattle.batch_desk.specs.JobReplies.{job_reply};

/// A complete job stays complete as long as what was booked of it is kept, whatever is booked
/// behind it: read again then, it has nothing left to be booked, and gets the same reply, byte for
/// byte.
pub fn complete_jobs_repeat()
    ensures nothing { (limits : Limits) (history : List Entry) (job : Job)
        → job_standing (state limits history) job ≡ Ok Complete
        → entries_left (state limits history) job ≡ [] }
    ensures complete { (limits : Limits) (history more : List Entry) (job : Job)
        → IsLegal limits (history ++ more)
        → job_standing (state limits history) job ≡ Ok Complete
        → IsStillKept (state limits (history ++ more)) job
        → job_standing (state limits (history ++ more)) job ≡ Ok Complete }
    ensures same { (limits : Limits) (history more : List Entry) (job : Job)
        → IsLegal limits (history ++ more)
        → job_standing (state limits history) job ≡ Ok Complete
        → IsStillKept (state limits (history ++ more)) job
        → job_reply (state limits (history ++ more)) job ≡ job_reply (state limits history) job }
{}

/// The entries that are left of a job may be booked one after the other, and after them it is
/// complete.
pub fn jobs_can_be_completed()
    ensures legal { (limits : Limits) (history : List Entry) (job : Job) (standing : Standing)
        → IsJob job → IsLegal limits history → job_standing (state limits history) job ≡ Ok standing
        → IsLegal limits (history ++ entries_left (state limits history) job) }
    ensures complete { (limits : Limits) (history : List Entry) (job : Job) (standing : Standing)
        → IsJob job → IsLegal limits history → job_standing (state limits history) job ≡ Ok standing
        → let booked = history ++ entries_left (state limits history) job in
        job_standing (state limits booked) job ≡ Ok Complete }
{}
