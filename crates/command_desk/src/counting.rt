//! Counts of a desk: the entries that are booked, and the lines that it tells as refused.
ghost use Rattle.std.specs.Prelude.{◌≡◌};
ghost use Rattle.command_desk.specs.RefusedLines.{refused_in};

use crate::desk::Desk;
use crate::reply::{Replied, Reply};
use batch_desk::{JobDone, job_done};
use crash_disk::Disk;

impl<D: Disk + Drop> Desk<D> {
    ghost use Rattle.command_desk.specs.MadeReply.{CanTell, table_of, replies_of};
    ghost use Rattle.command_desk.specs.RefusedLines.{refused_lines};
    ghost use Rattle.pair_core.specs.Pair.{count_of};

    /// How many entries are booked.
    pub fn count(&self) -> u32
        ensures { result ≡ count_of self.now.pair }
    {
        self.pair.count()
    }

    /// How many lines of carriers' files are refused by what this desk tells.
    pub fn refused_lines(&self, told: &Replied) -> u32
        requires { CanTell (table_of self.now) self.now.job told.now.last }
        ensures { result ≡ refused_lines (replies_of (table_of self.now) self.now.job told.now) }
    {
        match &told.last {
            Reply::Complete(done) => refused_in(done),
            Reply::Finished => match &self.job {
                Some(job) => refused_in(&job_done(self.table(), job)),
                None => 0,
            },
            _ => 0,
        }
    }
}

// How many lines of a job that is complete were refused.
fn refused_in(done: &JobDone) -> u32
    ensures { result ≡ refused_in done.now }
{
    match done {
        JobDone::File(file) => file.refused,
        JobDone::Edit(_) => 0,
    }
}
