//! Files and edits are read.
ghost use Rattle.std.specs.Prelude.{◌≡◌, ◌≤◌, length, Some, IfOk};
ghost use Rattle.ali_base.specs.Editors.{IsEditor, IsSerial};
ghost use Rattle.batch_desk.specs.JobReplies.{read_of};
ghost use Rattle.command_desk.specs.declared.reply.Reply.{Reply as AnyReply};
ghost use Rattle.command_machine.specs.Courses.{First};
ghost use Rattle.office_commands.specs.Commands as commands;
ghost use Rattle.office_entry.specs.Edits.{IsEdit};

use crate::desk::Desk;
use crate::not_read::not_read;
use crate::refusal::Refusal;
use crate::reply::Reply;
use ali_base::{Editor, NoMemory, NodeName, Serial};
use batch_desk::{Job, job_read, submit_edit, submit_lent};
use batch_frame::read_file;
use crash_disk::Disk;
use office_entry::Edit;
use office_state::Office;
use std::alloc::Global;

impl<D: Disk + Drop> Desk<D> {
    ghost use Rattle.command_desk.specs.MadeReply.{holder_of, table_of, CanTell, only};
    ghost use Rattle.command_desk.specs.OpenedDesk.{Keeps, Switched};
    ghost use Rattle.command_desk.specs.DeskSteps.{Leads, EventDone, told_in};
    ghost use Rattle.pair_core.specs.Pair as pairs;

    // The holder of the duty.
    pub(crate) fn holder(&self) -> NodeName
        ensures { result ≡ holder_of self.now }
    {
        self.pair.duty().holder
    }

    // The holder's table.
    pub(crate) fn table(&self) -> &Office
        ensures { result.now ≡ pairs.table_of self.now.pair (holder_of self.now) }
    {
        self.pair.table(self.holder())
    }

    // Reads a file, which becomes the job where it is not refused.
    pub(crate) fn read(&mut self, alloc: Global, content: &[u8]) -> Result<Reply, NoMemory>
        ensures leads { Leads D.state self.old self.new
            (EventDone (First (commands.File content.now)) (told_in self.new result)) }
        ensures switches { Switched D.state self.old self.new (commands.File content.now) (only result) }
        ensures can_tell { IfOk result (CanTell (table_of self.new) self.new.job) }
        ensures keeps { Keeps D.state self.old self.new }
    {
        if let Err(fault) = read_file(content) {
            return Ok(Reply::Refused(Refusal::Frame(fault)));
        }
        if let Some(reply) = self.ready(self.holder())? {
            return Ok(reply);
        }
        match submit_lent(alloc, self.table(), content)? {
            Ok(job) => Ok(self.take(job)),
            Err(fault) => Ok(Reply::Refused(not_read(fault))),
        }
    }

    // Reads an edit, which becomes the job where it is not refused.
    pub(crate) fn read_edit(
        &mut self,
        editor: Editor,
        serial: Serial,
        edit: Edit,
    ) -> Result<Reply, NoMemory>
        requires { IsEditor editor × IsSerial serial × IsEdit edit }
        ensures leads { Leads D.state self.old self.new
            (EventDone (First (commands.Edit editor serial edit)) (told_in self.new result)) }
        ensures switches { Switched D.state self.old self.new
            (commands.Edit editor serial edit) (only result) }
        ensures can_tell { IfOk result (CanTell (table_of self.new) self.new.job) }
        ensures keeps { Keeps D.state self.old self.new }
    {
        if let Some(reply) = self.ready(self.holder())? {
            return Ok(reply);
        }
        match submit_edit(self.table(), editor, serial, edit) {
            Ok(job) => Ok(self.take(job)),
            Err(fault) => Ok(Reply::Refused(not_read(fault))),
        }
    }

    // Takes a job that was read.
    fn take(&mut self, job: Job) -> Reply
        ensures told { result ≡ AnyReply.Read (read_of (table_of self.old) job) }
        ensures job { self.new.job ≡ Some job }
        ensures pair { self.new.pair ≡ self.old.pair }
    {
        let read = job_read(self.table(), &job);
        self.job = Some(job);
        Reply::Read(read)
    }
}
