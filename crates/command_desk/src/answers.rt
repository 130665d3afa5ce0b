//! Answers from a node's table.
ghost use Rattle.std.specs.Prelude.{◌≡◌, IfOk, IfSome};
ghost use Rattle.command_machine.specs.Courses.{First};
ghost use Rattle.office_commands.specs.Commands as commands;
ghost use Rattle.pair_core.specs.Pair as pairs;

use crate::desk::Desk;
use crate::refusal::Refusal;
use crate::reply::Reply;
use crate::told::refused;
use ali_base::{NoMemory, NodeName};
use audit_reports::{Report, report_text};
use crash_disk::Disk;
use office_commands::Ask;
use retrieval::Form;
use std::alloc::Global;

impl<D: Disk + Drop> Desk<D> {
    ghost use Rattle.command_desk.specs.MadeReply.{table_of, CanTell, only};
    ghost use Rattle.command_desk.specs.OpenedDesk.{Keeps, Switched};
    ghost use Rattle.command_desk.specs.DeskSteps.{Leads, EventDone, Readies, ReadySwitches};
    ghost use Rattle.command_desk.specs.DeskSteps.{IsLearned, told_in, part_told};

    // Makes the table of a node ready, or answers what stops it.
    pub(crate) fn ready(&mut self, n: NodeName) -> Result<Option<Reply>, NoMemory>
        ensures leads { Leads D.state self.old self.new
            (Readies n (pairs.table_of self.new.pair n).state (part_told self.new result)) }
        ensures switches { ReadySwitches D.state self.old self.new n result }
        ensures can_tell { IfOk result (λ told. IfSome told (CanTell (table_of self.new) self.new.job)) }
        ensures keeps { Keeps D.state self.old self.new }
        ensures job { self.new.job ≡ self.old.job }
        ensures learned { IsLearned self.new n result }
    {
        match self.pair.ready(n) {
            Ok(()) => Ok(None),
            Err(fault) => Ok(Some(refused(fault)?)),
        }
    }

    // Answers a request.
    pub(crate) fn answer(&mut self, ask: &Ask) -> Result<Reply, NoMemory>
        ensures leads { Leads D.state self.old self.new
            (EventDone (First (commands.Ask ask.now.node ask.now.position ask.now.tn ask.now.since))
            (told_in self.new result)) }
        ensures switches { Switched D.state self.old self.new
            (commands.Ask ask.now.node ask.now.position ask.now.tn ask.now.since) (only result) }
        ensures can_tell { IfOk result (CanTell (table_of self.new) self.new.job) }
        ensures keeps { Keeps D.state self.old self.new }
    {
        if let Some(refusal) = self.pair.ready_refusal(ask.node) {
            return Ok(Reply::Refused(Refusal::Pair(refusal)));
        }
        let count = self.pair.count();
        if count < ask.since {
            return Ok(Reply::Refused(Refusal::Ahead {
                since: ask.since,
                count,
            }));
        }
        if let Some(reply) = self.ready(ask.node)? {
            return Ok(reply);
        }
        Ok(Reply::Answer {
            count,
            form: Form::of(self.pair.table(ask.node).row(ask.tn), ask.tn),
        })
    }

    // Writes a report.
    pub(crate) fn report(
        &mut self,
        alloc: Global,
        n: NodeName,
        report: &Report,
    ) -> Result<Reply, NoMemory>
        ensures leads { Leads D.state self.old self.new
            (EventDone (First (commands.Report n report.now)) (told_in self.new result)) }
        ensures switches { Switched D.state self.old self.new (commands.Report n report.now) (only result) }
        ensures can_tell { IfOk result (CanTell (table_of self.new) self.new.job) }
        ensures keeps { Keeps D.state self.old self.new }
    {
        if let Some(reply) = self.ready(n)? {
            return Ok(reply);
        }
        let text = report_text(alloc, self.pair.table(n), report)?;
        Ok(Reply::Reported {
            count: self.pair.count(),
            text,
        })
    }
}
