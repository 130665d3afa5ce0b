//! Entries of the job are written, passed on and booked.
ghost use Rattle.std.specs.Prelude.{◌≡◌, ◌≢◌, ◌<◌, true, Err, None, Some, IfOk, IfSome};
ghost use Rattle.batch_desk.specs.Jobs.{next_of};
ghost use Rattle.command_machine.specs.CommandRows.{write_row};
ghost use Rattle.command_machine.specs.Courses.{First, written_or_passed, passed_or_booked};
ghost use Rattle.office_commands.specs.Commands as commands;
ghost use Rattle.std.specs.Option.{option_or};
ghost use Rattle.command_machine.specs.Courses as courses;
ghost use Rattle.command_desk.specs.DeskSteps.{IsNoneNext, lost_by};
ghost use Rattle.command_desk.specs.declared.refusal.Refusal.{Refusal as AnyRefusal};
ghost use Rattle.command_desk.specs.declared.reply.Reply.{Reply as AnyReply};
ghost use Rattle.pair_core.specs.PairRefusals as rows;

use crate::desk::Desk;
use crate::not_read::cycle_fault;
use crate::refusal::Refusal;
use crate::reply::{LeftBehind, Replied, Reply};
use crate::told::refused;
use ali_base::{DiskName, Mode, NoMemory, NodeName};
use batch_desk::{Job, job_done, next_entry};
use crash_disk::Disk;
use office_entry::Entry;
use office_state::{DueFault, Office};
use pair_core::{PairFault, other};

// What a part of NEXT or BATCH comes to: it goes on, and the other node may have been left behind; or it
// is over.
#[derive(Drop)]
pub(crate) enum Turn {
    On(Option<LeftBehind>),
    Over(Replied),
}

// What becomes of an entry: it is booked, or the command is over without.
#[derive(Drop)]
pub(crate) enum Outcome {
    Booked(Replied),
    Ended(Replied),
}

impl<D: Disk + Drop> Desk<D> {
    ghost use Rattle.command_desk.specs.MadeReply.{table_of, CanTell, Carries, only};
    ghost use Rattle.command_desk.specs.OpenedDesk.{Keeps, Switched};
    ghost use Rattle.command_desk.specs.DeskSteps.{Leads, LeadsOn, EventDone, RowDone, told_in, part_told};
    ghost use Rattle.command_desk.specs.DeskSteps.{NextAnswers, CompleteAnswers, IsFound, IsPassedOn};
    ghost use Rattle.command_desk.specs.DeskSteps.{BooksFrom};
    ghost use Rattle.command_desk.specs.DeskSteps.{IsBatched, PlainSwitches, FoundSwitches, TurnSwitches};
    ghost use Rattle.command_desk.specs.DeskSteps.{BooksSwitches, TurnTells, OutcomeTells, WriteAdvances};
    ghost use Rattle.command_desk.specs.DeskSteps.{BatchAdvances, IsAloneNow, AloneSwitches};

    // The node, which has to be the holder, writes the next entry of the job.
    pub(crate) fn write_command(&mut self, n: NodeName) -> Result<Reply, NoMemory>
        ensures leads { Leads D.state self.old self.new
            (EventDone (First (commands.Write n)) (told_in self.new result)) }
        ensures switches { Switched D.state self.old self.new (commands.Write n) (only result) }
        ensures can_tell { IfOk result (CanTell (table_of self.new) self.new.job) }
        ensures keeps { Keeps D.state self.old self.new }
    {
        if let Some(refusal) = self.pair.write_refusal(n) {
            return Ok(Reply::Refused(Refusal::Pair(refusal)));
        }
        self.write_next(n)
    }

    // The holder writes the next entry of the job; or the reply, where there is none or it is not written.
    fn write_next(&mut self, n: NodeName) -> Result<Reply, NoMemory>
        requires { rows.write_refusal self.old.pair n ≡ None }
        ensures leads { Leads D.state self.old self.new
            (RowDone (λ m. write_row m n) (told_in self.new result)) }
        ensures switches { PlainSwitches D.state self.old self.new result }
        ensures can_tell { IfOk result (CanTell (table_of self.new) self.new.job) }
        ensures keeps { Keeps D.state self.old self.new }
        ensures job { self.new.job ≡ self.old.job }
        ensures advances { WriteAdvances self.old self.new result }
    {
        if self.job.is_none() {
            return Ok(Reply::Refused(Refusal::NoJob));
        }
        if let Some(reply) = self.ready(n)? {
            return Ok(reply);
        }
        match self.next_entry() {
            Ok(entry) => self.write(n, &entry),
            Err(reply) => Ok(reply),
        }
    }

    // The next entry of the job; or the reply, where there is none.
    fn next_entry(&self) -> Result<Entry, Reply>
        ensures { NextAnswers (table_of self.now) self.now.job result }
    {
        let job = match &self.job {
            Some(job) => job,
            None => return Err(Reply::Refused(Refusal::NoJob)),
        };
        match next_entry(self.table(), job) {
            Ok(entry) => Ok(entry),
            Err(fault) => Err(none_next(self.table(), job, fault)),
        }
    }

    // Writes an entry, or answers what stops it.
    fn write(&mut self, n: NodeName, entry: &Entry) -> Result<Reply, NoMemory>
        requires { rows.write_refusal self.old.pair n ≡ None }
        ensures leads { LeadsOn D.state self.old self.new entry.now
            (RowDone (λ m. write_row m n) (told_in self.new result)) }
        ensures switches { PlainSwitches D.state self.old self.new result }
        ensures can_tell { IfOk result (CanTell (table_of self.new) self.new.job) }
        ensures keeps { Keeps D.state self.old self.new }
        ensures job { self.new.job ≡ self.old.job }
        ensures advances { WriteAdvances self.old self.new result }
    {
        let epoch = self.pair.duty().epoch;
        match self.pair.write(n, entry) {
            Ok(number) => Ok(Reply::Written { number, epoch }),
            Err(fault) => refused(fault),
        }
    }

    // Books the entry that is written and not booked, or writes, passes on and books the next of the job.
    pub(crate) fn next(&mut self) -> Result<Replied, NoMemory>
        ensures carries { Carries D.state self.old self.new commands.Next result }
        ensures switches { Switched D.state self.old self.new commands.Next result }
        ensures can_tell { IfOk result (λ told. CanTell (table_of self.new) self.new.job told.last) }
        ensures keeps { Keeps D.state self.old self.new }
    {
        if let Some(refusal) = self.pair.held_refusal() {
            return Ok(stopped(refusal));
        }
        match self.advance()? {
            Outcome::Booked(told) | Outcome::Ended(told) => Ok(told),
        }
    }

    // The next entry, where the holder and the register are up.
    fn advance(&mut self) -> Result<Outcome, NoMemory>
        requires { rows.held_refusal self.old.pair ≡ None }
        ensures leads { Leads D.state self.old self.new (BooksFrom self.new written_or_passed result) }
        ensures switches { BooksSwitches D.state self.old self.new result }
        ensures can_tell { OutcomeTells self.new result }
        ensures keeps { Keeps D.state self.old self.new }
        ensures job { self.new.job ≡ self.old.job }
    {
        let holder = self.holder();
        if self.pair.count() < self.pair.len(holder) {
            return self.pass_and_book();
        }
        match self.write_next(holder)? {
            Reply::Written { .. } => self.pass_and_book(),
            reply => Ok(Outcome::Ended(only(reply))),
        }
    }

    // Passes the pending entry on, and books it.
    fn pass_and_book(&mut self) -> Result<Outcome, NoMemory>
        requires held { rows.held_refusal self.old.pair ≡ None }
        requires pending { rows.no_flight self.old.pair ≡ None }
        ensures leads { Leads D.state self.old self.new (BooksFrom self.new passed_or_booked result) }
        ensures switches { BooksSwitches D.state self.old self.new result }
        ensures can_tell { OutcomeTells self.new result }
        ensures keeps { Keeps D.state self.old self.new }
        ensures job { self.new.job ≡ self.old.job }
    {
        let left = match self.pass()? {
            Turn::On(left) => left,
            Turn::Over(told) => return Ok(Outcome::Ended(told)),
        };
        let last = self.book()?;
        match last {
            Reply::Booked { .. } => Ok(Outcome::Booked(Replied { left, last })),
            _ => Ok(Outcome::Ended(Replied { left, last })),
        }
    }

    // Passes the pending entry on, where the holder is not alone.
    fn pass(&mut self) -> Result<Turn, NoMemory>
        requires held { rows.held_refusal self.old.pair ≡ None }
        requires pending { rows.no_flight self.old.pair ≡ None }
        ensures leads { Leads D.state self.old self.new (IsPassedOn self.new result) }
        ensures switches { TurnSwitches D.state self.old self.new result }
        ensures can_tell { TurnTells self.new result }
        ensures keeps { Keeps D.state self.old self.new }
        ensures job { self.new.job ≡ self.old.job }
    {
        if self.pair.duty().mode == Mode::Alone {
            return Ok(Turn::On(None));
        }
        let number = self.pair.count() + 1;
        match self.pair.pass_on(number) {
            Ok(_) => Ok(Turn::On(None)),
            Err(fault) if is_lost(fault, other(self.holder())) => self.leave_behind(fault),
            Err(fault) => Ok(Turn::Over(only(refused(fault)?))),
        }
    }

    // Leaves the other node behind: the holder goes on alone.
    fn leave_behind(&mut self, fault: PairFault) -> Result<Turn, NoMemory>
        requires { rows.held_refusal self.old.pair ≡ None }
        ensures leads { Leads D.state self.old self.new (IsAloneNow self.new fault result) }
        ensures switches { AloneSwitches D.state self.old self.new fault result }
        ensures can_tell { TurnTells self.new result }
        ensures keeps { Keeps D.state self.old self.new }
        ensures job { self.new.job ≡ self.old.job }
    {
        match self.pair.alone() {
            Ok(duty) => Ok(Turn::On(Some(LeftBehind {
                fault,
                duty: Some(duty),
            }))),
            Err(refusal) => Ok(Turn::Over(Replied {
                left: Some(LeftBehind { fault, duty: None }),
                last: refused(refusal)?,
            })),
        }
    }

    // Books all entries that are left of the job.
    pub(crate) fn batch(&mut self) -> Result<Replied, NoMemory>
        ensures carries { Carries D.state self.old self.new commands.Batch result }
        ensures switches { Switched D.state self.old self.new commands.Batch result }
        ensures can_tell { IfOk result (λ told. CanTell (table_of self.new) self.new.job told.last) }
        ensures keeps { Keeps D.state self.old self.new }
    {
        if let Some(refusal) = self.pair.held_refusal() {
            return Ok(stopped(refusal));
        }
        let mut left = None;
        loop {
            match self.batch_entry()? {
                Turn::On(now) => left = left.or(now),
                Turn::Over(told) => return Ok(after(left, told)),
            }
        }
    }

    // Books the next entry of a batch; or what ends the batch is told.
    fn batch_entry(&mut self) -> Result<Turn, NoMemory>
        requires { rows.held_refusal self.old.pair ≡ None }
        ensures leads { Leads D.state self.old self.new (IsBatched self.new result) }
        ensures switches { TurnSwitches D.state self.old self.new result }
        ensures can_tell { TurnTells self.new result }
        ensures keeps { Keeps D.state self.old self.new }
        ensures advances { BatchAdvances self.old self.new result }
    {
        if let Some(reply) = self.finished()? {
            return Ok(Turn::Over(only(reply)));
        }
        match self.advance()? {
            Outcome::Booked(told) => Ok(Turn::On(told.left)),
            Outcome::Ended(told) => Ok(Turn::Over(told)),
        }
    }

    // The reply where the job is complete, or where the table is not ready to tell.
    fn finished(&mut self) -> Result<Option<Reply>, NoMemory>
        requires { rows.held_refusal self.old.pair ≡ None }
        ensures leads { Leads D.state self.old self.new (IsFound (part_told self.new result)) }
        ensures switches { FoundSwitches D.state self.old self.new result }
        ensures can_tell { IfOk result (λ told. IfSome told (CanTell (table_of self.new) self.new.job)) }
        ensures keeps { Keeps D.state self.old self.new }
        ensures job { self.new.job ≡ self.old.job }
    {
        if self.job.is_none() {
            return Ok(None);
        }
        if let Some(reply) = self.ready(self.holder())? {
            return Ok(Some(reply));
        }
        Ok(self.complete())
    }

    // The reply where the job is complete.
    fn complete(&self) -> Option<Reply>
        ensures { CompleteAnswers (table_of self.now) self.now.job result }
    {
        match next_entry(self.table(), self.job.as_ref()?) {
            Err(DueFault::Complete) => Some(Reply::Finished),
            _ => None,
        }
    }
}

// Whether the node is lost: it is down, or its disk failed.
fn is_lost(fault: PairFault, n: NodeName) -> bool
    ensures { result ≡ lost_by n fault }
{
    match fault {
        PairFault::Down(disk) | PairFault::Fault(disk) => is_disk_of(n, disk),
        _ => false,
    }
}

// Whether the disk is this node's.
fn is_disk_of(n: NodeName, disk: DiskName) -> bool
    ensures { result ≡ courses.is_disk_of n disk }
{
    match (n, disk) {
        (NodeName::A, DiskName::A) | (NodeName::B, DiskName::B) => true,
        _ => false,
    }
}

// This reply, and nothing before it.
fn only(last: Reply) -> Replied
    ensures { (result.left ≡ None) × (result.last ≡ last) }
{
    Replied { left: None, last }
}

// A refusal that stops the command.
fn stopped(refusal: PairFault) -> Replied
    ensures { (result.left ≡ None) × (result.last ≡ AnyReply.Refused (AnyRefusal.Pair refusal)) }
{
    only(Reply::Refused(Refusal::Pair(refusal)))
}

// That the other node was left behind, and what was told then.
fn after(left: Option<LeftBehind>, told: Replied) -> Replied
    ensures { (result.left ≡ option_or left told.left) × (result.last ≡ told.last) }
{
    Replied {
        left: left.or(told.left),
        last: told.last,
    }
}

// The reply to a job of which no entry is next, by why there is none.
fn none_next(office: &Office, job: &Job, fault: DueFault) -> Reply
    requires { next_of office.now.state job.now ≡ Err fault }
    ensures { IsNoneNext office.now.state job.now result }
{
    match fault {
        DueFault::Complete => Reply::Complete(job_done(office, job)),
        fault => Reply::Refused(Refusal::Standing(cycle_fault(fault))),
    }
}
