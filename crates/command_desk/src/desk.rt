//! The desk: the pair of nodes, and the job, which is the file or the edit that was read last.
ghost use Rattle.std.specs.Prelude.{◌≡◌, IfOk};
ghost use Rattle.command_desk.specs.MadeReply.{only};
ghost use Rattle.office_commands.specs.Commands.{IsCommand};

use crate::reply::{Replied, Reply};
use ali_base::NoMemory;
use batch_desk::Job;
use crash_disk::Disk;
use duty_register::LAST_EPOCH;
use node_journal::MOST_FRAMES;
use office_commands::Command;
use office_state::Limits;
use pair_core::{OpenEnd, Pair};
use std::alloc::Global;

/// What commands act on.
#[derive(Drop)]
pub struct Desk<D> {
    pub(crate) pair: Pair<D>,
    /// The file or the edit that was read last.
    pub(crate) job: Option<Job>,
}

impl<D: Disk + Drop> Desk<D> {
    ghost use Rattle.command_desk.specs.MadeReply.{command_of, Carries, table_of, CanTell};
    ghost use Rattle.command_desk.specs.OpenedDesk.{OpenAnswers, Closes, Keeps, Switched};

    /// Opens the office over its disks, with no job. The register is opened first, then node a, then
    /// node b.
    pub fn open(alloc: Global, a: D, b: D, duty: D) -> Result<Desk<D>, (D, D, D, OpenEnd)>
        ensures { OpenAnswers D.state a b duty result }
    {
        let pair = Pair::open(alloc, a, b, duty, Limits::office(), MOST_FRAMES, LAST_EPOCH)?;
        Ok(Desk { pair, job: None })
    }

    /// Gives the disks a, b and duty back.
    pub fn close(self) -> (D, D, D)
        ensures { Closes self result }
    {
        self.pair.close()
    }

    /// Carries a command out, and answers what is told of it. On want of memory a part of it may be done.
    pub fn carry_out(&mut self, alloc: Global, command: &Command<'_>) -> Result<Replied, NoMemory>
        requires { IsCommand (command_of command.now) }
        ensures carries { Carries D.state self.old self.new (command_of command.now) result }
        ensures switches { Switched D.state self.old self.new (command_of command.now) result }
        ensures can_tell { IfOk result (λ told. CanTell (table_of self.new) self.new.job told.last) }
        ensures keeps { Keeps D.state self.old self.new }
    {
        match command {
            Command::Ask(ask) => alone(self.answer(ask)),
            Command::Report { node, report } => alone(self.report(alloc, *node, report)),
            Command::File(content) => alone(self.read(alloc, content)),
            Command::Edit {
                editor,
                serial,
                edit,
            } => alone(self.read_edit(*editor, *serial, *edit)),
            Command::Write(node) => alone(self.write_command(*node)),
            Command::Next => self.next(),
            Command::Batch => self.batch(),
            Command::CatchUp => alone(self.bring_up()),
            Command::Order(order) => alone(self.order(*order)),
        }
    }
}

// This reply, and nothing before it.
fn alone(reply: Result<Reply, NoMemory>) -> Result<Replied, NoMemory>
    ensures { result ≡ only reply }
{
    match reply {
        Ok(last) => Ok(Replied { left: None, last }),
        Err(NoMemory) => Err(NoMemory),
    }
}
