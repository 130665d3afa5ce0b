//! Orders to the nodes and the register, and catching up.
ghost use Rattle.std.specs.Prelude.{◌≡◌, ◌≤◌, IfOk};
ghost use Rattle.command_machine.specs.Courses.{First};
ghost use Rattle.office_commands.specs.Commands as commands;
ghost use Rattle.office_commands.specs.Commands.{IsOrder};
ghost use Rattle.office_commands.specs.declared.order.Order.{Order as AnyOrder};

use crate::desk::Desk;
use crate::reply::Reply;
use crate::told::refused;
use ali_base::{NoMemory, NodeName};
use catch_up::catch_up;
use crash_disk::Disk;
use office_commands::Order;

impl<D: Disk + Drop> Desk<D> {
    ghost use Rattle.command_desk.specs.MadeReply.{table_of, CanTell, Carries, only};
    ghost use Rattle.command_desk.specs.OpenedDesk.{Keeps, Switched};
    ghost use Rattle.command_desk.specs.DeskSteps.{Leads, EventDone, BookAdvances, told_in};

    // Carries an order out.
    pub(crate) fn order(&mut self, order: Order) -> Result<Reply, NoMemory>
        requires { IsOrder order }
        ensures leads { Leads D.state self.old self.new
            (EventDone (First (commands.Ordered order)) (told_in self.new result)) }
        ensures switches { Switched D.state self.old self.new (commands.Ordered order) (only result) }
        ensures can_tell { IfOk result (CanTell (table_of self.new) self.new.job) }
        ensures keeps { Keeps D.state self.old self.new }
        ensures job { self.new.job ≡ self.old.job }
    {
        match order {
            Order::Book => self.book(),
            Order::Ship { node, number } => self.ship(node, number),
            Order::Deliver(message) => self.deliver(message),
            Order::Take(node) => self.take_duty(node),
            Order::Alone => self.go_alone(),
            Order::Pair => self.pair_up(),
            Order::Stop(node) => self.stop(node),
            Order::Start(node) => self.start(node),
            Order::StartDuty => self.start_duty(),
            Order::Status => self.status(),
        }
    }

    // Books the pending entry.
    pub(crate) fn book(&mut self) -> Result<Reply, NoMemory>
        ensures leads { Leads D.state self.old self.new
            (EventDone (First (commands.Ordered AnyOrder.Book)) (told_in self.new result)) }
        ensures switches { Switched D.state self.old self.new (commands.Ordered AnyOrder.Book) (only result) }
        ensures can_tell { IfOk result (CanTell (table_of self.new) self.new.job) }
        ensures keeps { Keeps D.state self.old self.new }
        ensures job { self.new.job ≡ self.old.job }
        ensures advances { BookAdvances self.old self.new result }
    {
        match self.pair.book() {
            Ok(booked) => Ok(Reply::Booked {
                number: booked.number,
                code: booked.code,
                detail: booked.detail,
            }),
            Err(fault) => refused(fault),
        }
    }

    // The node tells the other its frame of this number, or its end.
    fn ship(&mut self, node: NodeName, number: u32) -> Result<Reply, NoMemory>
        requires { 1 ≤ number }
        ensures leads { Leads D.state self.old self.new
            (EventDone (First (commands.Ordered (AnyOrder.Ship node number))) (told_in self.new result)) }
        ensures switches { Switched D.state self.old self.new
            (commands.Ordered (AnyOrder.Ship node number)) (only result) }
        ensures can_tell { IfOk result (CanTell (table_of self.new) self.new.job) }
        ensures keeps { Keeps D.state self.old self.new }
        ensures job { self.new.job ≡ self.old.job }
    {
        match self.pair.ship(node, number) {
            Ok(message) => Ok(Reply::Sent(message)),
            Err(fault) => refused(fault),
        }
    }

    // Delivers a message.
    fn deliver(&mut self, message: u32) -> Result<Reply, NoMemory>
        requires { 1 ≤ message }
        ensures leads { Leads D.state self.old self.new
            (EventDone (First (commands.Ordered (AnyOrder.Deliver message))) (told_in self.new result)) }
        ensures switches { Switched D.state self.old self.new
            (commands.Ordered (AnyOrder.Deliver message)) (only result) }
        ensures can_tell { IfOk result (CanTell (table_of self.new) self.new.job) }
        ensures keeps { Keeps D.state self.old self.new }
        ensures job { self.new.job ≡ self.old.job }
    {
        match self.pair.deliver(message) {
            Ok((delivered, made)) => Ok(Reply::Delivered { delivered, made }),
            Err(fault) => refused(fault),
        }
    }

    // The node takes the duty.
    fn take_duty(&mut self, node: NodeName) -> Result<Reply, NoMemory>
        ensures leads { Leads D.state self.old self.new
            (EventDone (First (commands.Ordered (AnyOrder.Take node))) (told_in self.new result)) }
        ensures switches { Switched D.state self.old self.new
            (commands.Ordered (AnyOrder.Take node)) (only result) }
        ensures can_tell { IfOk result (CanTell (table_of self.new) self.new.job) }
        ensures keeps { Keeps D.state self.old self.new }
        ensures job { self.new.job ≡ self.old.job }
    {
        match self.pair.take(node) {
            Ok(duty) => Ok(Reply::OnDuty(duty)),
            Err(fault) => refused(fault),
        }
    }

    // The holder goes on alone.
    fn go_alone(&mut self) -> Result<Reply, NoMemory>
        ensures leads { Leads D.state self.old self.new
            (EventDone (First (commands.Ordered AnyOrder.Alone)) (told_in self.new result)) }
        ensures switches { Switched D.state self.old self.new
            (commands.Ordered AnyOrder.Alone) (only result) }
        ensures can_tell { IfOk result (CanTell (table_of self.new) self.new.job) }
        ensures keeps { Keeps D.state self.old self.new }
        ensures job { self.new.job ≡ self.old.job }
    {
        match self.pair.alone() {
            Ok(duty) => Ok(Reply::OnDuty(duty)),
            Err(fault) => refused(fault),
        }
    }

    // Both nodes are in step again.
    fn pair_up(&mut self) -> Result<Reply, NoMemory>
        ensures leads { Leads D.state self.old self.new
            (EventDone (First (commands.Ordered AnyOrder.Pair)) (told_in self.new result)) }
        ensures switches { Switched D.state self.old self.new (commands.Ordered AnyOrder.Pair) (only result) }
        ensures can_tell { IfOk result (CanTell (table_of self.new) self.new.job) }
        ensures keeps { Keeps D.state self.old self.new }
        ensures job { self.new.job ≡ self.old.job }
    {
        match self.pair.pair_up() {
            Ok(duty) => Ok(Reply::OnDuty(duty)),
            Err(fault) => refused(fault),
        }
    }

    // Stops a node.
    fn stop(&mut self, node: NodeName) -> Result<Reply, NoMemory>
        ensures leads { Leads D.state self.old self.new
            (EventDone (First (commands.Ordered (AnyOrder.Stop node))) (told_in self.new result)) }
        ensures switches { Switched D.state self.old self.new
            (commands.Ordered (AnyOrder.Stop node)) (only result) }
        ensures can_tell { IfOk result (CanTell (table_of self.new) self.new.job) }
        ensures keeps { Keeps D.state self.old self.new }
        ensures job { self.new.job ≡ self.old.job }
    {
        match self.pair.stop(node) {
            Ok(()) => Ok(Reply::Stopped(node)),
            Err(fault) => refused(fault),
        }
    }

    // Starts a node.
    fn start(&mut self, node: NodeName) -> Result<Reply, NoMemory>
        ensures leads { Leads D.state self.old self.new
            (EventDone (First (commands.Ordered (AnyOrder.Start node))) (told_in self.new result)) }
        ensures switches { Switched D.state self.old self.new
            (commands.Ordered (AnyOrder.Start node)) (only result) }
        ensures can_tell { IfOk result (CanTell (table_of self.new) self.new.job) }
        ensures keeps { Keeps D.state self.old self.new }
        ensures job { self.new.job ≡ self.old.job }
    {
        match self.pair.start(node) {
            Ok(started) => Ok(Reply::Started {
                node,
                len: started.len,
                known: started.known,
            }),
            Err(fault) => refused(fault),
        }
    }

    // Starts the register.
    fn start_duty(&mut self) -> Result<Reply, NoMemory>
        ensures leads { Leads D.state self.old self.new
            (EventDone (First (commands.Ordered AnyOrder.StartDuty)) (told_in self.new result)) }
        ensures switches { Switched D.state self.old self.new
            (commands.Ordered AnyOrder.StartDuty) (only result) }
        ensures can_tell { IfOk result (CanTell (table_of self.new) self.new.job) }
        ensures keeps { Keeps D.state self.old self.new }
        ensures job { self.new.job ≡ self.old.job }
    {
        match self.pair.start_duty() {
            Ok(duty) => Ok(Reply::StartedDuty(duty)),
            Err(fault) => refused(fault),
        }
    }

    // Tells how things stand.
    fn status(&mut self) -> Result<Reply, NoMemory>
        ensures leads { Leads D.state self.old self.new
            (EventDone (First (commands.Ordered AnyOrder.Status)) (told_in self.new result)) }
        ensures switches { Switched D.state self.old self.new
            (commands.Ordered AnyOrder.Status) (only result) }
        ensures can_tell { IfOk result (CanTell (table_of self.new) self.new.job) }
        ensures keeps { Keeps D.state self.old self.new }
        ensures job { self.new.job ≡ self.old.job }
    {
        match self.pair.status() {
            Ok(status) => Ok(Reply::Status(status)),
            Err(fault) => refused(fault),
        }
    }

    // Brings the other node to the holder's journal.
    pub(crate) fn bring_up(&mut self) -> Result<Reply, NoMemory>
        ensures carries { Carries D.state self.old self.new commands.Catch_up (only result) }
        ensures switches { Switched D.state self.old self.new commands.Catch_up (only result) }
        ensures can_tell { IfOk result (CanTell (table_of self.new) self.new.job) }
        ensures keeps { Keeps D.state self.old self.new }
    {
        match catch_up(&mut self.pair) {
            Ok(len) => Ok(Reply::CaughtUp(len)),
            Err(fault) => refused(fault),
        }
    }
}
