//! The texts of replies.
ghost use Rattle.std.specs.Prelude.{◌≡◌};
ghost use Rattle.ali_base.specs.WholePuts.{Puts};
ghost use Rattle.command_desk.specs.MadeReply.{duty_replies, left_replies};
ghost use Rattle.command_machine.specs.ReplyText as texts;

use crate::desk::Desk;
use crate::lines::{
    delivered_line, duty_line, node_line, number_line, numbers_line, report_line,
    started_duty_line, status_line, stopped_line, words_number_line,
};
use crate::refusal::fault_line;
use crate::reply::{LeftBehind, Replied, Reply};
use ali_base::{Duty, Sink, SinkFault, put_all};
use batch_desk::{done_line, put_reply, read_line};
use crash_disk::Disk;
use text_line::Line;

impl<D: Disk + Drop> Desk<D> {
    ghost use Rattle.command_desk.specs.MadeReply.{CanTell, table_of, reply_of, replies_of};

    /// Puts the whole text of what this desk tells, or stops at a fault with a front of it put.
    pub fn put<K: Sink>(&self, told: &Replied, sink: &mut K) -> Result<(), SinkFault>
        requires { CanTell (table_of self.now) self.now.job told.now.last }
        ensures put { Puts K.contents K.faults sink.old sink.new
            (texts.text_of (replies_of (table_of self.now) self.now.job told.now)) result }
    {
        put_left(&told.left, sink)?;
        self.put_last(&told.last, sink)
    }

    // Puts the whole text of a reply.
    #[tactic(auto, unfolding(command_machine::specs::ReplyText::reply_text))]
    fn put_last<K: Sink>(&self, reply: &Reply, sink: &mut K) -> Result<(), SinkFault>
        requires { CanTell (table_of self.now) self.now.job reply.now }
        ensures put { Puts K.contents K.faults sink.old sink.new
            (texts.reply_text (reply_of (table_of self.now) self.now.job reply.now)) result }
    {
        put_all(sink, self.line(reply).bytes())?;
        self.put_block(reply, sink)
    }

    // The line of a reply, which a finished job has not.
    fn line(&self, reply: &Reply) -> Line
        requires { CanTell (table_of self.now) self.now.job reply.now }
        ensures { result ≡ texts.reply_line (reply_of (table_of self.now) self.now.job reply.now) }
    {
        match reply {
            Reply::Refused(refusal) => refusal.line(),
            Reply::Answer { count, form } => numbers_line(
                b"ANSWER",
                *count,
                form.bytes().len() as u32,
            ),
            Reply::Reported { count, text } => report_line(*count, text.len()),
            Reply::Read(read) => read_line(read),
            Reply::Complete(done) => done_line(done),
            Reply::Finished => Line::new(),
            Reply::CaughtUp(len) => words_number_line(b"CAUGHT", b"UP", *len),
            Reply::Written { number, epoch } => numbers_line(b"WRITTEN", *number, *epoch),
            Reply::Booked { number, code, .. } => numbers_line(
                b"BOOKED",
                *number,
                u32::from(*code),
            ),
            Reply::Sent(message) => number_line(b"SENT", *message),
            Reply::Delivered { delivered, made } => delivered_line(delivered, *made),
            Reply::OnDuty(duty) => duty_line(duty),
            Reply::StartedDuty(duty) => started_duty_line(duty),
            Reply::Stopped(node) => stopped_line(*node),
            Reply::Started { node, len, known } => node_line(b"STARTED", *node, *len, *known),
            Reply::Status(status) => status_line(status),
        }
    }

    // Puts what follows the line.
    fn put_block<K: Sink>(&self, reply: &Reply, sink: &mut K) -> Result<(), SinkFault>
        requires { CanTell (table_of self.now) self.now.job reply.now }
        ensures put { Puts K.contents K.faults sink.old sink.new
            (texts.reply_block (reply_of (table_of self.now) self.now.job reply.now)) result }
    {
        match reply {
            Reply::Finished => match &self.job {
                Some(job) => put_reply(self.table(), job, sink),
                None => put_all(sink, b""),
            },
            Reply::Answer { form, .. } => put_all(sink, form.bytes()),
            Reply::Reported { text, .. } => put_all(sink, text),
            _ => put_all(sink, b""),
        }
    }
}

// Puts that the other node was left behind, where it was.
fn put_left<K: Sink>(left: &Option<LeftBehind>, sink: &mut K) -> Result<(), SinkFault>
    ensures put { Puts K.contents K.faults sink.old sink.new (texts.text_of (left_replies left.now)) result }
{
    match left {
        Some(left) => {
            put_all(sink, fault_line(&left.fault).bytes())?;
            put_duty(&left.duty, sink)
        }
        None => put_all(sink, b""),
    }
}

// Puts the duty on which the holder is alone, where it is.
fn put_duty<K: Sink>(duty: &Option<Duty>, sink: &mut K) -> Result<(), SinkFault>
    ensures put { Puts K.contents K.faults sink.old sink.new (texts.text_of (duty_replies duty.now)) result }
{
    match duty {
        Some(duty) => put_all(sink, duty_line(duty).bytes()),
        None => put_all(sink, b""),
    }
}
