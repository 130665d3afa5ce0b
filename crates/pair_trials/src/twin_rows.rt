//! The calls of the slow twin: the refusals of each in their order, what a fault leaves, and what is done.

use crate::edits::{Draft, Frame};
use crate::twin_answers::{answer, changed};
use crate::twin_world::{
    Sent, Shipment, World, after, count, disk_of, first, front, item, other, table, with,
};
use ali_base::{DiskName, Duty, Mode, NodeName};
use pair_core::{Ack, Booked, Delivered, PairFault, PairStatus, Started};
use std::test::Fail;

/// What a call tells.
#[derive(Clone, Copy, Debug, PartialEq, Eq)]
pub enum Told {
    Ready,
    Written(u32),
    Sent(u32),
    Delivered(Delivered, u32),
    Passed(Delivered),
    Booked(Booked),
    Duty(Duty),
    Stopped,
    Started(Started),
    Status(PairStatus),
    // The twin does not know: its own lists are not sound.
    Unsound,
}

/// What a call answers.
pub type Reply = Result<Told, PairFault>;

/// What the pair met that is not in the lists: the disk that failed in the call, and whether what was
/// in doubt lasted.
#[derive(Clone, Copy, Debug)]
pub struct Met {
    pub failed: Option<DiskName>,
    pub lasted: bool,
}

impl World {
    // Whether the disk of a node failed.
    fn fails(&self, n: NodeName, met: Met) -> bool {
        met.failed == Some(disk_of(n))
    }

    // A read failed at the node.
    fn read_failed(&mut self, n: NodeName) -> Reply {
        self.node_mut(n).up = false;
        Err(PairFault::Fault(disk_of(n)))
    }

    // A write failed at the node, which may have left this journal.
    fn write_failed(&mut self, n: NodeName, journal: Vec<Frame>) -> Reply {
        let node = self.node_mut(n);
        node.up = false;
        node.failed = Some(journal);
        Err(PairFault::Fault(disk_of(n)))
    }

    pub fn ready(&mut self, n: NodeName, met: Met) -> Reply {
        let row = [self.duty_down(), self.down(n), self.not_in_duty(n)];
        if let Some(refusal) = first(&row) {
            return Err(refusal);
        }
        if self.fails(n, met) {
            return self.read_failed(n);
        }
        Ok(Told::Ready)
    }

    pub fn write(&mut self, n: NodeName, draft: Draft, met: Met) -> Result<Reply, Fail> {
        let row = [
            self.duty_down(),
            self.down(n),
            self.not_holder(n),
            self.in_flight(),
        ];
        if let Some(refusal) = first(&row) {
            return Ok(Err(refusal));
        }
        let (Some((office, _)), Some(entry)) = (table(self.alloc, &self.booked)?, draft.entry())
        else {
            return Ok(Ok(Told::Unsound));
        };
        let due = office.due(&entry);
        let is_full = self.holder_len() >= self.bounds.frames;
        if self.fails(n, met) && (due.is_err() || is_full) {
            return Ok(self.read_failed(n));
        }
        if let Err(fault) = due {
            return Ok(Err(PairFault::NotDue(fault)));
        }
        if is_full {
            return Ok(Err(PairFault::Full(self.bounds.frames)));
        }
        self.append(n, draft, met)
    }

    // The node writes an edit that is due.
    fn append(&mut self, n: NodeName, draft: Draft, met: Met) -> Result<Reply, Fail> {
        let frame = Frame {
            draft,
            epoch: self.duty.epoch,
        };
        let journal = with(self.alloc, &self.node(n).journal, frame)?;
        if self.fails(n, met) {
            return Ok(self.write_failed(n, journal));
        }
        self.node_mut(n).journal = journal;
        Ok(Ok(Told::Written(self.len(n))))
    }

    pub fn book(&mut self, met: Met) -> Result<Reply, Fail> {
        let holder = self.duty.holder;
        let row = [
            self.duty_down(),
            self.down(holder),
            self.no_flight(),
            self.unstored(),
        ];
        if let Some(refusal) = first(&row) {
            return Ok(Err(refusal));
        }
        if self.fails(holder, met) {
            return Ok(self.read_failed(holder));
        }
        let number = after(count(&self.booked));
        let booked = front(self.alloc, &self.holder().journal, number)?;
        let Some((_, verdict)) = table(self.alloc, &booked)? else {
            return Ok(Ok(Told::Unsound));
        };
        self.booked = booked;
        Ok(Ok(Told::Booked(Booked {
            number,
            code: verdict.code,
            detail: verdict.detail,
        })))
    }

    pub fn stop(&mut self, n: NodeName) -> Reply {
        if let Some(refusal) = self.down(n) {
            return Err(refusal);
        }
        self.node_mut(n).up = false;
        if n == self.duty.holder {
            self.acked = 0;
            self.ended = 0;
        }
        Ok(Told::Stopped)
    }

    // How long the journal of a node must be when it starts.
    fn need(&self, n: NodeName) -> u32 {
        if n == self.duty.holder || !self.is_alone() {
            count(&self.booked)
        } else {
            0
        }
    }

    pub fn start(&mut self, n: NodeName, met: Met) -> Result<Reply, Fail> {
        if let Some(refusal) = first(&[self.duty_down(), self.is_up(n)]) {
            return Ok(Err(refusal));
        }
        if self.fails(n, met) {
            return Ok(Err(PairFault::Fault(disk_of(n))));
        }
        let node = self.node(n);
        let journal = match &node.failed {
            Some(journal) if met.lasted => journal.as_slice().to_vec(self.alloc)?,
            _ => node.journal.as_slice().to_vec(self.alloc)?,
        };
        let have = count(&journal);
        let need = self.need(n);
        if have < need {
            return Ok(Err(PairFault::Short {
                node: n,
                have,
                need,
            }));
        }
        let known = self.duty.epoch;
        let node = self.node_mut(n);
        node.up = true;
        node.known = known;
        node.journal = journal;
        node.failed = None;
        Ok(Ok(Told::Started(Started { len: have, known })))
    }

    // Message k of the holder.
    fn shipment(&self, k: u32) -> Shipment {
        let journal = &self.holder().journal;
        let before = match item(journal, k.saturating_sub(1)) {
            Some(frame) => frame.epoch,
            None => 0,
        };
        Shipment {
            sender: self.duty.holder,
            epoch: self.duty.epoch,
            number: k,
            before,
            frame: item(journal, k),
        }
    }

    pub fn ship(&mut self, n: NodeName, k: u32, met: Met) -> Result<Reply, Fail> {
        let row = [
            self.duty_down(),
            self.down(n),
            self.not_holder(n),
            self.no_entry(k),
            self.messages_full(),
        ];
        if let Some(refusal) = first(&row) {
            return Ok(Err(refusal));
        }
        if self.fails(n, met) {
            return Ok(self.read_failed(n));
        }
        let shipment = self.shipment(k);
        self.messages.push(Sent::Ships(shipment))?;
        Ok(Ok(Told::Sent(count(&self.messages))))
    }

    // A shipment comes to its receiver, which is up: what it answers, or the fault of its disk.
    fn store(&mut self, x: &Shipment, met: Met) -> Result<Result<Delivered, PairFault>, Fail> {
        let receiver = other(x.sender);
        let node = self.node(receiver);
        let answer = answer(node, x);
        let journal = changed(self.alloc, &node.journal, answer, x.frame)?;
        if let Some(journal) = journal {
            if self.fails(receiver, met) {
                let _ = self.write_failed(receiver, journal);
                return Ok(Err(PairFault::Fault(disk_of(receiver))));
            }
            self.node_mut(receiver).journal = journal;
        }
        let node = self.node_mut(receiver);
        node.known = node.known.max(x.epoch);
        Ok(Ok(answer))
    }

    // A shipment is delivered.
    fn deliver_shipment(&mut self, x: Shipment, met: Met) -> Result<Reply, Fail> {
        let row = [
            self.duty_down(),
            self.down(other(x.sender)),
            self.messages_full(),
        ];
        if let Some(refusal) = first(&row) {
            return Ok(Err(refusal));
        }
        let answer = match self.store(&x, met)? {
            Ok(answer) => answer,
            Err(fault) => return Ok(Err(fault)),
        };
        let made = match answer {
            Delivered::Stored(ack) | Delivered::Have(ack) | Delivered::HaveEnd(ack) => {
                self.messages.push(Sent::Acks {
                    to: x.sender,
                    epoch: ack.epoch,
                    number: ack.number,
                    end: ack.end,
                })?;
                count(&self.messages)
            }
            _ => 0,
        };
        Ok(Ok(Told::Delivered(answer, made)))
    }

    // An acknowledgement is heard.
    fn hear(&mut self, number: u32, end: bool) {
        if end {
            self.acked = self.acked.max(number.saturating_sub(1));
            self.ended = self.ended.max(number);
        } else {
            self.acked = self.acked.max(number);
        }
    }

    // An acknowledgement is delivered.
    fn deliver_ack(&mut self, to: NodeName, ack: Ack) -> Reply {
        if let Some(refusal) = first(&[self.duty_down(), self.down(to)]) {
            return Err(refusal);
        }
        let known = self.duty.epoch;
        if ack.epoch < known {
            let stale = Delivered::Stale {
                epoch: ack.epoch,
                known,
            };
            return Ok(Told::Delivered(stale, 0));
        }
        self.hear(ack.number, ack.end);
        Ok(Told::Delivered(Delivered::Acked(ack), 0))
    }

    pub fn deliver(&mut self, i: u32, met: Met) -> Result<Reply, Fail> {
        match item(&self.messages, i) {
            None => Ok(Err(PairFault::NoMessage {
                number: i,
                sent: count(&self.messages),
            })),
            Some(Sent::Ships(x)) => self.deliver_shipment(x, met),
            Some(
                Sent::Acks {
                    to,
                    epoch,
                    number,
                    end,
                },
            ) => {
                let ack = Ack { epoch, number, end };
                Ok(self.deliver_ack(to, ack))
            }
        }
    }

    pub fn pass_on(&mut self, k: u32, met: Met) -> Result<Reply, Fail> {
        let holder = self.duty.holder;
        let row = [self.duty_down(), self.down(holder), self.no_entry(k)];
        if let Some(refusal) = first(&row) {
            return Ok(Err(refusal));
        }
        if self.fails(holder, met) {
            return Ok(self.read_failed(holder));
        }
        if let Some(refusal) = self.down(other(holder)) {
            return Ok(Err(refusal));
        }
        let shipment = self.shipment(k);
        let answer = match self.store(&shipment, met)? {
            Ok(answer) => answer,
            Err(fault) => return Ok(Err(fault)),
        };
        if let Delivered::Stored(ack) | Delivered::Have(ack) | Delivered::HaveEnd(ack) = answer {
            self.hear(ack.number, ack.end);
        }
        Ok(Ok(Told::Passed(answer)))
    }

    // The duty changes, over this history.
    fn change(&mut self, holder: NodeName, mode: Mode, history: Vec<Frame>, met: Met) -> Reply {
        let duty = Duty {
            epoch: after(self.duty.epoch),
            holder,
            mode,
            floor: count(&history),
        };
        if met.failed == Some(DiskName::Duty) {
            self.failed = Some(duty);
            return Err(PairFault::Fault(DiskName::Duty));
        }
        self.duty = duty;
        self.booked = history;
        self.acked = 0;
        self.ended = 0;
        self.node_mut(holder).known = duty.epoch;
        Ok(Told::Duty(duty))
    }

    pub fn take(&mut self, n: NodeName, met: Met) -> Result<Reply, Fail> {
        let row = [
            self.duty_down(),
            self.down(n),
            self.not_paired(),
            self.epoch_end(),
        ];
        if let Some(refusal) = first(&row) {
            return Ok(Err(refusal));
        }
        let history = self.node(n).journal.as_slice().to_vec(self.alloc)?;
        Ok(self.change(n, Mode::Alone, history, met))
    }

    pub fn alone(&mut self, met: Met) -> Result<Reply, Fail> {
        let holder = self.duty.holder;
        let row = [
            self.duty_down(),
            self.down(holder),
            self.not_paired(),
            self.epoch_end(),
        ];
        if let Some(refusal) = first(&row) {
            return Ok(Err(refusal));
        }
        let history = self.booked.as_slice().to_vec(self.alloc)?;
        Ok(self.change(holder, Mode::Alone, history, met))
    }

    pub fn pair_up(&mut self, met: Met) -> Result<Reply, Fail> {
        let holder = self.duty.holder;
        let row = [
            self.duty_down(),
            self.down(holder),
            self.paired(),
            self.in_flight(),
            self.not_in_step(),
            self.epoch_end(),
        ];
        if let Some(refusal) = first(&row) {
            return Ok(Err(refusal));
        }
        let history = self.booked.as_slice().to_vec(self.alloc)?;
        Ok(self.change(holder, Mode::Both, history, met))
    }

    pub fn start_duty(&mut self, met: Met) -> Result<Reply, Fail> {
        let Some(failed) = self.failed else {
            return Ok(Err(PairFault::Up(DiskName::Duty)));
        };
        if met.failed == Some(DiskName::Duty) {
            return Ok(Err(PairFault::Fault(DiskName::Duty)));
        }
        if met.lasted {
            self.duty = failed;
        }
        self.failed = None;
        let Duty {
            epoch,
            holder,
            floor,
            ..
        } = self.duty;
        if count(&self.booked) < floor {
            self.booked = front(self.alloc, &self.node(holder).journal, floor)?;
        }
        self.acked = 0;
        self.ended = 0;
        self.node_mut(holder).known = epoch;
        Ok(Ok(Told::Duty(self.duty)))
    }

    // The length of a journal, where its node is up.
    fn length(&self, n: NodeName) -> Option<u32> {
        if self.node(n).up {
            Some(self.len(n))
        } else {
            None
        }
    }

    pub fn status(&self) -> Reply {
        if let Some(refusal) = self.duty_down() {
            return Err(refusal);
        }
        let number = after(count(&self.booked));
        let shows = self.holder().up && number <= self.holder_len();
        Ok(Told::Status(PairStatus {
            duty: self.duty,
            count: count(&self.booked),
            flight: if shows { Some(number) } else { None },
            len_a: self.length(NodeName::A),
            len_b: self.length(NodeName::B),
        }))
    }
}
