//! What the nodes of a pair tell each other.
ghost use Rattle.std.specs.Prelude.{◌≡◌, ◌≤◌, ◌<◌, ◌+◌, ◌-◌, ◌++◌, ◌∷◌, [], length, slice_get, vec_capacity, vec_len, true, Some};
ghost use Rattle.pair_node.specs.Messages.{ack_made};
ghost use Rattle.pair_node.specs.declared.message.Ack.{Ack as AnyAck};
ghost use Rattle.pair_node.specs.declared.message.Message.{Message as AnyMessage};
ghost use Rattle.pair_core.specs.Pair.{Does, Moments, PassMoments, IsCall, sent_of, duty_of, is_node_up, len_of, bounds_of};
ghost use Rattle.pair_core.specs.PairAnswers.{told, delivered_told, passed_told, ShipCauses, DeliverCauses, PassCauses, ShipKeeps, DeliverKeeps, PassKeeps, IsAnswered};
ghost use Rattle.pair_core.specs.PairMessages.{IsBesideMessages, IsHeard, NotReadAt, IsMade, hearing};
ghost use Rattle.pair_core.specs.PairNodes.{IsSent};
ghost use Rattle.pair_core.specs.PairPassing.{pass_row};
ghost use Rattle.pair_core.specs.declared.sent.Sent.TheVariants as sent;
ghost use Rattle.pair_world.specs.Refusals.{message_limit};
ghost use Rattle.pair_world.specs.Step as events;
ghost use Rattle.world_rows.specs.Told as tells;
ghost use Rattle.world_rows.specs.WorldRows.{ship_row, deliver_row};

use crate::faults::PairFault;
use crate::nodes::{disk_of, other};
use crate::pair::Pair;
use crate::sent::Sent;
use ali_base::NodeName;
use crash_disk::Disk;
use node_journal::ReadFault;
use pair_node::{Ack, Delivered, Message};

impl<D: Disk + Drop> Pair<D> {
    /// The holder tells the other node frame k, or its end behind the last. It answers the number of
    /// the message, which is then on its way.
    pub fn ship(&mut self, n: NodeName, k: u32) -> Result<u32, PairFault>
        requires { 1 ≤ k }
        ensures does { Does D.state self.old self.new (λ limits lasted w. ship_row limits w n k) (told tells.Sent result) }
        ensures moments { Moments D.state self.old self.new (events.Ship k) }
        ensures causes { ShipCauses D.state self.old self.new n k result }
        ensures beside { ShipKeeps self.old self.new n result }
        ensures call { IsCall D.state self.old self.new }
    {
        if let Some(refusal) = self.ship_refusal(n, k) {
            return Err(refusal);
        }
        if !self.make_room() {
            return Err(PairFault::NoMemory);
        }
        match self.make_message(n, k) {
            Ok(message) => Ok(self.send(Sent::Shipment { sender: n, message })),
            Err(fault) => Err(fault),
        }
    }

    /// Message i is delivered; it stays on its way. It answers what it comes to, and the number of
    /// the acknowledgement that was made, 0 where there is none.
    pub fn deliver(&mut self, i: u32) -> Result<(Delivered, u32), PairFault>
        requires { 1 ≤ i }
        ensures does { Does D.state self.old self.new (λ limits lasted w. deliver_row limits w i) (told delivered_told result) }
        ensures moments { Moments D.state self.old self.new (events.Deliver i) }
        ensures causes { DeliverCauses D.state self.old self.new i (slice_get (sent_of self.old) (i - 1)) result }
        ensures beside { DeliverKeeps self.old self.new (slice_get (sent_of self.old) (i - 1)) }
        ensures call { IsCall D.state self.old self.new }
    {
        match self.messages.get((i - 1) as usize) {
            None => Err(PairFault::NoMessage {
                number: i,
                sent: self.messages.len() as u32,
            }),
            Some(Sent::Shipment { sender, .. }) => {
                let sender = *sender;
                self.deliver_shipment(i, sender)
            }
            Some(Sent::Acknowledgement { to, ack }) => {
                let (to, ack) = (*to, *ack);
                self.deliver_ack(to, ack)
            }
        }
    }

    // Message i, a shipment, is delivered to the node that is not its sender.
    fn deliver_shipment(&mut self, i: u32, sender: NodeName) -> Result<(Delivered, u32), PairFault>
        requires number { 1 ≤ i }
        requires there { (m : AnyMessage) × (slice_get (sent_of self.old) (i - 1) ≡ Some (sent.Shipment sender m)) }
        ensures does { Does D.state self.old self.new (λ limits lasted w. deliver_row limits w i) (told delivered_told result) }
        ensures moments { Moments D.state self.old self.new (events.Deliver i) }
        ensures causes { DeliverCauses D.state self.old self.new i (slice_get (sent_of self.old) (i - 1)) result }
        ensures beside { DeliverKeeps self.old self.new (slice_get (sent_of self.old) (i - 1)) }
        ensures call { IsCall D.state self.old self.new }
    {
        if let Some(refusal) = self.shipment_refusal(sender) {
            return Err(refusal);
        }
        if !self.make_room() {
            return Err(PairFault::NoMemory);
        }
        let receiver = other(sender);
        match self.store_sent((i - 1) as usize, receiver) {
            Ok(delivered) => Ok((delivered, self.answer(sender, delivered))),
            Err(_) => Err(PairFault::Fault(disk_of(receiver))),
        }
    }

    // An acknowledgement is delivered.
    fn deliver_ack(&mut self, to: NodeName, ack: Ack) -> Result<(Delivered, u32), PairFault>
        requires { 1 ≤ ack.number }
        ensures { IsHeard self.old self.new to ack result }
    {
        if let Some(refusal) = self.ack_refusal(to) {
            return Err(refusal);
        }
        if ack.epoch < self.duty.epoch {
            let stale = Delivered::Stale {
                epoch: ack.epoch,
                known: self.duty.epoch,
            };
            return Ok((stale, 0));
        }
        self.hear(ack);
        Ok((Delivered::Acked(ack), 0))
    }

    /// The holder passes frame k on, or its end: the other node gets it, and the acknowledgement that
    /// it makes is heard. Nothing of this takes a number.
    pub fn pass_on(&mut self, k: u32) -> Result<Delivered, PairFault>
        requires { 1 ≤ k }
        ensures does { Does D.state self.old self.new (λ limits lasted w. pass_row limits w k) (told passed_told result) }
        ensures moments { PassMoments D.state self.old self.new k }
        ensures causes { PassCauses D.state self.old self.new k result }
        ensures beside { PassKeeps self.old self.new result }
        ensures call { IsCall D.state self.old self.new }
    {
        if let Some(refusal) = self.shipping_refusal(k) {
            return Err(refusal);
        }
        let holder = self.duty.holder;
        let message = match self.make_message(holder, k) {
            Ok(message) => message,
            Err(fault) => return Err(fault),
        };
        let receiver = other(holder);
        if let Some(refusal) = self.node_is_down(receiver) {
            return Err(refusal);
        }
        match self.store_node(receiver, &message) {
            Ok(delivered) => {
                self.hear_answer(delivered);
                Ok(delivered)
            }
            Err(_) => Err(PairFault::Fault(disk_of(receiver))),
        }
    }

    // Message k of the node is made.
    fn make_message(&mut self, n: NodeName, k: u32) -> Result<Message, PairFault>
        requires up { is_node_up self.old n ≡ true }
        requires number { (1 ≤ k) × (k ≤ len_of self.old n + 1) }
        ensures { IsMade D.state self.old self.new n k result }
    {
        match self.read_node(n, k) {
            Ok(message) => Ok(message),
            Err(fault) => Err(self.not_read(n, fault)),
        }
    }

    // Why a frame is not told. One that reads as no entry shows a disk that is not honest: the node
    // goes down.
    fn not_read(&mut self, n: NodeName, fault: ReadFault) -> PairFault
        ensures { NotReadAt self.old self.new n fault result }
    {
        match fault {
            ReadFault::DiskFault => PairFault::Fault(disk_of(n)),
            ReadFault::Changed(frame) => {
                self.stop_node(n);
                PairFault::Damaged(disk_of(n), frame)
            }
        }
    }

    // Takes room for one message more, and answers whether there is.
    fn make_room(&mut self) -> bool
        ensures room { result ≡ true → vec_len self.new.messages < vec_capacity self.new.messages }
        ensures sent { sent_of self.new ≡ sent_of self.old }
        ensures beside { IsBesideMessages self.old self.new }
    {
        self.messages.try_reserve(1).is_ok()
    }

    // Puts it on its way, and answers its number.
    fn send(&mut self, message: Sent) -> u32
        requires room { vec_len self.old.messages < vec_capacity self.old.messages }
        requires few { length (sent_of self.old) < message_limit }
        requires fits { IsSent (bounds_of self.old).frames (duty_of self.old).epoch message }
        ensures number { result ≡ length (sent_of self.old) + 1 }
        ensures sent { sent_of self.new ≡ sent_of self.old ++ message ∷ [] }
        ensures beside { IsBesideMessages self.old self.new }
    {
        self.messages.push_reserved(message);
        self.messages.len() as u32
    }

    // The acknowledgement that an answer makes is on its way to the sender. It answers its number,
    // 0 where there is none.
    fn answer(&mut self, to: NodeName, delivered: Delivered) -> u32
        requires room { vec_len self.old.messages < vec_capacity self.old.messages }
        requires few { length (sent_of self.old) < message_limit }
        requires fits { (ack : AnyAck) → ack_made delivered ≡ Some ack
            → IsSent (bounds_of self.old).frames (duty_of self.old).epoch (sent.Acknowledgement to ack) }
        ensures answered { IsAnswered self.old self.new to (ack_made delivered) result }
        ensures beside { IsBesideMessages self.old self.new }
    {
        match delivered.ack() {
            Some(ack) => self.send(Sent::Acknowledgement { to, ack }),
            None => 0,
        }
    }

    // The acknowledgement that an answer makes is heard.
    fn hear_answer(&mut self, delivered: Delivered)
        requires { (ack : AnyAck) → ack_made delivered ≡ Some ack → 1 ≤ ack.number }
        ensures { self.new ≡ hearing self.old (ack_made delivered) }
    {
        if let Some(ack) = delivered.ack() {
            self.hear(ack);
        }
    }

    // The acknowledgement of a frame counts it, that of the end counts the frames before it and the
    // end.
    fn hear(&mut self, ack: Ack)
        requires { 1 ≤ ack.number }
        ensures { self.new ≡ hearing self.old (Some ack) }
    {
        if ack.end {
            self.acked = self.acked.max(ack.number - 1);
            self.ended = self.ended.max(ack.number);
        } else {
            self.acked = self.acked.max(ack.number);
        }
    }
}
