//! The calls of one node of a pair: nothing else of the pair changes.
ghost use Rattle.std.specs.Prelude.{◌≡◌, ◌+◌, ◌≤◌, true, IfOk, Some, slice_get};
ghost use Rattle.ali_base.specs.declared.names.NodeName.{NodeName as AnyName};
ghost use Rattle.node_journal.specs.JournalState.{with_frame};
ghost use Rattle.node_journal.specs.OpenJournal.{limit_of};
ghost use Rattle.pair_node.specs.LearnedEntries.{Learns, LearnAnswers};
ghost use Rattle.pair_node.specs.Messages.{MessageAnswers, IsRead};
ghost use Rattle.pair_node.specs.NodeState.{count_of as frames_of, journal_of};
ghost use Rattle.pair_node.specs.StoredMessage.{FitsIn};
ghost use Rattle.pair_node.specs.declared.message.Message.{Message as AnyMessage};
ghost use Rattle.pair_core.specs.Pair.{node_of, is_node_up, count_of, duty_of, sent_of};
ghost use Rattle.pair_core.specs.PairChanges.{IsBesideNode};
ghost use Rattle.pair_core.specs.PairMessages.{IsStoring};
ghost use Rattle.pair_core.specs.declared.sent.Sent.TheVariants as sent;
ghost use Rattle.pair_node.specs.StartedNode.{IsStopped, RestartAnswers};
ghost use Rattle.pair_node.specs.WrittenFrame.{Becomes, CrashesBetween, IsFixed, WriteAnswers};

use crate::pair::Pair;
use crate::sent::Sent;
use ali_base::NodeName;
use crash_disk::Disk;
use node_journal::{AppendFault, DiskFault, ReadFault};
use office_entry::Entry;
use pair_node::{Delivered, LearnFault, Message, StartFault};

impl<D: Disk + Drop> Pair<D> {
    // The node goes down.
    pub(crate) fn stop_node(&mut self, n: NodeName)
        ensures stopped { IsStopped (node_of self.old n) (node_of self.new n) }
        ensures beside { IsBesideNode self.old self.new n }
    {
        self.nodes.get_mut(n).stop();
    }

    // The node starts again, and knows the present epoch.
    pub(crate) fn restart_node(&mut self, n: NodeName, need: u32) -> Result<(), StartFault>
        ensures answers { RestartAnswers D.state (node_of self.old n) (node_of self.new n)
            (duty_of self.old).epoch need result }
        ensures beside { IsBesideNode self.old self.new n }
    {
        self.nodes.get_mut(n).restart(self.duty.epoch, need)
    }

    // The node learns what is booked.
    pub(crate) fn learn_node(&mut self, n: NodeName) -> Result<(), LearnFault>
        requires up { is_node_up self.old n ≡ true }
        requires within { count_of self.old ≤ frames_of (node_of self.old n) }
        ensures answer { LearnAnswers D.state (node_of self.old n) (node_of self.new n) (count_of self.old) result }
        ensures learns { Learns D.state (node_of self.old n) (node_of self.new n) }
        ensures beside { IsBesideNode self.old self.new n }
    {
        self.nodes.get_mut(n).learn(self.count)
    }

    // The node writes an entry of the present epoch.
    pub(crate) fn write_node(&mut self, n: NodeName, e: &Entry) -> Result<u32, AppendFault>
        requires up { is_node_up self.old n ≡ true }
        ensures stored { Becomes D.state (with_frame e.now (duty_of self.old).epoch)
            (node_of self.old n) (node_of self.new n) result }
        ensures moments { CrashesBetween D.state (with_frame e.now (duty_of self.old).epoch)
            (node_of self.old n) (node_of self.new n) }
        ensures answer { WriteAnswers D.state (node_of self.old n) (node_of self.new n)
            (duty_of self.old).epoch result }
        ensures fixed { IsFixed D.state (node_of self.old n) (node_of self.new n) }
        ensures beside { IsBesideNode self.old self.new n }
    {
        self.nodes.get_mut(n).write(e, self.duty.epoch)
    }

    // The node makes message k of the present epoch.
    pub(crate) fn read_node(&mut self, n: NodeName, k: u32) -> Result<Message, ReadFault>
        requires up { is_node_up self.old n ≡ true }
        requires number { (1 ≤ k) × (k ≤ frames_of (node_of self.old n) + 1) }
        ensures answer { MessageAnswers D.state (node_of self.old n) (node_of self.new n) k
            (duty_of self.old).epoch result }
        ensures fits { IfOk result (λ m. FitsIn (limit_of (journal_of (node_of self.old n))) k m.what) }
        ensures read { IsRead D.state (node_of self.old n) (node_of self.new n) }
        ensures beside { IsBesideNode self.old self.new n }
    {
        self.nodes.get_mut(n).message(k, self.duty.epoch)
    }

    // The node does with a message of the present epoch, or of an earlier one, what it answers.
    pub(crate) fn store_node(&mut self, n: NodeName, m: &Message) -> Result<Delivered, DiskFault>
        requires up { is_node_up self.old n ≡ true }
        requires number { 1 ≤ m.now.number }
        requires epoch { m.now.epoch ≤ (duty_of self.old).epoch }
        requires fits { FitsIn (limit_of (journal_of (node_of self.old n))) m.now.number m.now.what }
        ensures stored { IsStoring D.state (node_of self.old n) (node_of self.new n) m.now result }
        ensures beside { IsBesideNode self.old self.new n }
    {
        self.nodes.store(n, m)
    }

    // The same with the shipment of this index.
    pub(crate) fn store_sent(&mut self, index: usize, n: NodeName) -> Result<Delivered, DiskFault>
        requires up { is_node_up self.old n ≡ true }
        requires there { (sender : AnyName) × (m : AnyMessage) × (slice_get (sent_of self.old) index ≡ Some (sent.Shipment sender m)) }
        ensures stored { (sender : AnyName) (m : AnyMessage) → slice_get (sent_of self.old) index ≡ Some (sent.Shipment sender m)
            → IsStoring D.state (node_of self.old n) (node_of self.new n) m result }
        ensures beside { IsBesideNode self.old self.new n }
    {
        match self.messages.get(index) {
            Some(Sent::Shipment { message, .. }) => self.nodes.store(n, message),
            Some(Sent::Acknowledgement { .. }) => unreachable!(),
            None => unreachable!(),
        }
    }
}
