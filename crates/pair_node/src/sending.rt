//! A node tells another what its journal has.
ghost use Rattle.std.specs.Prelude.{◌≡◌, ◌≤◌, ◌<◌, ◌+◌, ◌-◌, true, slice_index, IfOk};
ghost use Rattle.node_journal.specs.OpenJournal as journals;

use crate::message::{Message, What};
use crate::node::Node;
use crash_disk::Disk;
use node_journal::ReadFault;

impl<D: Disk + Drop> Node<D> {
    ghost use Rattle.pair_node.specs.NodeState.{journal_of, count_of, is_usable, known_of};
    ghost use Rattle.pair_node.specs.Messages.{MessageAnswers, IsRead};
    ghost use Rattle.pair_node.specs.StoredMessage.{FitsIn};

    /// Message k of this epoch: frame k of its journal, or the end behind the last.
    pub fn message(&mut self, k: u32, epoch: u32) -> Result<Message, ReadFault>
        requires usable { is_usable self.old ≡ true }
        requires number { (1 ≤ k) × (k ≤ count_of self.old + 1) }
        ensures answer { MessageAnswers D.state self.old self.new k epoch result }
        ensures fits { IfOk result (λ m. FitsIn (journals.limit_of (journal_of self.old)) k m.what) }
        ensures read { IsRead D.state self.old self.new }
    {
        let before = self.epoch_before(k);
        if self.len() < k {
            return Ok(Message {
                epoch,
                number: k,
                before,
                what: What::End,
            });
        }
        let own = self.journal.epoch(k);
        match self.journal.read(k) {
            Ok(entry) => Ok(Message {
                epoch,
                number: k,
                before,
                what: What::Entry(own, entry),
            }),
            Err(ReadFault::DiskFault) => {
                self.usable = false;
                Err(ReadFault::DiskFault)
            }
            Err(ReadFault::Changed(frame)) => Err(ReadFault::Changed(frame)),
        }
    }

    // The epoch of the frame before frame k, 0 where there is none.
    fn epoch_before(&self, k: u32) -> u32
        requires { (1 ≤ k) × (k ≤ count_of self.now + 1) }
        ensures first { k ≡ 1 → result ≡ 0 }
        ensures later { 1 < k → result ≡ slice_index (journals.epochs_of (journal_of self.now)) (k - 1 - 1) }
    {
        if k == 1 { 0 } else { self.journal.epoch(k - 1) }
    }
}
