//! A node stores what another tells it.
ghost use Rattle.std.specs.Prelude.{◌≡◌, ◌≤◌, ◌<◌, ◌-◌, ◌++◌, ◌∷◌, [], take, true, Some, is_err};
ghost use Rattle.office_entry.specs.declared.entry.Entry.{Entry as AnyEntry};
ghost use Rattle.node_journal.specs.FrameBytes.{IsEpoch};
ghost use Rattle.pair_world.specs.Frames.{Frame};
ghost use Rattle.node_journal.specs.OpenJournal.{epochs_of, limit_of};

use crate::message::{Delivered, Message, What};
use crate::node::Node;
use crash_disk::Disk;
use node_journal::DiskFault;

impl<D: Disk + Drop> Node<D> {
    ghost use Rattle.pair_node.specs.NodeState.{journal_of, count_of, is_usable, known_of};
    ghost use Rattle.pair_node.specs.Decisions.{differs, decision};
    ghost use Rattle.pair_node.specs.StoredMessage.{FitsIn, Changes, KeepsTable, StoreAnswers, after_message, answered, is_change};
    ghost use Rattle.pair_node.specs.Messages.{frame_told};

    /// Hears of an epoch that is not before the one that it knows.
    pub fn note_epoch(&mut self, epoch: u32)
        requires { known_of self.old ≤ epoch }
        ensures { self.new ≡ record self.old { known = epoch } }
    {
        self.known = epoch;
    }

    // There is a frame before the one that is told, and the journal has another one there.
    fn differs_before(&self, m: &Message) -> bool
        requires { (1 ≤ m.now.number) × (m.now.number - 1 ≤ count_of self.now) }
        ensures { result ≡ differs (epochs_of (journal_of self.now)) m.now }
    {
        let preceding = m.number - 1;
        0 < preceding && self.journal.epoch(preceding) != m.before
    }

    // What it answers where it knows no later epoch, by the table of deliveries.
    #[tactic(auto, unfolding(crate::specs::Decisions::decision))]
    fn decide(&self, m: &Message) -> Delivered
        requires { 1 ≤ m.now.number }
        ensures { result ≡ decision (epochs_of (journal_of self.now)) m.now }
    {
        let len = self.journal.len();
        if len < m.number - 1 {
            return Delivered::Behind {
                len,
                number: m.number,
            };
        }
        match &m.what {
            What::Entry(epoch, _) => {
                if m.number - 1 < len {
                    if self.journal.epoch(m.number) == *epoch {
                        Delivered::Have(m.ack(false))
                    } else {
                        Delivered::Cut(m.number)
                    }
                } else if self.differs_before(m) {
                    Delivered::Cut(m.number - 1)
                } else {
                    Delivered::Stored(m.ack(false))
                }
            }
            What::End => {
                if self.differs_before(m) {
                    Delivered::Cut(m.number - 1)
                } else if m.number - 1 < len && self.journal.epoch(m.number) < m.epoch {
                    Delivered::Cut(m.number)
                } else {
                    Delivered::HaveEnd(m.ack(true))
                }
            }
        }
    }

    // The frames from one on are cut. Where one that is learned goes, the table is empty.
    fn cut_from(&mut self, k: u32) -> Result<(), DiskFault>
        requires usable { is_usable self.old ≡ true }
        requires number { (1 ≤ k) × (k ≤ count_of self.old) }
        ensures cut { Changes D.state (take (k - 1)) self.old self.new result }
        ensures table { KeepsTable self.old self.new }
        ensures known { known_of self.new ≡ known_of self.old }
    {
        match self.journal.close_from(k) {
            Ok(()) => {
                if k - 1 < self.learned {
                    self.office.clear();
                    self.learned = 0;
                }
                Ok(())
            }
            Err(DiskFault) => {
                self.usable = false;
                Err(DiskFault)
            }
        }
    }

    // The frame that is told is written behind the others.
    fn keep(&mut self, what: &What) -> Result<(), DiskFault>
        requires usable { is_usable self.old ≡ true }
        requires room { count_of self.old < limit_of (journal_of self.old) }
        requires epoch { (f : Frame AnyEntry) → frame_told what.now ≡ Some f → IsEpoch f.epoch }
        ensures kept { (f : Frame AnyEntry) → frame_told what.now ≡ Some f
            → Changes D.state (λ frames. frames ++ f ∷ []) self.old self.new result }
        ensures table { KeepsTable self.old self.new }
        ensures known { known_of self.new ≡ known_of self.old }
    {
        match what {
            What::Entry(epoch, entry) => match self.write(entry, *epoch) {
                Ok(_) => Ok(()),
                Err(_) => Err(DiskFault),
            },
            What::End => Ok(()),
        }
    }

    // What was decided is done: at most one change of the journal.
    fn change(&mut self, decided: Delivered, m: &Message) -> Result<(), DiskFault>
        requires usable { is_usable self.old ≡ true }
        requires number { 1 ≤ m.now.number }
        requires fits { FitsIn (limit_of (journal_of self.old)) m.now.number m.now.what }
        requires decided { decided ≡ decision (epochs_of (journal_of self.old)) m.now }
        ensures changed { Changes D.state (answered m.now) self.old self.new result }
        ensures table { KeepsTable self.old self.new }
        ensures failing { is_err result ≡ true → is_change decided ≡ true }
        ensures known { known_of self.new ≡ known_of self.old }
    {
        match decided {
            Delivered::Cut(k) => self.cut_from(k),
            Delivered::Stored(_) => self.keep(&m.what),
            _ => Ok(()),
        }
    }

    /// Does with a message what the table of deliveries says, and answers it. A crash at any moment
    /// leaves the frames from before or those from after.
    pub fn store(&mut self, m: &Message) -> Result<Delivered, DiskFault>
        requires usable { is_usable self.old ≡ true }
        requires number { 1 ≤ m.now.number }
        requires fits { FitsIn (limit_of (journal_of self.old)) m.now.number m.now.what }
        ensures changed { Changes D.state (after_message self.old m.now) self.old self.new result }
        ensures table { KeepsTable self.old self.new }
        ensures answer { StoreAnswers self.old self.new m.now result }
    {
        if m.epoch < self.known {
            return Ok(Delivered::Stale {
                epoch: m.epoch,
                known: self.known,
            });
        }
        let decided = self.decide(m);
        match self.change(decided, m) {
            Ok(()) => {
                self.known = m.epoch;
                Ok(decided)
            }
            Err(DiskFault) => Err(DiskFault),
        }
    }
}
