//! A node: its journal, and the table of the entries that it has learned.
ghost use Rattle.std.specs.Prelude.{◌≡◌, ◌≤◌, true};
ghost use Rattle.node_journal.specs.FrameBytes.{IsEpoch};
ghost use Rattle.node_journal.specs.JournalState.{with_frame};
ghost use Rattle.node_journal.specs.OpenJournal as journals;
ghost use Rattle.node_journal.specs.declared.frame.TheConstants.{MOST_FRAMES};

use crate::faults::{StartFault, refusal};
use ali_base::{NoMemory, NodeName};
use crash_disk::Disk;
use node_journal::{AppendFault, Journal};
use office_entry::Entry;
use office_state::{Limits, Office};
use std::alloc::Global;

/// A node that is up.
#[derive(Drop)]
pub struct Node<D> {
    pub(crate) journal: Journal<D>,
    pub(crate) office: Office,
    pub(crate) learned: u32,
    pub(crate) known: u32,
    pub(crate) usable: bool,
    ghost few: { journals.limit_of journal ≤ MOST_FRAMES },
    ghost within: { journals.count_of journal ≤ journals.limit_of journal },
    ghost behind: { learned ≤ journals.count_of journal },
    ghost entries: { office.entries ≡ learned },
    ghost opened: { usable ≡ true → journals.is_usable journal ≡ true },
}

impl<D: Disk + Drop> Node<D> {
    ghost use Rattle.pair_node.specs.NodeState.{disk_of, count_of, office_of, learned_of, known_of, is_usable};
    ghost use Rattle.pair_node.specs.StartedNode.{Asked, StartAnswers};
    ghost use Rattle.pair_node.specs.WrittenFrame.{Becomes, CrashesBetween, IsFixed, WriteAnswers};

    /// Starts a node whose journal has at least `need` frames and at most `limit`. It syncs the
    /// disk, and changes no byte. The node knows this epoch, and has learned nothing.
    pub fn start(
        alloc: Global,
        disk: D,
        name: NodeName,
        known: u32,
        need: u32,
        limits: Limits,
        limit: u32,
    ) -> Result<Node<D>, (D, StartFault)>
        requires { limit ≤ MOST_FRAMES }
        ensures { let asked : Asked = record {
          name = name;
          known = known;
          need = need;
          limits = limits;
          limit = limit;
        } in
            StartAnswers D.state disk asked result }
    {
        let office = match Office::new(alloc, limits) {
            Ok(office) => office,
            Err(NoMemory) => return Err((disk, StartFault::NoMemory)),
        };
        let journal = match Journal::open(alloc, disk, name, limit) {
            Ok(journal) => journal,
            Err((disk, fault)) => return Err((disk, refusal(fault))),
        };
        let have = journal.len();
        if have < need {
            return Err((journal.close(), StartFault::Short { have, need }));
        }
        Ok(Node {
            journal,
            office,
            learned: 0,
            known,
            usable: true,
        })
    }

    /// Gives the disk back.
    pub fn close(self) -> D
        ensures { result ≡ disk_of self }
    {
        self.journal.close()
    }

    /// False once it was stopped or a call was refused by its disk, until it starts again.
    pub fn usable(&self) -> bool
        ensures { result ≡ is_usable self.now }
    {
        self.usable
    }

    /// How many frames its journal has.
    pub fn len(&self) -> u32
        ensures { result ≡ count_of self.now }
    {
        self.journal.len()
    }

    /// The latest epoch that it knows.
    pub fn known(&self) -> u32
        ensures { result ≡ known_of self.now }
    {
        self.known
    }

    /// How many entries of its journal it has learned.
    pub fn learned(&self) -> u32
        ensures { result ≡ learned_of self.now }
    {
        self.learned
    }

    /// The table of the entries that it has learned.
    pub fn office(&self) -> &Office
        ensures { result.now ≡ office_of self.now }
    {
        &self.office
    }

    /// Writes an entry of this epoch at the end of its journal, and answers the number of its frame.
    pub fn write(&mut self, e: &Entry, epoch: u32) -> Result<u32, AppendFault>
        requires usable { is_usable self.old ≡ true }
        requires epoch { IsEpoch epoch }
        ensures stored { Becomes D.state (with_frame e.now epoch) self.old self.new result }
        // A crash at any moment leaves the frames from before, with the new one or without.
        ensures moments { CrashesBetween D.state (with_frame e.now epoch) self.old self.new }
        ensures answer { WriteAnswers D.state self.old self.new epoch result }
        ensures fixed { IsFixed D.state self.old self.new }
    {
        match self.journal.append(e, epoch) {
            Ok(number) => Ok(number),
            Err(AppendFault::Full(limit)) => Err(AppendFault::Full(limit)),
            Err(AppendFault::DiskFault) => {
                self.usable = false;
                Err(AppendFault::DiskFault)
            }
        }
    }
}
