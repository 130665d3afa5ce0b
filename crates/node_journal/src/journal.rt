//! The journal.
ghost use Rattle.std.specs.Prelude.{◌≡◌, ◌≤◌, ◌-◌, length, take, true, is_ok, slice_index, vec_capacity, IfOk};
ghost use Rattle.commit_log.specs.OpenLog.{body_len_of, limit_of as log_limit, count_of as log_count, is_usable as log_usable};
ghost use Rattle.node_journal.specs.FrameBytes.{IsEpoch};
ghost use Rattle.node_journal.specs.JournalState.{with_frame};
ghost use Rattle.node_journal.specs.declared.frame.TheConstants.{MOST_FRAMES};

use crate::epochs::Epochs;
use crate::faults::{AppendFault, DiskFault, JournalFault, ReadFault, refusal};
use crate::frame::{frame_block, frame_of};
use crate::head::first_block;
use ali_base::{NoMemory, NodeName};
use commit_log::Log;
use crash_disk::{Disk, Failed};
use office_entry::Entry;
use std::alloc::Global;

// How many bytes are read at a time while a journal is opened: 64 blocks.
const PIECE: usize = 40_960;

/// The journal of a node on its disk.
#[derive(Drop)]
pub struct Journal<D> {
    log: Log<D, Epochs>,
    name: NodeName,
    epochs: Epochs,
    ghost body_len: { body_len_of log ≡ 639 },
    ghost few: { log_limit log ≤ MOST_FRAMES },
    ghost room: { log_limit log ≤ vec_capacity epochs.items },
    ghost within: { length epochs.items.items ≤ log_limit log },
    ghost known: { log_usable log ≡ true → length epochs.items.items ≡ log_count log },
}

impl<D: Disk + Drop> Journal<D> {
    ghost use Rattle.node_journal.specs.OpenJournal.{Becomes, CrashesBetween, OpenAnswers, ReopenAnswers, IsUntouched, IsFixed, AppendAnswers, CloseAnswers, ReadAnswers, disk_of, name_of, limit_of, epochs_of, count_of, is_usable};

    /// Opens the journal of a node, of at most `limit` frames. It syncs the disk, and changes no byte.
    pub fn open(
        alloc: Global,
        disk: D,
        name: NodeName,
        limit: u32,
    ) -> Result<Journal<D>, (D, JournalFault)>
        requires { limit ≤ MOST_FRAMES }
        ensures { OpenAnswers D.state disk name limit result }
    {
        let mut epochs = match Epochs::new(alloc, limit) {
            Ok(epochs) => epochs,
            Err(NoMemory) => return Err((disk, JournalFault::NoMemory)),
        };
        let block = first_block(name);
        let mut piece = [0; PIECE];
        match Log::open(disk, &block[..639], limit, &mut piece, &mut epochs) {
            Ok(log) => Ok(Journal { log, name, epochs }),
            Err((disk, fault)) => Err((disk, refusal(fault))),
        }
    }

    /// Opens the journal again, as it is. Where it is refused, the journal is not usable. It takes no memory.
    pub fn reopen(&mut self) -> Result<(), JournalFault>
        ensures answer { ReopenAnswers D.state self.old self.new result }
        ensures usable { is_usable self.new ≡ is_ok result }
        ensures fixed { IsFixed D.state self.old self.new }
    {
        let block = first_block(self.name);
        let mut piece = [0; PIECE];
        self.epochs.truncate(0);
        match self.log.reopen(&block[..639], &mut piece, &mut self.epochs) {
            Ok(()) => Ok(()),
            Err(fault) => {
                self.epochs.truncate(0);
                Err(refusal(fault))
            }
        }
    }

    /// Gives the disk back.
    pub fn close(self) -> D
        ensures { result ≡ disk_of self }
    {
        self.log.close()
    }

    /// False once an append, a cut or an opening again was refused by the disk, until the journal is opened again.
    pub fn usable(&self) -> bool
        ensures { result ≡ is_usable self.now }
    {
        self.log.usable()
    }

    /// How many frames it has.
    pub fn len(&self) -> u32
        ensures { result ≡ count_of self.now }
    {
        self.epochs.len() as u32
    }

    /// The epoch of a frame.
    pub fn epoch(&self, k: u32) -> u32
        requires { (1 ≤ k) × (k ≤ count_of self.now) }
        ensures { result ≡ slice_index (epochs_of self.now) (k - 1) }
    {
        self.epochs.get(k)
    }

    /// Adds an entry as a frame with this epoch, and answers its number. From `Ok` on, each crash
    /// leaves a disk that has it.
    pub fn append(&mut self, entry: &Entry, epoch: u32) -> Result<u32, AppendFault>
        requires usable { is_usable self.old ≡ true }
        requires epoch { IsEpoch epoch }
        ensures stored { Becomes D.state (with_frame entry.now epoch) self.old self.new result }
        // A crash at any moment leaves the frames from before, with the new one or without.
        ensures moments { CrashesBetween D.state (with_frame entry.now epoch) self.old self.new }
        ensures answer { AppendAnswers D.state self.old self.new epoch result }
        ensures fixed { IsFixed D.state self.old self.new }
    {
        let mut block = frame_block(self.log.len() + 1, epoch, entry);
        match self.log.append(&mut block) {
            Ok(number) => {
                self.epochs.push(epoch);
                Ok(number)
            }
            Err(commit_log::AppendFault::Full(limit)) => Err(AppendFault::Full(limit)),
            Err(commit_log::AppendFault::DiskFault) => Err(AppendFault::DiskFault),
        }
    }

    /// Takes back the frames from one on. From `Ok` on, each crash leaves a disk without them.
    pub fn close_from(&mut self, k: u32) -> Result<(), DiskFault>
        requires usable { is_usable self.old ≡ true }
        requires number { (1 ≤ k) × (k ≤ count_of self.old) }
        ensures closed { Becomes D.state (take (k - 1)) self.old self.new result }
        // A crash at any moment leaves the frames from before, with those from k on or without.
        ensures moments { CrashesBetween D.state (take (k - 1)) self.old self.new }
        ensures answer { CloseAnswers D.state self.old self.new k result }
        ensures fixed { IsFixed D.state self.old self.new }
    {
        match self.log.cut_from(k) {
            Ok(()) => {
                self.epochs.truncate(k as usize - 1);
                Ok(())
            }
            Err(Failed) => Err(DiskFault),
        }
    }

    /// Reads the entry of a frame. It changes no byte.
    pub fn read(&mut self, k: u32) -> Result<Entry, ReadFault>
        requires usable { is_usable self.old ≡ true }
        requires number { (1 ≤ k) × (k ≤ count_of self.old) }
        ensures answer { ReadAnswers D.state self.old self.new k result }
        ensures epoch { IfOk result (λ entry. IsEpoch (slice_index (epochs_of self.old) (k - 1))) }
        ensures untouched { IsUntouched D.state self.old self.new }
    {
        let mut body = [0; 639];
        match self.log.read(k, &mut body) {
            Ok(()) => {}
            Err(commit_log::ReadFault::DiskFault) => return Err(ReadFault::DiskFault),
            Err(commit_log::ReadFault::Changed(frame)) => return Err(ReadFault::Changed(frame)),
        }
        match frame_of(k, &body) {
            Some((entry, epoch)) => {
                if epoch != self.epochs.get(k) {
                    return Err(ReadFault::Changed(k));
                }
                Ok(entry)
            }
            None => Err(ReadFault::Changed(k)),
        }
    }
}
