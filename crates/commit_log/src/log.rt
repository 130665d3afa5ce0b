//! The log.
ghost use Rattle.std.specs.Prelude.{◌≡◌, ◌≤◌, ◌<◌, ◌+◌, ◌-◌, ◌^◌, [], length, take, true, is_ok};
ghost use Rattle.commit_log.specs.LogState.{with_body, body_of};

use crate::blocks::{UNCOMMITTED, place_of_commit, place_of_frame};
use crate::body_reader::BodyReader;
use crate::durable::write_durably;
use crate::opening::{OpenFault, read_log};
use crate::writing::write_frame;
use crash_disk::{Disk, Failed};
use std::marker::PhantomData;

/// Why an append was refused.
#[derive(Clone, Copy, Debug, PartialEq, Eq)]
pub enum AppendFault {
    /// The log has as many frames as it may, which is the limit.
    Full(u32),
    /// The disk failed. The log is opened again.
    DiskFault,
}

/// Why a body was not read.
#[derive(Clone, Copy, Debug, PartialEq, Eq)]
pub enum ReadFault {
    /// The disk failed.
    DiskFault,
    /// The bytes on the disk are no longer those of this frame.
    Changed(u32),
}

/// The frames on a disk. What their bodies are is told by `R`.
#[derive(Drop)]
pub struct Log<D, R> {
    disk: D,
    body_len: u32,
    limit: u32,
    count: u32,
    usable: bool,
    bodies: PhantomData<R>,
    ghost within: { count ≤ limit },
    ghost short: { body_len < 2 ^ 32 },
    ghost few: { limit + 1 < 2 ^ 32 },
}

impl<D: Disk + Drop, R: BodyReader> Log<D, R> {
    ghost use Rattle.commit_log.specs.OpenLog.{OpenAnswers, ReopenAnswers};
    ghost use Rattle.commit_log.specs.OpenLog.{AppendAnswers, CutAnswers, ReadAnswers};
    ghost use Rattle.commit_log.specs.OpenLog.{Becomes, CrashesBetween, IsUntouched, IsFixed};
    ghost use Rattle.commit_log.specs.OpenLog.{disk_of, body_len_of, limit_of, count_of, is_usable};

    /// Opens the log on a disk that begins with the head and a commit byte, of at most `limit`
    /// frames. It changes no byte. It reads through the buffer, in few calls where that has room for
    /// many blocks, and the reader reads each body.
    pub fn open(
        disk: D,
        head: &[u8],
        limit: u32,
        buffer: &mut [u8],
        reader: &mut R,
    ) -> Result<Log<D, R>, (D, OpenFault)>
        requires head { length head.now < 2 ^ 32 }
        requires limit { limit + 1 < 2 ^ 32 }
        requires buffer { length head.now < length buffer.old }
        requires reader { (limit ≤ R.room reader.old) × R.holds reader.old [] }
        ensures answer { OpenAnswers R.is_body D.state (R.holds reader.new)
            head.now limit disk result }
        ensures capacity { R.capacity reader.new ≡ R.capacity reader.old }
    {
        let mut disk = disk;
        match read_log(&mut disk, head, limit, buffer, reader) {
            Ok(count) => Ok(Log {
                disk,
                body_len: head.len() as u32,
                limit,
                count,
                usable: true,
                bodies: PhantomData,
            }),
            Err(fault) => Err((disk, fault)),
        }
    }

    /// Opens the log again, as it is. Where it is refused, the log is not usable.
    pub fn reopen(
        &mut self,
        head: &[u8],
        buffer: &mut [u8],
        reader: &mut R,
    ) -> Result<(), OpenFault>
        requires head { length head.now ≡ body_len_of self.old }
        requires buffer { length head.now < length buffer.old }
        requires reader { (limit_of self.old ≤ R.room reader.old) × R.holds reader.old [] }
        ensures answer { ReopenAnswers R.is_body D.state (R.holds reader.new) head.now
            self.old self.new result }
        ensures usable { is_usable self.new ≡ is_ok result }
        ensures capacity { R.capacity reader.new ≡ R.capacity reader.old }
        ensures fixed { IsFixed D.state self.old self.new }
    {
        match read_log(&mut self.disk, head, self.limit, buffer, reader) {
            Ok(count) => {
                self.count = count;
                self.usable = true;
                Ok(())
            }
            Err(fault) => {
                self.usable = false;
                Err(fault)
            }
        }
    }

    /// Gives the disk back.
    pub fn close(self) -> D
        ensures { result ≡ disk_of self }
    {
        self.disk
    }

    /// How many frames it has.
    pub fn len(&self) -> u32
        ensures { result ≡ count_of self.now }
    {
        self.count
    }

    /// How many bytes a body has.
    pub fn body_len(&self) -> u32
        ensures { result ≡ body_len_of self.now }
    {
        self.body_len
    }

    /// How many frames it may have.
    pub fn limit(&self) -> u32
        ensures { result ≡ limit_of self.now }
    {
        self.limit
    }

    /// False once an append or a cut failed, or the log was not opened again, until it is opened.
    pub fn usable(&self) -> bool
        ensures { result ≡ is_usable self.now }
    {
        self.usable
    }

    /// Reads the body of a frame.
    pub fn read(&mut self, k: u32, body: &mut [u8]) -> Result<(), ReadFault>
        requires usable { is_usable self.old ≡ true }
        requires number { (1 ≤ k) × (k ≤ count_of self.old) }
        requires room { length body.old ≡ body_len_of self.old }
        ensures answer { ReadAnswers R.is_body D.state self.old self.new k body.new result }
        ensures untouched { IsUntouched D.state self.old self.new }
    {
        let place = place_of_frame(self.body_len, k);
        match self.disk.read_at(place, body) {
            Ok(count) => {
                if count < body.len() {
                    return Err(ReadFault::Changed(k));
                }
                Ok(())
            }
            Err(Failed) => Err(ReadFault::DiskFault),
        }
    }

    /// Adds a frame. The block is its body, and room for the commit byte behind it. From `Ok` on,
    /// each crash leaves a disk that has it.
    pub fn append(&mut self, block: &mut [u8]) -> Result<u32, AppendFault>
        requires usable { is_usable self.old ≡ true }
        requires length { length block.old ≡ body_len_of self.old + 1 }
        requires lawful { R.is_body (count_of self.old + 1) (body_of block.old) ≡ true }
        ensures stored { Becomes R.is_body D.state (λ bodies. with_body bodies (body_of block.old))
            self.old self.new result }
        // A crash at any moment leaves the bodies from before, with the new one or without.
        ensures moments { CrashesBetween R.is_body D.state
            (λ bodies. with_body bodies (body_of block.old))
            self.old self.new }
        ensures answer { AppendAnswers D.state self.old self.new result }
        ensures fixed { IsFixed D.state self.old self.new }
    {
        if self.count >= self.limit {
            return Err(AppendFault::Full(self.limit));
        }
        let number = self.count + 1;
        match write_frame::<D, R>(&mut self.disk, self.body_len, number, block) {
            Ok(()) => {
                self.count = number;
                Ok(number)
            }
            Err(Failed) => {
                self.usable = false;
                Err(AppendFault::DiskFault)
            }
        }
    }

    /// Takes back the frames from one on. From `Ok` on, each crash leaves a disk without them.
    pub fn cut_from(&mut self, k: u32) -> Result<(), Failed>
        requires usable { is_usable self.old ≡ true }
        requires number { (1 ≤ k) × (k ≤ count_of self.old) }
        ensures cut { Becomes R.is_body D.state (take (k - 1)) self.old self.new result }
        // A crash at any moment leaves the bodies from before, with those from k on or without.
        ensures moments { CrashesBetween R.is_body D.state (take (k - 1)) self.old self.new }
        ensures answer { CutAnswers D.state self.old self.new k result }
        ensures fixed { IsFixed D.state self.old self.new }
    {
        let place = place_of_commit(self.body_len, k);
        match write_durably(&mut self.disk, place, &[UNCOMMITTED]) {
            Ok(()) => {
                self.count = k - 1;
                Ok(())
            }
            Err(Failed) => {
                self.usable = false;
                Err(Failed)
            }
        }
    }
}
