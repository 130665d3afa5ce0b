//! A disk over a file of the system.
ghost use Rattle.std.specs.Prelude.{◌≡◌, ◌≤◌, true, false, length, is_err, is_some, IfOk, IfSome, Some, None, MatchResult};
ghost use Rattle.crash_disk.specs.CrashOutcomes.{Stays, Writes, TellsLength, Reads, Writing, Syncing, HasCause};
ghost use Rattle.crash_disk.specs.FileState.{file_state, counted};

use crate::disk::{Disk, Failed};
use crate::faults::count_fault;
use std::fs::File;
use std::io;
use std::marker::Model;
use std::os::unix::fs::FileExt;

/// A file of the system under an exclusive lock, or none where it could not be opened or locked. It
/// tells nothing of its bytes.
#[derive(Drop)]
pub struct FileDisk {
    file: Option<File>,
    faults: u64,
}

impl Model for FileDisk {
    ghost use Rattle.std.specs.Prelude.{is_some};
    ghost use Rattle.crash_disk.specs.FileState.{FileState};

    ghost Value = { FileState };

    ghost view = { λ d. record { is_open = is_some d.file; faults = d.faults } };
}

impl FileDisk {
    /// The disk over what an open for reading and writing gave, which it locks. Where the open
    /// failed, or another process has the file locked, each call fails.
    pub fn new(opened: io::Result<File>) -> FileDisk
        ensures missing { is_err opened ≡ true → result.is_open ≡ false }
        ensures faults { result.faults ≡ 0 }
    {
        FileDisk {
            file: locked(opened),
            faults: 0,
        }
    }

    // Hands on an answer, and counts its fault.
    fn answer<T: Drop>(&mut self, answer: Option<T>) -> Result<T, Failed>
        ensures same { MatchResult result (λ value. answer ≡ Some value) (λ _. answer ≡ None) }
        ensures after { self.new ≡ counted self.old (is_err result) }
        ensures cause { HasCause (file_state self.old) (file_state self.new) result }
    {
        self.faults = count_fault(self.faults, answer.is_none());
        answer.ok_or(Failed)
    }
}

// The file under an exclusive lock, which ends when the file is closed.
fn locked(opened: io::Result<File>) -> Option<File>
    ensures { is_err opened ≡ true → is_some result ≡ false }
{
    let file = opened.ok()?;
    file.try_lock().ok()?;
    Some(file)
}

impl Disk for FileDisk {
    ghost use Rattle.crash_disk.specs.FileState.{file_state, file_sound};

    ghost state = { file_state };

    ghost sound = { file_sound };

    fn len(&mut self) -> Result<u64, Failed>
        ensures len { TellsLength (file_state self.old) result }
        ensures stays { Stays (file_state self.old) (file_state self.new) }
        ensures cause { HasCause (file_state self.old) (file_state self.new) result }
        ensures closed { self.old.is_open ≡ false → is_err result ≡ true }
        ensures after { self.new ≡ counted self.old (is_err result) }
    {
        let answer = match &self.file {
            Some(file) => length_of(file),
            None => None,
        };
        self.answer(answer)
    }

    fn read_at(&mut self, at: u64, buf: &mut [u8]) -> Result<usize, Failed>
        ensures within { IfOk result (λ n. n ≤ length buf.new) }
        ensures bytes { Reads at (file_state self.old) buf.new result }
        ensures stays { Stays (file_state self.old) (file_state self.new) }
        ensures cause { HasCause (file_state self.old) (file_state self.new) result }
        ensures closed { self.old.is_open ≡ false → is_err result ≡ true }
        ensures after { self.new ≡ counted self.old (is_err result) }
    {
        let answer = match &self.file {
            Some(file) => read_all(file, at, buf),
            None => None,
        };
        self.answer(answer)
    }

    fn write_at(&mut self, at: u64, bytes: &[u8]) -> Result<(), Failed>
        ensures written { Writing at bytes.now (file_state self.old) (file_state self.new) result }
        ensures writes { Writes at (length bytes.now) (file_state self.old) (file_state self.new) }
        ensures cause { HasCause (file_state self.old) (file_state self.new) result }
        ensures closed { self.old.is_open ≡ false → is_err result ≡ true }
        ensures after { self.new ≡ counted self.old (is_err result) }
    {
        let answer = match &self.file {
            Some(file) => file.write_all_at(bytes, at).ok(),
            None => None,
        };
        self.answer(answer)
    }

    fn sync(&mut self) -> Result<(), Failed>
        ensures durable { Syncing (file_state self.old) (file_state self.new) result }
        ensures stays { Stays (file_state self.old) (file_state self.new) }
        ensures cause { HasCause (file_state self.old) (file_state self.new) result }
        ensures closed { self.old.is_open ≡ false → is_err result ≡ true }
        ensures after { self.new ≡ counted self.old (is_err result) }
    {
        let answer = match &self.file {
            Some(file) => file.sync_all().ok(),
            None => None,
        };
        self.answer(answer)
    }
}

// The length of a file.
fn length_of(file: &File) -> Option<u64> {
    let metadata = file.metadata().ok()?;
    Some(metadata.len())
}

// Reads from a place on until the buffer is full or the file ends.
fn read_all(file: &File, at: u64, buf: &mut [u8]) -> Option<usize>
    ensures { IfSome result (λ n. n ≤ length buf.new) }
{
    let mut count = 0;
    while count < buf.len() {
        let place = at.checked_add(count as u64)?;
        match file.read_at(&mut buf[count..], place) {
            Ok(0) => return Some(count),
            Ok(n) => count += n,
            Err(_) => return None,
        }
    }
    Some(count)
}
