//! What was read last, and is to be booked.
ghost use Rattle.std.specs.Prelude.{◌≡◌, Some, None, MatchResult};
ghost use Rattle.sha2.specs.Sha256.{sha256};
ghost use Rattle.batch_frame.specs.FrameFault.{frame_fault, file_of, IsRead};
ghost use Rattle.batch_frame.specs.Told.{frame_of};

use ali_base::{Editor, Serial};
use batch_frame::{FileFrame, FileView, FrameFault, read_file};
use office_entry::Edit;
use sequence_once::digest;
use std::marker::Model;

/// What was read last, and is to be booked.
#[derive(Drop)]
pub enum Job {
    /// A carrier's file.
    File(FileJob),
    /// An editor's edit of the street guide.
    Edit {
        editor: Editor,
        serial: Serial,
        edit: Edit,
    },
}

/// A carrier's file without a fault of its frame, what it told, and its digest. The frame is read
/// and the digest is taken once.
#[derive(Drop)]
pub struct FileJob {
    bytes: Vec<u8>,
    frame: FileFrame,
    digest: [u8; 32],
}

impl Model for FileJob {
    ghost use Rattle.std.specs.Prelude.{◌≡◌, ℕ, List, None};
    ghost use Rattle.sha2.specs.Sha256.{sha256};
    ghost use Rattle.batch_frame.specs.FrameFault.{frame_fault, file_of};
    ghost use Rattle.batch_frame.specs.Told.{frame_of};

    ghost Value = { List ℕ };

    ghost view = { λ j. j.bytes.items };

    ghost invariant = { λ j. (frame_fault j.bytes.items ≡ None)
        × (j.frame ≡ frame_of (file_of j.bytes.items))
        × (j.digest ≡ sha256 j.bytes.items) };
}

impl FileJob {
    /// The job of a file's bytes. Takes no memory.
    ///
    /// # Errors
    ///
    /// The first fault of the file's frame, with the bytes as they were.
    pub fn new(bytes: Vec<u8>) -> Result<FileJob, (Vec<u8>, FrameFault)>
        ensures { MatchResult result
            (λ job. (job ≡ bytes.items) × (frame_fault bytes.items ≡ None))
            (λ refused. (refused.0 ≡ bytes) × (frame_fault bytes.items ≡ Some refused.1)) }
    {
        let frame = match read_file(&bytes) {
            Ok(file) => file.frame(),
            Err(fault) => return Err((bytes, fault)),
        };
        let digest = digest(&bytes);
        Ok(FileJob::of_file(bytes, frame, digest))
    }

    /// The file's bytes.
    pub fn bytes(&self) -> &[u8]
        ensures same { result.now ≡ self.now }
        ensures framed { frame_fault result.now ≡ None }
    {
        &self.bytes
    }

    /// The SHA-256 of the file's bytes.
    pub fn digest(&self) -> &[u8; 32]
        ensures { result.now ≡ sha256 self.now }
    {
        &self.digest
    }

    /// The job of a file's bytes that were read, with what they told and their digest.
    pub(crate) fn of_file(bytes: Vec<u8>, frame: FileFrame, digest: [u8; 32]) -> FileJob
        requires framed { frame_fault bytes.items ≡ None }
        requires told { frame ≡ frame_of (file_of bytes.items) }
        requires digest { digest ≡ sha256 bytes.items }
        ensures { result ≡ bytes.items }
    {
        FileJob {
            bytes,
            frame,
            digest,
        }
    }

    /// The parts of the file.
    pub(crate) fn file(&self) -> FileView<'_>
        ensures value { result ≡ file_of self.now }
        ensures read { IsRead self.now result }
    {
        FileView::again(&self.bytes, self.frame)
    }
}
