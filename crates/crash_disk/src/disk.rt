//! A disk as its users see it.

/// The disk failed, and its count of faults rose.
#[derive(Clone, Copy, Debug, PartialEq, Eq)]
pub struct Failed;

/// A file of bytes that a crash may tear. Until a sync succeeds, each range written since the last
/// one, and all past the end of then, may hold any bytes after a crash; all else stays. After a
/// successful sync a crash leaves what a read gives.
pub trait Disk {
    ghost use Rattle.std.specs.Prelude.{◌≤◌, length, IfOk};
    ghost use Rattle.crash_disk.specs.DiskState.{DiskState, IsSound};
    ghost use Rattle.crash_disk.specs.CrashOutcomes.{Stays, Writes, TellsLength, Reads, Writing, Syncing, HasCause};

    /// What a read gives, what a crash may leave, now or since a moment, and the count of faults.
    ghost state: { Self → DiskState };

    /// How many bytes there are.
    fn len(&mut self) -> Result<u64, Failed>
        ensures len { TellsLength (state self.old) result }
        ensures stays { Stays (state self.old) (state self.new) }
        ensures cause { HasCause (state self.old) (state self.new) result };

    /// Reads the bytes from a place on into the front of the buffer, as many as it has room for or
    /// as there are, and answers how many.
    fn read_at(&mut self, at: u64, buf: &mut [u8]) -> Result<usize, Failed>
        ensures within { IfOk result (λ n. n ≤ length buf.new) }
        ensures bytes { Reads at (state self.old) buf.new result }
        ensures stays { Stays (state self.old) (state self.new) }
        ensures cause { HasCause (state self.old) (state self.new) result };

    /// Writes over what is there, and past the end. Where it fails, its range and all past the old
    /// end may read as any bytes.
    fn write_at(&mut self, at: u64, bytes: &[u8]) -> Result<(), Failed>
        ensures written { Writing at bytes.now (state self.old) (state self.new) result }
        ensures writes { Writes at (length bytes.now) (state self.old) (state self.new) }
        ensures cause { HasCause (state self.old) (state self.new) result };

    /// From its success on a crash leaves what a read gives. It changes nothing of what a read
    /// gives, whatever it answers.
    fn sync(&mut self) -> Result<(), Failed>
        ensures durable { Syncing (state self.old) (state self.new) result }
        ensures stays { Stays (state self.old) (state self.new) }
        ensures cause { HasCause (state self.old) (state self.new) result };

    /// What the state says holds together.
    ghost sound: { (disk : Self) → IsSound (state disk) };
}
