//! Laws on images and bodies, for whoever reads the definitions.
ghost use Rattle.std.specs.Prelude.{◌≡◌, ◌<◌, ◌≤◌, ◌^◌, ◌⊎◌, List, ℕ, Some, length, true};
ghost use Rattle.ali_base.specs.declared.names.NodeName.{NodeName as AnyName};
ghost use Rattle.ali_base.specs.Fronts.{AreBytes};
ghost use Rattle.office_entry.specs.declared.entry.Entry.{Entry};
ghost use Rattle.pair_world.specs.Frames.{Frame};
ghost use Rattle.node_journal.specs.FrameBytes.{IsFrame, IsSomeBody, body, is_body};
ghost use Rattle.node_journal.specs.JournalImage.{StandsFor, StandsForSome, IsForeign, IsDamaged, IsDamagedSomewhere};
ghost use Rattle.node_journal.specs.OpenJournal.{IsOpened, IsRefused, Represents, disk_of, name_of};
ghost use Rattle.node_journal.specs.declared.faults.JournalFault.{JournalFault as AnyFault};
ghost use Rattle.node_journal.specs.declared.faults.JournalFault.TheVariants.{DiskFault, NoMemory};
ghost use Rattle.node_journal.specs.declared.frame.TheConstants.{LAST_EPOCH, MOST_FRAMES};
ghost use Rattle.node_journal.specs.declared.journal.Journal.{Journal};

use crate::epochs::Epochs;
use crash_disk::Disk;

/// Bytes are read as the body of a frame exactly where they are the body of one, and of one alone.
pub fn bodies_are_read_as_written()
    ensures back { (k : ℕ) (frame : Frame Entry) →
        k < 2 ^ 32 → IsFrame frame → is_body k (body k frame) ≡ true }
    ensures only { (k : ℕ) (bytes : List ℕ) →
        AreBytes bytes → is_body k bytes ≡ true → IsSomeBody k bytes }
    ensures one { (k : ℕ) (frame other : Frame Entry) →
        IsFrame frame → IsFrame other → body k frame ≡ body k other → frame ≡ other }
{}

/// An image stands for one list of frames alone.
pub fn frames_are_known_from_the_image()
    ensures { (name : AnyName) (image : List ℕ) (frames others : List (Frame Entry)) →
        StandsFor name frames image → StandsFor name others image → frames ≡ others }
{
    commit_log::bodies_are_known_from_the_image::<Epochs>();
}

/// Each image of bytes is exactly one of these: foreign, damaged at one frame, or standing for
/// frames within the limit.
pub fn an_image_is_read_one_way()
    ensures some { (name : AnyName) (image : List ℕ) (limit : ℕ) → AreBytes image →
        IsForeign name image ⊎ IsDamagedSomewhere name limit image
        ⊎ StandsForSome name limit image }
    ensures not_foreign { (name : AnyName) (image : List ℕ) (frames : List (Frame Entry)) →
        StandsFor name frames image → IsForeign name image → ⊥ }
    ensures not_both { (name : AnyName) (image : List ℕ) (limit : ℕ) →
        IsForeign name image → IsDamagedSomewhere name limit image → ⊥ }
    ensures not_damaged { (name : AnyName) (image : List ℕ) (limit : ℕ) →
        StandsForSome name limit image → IsDamagedSomewhere name limit image → ⊥ }
    ensures one_damage { (name : AnyName) (image : List ℕ) (limit j k : ℕ) →
        IsDamaged name limit j image → IsDamaged name limit k image → j ≡ k }
{
    commit_log::an_image_is_read_one_way::<Epochs>();
}

/// The frames of a journal, as they are after each append and each cut that is done, are found
/// again behind a crash: what a crash now leaves of its disk opens as a journal of these frames. It
/// is refused only where the disk fails or memory is wanting, within the limit.
pub fn frames_are_found_after_a_crash<D: Disk>()
    ensures opened { (journal again : Journal D) (left : D) (limit : ℕ)
        (frames : List (Frame Entry)) (image : List ℕ) →
        Represents D.state journal frames →
        (D.state (disk_of journal)).may_leave image → (D.state left).content ≡ Some image →
        IsOpened D.state left (name_of journal) limit again →
        Represents D.state again frames }
    ensures refused { (journal : Journal D) (left after : D) (limit : ℕ) (fault : AnyFault)
        (frames : List (Frame Entry)) (image : List ℕ) →
        Represents D.state journal frames → length frames ≤ limit →
        (D.state (disk_of journal)).may_leave image → (D.state left).content ≡ Some image →
        IsRefused D.state left (name_of journal) limit after fault →
        (fault ≡ DiskFault) ⊎ (fault ≡ NoMemory) }
{
    frames_are_known_from_the_image();
    an_image_is_read_one_way();
}

/// Epochs are at most 4,194,303.
pub fn limit_of_epochs()
    ensures { LAST_EPOCH ≡ 4_194_303 }
{}

/// A journal has at most 1,000,000 frames.
pub fn limit_of_frames()
    ensures { MOST_FRAMES ≡ 1_000_000 }
{}
