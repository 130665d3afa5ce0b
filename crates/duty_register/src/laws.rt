//! Laws on images, bodies and duties, for whoever reads the definitions.
ghost use Rattle.std.specs.Prelude.{◌≡◌, ◌≤◌, ◌+◌, ◌⊎◌, List, ℕ, Some, true};
ghost use Rattle.ali_base.specs.Fronts.{AreBytes};
ghost use Rattle.ali_base.specs.declared.duty.Duty.{Duty};
ghost use Rattle.crash_disk.specs.Moments.{EachMoment};
ghost use Rattle.duty_register.specs.DutyBytes.{IsDuty, IsSomeBody, body, is_body};
ghost use Rattle.duty_register.specs.DutyImage.{StandsFor, StandsForSome, IsForeign, IsDamaged, IsDamagedSomewhere};
ghost use Rattle.duty_register.specs.DutyState.{StandsForEither};
ghost use Rattle.duty_register.specs.OpenRegister.{IsOpened, Represents};
ghost use Rattle.duty_register.specs.declared.register.Register.{Register};
ghost use Rattle.pair_world.specs.SoundWorld.{AreCounted};
ghost use Rattle.pair_world.specs.World.{duty_list};
ghost use Rattle.duty_register.specs.declared.register.TheConstants.{LAST_EPOCH};

use crate::last_duty::LastDuty;
use crash_disk::Disk;

/// Bytes are read as the body of a frame exactly where they are the body of one duty, and of it alone.
pub fn duties_are_read_as_written()
    ensures back { (k : ℕ) (duty : Duty) →
        IsDuty duty → duty.epoch ≡ k + 1 → is_body k (body duty) ≡ true }
    ensures only { (k : ℕ) (bytes : List ℕ) → AreBytes bytes →
        is_body k bytes ≡ true → IsSomeBody k bytes }
    ensures one { (duty other : Duty) →
        IsDuty duty → IsDuty other → body duty ≡ body other → duty ≡ other }
{}

/// The duties of an image are counted as those of the two nodes' world are.
pub fn duties_are_counted()
    ensures { (image : List ℕ) (duties : List Duty) → StandsFor duties image →
        (duty : Duty) × (past : List Duty) × (duties ≡ duty_list duty past) × AreCounted duty past }
{}

/// An image stands for one list of duties alone.
pub fn duties_are_known_from_the_image()
    ensures { (image : List ℕ) (duties others : List Duty) →
        StandsFor duties image → StandsFor others image → duties ≡ others }
{
    commit_log::bodies_are_known_from_the_image::<LastDuty>();
}

/// Each image is exactly one of these: foreign, damaged at one frame, or standing for duties whose
/// epochs are at most the last one.
pub fn an_image_is_read_one_way()
    ensures some { (image : List ℕ) (last_epoch : ℕ) → 1 ≤ last_epoch → AreBytes image →
        IsForeign image ⊎ IsDamagedSomewhere last_epoch image ⊎ StandsForSome last_epoch image }
    ensures not_foreign { (image : List ℕ) (duties : List Duty) →
        StandsFor duties image → IsForeign image → ⊥ }
    ensures not_both { (image : List ℕ) (last_epoch : ℕ) →
        IsForeign image → IsDamagedSomewhere last_epoch image → ⊥ }
    ensures not_damaged { (image : List ℕ) (last_epoch : ℕ) →
        StandsForSome last_epoch image → IsDamagedSomewhere last_epoch image → ⊥ }
    ensures one_damage { (image : List ℕ) (last_epoch j k : ℕ) →
        IsDamaged last_epoch j image → IsDamaged last_epoch k image → j ≡ k }
{
    commit_log::an_image_is_read_one_way::<LastDuty>();
}

/// A register that is opened after a change of duty, done or failed, has the duties from before or
/// from after, where the disk tells its bytes.
pub fn a_change_is_found_again<D: Disk>()
    ensures { (old new : D) (last_epoch : ℕ) (register : Register D)
        (before after duties : List Duty) (image : List ℕ) →
        EachMoment (D.state old) (D.state new) (StandsForEither before after) →
        (D.state new).content ≡ Some image →
        IsOpened D.state new last_epoch register → Represents D.state register duties →
        (duties ≡ before) ⊎ (duties ≡ after) }
{
    duties_are_known_from_the_image();
}

/// Epochs are at most 4,194,303.
pub fn limit_of_epochs()
    ensures { LAST_EPOCH ≡ 4_194_303 }
{}
