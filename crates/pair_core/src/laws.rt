//! Laws of the pair, for whoever reads the definitions.
ghost use Rattle.std.specs.Prelude.{◌≡◌, ◌⊎◌, ℕ, List, ◌≤◌, true};
ghost use Rattle.ali_base.specs.declared.duty.Mode.TheVariants.{Both};
ghost use Rattle.ali_base.specs.declared.names.NodeName.{NodeName};
ghost use Rattle.ali_base.specs.declared.names.DiskName.TheVariants as disks;
ghost use Rattle.office_entry.specs.declared.entry.Entry.{Entry};
ghost use Rattle.office_state.specs.History.{Represents};
ghost use Rattle.office_state.specs.declared.limits.Limits.{Limits};
ghost use Rattle.pair_core.specs.Pair.{Shows, AreMoments, bounds_of, node_of, is_node_up, count_of, table_of};
ghost use Rattle.pair_core.specs.PairHalts.{IsLeft, OpensAfter};
ghost use Rattle.pair_core.specs.declared.pair.Pair.{Pair};
ghost use Rattle.pair_node.specs.NodeState.{learned_of};
ghost use Rattle.pair_world.specs.Frames.{entries};
ghost use Rattle.pair_world.specs.Step.{Bounds};
ghost use Rattle.pair_world.specs.World.{World, formatted, without_doubt};
ghost use Rattle.world_rows.specs.Histories.{IsLawful};
ghost use Rattle.world_rows.specs.WorldSteps.{OfficeEvent};

use crash_disk::Disk;

/// What each call says of its moments, disk by disk, is enough: over whatever crashes at moments of the
/// call leave of the three disks, the next run begins in a world that a halt of the call's event leaves.
pub fn crashes_are_halts<D: Disk>()
    ensures { (limits : Limits) (old new : Pair D) (w : World Entry) (event : OfficeEvent)
        (image_a image_b image_duty : List ℕ)
        → IsLawful limits (bounds_of old) w → AreMoments D.state limits old new w event
        → IsLeft D.state old new disks.A image_a → IsLeft D.state old new disks.B image_b
        → IsLeft D.state old new disks.Duty image_duty
        → OpensAfter limits (bounds_of old) w event image_a image_b image_duty }
{}

/// The world of formatted disks is lawful, within any limits that let the first epoch be.
pub fn formatted_worlds_are_lawful()
    ensures { (limits : Limits) (bounds : Bounds) → 1 ≤ bounds.last_epoch
        → IsLawful limits bounds (without_doubt (formatted {E = Entry})) }
{}

/// A table that is ready is the one after the booked history: of a node in duty which has learned as
/// many entries as are booked.
pub fn ready_tables_have_the_history<D: Disk>()
    ensures { (limits : Limits) (pair : Pair D) (w : World Entry) (n : NodeName)
        → Shows D.state limits pair w → IsLawful limits (bounds_of pair) w
        → is_node_up pair n ≡ true → (n ≡ w.base.duty.holder) ⊎ (w.base.duty.mode ≡ Both)
        → learned_of (node_of pair n) ≡ count_of pair
        → Represents limits (table_of pair n) (entries w.base.booked) }
{}
