//! Laws of catching up, for whoever reads the definitions.
ghost use Rattle.std.specs.Prelude.{◌≡◌, ℕ, length};
ghost use Rattle.office_entry.specs.declared.entry.Entry.{Entry};
ghost use Rattle.office_state.specs.declared.limits.Limits.{Limits};
ghost use Rattle.pair_world.specs.Frames.{Begins};
ghost use Rattle.pair_world.specs.Step.{Bounds};
ghost use Rattle.pair_world.specs.World.{World, holder_journal};
ghost use Rattle.world_rows.specs.Counts.{Counts};
ghost use Rattle.world_rows.specs.Histories.{IsLawful};
ghost use Rattle.world_rows.specs.Told.{Told, Have_end};
ghost use Rattle.catch_up.specs.CatchingUp.{CatchesUp, IsInStep, IsOnTheWay};

/// Catching up leads from a lawful world to a lawful one, and books nothing, whatever is told in the
/// end. Where the end is told, the other node has caught up. Each world on the way is lawful, and
/// loses nothing that was booked.
pub fn catching_up_keeps_worlds_lawful()
    ensures lawful { (limits : Limits) (bounds : Bounds) (before now : Counts) (w v : World Entry)
        (last : Told)
        → IsLawful limits bounds w → CatchesUp limits before now w last v
        → IsLawful limits bounds v }
    ensures booked { (limits : Limits) (bounds : Bounds) (before now : Counts) (w v : World Entry)
        (last : Told)
        → IsLawful limits bounds w → CatchesUp limits before now w last v
        → v.base.booked ≡ w.base.booked }
    ensures in_step { (limits : Limits) (bounds : Bounds) (before now : Counts)
        (w v : World Entry) (number made : ℕ)
        → IsLawful limits bounds w → CatchesUp limits before now w (Have_end number made) v
        → IsInStep v (length (holder_journal v.base)) }
    ensures on_the_way { (limits : Limits) (bounds : Bounds) (before now : Counts)
        (w v : World Entry)
        → IsLawful limits bounds w → IsOnTheWay limits bounds before now w v
        → IsLawful limits bounds v × Begins v.base.booked w.base.booked }
{}
