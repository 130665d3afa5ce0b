//! What each part of the invariant is for: a world that has all the other parts, and a schedule from it that
//! books an entry which may not be booked next, makes a pair of two journals, or comes to a takeover that loses
//! what was booked.
ghost use Rattle.std.specs.Prelude.{◌≡◌, [], ◌∷◌, true};
ghost use Rattle.ali_base.specs.declared.names.NodeName.TheVariants.{A, B};
ghost use Rattle.pair_world.specs.Frames.{Legal};
ghost use Rattle.pair_world.specs.SoundWorld.{Booked, Mirrored, Following, Agreeing, In_time, Current, Acknowledged, Known, Floored, Holds, Invariant};
ghost use Rattle.pair_world.specs.World.{Resolved, Choice, unrecovered, resolved};
ghost use Rattle.pair_world.specs.Step.{Book, Take, Start_duty, WorldStep, Runs};
ghost use Rattle.pair_world.specs.Changes.{register_started};
ghost use Rattle.pair_world.specs.DoubtfulWorlds.{doubtful_taker, write_lasted, replaced_history};
ghost use Rattle.pair_world.specs.NeededParts.{HasOthers, Loses, RunsToLoss, not_due, booked_all_the_same, after_not_due, not_mirrored, young_suffix, paired_early, after_young_suffix, not_agreeing, paired_apart, after_not_agreeing, early_ack, booked_unstored, after_early_ack, not_current, stored_stray, after_stray, not_stored, after_not_stored, stored_after_start, high_floor, recovered_too_far, after_high_floor};
ghost use Rattle.pair_world.specs.WorkedSchedules.{office_bounds};
ghost use Rattle.pair_world.specs.Passing.{done};

use crate::laws::Entries;

/// Without the part `Booked`, an entry is booked that may not be booked next.
pub fn booked_is_needed<L: Entries>()
    ensures not_due { (entry : L.Entry) → HasOthers L.due Booked (not_due entry).base }
    ensures not_due_runs { (entry : L.Entry)
        → Runs L.due L.form office_bounds (not_due entry) booked_all_the_same
        (after_not_due entry) }
    ensures not_due_breaks { (entry : L.Entry) → (L.due [] entry → ⊥)
        → Legal L.due (after_not_due entry).base.booked → ⊥ }
{}

/// Without the part `Mirrored`, a takeover loses what was booked.
pub fn mirrored_is_needed<L: Entries>()
    ensures not_mirrored { (entry : L.Entry) → L.due [] entry
        → HasOthers L.due Mirrored (not_mirrored entry).base }
    ensures not_mirrored_loses { (entry : L.Entry)
        → Loses {Q = L.Request} L.due (not_mirrored entry) (Take B) }
{}

/// Without the part `Following`, a pair is made of two journals.
pub fn following_is_needed<L: Entries>()
    ensures young_suffix { (entry : L.Entry) → HasOthers L.due Following (young_suffix entry).base }
    ensures young_suffix_runs { (entry : L.Entry)
        → Runs L.due L.form office_bounds (young_suffix entry) paired_early
        (after_young_suffix entry) }
{}

/// Agreement follows from `Mirrored` and `Following`. Without it, a pair is made of two journals, and a takeover
/// loses what was booked.
pub fn agreement_follows<L: Entries>()
    ensures agreement { (w : Resolved L.Entry)
        → Holds L.due w Mirrored → Holds L.due w Following → Holds L.due w Agreeing }
    ensures not_agreeing { (one another : L.Entry) → (one ≡ another → ⊥)
        → RunsToLoss L.due L.form (not_agreeing one another) paired_apart
        (after_not_agreeing one another) (Take A) }
{}

/// Without the part `In_time`, a takeover loses what was booked.
pub fn in_time_is_needed<L: Entries>()
    ensures early_ack { HasOthers {E = L.Entry} L.due In_time early_ack.base }
    ensures early_ack_loses { (entry : L.Entry) → L.due [] entry
        → RunsToLoss L.due L.form early_ack (booked_unstored entry)
        (after_early_ack entry) (Take B) }
{}

/// Without the part `Current`, an entry is booked that may not be booked next.
pub fn current_is_needed<L: Entries>()
    ensures not_current { (first stray : L.Entry) → L.due [] first
        → HasOthers L.due Current (not_current 1 first stray).base }
    ensures not_current_runs { (first stray : L.Entry)
        → Runs L.due L.form office_bounds (not_current 1 first stray) stored_stray
        (after_stray first stray) }
    ensures stray_breaks { (first stray : L.Entry) → (L.due (first ∷ []) stray → ⊥)
        → Legal L.due (after_stray first stray).base.booked → ⊥ }
{}

/// Without the part `Acknowledged`, a takeover loses what was booked.
pub fn acknowledged_is_needed<L: Entries>()
    ensures not_stored { (entry : L.Entry) → L.due [] entry
        → HasOthers L.due Acknowledged (not_stored entry).base }
    ensures not_stored_loses { (entry : L.Entry)
        → RunsToLoss L.due L.form (not_stored entry) (done Book ∷ [])
        (after_not_stored entry) (Take B) }
{}

/// Without the part `Known`, an entry is booked that may not be booked next: what is reached here is the world of
/// `current_is_needed`.
pub fn known_is_needed<L: Entries>()
    ensures known_later { (first stray : L.Entry) → L.due [] first
        → HasOthers L.due Known (not_current 2 first stray).base }
    ensures known_later_runs { (first stray : L.Entry)
        → Runs L.due L.form office_bounds (not_current 2 first stray) stored_after_start
        (after_stray first stray) }
{}

/// Without the part `Floored`, a takeover loses what was booked.
pub fn floored_is_needed<L: Entries>()
    ensures high_floor { (entry : L.Entry) → L.due [] entry
        → HasOthers L.due Floored (high_floor entry).base }
    ensures high_floor_loses { (entry : L.Entry)
        → RunsToLoss L.due L.form (high_floor entry) recovered_too_far
        (after_high_floor entry) (Take B) }
{}

/// While the register is down, the nine parts of each resolution are not enough. Where the node of a takeover in
/// doubt may have either of two journals, a start of the register leads to a resolution without the parts.
pub fn one_journal_of_takers_is_needed<L: Entries>()
    ensures unrecovered { (one another : L.Entry) (choice : Choice)
        → Invariant L.due (unrecovered choice (doubtful_taker one another)) }
    ensures resolved { (one another : L.Entry) (choice : Choice)
        → L.due [] one → L.due [] another
        → Invariant L.due (resolved choice (doubtful_taker one another)) }
    ensures starts { (one another : L.Entry)
        → WorldStep {Q = L.Request} L.due office_bounds (doubtful_taker one another) Start_duty
        (register_started (doubtful_taker one another) true) }
    ensures breaks { (one another : L.Entry) → (one ≡ another → ⊥)
        → Invariant L.due
        (resolved write_lasted (register_started (doubtful_taker one another) true)) → ⊥ }
{}

/// Where the parts do not hold before the recovery too, a start of the register loses what was booked.
pub fn unrecovered_parts_are_needed<L: Entries>()
    ensures resolved { (booked one another : L.Entry) (choice : Choice)
        → L.due [] one → L.due (one ∷ []) another
        → Invariant L.due (resolved choice (replaced_history booked one another)) }
    ensures loses { (booked one another : L.Entry) → (booked ≡ one → ⊥)
        → Loses {Q = L.Request} L.due (replaced_history booked one another) Start_duty }
{}
