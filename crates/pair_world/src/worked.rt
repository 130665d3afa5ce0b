//! Worked schedules, as runs of the definitions.
ghost use Rattle.std.specs.Prelude.{[], ◌∷◌};
ghost use Rattle.pair_world.specs.World.{formatted, without_doubt};
ghost use Rattle.pair_world.specs.Step.{Write, Deliver, Book, Pair_up, Go_alone, Runs};
ghost use Rattle.pair_world.specs.WorkedSchedules.{office_bounds, IsNotDone, old_shipment, after_old_shipment, deposed_holder, after_deposed_holder, suffix_cut, after_suffix_cut, stored_then_taken, after_stored_then_taken, written_in_both, after_written_in_both, booked_alone, after_booked_alone, paired_again, after_paired_again, failed_takeover, after_failed_takeover};

use crate::laws::Entries;

/// An old shipment is refused after two takeovers.
pub fn old_shipments_are_stale<L: Entries>()
    ensures old_shipment { (entry : L.Entry) → L.due [] entry
        → Runs L.due L.form office_bounds (without_doubt formatted) (old_shipment entry)
        (after_old_shipment entry) }
    ensures stale { (entry : L.Entry)
        → IsNotDone {Q = L.Request} L.due (after_old_shipment entry) (Deliver 1) }
{}

/// What a deposed holder wrote and never booked is cut when it catches up.
pub fn uncommitted_suffixes_are_cut<L: Entries>()
    ensures deposed_holder { (entry : L.Entry) → L.due [] entry
        → Runs L.due L.form office_bounds (without_doubt formatted) (deposed_holder entry)
        (after_deposed_holder entry) }
    ensures suffix_cut { (entry : L.Entry)
        → Runs L.due L.form office_bounds (after_deposed_holder entry) suffix_cut after_suffix_cut }
{}

/// A takeover books what the taker had stored.
pub fn takeovers_book_what_is_stored<L: Entries>()
    ensures { (first second third fourth : L.Entry)
        → L.due [] first → L.due (first ∷ []) second → L.due (first ∷ second ∷ []) third
        → L.due (first ∷ second ∷ third ∷ []) fourth
        → Runs L.due L.form office_bounds (without_doubt formatted)
        (stored_then_taken first second third fourth)
        (after_stored_then_taken first second third fourth) }
{}

/// A frame is booked once both nodes have it, or its holder alone; and a pair is made again.
pub fn bookings_wait_for_both<L: Entries>()
    ensures written_in_both { (entry : L.Entry) → L.due [] entry
        → Runs L.due L.form office_bounds (without_doubt formatted) (written_in_both entry)
        (after_written_in_both entry) }
    ensures one_pending { (entry next : L.Entry)
        → IsNotDone {Q = L.Request} L.due (after_written_in_both entry) (Write next) }
    ensures not_stored { (entry : L.Entry)
        → IsNotDone {Q = L.Request} L.due (after_written_in_both entry) Book }
    ensures booked_alone { (entry : L.Entry)
        → Runs L.due L.form office_bounds (after_written_in_both entry) booked_alone
        (after_booked_alone entry) }
    ensures nothing_pending { (entry : L.Entry)
        → IsNotDone {Q = L.Request} L.due (after_booked_alone entry) Book }
    ensures not_in_step { (entry : L.Entry)
        → IsNotDone {Q = L.Request} L.due (after_booked_alone entry) Pair_up }
    ensures paired_again { (entry : L.Entry)
        → Runs L.due L.form office_bounds (after_booked_alone entry) paired_again
        (after_paired_again entry) }
    ensures alone_already { (entry : L.Entry)
        → IsNotDone {Q = L.Request} L.due (after_paired_again entry) Go_alone }
{}

/// A takeover in which the register fails: the change is lost, or it has lasted.
pub fn failed_takeovers_may_last<L: Entries>()
    ensures change_lost { Runs L.due L.form office_bounds (without_doubt formatted) failed_takeover
        (without_doubt formatted) }
    ensures change_lasted { Runs L.due L.form office_bounds
        (without_doubt formatted) failed_takeover after_failed_takeover }
{}
