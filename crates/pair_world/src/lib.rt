//! The replicated world of two nodes, and its invariant over every schedule, on definitions alone.
//!
//! The definitions stand in `specs/`, and docs/WORLD.md tells them in plain words. The functions below do
//! nothing: the contract of each states laws over the definitions.
#![tactic(auto)]

mod calls;
mod laws;
mod needed;
mod rows;
mod worked;

pub use calls::{
    deliveries_are_the_receivers, duties_are_one_list, moments_are_halts, passing_on_is_a_course,
};
pub use laws::{
    Entries, crashes_lose_nothing, faults_come_from_steps, history_only_grows, limits_hold,
    refusals_change_nothing, sound_worlds_are_legal, terms_have_no_gaps, worlds_stay_sound,
};
pub use needed::{
    acknowledged_is_needed, agreement_follows, booked_is_needed, current_is_needed,
    floored_is_needed, following_is_needed, in_time_is_needed, known_is_needed, mirrored_is_needed,
    one_journal_of_takers_is_needed, unrecovered_parts_are_needed,
};
pub use rows::{refusals_are_one, rows_are_exact};
pub use worked::{
    bookings_wait_for_both, failed_takeovers_may_last, old_shipments_are_stale,
    takeovers_book_what_is_stored, uncommitted_suffixes_are_cut,
};
