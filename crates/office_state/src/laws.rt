//! Laws of the booked history.
ghost use Rattle.std.specs.Prelude.{◌≡◌, ℕ, ◌<◌, ◌≤◌, List, [], ◌∷◌, ◌++◌, length, AllPairs, Ok, Some, None, IsSome, is_none};
ghost use Rattle.std.specs.FinMap.{get, len};
ghost use Rattle.ali_record.specs.Layout.{field_of};
ghost use Rattle.ali_record.specs.declared.field.Field.TheVariants.{TelephoneNumber};
ghost use Rattle.number_life.specs.declared.row.Row.{Row};
ghost use Rattle.number_life.specs.NumberLife.{owner};
ghost use Rattle.msag_ranges.specs.StreetGuide.{range_of};
ghost use Rattle.sequence_once.specs.KeptCycles.{codes_of, known_companies};
ghost use Rattle.sequence_once.specs.CycleStanding.{standing_of};
ghost use Rattle.sequence_once.specs.declared.standing.Standing.TheVariants.{Complete};
ghost use Rattle.msag_edits.specs.GuideSoundness.{AreSound};
ghost use Rattle.line_booking.specs.LineLaws.{IsMigrated};
ghost use Rattle.office_entry.specs.declared.entry.Entry.{Entry};
ghost use Rattle.office_entry.specs.declared.edit.Edit.{Edit as GuideEdit};
ghost use Rattle.office_entry.specs.declared.entry.Entry.TheVariants.{Line, Edit};
ghost use Rattle.office_state.specs.declared.limits.Limits.{Limits};
ghost use Rattle.office_state.specs.History.{IsLegal, Repeats, state};
ghost use Rattle.office_state.specs.OfficeState.{State};
ghost use Rattle.office_state.specs.Unlocks.{IsOwnersUnlock};
ghost use Rattle.office_state.specs.Tallies.{times_of};
ghost use Rattle.office_state.specs.Verdict.{verdict, after};

use crate::counts::CODES;
use crate::office::MOST_ENTRIES;

/// In a legal history no cycle of a company is opened twice, no line of a cycle is booked twice, and no
/// serial of an editor is used twice.
pub fn bookings_are_once()
    ensures { (limits : Limits) (history : List Entry) → IsLegal limits history
        → AllPairs (λ e f. Repeats e f → ⊥) history }
{}

/// A file that is complete stays complete, with the same codes, for as long as its cycle is kept.
pub fn finished_cycles_stay_complete()
    ensures { (limits : Limits) (history more : List Entry)
        (company : List ℕ) (cycle : ℕ) (digest : List ℕ)
        → IsLegal limits (history ++ more)
        → standing_of (state limits history).cycles company cycle digest ≡ Ok Complete
        → IsSome (codes_of company cycle (state limits (history ++ more)).cycles.kept)
        → (standing_of (state limits (history ++ more)).cycles company cycle digest ≡ Ok Complete)
        × (codes_of company cycle (state limits (history ++ more)).cycles.kept
        ≡ codes_of company cycle (state limits history).cycles.kept) }
{}

/// The company lock: a locked row stays as it is, whatever the files of other companies have.
pub fn locked_rows_are_their_owners()
    ensures { (s : State) (tn : List ℕ) (row : Row)
        (company : List ℕ) (cycle line : ℕ) (bytes : List ℕ)
        → get s.table tn ≡ Some row → row.unlocked ≡ None → (owner row ≡ company → ⊥)
        → get (after s (Line company cycle line bytes)).table tn ≡ Some row }
{}

/// A line gives a row another owner only where it is a migrate in that company's file and the row was
/// unlocked; the row is locked then.
pub fn owners_change_by_migrate()
    ensures { (limits : Limits) (history : List Entry) (tn : List ℕ) (old new : Row)
        (company : List ℕ) (cycle line : ℕ) (bytes : List ℕ)
        → IsLegal limits history → get (state limits history).table tn ≡ Some old
        → get (state limits (history ++ Line company cycle line bytes ∷ [])).table tn ≡ Some new
        → (owner new ≡ owner old → ⊥)
        → IsMigrated company bytes old new }
{}

/// In the state of a legal history guide and table are sound together.
pub fn legal_histories_are_sound()
    ensures { (limits : Limits) (history : List Entry) → IsLegal limits history
        → AreSound (state limits history).guide (state limits history).table }
{}

/// In the state of a legal history a row has its own number in its columns.
pub fn rows_have_their_numbers()
    ensures { (limits : Limits) (history : List Entry) (tn : List ℕ) (row : Row)
        → IsLegal limits history
        → get (state limits history).table tn ≡ Some row → field_of row.rec TelephoneNumber ≡ tn }
{}

/// The state of a legal history is within its limits.
pub fn limits_are_kept()
    ensures numbers { (limits : Limits) (history : List Entry) → IsLegal limits history
        → len (state limits history).table ≤ limits.numbers }
    ensures ranges { (limits : Limits) (history : List Entry) → IsLegal limits history
        → length (state limits history).guide.ranges ≤ limits.ranges }
    ensures companies { (limits : Limits) (history : List Entry) → IsLegal limits history
        → known_companies (state limits history).cycles.kept ≤ limits.companies }
{}

/// A line changes the row of its own number alone.
pub fn lines_change_one_number()
    ensures { (s : State) (company : List ℕ) (cycle line : ℕ) (bytes tn : List ℕ)
        → (tn ≡ field_of bytes TelephoneNumber → ⊥)
        → get (after s (Line company cycle line bytes)).table tn ≡ get s.table tn }
{}

/// A row gets a day of unlocking only by its owner's unlock, which keeps its record. A number that had
/// no row gets a locked one.
pub fn owners_unlock_their_rows()
    ensures day { (limits : Limits) (history : List Entry) (e : Entry) (tn : List ℕ) (old new : Row)
        → IsLegal limits history → get (state limits history).table tn ≡ Some old
        → get (state limits (history ++ e ∷ [])).table tn ≡ Some new
        → (new.unlocked ≡ old.unlocked → ⊥) → IsSome new.unlocked → IsOwnersUnlock e tn old new }
    ensures new { (limits : Limits) (history : List Entry) (e : Entry) (tn : List ℕ) (new : Row)
        → get (state limits history).table tn ≡ None
        → get (state limits (history ++ e ∷ [])).table tn ≡ Some new
        → new.unlocked ≡ None }
{}

/// An edit of the street guide leaves each row its owner, its lock and its day of unlocking, and neither
/// adds a number nor removes one.
pub fn edits_keep_owners()
    ensures rows { (limits : Limits) (history : List Entry) (tn : List ℕ) (old new : Row)
        (editor serial : ℕ) (edit : GuideEdit)
        → IsLegal limits history → get (state limits history).table tn ≡ Some old
        → get (state limits (history ++ Edit editor serial edit ∷ [])).table tn ≡ Some new
        → (owner new ≡ owner old) × (new.unlocked ≡ old.unlocked) }
    ensures numbers { (limits : Limits) (history : List Entry) (tn : List ℕ)
        (editor serial : ℕ) (edit : GuideEdit)
        → is_none (get (state limits (history ++ Edit editor serial edit ∷ [])).table tn)
        ≡ is_none (get (state limits history).table tn) }
{}

/// An id that a range had is never given to another: once no range has it, none has it ever after. Each
/// new range gets an id that no range had before, since the next id is above all of them and never falls.
pub fn ids_are_never_used_again()
    ensures known { (limits : Limits) (history : List Entry) (id : ℕ) → IsLegal limits history
        → IsSome (range_of (state limits history).guide.ranges id)
        → id < (state limits history).guide.next }
    ensures rises { (limits : Limits) (history more : List Entry)
        → (state limits history).guide.next ≤ (state limits (history ++ more)).guide.next }
    ensures gone { (limits : Limits) (history more : List Entry) (id : ℕ)
        → id < (state limits history).guide.next
        → range_of (state limits history).guide.ranges id ≡ None
        → range_of (state limits (history ++ more)).guide.ranges id ≡ None }
{}

/// Each entry gets a code below 1000. So no line or edit of a history has a higher one.
pub fn codes_are_below_1000()
    ensures each { (s : State) (e : Entry) → (verdict s e).code < CODES }
    ensures history { (limits : Limits) (history : List Entry) (code : ℕ)
        → CODES ≤ code → times_of limits history code ≡ 0 }
{}

/// An office applies at most 4,000,000,000 entries.
pub fn limit_of_entries()
    ensures { MOST_ENTRIES ≡ 4_000_000_000 }
{}
