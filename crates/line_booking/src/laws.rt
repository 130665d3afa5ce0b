//! Laws on one line, over any guide and any table.
ghost use Rattle.std.specs.Prelude.{◌≡◌, ◌≤◌, ℕ, List, All, Some, None, IsSome};
ghost use Rattle.std.specs.FinMap.{get};
ghost use Rattle.ali_base.specs.declared.esn.TheConstants.{HIGHEST_ESN};
ghost use Rattle.ali_record.specs.Layout.{field_of};
ghost use Rattle.ali_record.specs.declared.field.Field.TheVariants.{TelephoneNumber};
ghost use Rattle.msag_ranges.specs.declared.range.Range.{Range};
ghost use Rattle.number_life.specs.declared.row.Row.{Row};
ghost use Rattle.number_life.specs.NumberLife.{owner};
ghost use Rattle.number_table.specs.NumberTable.{NumberTable};
ghost use Rattle.line_booking.specs.LineLaws.{IsMigrated, IsUnlocked};
ghost use Rattle.line_booking.specs.LineVerdict.{table_with_line};

/// A line changes the row of its own number alone.
pub fn lines_change_one_number()
    ensures { (ranges : List Range) (table : NumberTable) (most : ℕ)
        (company bytes tn : List ℕ)
        → (tn ≡ field_of bytes TelephoneNumber → ⊥)
        → get (table_with_line ranges table most company bytes) tn ≡ get table tn }
{}

/// The company lock: a locked row stays as it is, whatever the files of other companies have.
pub fn locked_rows_stay()
    ensures { (ranges : List Range) (table : NumberTable) (most : ℕ)
        (company bytes tn : List ℕ) (row : Row)
        → get table tn ≡ Some row → row.unlocked ≡ None → (owner row ≡ company → ⊥)
        → get (table_with_line ranges table most company bytes) tn ≡ Some row }
{}

/// A line gives a row another owner only where it is a migrate in that company's file and the row was
/// unlocked; the row is locked then. The ranges have ESNs of five digits at most.
pub fn owners_change_by_migrates()
    ensures { (ranges : List Range) (table : NumberTable) (most : ℕ)
        (company bytes tn : List ℕ) (old new : Row)
        → All (λ r. r.esn ≤ HIGHEST_ESN) ranges
        → get table tn ≡ Some old
        → get (table_with_line ranges table most company bytes) tn ≡ Some new
        → (owner new ≡ owner old → ⊥) → IsMigrated company bytes old new }
{}

/// A line gives a row a day of unlocking only where it is an unlock in the owner's file; the row keeps
/// its record. A number that had no row gets a locked one.
pub fn owners_unlock()
    ensures day { (ranges : List Range) (table : NumberTable) (most : ℕ)
        (company bytes tn : List ℕ) (old new : Row)
        → get table tn ≡ Some old
        → get (table_with_line ranges table most company bytes) tn ≡ Some new
        → (new.unlocked ≡ old.unlocked → ⊥) → IsSome new.unlocked
        → IsUnlocked company bytes tn old new }
    ensures new { (ranges : List Range) (table : NumberTable) (most : ℕ)
        (company bytes tn : List ℕ) (new : Row)
        → get table tn ≡ None → get (table_with_line ranges table most company bytes) tn ≡ Some new
        → new.unlocked ≡ None }
{}
