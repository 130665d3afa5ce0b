//! Laws on the bytes of entries, for whoever reads the definitions.
ghost use Rattle.std.specs.Prelude.{◌≡◌, ℕ, ◌<◌, ◌^◌, List, All, length, Some};
ghost use Rattle.office_entry.specs.declared.entry.Entry.{Entry};
ghost use Rattle.office_entry.specs.Entries.{IsEntry};
ghost use Rattle.office_entry.specs.EntryBytes.{IsInRange, entry_bytes};
ghost use Rattle.office_entry.specs.EntryReading.{entry_from};

/// The bytes of an entry are read as it, and what bytes are read as has these bytes.
pub fn entries_are_read_as_written()
    ensures back { (entry : Entry) → IsInRange entry → entry_from (entry_bytes entry) ≡ Some entry }
    ensures only { (bytes : List ℕ) (entry : Entry) →
        All (λ byte. byte < 2 ^ 8) bytes → length bytes ≡ 631 → entry_from bytes ≡ Some entry →
        IsInRange entry × (bytes ≡ entry_bytes entry) }
    // An entry has 631 bytes.
    ensures width { (entry : Entry) → IsInRange entry → length (entry_bytes entry) ≡ 631 }
{}

/// Bytes are the bytes of one entry.
pub fn bytes_are_of_one_entry()
    ensures { (entry other : Entry) →
        IsInRange entry → IsInRange other → entry_bytes entry ≡ entry_bytes other → entry ≡ other }
{}

/// An entry whose fields are in their ranges is an entry of a history.
pub fn entries_in_range_are_entries()
    ensures { (entry : Entry) → IsInRange entry → IsEntry entry }
{}
