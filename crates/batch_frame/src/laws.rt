//! Laws of the grammar of carriers' files.
ghost use Rattle.std.specs.Prelude.{◌≡◌, ◌↔◌, ℕ, List, None};
ghost use Rattle.std.specs.List.{All};
ghost use Rattle.batch_frame.specs.CarrierFile.{CarrierFile, IsFile, IsRecord, LooksSeparated, Spells, all_records};
ghost use Rattle.batch_frame.specs.FrameFault.{AreSound, IsRead, frame_fault};
ghost use Rattle.batch_frame.specs.declared.separator.Separator.{Separator};

use crate::fault::MOST_RECORDS;

/// Bytes have at most one reading as parts, and are read as at most one file.
pub fn one_reading()
    ensures parts { (bytes header head trailer tail : List ℕ) (records others : List (List ℕ))
        (s t : Separator)
        → IsFile bytes s header records trailer → IsFile bytes t head others tail
        → (s ≡ t) × (header ≡ head) × (records ≡ others) × (trailer ≡ tail) }
    ensures file { (bytes : List ℕ) (file other : CarrierFile) → IsRead bytes file
        → IsRead bytes other → file ≡ other }
{}

/// Parts that stand one after the other, with the last separator or without it, are read again as
/// these parts, save a bare file in which what follows the header looks like a separator.
pub fn parts_are_read_again()
    ensures { (bytes header trailer : List ℕ) (records : List (List ℕ)) (s : Separator)
        → All IsRecord (all_records header records trailer)
        → Spells bytes s (all_records header records trailer)
        → ¬ LooksSeparated bytes s → IsFile bytes s header records trailer }
{}

/// A file is without a fault exactly where its parts are, so that sound parts are read again by `read_file`.
pub fn faults_are_of_the_parts()
    ensures { (bytes header trailer : List ℕ) (records : List (List ℕ)) (s : Separator)
        → IsFile bytes s header records trailer
        → (frame_fault bytes ≡ None ↔ AreSound header records trailer) }
{}

/// Bytes without a fault are a file.
pub fn sound_bytes_are_a_file()
    ensures { (bytes : List ℕ) → frame_fault bytes ≡ None
        → (file : CarrierFile) × IsRead bytes file }
{}

/// A file has at most 10,000 records.
pub fn limit_of_records()
    ensures { MOST_RECORDS ≡ 10_000 }
{}
