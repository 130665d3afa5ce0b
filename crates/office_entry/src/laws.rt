//! Laws of the definitions, for whoever reads them.
ghost use Rattle.std.specs.Prelude.{◌≡◌, ℕ, ◌<◌, ◌^◌, ◌↔◌, List, All, Some};
ghost use Rattle.office_entry.specs.declared.edit.Edit.{Edit};
ghost use Rattle.office_entry.specs.Edits.{IsEdit};
ghost use Rattle.office_entry.specs.EditText.{IsEditText};
ghost use Rattle.office_entry.specs.EditBytes.{edit_bytes};
ghost use Rattle.office_entry.specs.EditReading.{edit_of_text};
ghost use Rattle.office_entry.specs.BytesReading.{edit_from};

use crate::edit::HIGHEST_SENT;

/// What is read as an edit's text is spelled so, and what is spelled so is read.
pub fn texts_are_read_as_spelled()
    ensures { (bytes : List ℕ) (edit : Edit)
        → (edit_of_text bytes ≡ Some edit) ↔ IsEditText bytes edit }
{}

/// A text is the text of one edit.
pub fn texts_are_of_one_edit()
    ensures { (bytes : List ℕ) (edit other : Edit) → IsEditText bytes edit → IsEditText bytes other
        → edit ≡ other }
{}

/// The bytes of an edit are read as it, and what bytes are read as has these bytes.
pub fn bytes_are_read_as_written()
    ensures back { (edit : Edit) → IsEdit edit → edit_from (edit_bytes edit) ≡ Some edit }
    ensures only { (bytes : List ℕ) (edit : Edit) → All (λ byte. byte < 2 ^ 8) bytes
        → edit_from bytes ≡ Some edit → IsEdit edit × (bytes ≡ edit_bytes edit) }
{}

/// Bytes are the bytes of one edit.
pub fn bytes_are_of_one_edit()
    ensures { (edit other : Edit) → IsEdit edit → IsEdit other
        → edit_bytes edit ≡ edit_bytes other → edit ≡ other }
{}

/// An edit sends numbers of at most 999,999.
pub fn limit_of_sent_numbers()
    ensures { HIGHEST_SENT ≡ 999_999 }
{}
