//! Laws of the definitions, for whoever reads them.
ghost use Rattle.std.specs.Prelude.{◌≡◌, ◌<◌, ◌^◌, ◌↔◌, ℕ, List, Some};
ghost use Rattle.std.specs.Fmt.{decimal};
ghost use Rattle.text_line.specs.WordReading.{number_of};

/// What is read as a number is its decimal text, and the decimal text of a number below 2^32 is read as
/// it.
pub fn numbers_are_read_as_spelled()
    ensures { (bytes : List ℕ) (n : ℕ) → (number_of bytes ≡ Some n)
        ↔ ((bytes ≡ decimal n) × (n < 2 ^ 32)) }
{}
