//! Laws of the arithmetic of splits and differences, for whoever reads the definitions.
ghost use Rattle.std.specs.Prelude.{◌≡◌, ℕ, ◌<◌, ◌≤◌, ◌↔◌, ◌⊎◌, ◌&&◌, not, nat_le, true, false};
ghost use Rattle.msag_ranges.specs.StreetGuide.{HasSoundEnds, is_held};
ghost use Rattle.number_table.specs.HouseArithmetic.{added, stays_house};
ghost use Rattle.msag_edits.specs.HouseArithmetic.{is_odd, is_one_parity};
ghost use Rattle.msag_edits.specs.EditRules.{has_empty_part, lower_part, upper_part, shifted};

use msag_ranges::Range;

/// The parts of a split of a range whose ends are sound: one of them would hold no number exactly
/// where 505 says so; otherwise the lower part holds the range's numbers up to `at`, the upper part
/// those above it, and the ends of both are sound.
pub fn parts_of_a_split(range: &Range, at: u32, id: u32, esn: u32)
    requires { HasSoundEnds range.now }
    ensures empty { (has_empty_part range.now at ≡ true)
        ↔ (((n : ℕ) → n ≤ at → is_held range.now n ≡ false)
        ⊎ ((n : ℕ) → at < n → is_held range.now n ≡ false)) }
    ensures lower { has_empty_part range.now at ≡ false → (n : ℕ)
        → is_held (lower_part range.now at) n ≡ (is_held range.now n && nat_le n at) }
    ensures upper { has_empty_part range.now at ≡ false → (n : ℕ)
        → is_held (upper_part range.now id at esn) n ≡ (is_held range.now n && not (nat_le n at)) }
    ensures lower_ends { has_empty_part range.now at ≡ false
        → HasSoundEnds (lower_part range.now at) }
    ensures upper_ends { has_empty_part range.now at ≡ false
        → HasSoundEnds (upper_part range.now id at esn) }
{}

/// With a difference that is lawful for it, a range holds each of its numbers with the difference
/// added, and no others.
pub fn shifted_numbers(range: &Range, by: i32)
    requires even { (is_one_parity range.now.parity && is_odd by) ≡ false }
    requires low { stays_house range.now.low by ≡ true }
    requires high { stays_house range.now.high by ≡ true }
    ensures each { (n : ℕ) → is_held range.now n ≡ true
        → is_held (shifted range.now by) (added n by) ≡ true }
    ensures only { (m : ℕ) → is_held (shifted range.now by) m ≡ true
        → (n : ℕ) × (is_held range.now n ≡ true) × (m ≡ added n by) }
{}
