//! Laws on images.
ghost use Rattle.std.specs.Prelude.{◌≡◌, ◌⊎◌, List, ℕ};
ghost use Rattle.commit_log.specs.LogImage.{StandsFor, StandsForSome};
ghost use Rattle.commit_log.specs.LogImage.{IsForeign, IsDamaged, IsDamagedSomewhere};

use crate::body_reader::BodyReader;

/// An image stands for one list of bodies alone.
pub fn bodies_are_known_from_the_image<R: BodyReader>()
    ensures { (head image : List ℕ) (a b : List (List ℕ)) →
        StandsFor R.is_body head a image → StandsFor R.is_body head b image → a ≡ b }
{}

/// Each image is exactly one of these: foreign, damaged at one frame, or standing for bodies within
/// the limit.
pub fn an_image_is_read_one_way<R: BodyReader>()
    ensures some { (head image : List ℕ) (limit : ℕ) →
        IsForeign head image ⊎ IsDamagedSomewhere R.is_body head limit image
        ⊎ StandsForSome R.is_body head limit image }
    ensures not_foreign { (head image : List ℕ) (bodies : List (List ℕ)) →
        StandsFor R.is_body head bodies image → IsForeign head image → ⊥ }
    ensures not_both { (head image : List ℕ) (limit : ℕ) →
        IsForeign head image → IsDamagedSomewhere R.is_body head limit image → ⊥ }
    ensures not_damaged { (head image : List ℕ) (limit : ℕ) →
        StandsForSome R.is_body head limit image →
        IsDamagedSomewhere R.is_body head limit image → ⊥ }
    ensures one_damage { (head image : List ℕ) (limit j k : ℕ) →
        IsDamaged R.is_body head limit j image → IsDamaged R.is_body head limit k image → j ≡ k }
{}
