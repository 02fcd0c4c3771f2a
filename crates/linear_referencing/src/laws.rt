//! Laws about the definitions, stated as contracts of functions that do nothing.
ghost use Rattle.std.specs.Prelude.{◌≡◌, ◌≤◌, ◌<◌, ◌⊎◌, ◌≤ℤ◌, ℕ, ℤ, List};
ghost use Rattle.linear_referencing.specs.Length.{IsLength};
ghost use Rattle.linear_referencing.specs.Place.{IsBetween, coordinate_between};
ghost use Rattle.linear_referencing.specs.declared.length.TheConstants.{MAX_LINE_POINTS};
ghost use Rattle.tl_segments.specs.declared.shape.Point.{Point};

/// States that a line has one length.
#[tactic(auto, using(crate::proofs::LengthLemmas::one_length_lem))]
pub fn one_length()
    ensures { (points : List Point) (total other : ℕ) → IsLength points total → IsLength points other → total ≡ other }
{}

/// States that a place on a piece lies between the piece's ends, which it never passes.
#[tactic(auto, using(crate::proofs::ShareLemmas::lies_between_lem))]
pub fn lies_between()
    ensures { (from to : ℤ) (part whole : ℕ) → part ≤ whole → IsBetween from to (coordinate_between from to part whole) }
{}

/// States the limit.
pub fn limits()
    ensures { MAX_LINE_POINTS ≡ 16384 }
{}
