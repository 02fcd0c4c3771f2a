//! Lists that a search appends to.
ghost use Rattle.std.specs.Prelude.{◌≡◌, List, [], ◌∷◌, ◌++◌, map, OnOk};
ghost use Rattle.geocode.specs.Matches.{MatchParts, match_of};

use crate::hit::Hit;
use crate::matching::Match;
use std::alloc::{AllocError, Allocator};

// A trait, so that one search serves hits and matches.
/// A list of matches, or of their hits alone.
pub(crate) trait Findings<'a> {
    // The list has these matches, or their hits, in order.
    ghost has: { Self → List MatchParts → Type 0 };

    /// Appends a match, or its hit.
    fn push_match(&mut self, found: Match<'a>) -> Result<(), AllocError>
        ensures { (matches : List MatchParts) → has self.old matches
            → OnOk result (has self.new (matches ++ match_of found.entry ∷ [])) };
}

impl<'a, A: Allocator> Findings<'a> for Vec<Hit, A> {
    ghost has = { λ hits matches. hits.items ≡ map (λ found. found.hit) matches };

    fn push_match(&mut self, found: Match<'a>) -> Result<(), AllocError> {
        self.push(found.hit)?;
        Ok(())
    }
}

impl<'a, A: Allocator> Findings<'a> for Vec<Match<'a>, A> {
    ghost has = { λ found matches. map match_of found.items ≡ matches };

    fn push_match(&mut self, found: Match<'a>) -> Result<(), AllocError> {
        self.push(found)?;
        Ok(())
    }
}
