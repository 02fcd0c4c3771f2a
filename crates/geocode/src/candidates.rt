//! The segments of a county that a search looks at.
ghost use Rattle.std.specs.Prelude.{◌≡◌, ℕ, ◌-◌, ◌<◌, List, IfSome};
ghost use Rattle.geocode.specs.Candidates.{AreFrom, IsComplete, IsNext};
ghost use Rattle.tl_segments.specs.Segment.{SegmentParts};

use crate::span::Span;
use std::alloc::Allocator;
use tl_segments::County;

/// A segment that may have the name and the house number of a search.
#[derive(Clone, Copy)]
pub(crate) struct Candidate {
    /// The segment's number in its county, counted from 0.
    pub segment: usize,
    /// The span of its house numbers.
    pub span: Span,
}

// A trait, so that one search walks over all segments or over a chain of an index.
/// The candidates of a search in a county, in the order of its segments.
pub(crate) trait Candidates {
    // Of the segments of a county, those with these numbers are left.
    ghost are_left: { Self → List SegmentParts → List ℕ → Type 0 };

    // At least the number of candidates that are left.
    ghost steps: { Self → ℕ };

    /// Returns the next candidate, or `None` after the last one.
    fn next(&mut self) -> Option<Candidate>
        ensures next { (segments : List SegmentParts) (numbers : List ℕ) → are_left self.old segments numbers
            → IsNext segments (are_left self.new segments) numbers result }
        ensures fewer { (segments : List SegmentParts) (numbers : List ℕ) → are_left self.old segments numbers
            → IfSome result (λ candidate. steps self.new < steps self.old) };
}

/// All segments of a county.
#[derive(Drop)]
pub(crate) struct AllSegments {
    /// The number of the next segment.
    next: usize,
    count: usize,
}

impl AllSegments {
    pub(crate) fn of<A: Allocator>(county: &County<A>) -> Self
        ensures { (name : List ℕ) → IsComplete (AreFrom result county.now.segments) name county.now.segments }
    {
        AllSegments {
            next: 0,
            count: county.segments().len(),
        }
    }
}

impl Candidates for AllSegments {
    ghost are_left = { AreFrom };

    ghost steps = { λ all. all.count - all.next };

    fn next(&mut self) -> Option<Candidate> {
        if self.next >= self.count {
            return None;
        }
        let segment = self.next;
        self.next += 1;
        Some(Candidate {
            segment,
            span: Span::WHOLE,
        })
    }
}
