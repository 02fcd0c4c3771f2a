//! A segment whose street name matched, and the matches on it.
ghost use Rattle.std.specs.Prelude.{◌≡◌, ◌++◌, List, option_map, Some, OnOk};
ghost use Rattle.geocode.specs.Matches.{MatchParts, match_of, match_on, matches_on_range, matches_under, matching_of};
ghost use Rattle.tl_segments.specs.County.{tlid_of};
ghost use Rattle.tl_segments.specs.Range.{fields_of};

use crate::findings::Findings;
use crate::hit::Side;
use crate::house::{House, hit_on};
use crate::matching::Match;
use crate::sides::SideFields;
use std::alloc::{AllocError, Allocator};
use tl_segments::{FullName, Range, Segment};

/// A segment of a county, with the number of its TLID and the name that matched.
#[derive(Drop)]
pub(crate) struct MatchingSegment<'a, A: Allocator> {
    pub county: usize,
    pub tlid: u64,
    pub segment: &'a Segment<A>,
    pub name: FullName<'a>,
}

impl<'a, A: Allocator> MatchingSegment<'a, A> {
    /// Appends the matches on the segment.
    pub(crate) fn push_matches<F: Findings<'a>>(
        &self,
        house: House,
        found: &mut F,
    ) -> Result<(), AllocError>
        requires { tlid_of self.now.segment.now ≡ Some self.now.tlid }
        ensures { (matches : List MatchParts) → F.has found.old matches
            → OnOk result (F.has found.new (matches ++ matches_under house (matching_of self.now))) }
    {
        for n in 0..self.segment.ranges() {
            if let Some(range) = self.segment.range(n) {
                self.push_on_range(house, range, found)?;
            }
        }
        Ok(())
    }

    fn push_on_range<F: Findings<'a>>(
        &self,
        house: House,
        range: Range<'a>,
        found: &mut F,
    ) -> Result<(), AllocError>
        requires { tlid_of self.now.segment.now ≡ Some self.now.tlid }
        ensures { (matches : List MatchParts) → F.has found.old matches → OnOk result (F.has found.new
            (matches ++ matches_on_range house (matching_of self.now) (fields_of range.entry))) }
    {
        if let Some(left) = self.match_on(house, range, Side::Left) {
            found.push_match(left)?;
        }
        if let Some(right) = self.match_on(house, range, Side::Right) {
            found.push_match(right)?;
        }
        Ok(())
    }

    /// Returns the match on a side of a range, if the house is on it.
    fn match_on(&self, house: House, range: Range<'a>, side: Side) -> Option<Match<'a>>
        requires { tlid_of self.now.segment.now ≡ Some self.now.tlid }
        ensures { option_map match_of result ≡ match_on house (matching_of self.now) (fields_of range.entry) side }
    {
        let hit = hit_on(house, self.tlid, self.segment.bytes(), range, side)?;
        let fields = SideFields::of(range, side);
        Some(Match {
            hit,
            county: self.county,
            name: self.name,
            from: fields.from,
            to: fields.to,
            zip: fields.zip,
            bytes: self.segment.bytes(),
        })
    }
}
