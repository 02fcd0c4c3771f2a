//! The search for a house number in a county.
ghost use Rattle.std.specs.Prelude.{◌≡◌, ◌<◌, ◌≤◌, ◌++◌, List, length, OnOk};
ghost use Rattle.std.specs.List.{list_any};
ghost use Rattle.geocode.specs.Candidates.{IsComplete, segment_at};
ghost use Rattle.geocode.specs.Matches.{HitsAgreeInCounty, IsOnByName, MatchParts, matches_in_county, matches_on_segment};
ghost use Rattle.geocode.specs.Street.{WantsNameAlone, is_on_street};
ghost use Rattle.geocode.specs.Street as looked_for;
ghost use Rattle.tl_segments.specs.declared.name.TheConstants.{NAME_LENGTH};

use crate::candidates::Candidates;
use crate::findings::Findings;
use crate::house::House;
use crate::matching_segment::MatchingSegment;
use crate::street::Street;
use crate::street_name::StreetName;
use std::alloc::{AllocError, Allocator};
use tl_segments::{County, NAME_LENGTH};

/// A house number to find on a street.
#[derive(Clone, Copy)]
pub(crate) struct Search<'s> {
    pub street: Street<'s>,
    pub house: House,
}

impl<'s> Search<'s> {
    /// Returns the search for a house on a street with this name, with any directions and type.
    pub(crate) fn by_name(name: &'s [u8], house: House) -> Self
        requires some { 1 ≤ length name.now }
        requires few { length name.now ≤ NAME_LENGTH }
        ensures name { result.street.name.text.now ≡ name.now }
        ensures alone { WantsNameAlone (looked_for.parts_of result.street) }
        ensures house { result.house ≡ house }
    {
        let street = Street {
            name: StreetName { text: name },
            predir: &[],
            kind: &[],
            sufdir: &[],
        };
        Search { street, house }
    }

    /// Appends the matches in a county, which has this index in the list of counties. The candidates are all its segments with the street's name.
    pub(crate) fn push_in_county<'a, A: Allocator, C: Candidates + Drop, F: Findings<'a>>(
        self,
        candidates: C,
        county_index: usize,
        county: &'a County<A>,
        found: &mut F,
    ) -> Result<(), AllocError>
        requires { IsComplete (C.are_left candidates county.now.segments) self.street.name.text.now county.now.segments }
        ensures matches { (matches : List MatchParts) → F.has found.old matches → OnOk result (F.has found.new
            (matches ++ matches_in_county (looked_for.parts_of self.entry.street) self.entry.house county_index county.now)) }
        ensures hits { OnOk result (HitsAgreeInCounty (looked_for.parts_of self.entry.street) self.entry.house county_index county.now) }
    {
        let mut candidates = candidates;
        while let Some(candidate) = candidates.next() {
            if candidate.span.covers(self.house.number) {
                self.push_on_segment(candidate.segment, county_index, county, found)?;
            }
        }
        Ok(())
    }

    /// Appends the matches on segment `n` of a county.
    fn push_on_segment<'a, A: Allocator, F: Findings<'a>>(
        self,
        n: usize,
        county_index: usize,
        county: &'a County<A>,
        found: &mut F,
    ) -> Result<(), AllocError>
        requires { n < length county.now.segments }
        ensures matches { (matches : List MatchParts) → F.has found.old matches → OnOk result (F.has found.new (matches
            ++ matches_on_segment (looked_for.parts_of self.entry.street) self.entry.house county_index (segment_at county.now.segments n))) }
        ensures by_name { IsOnByName (looked_for.parts_of self.entry.street) (segment_at county.now.segments n) }
    {
        let segment = &county.segments()[n];
        let Some(name) = self.street.name_on(segment) else {
            return Ok(());
        };
        let matching = MatchingSegment {
            county: county_index,
            tlid: county.tlids()[n],
            segment,
            name,
        };
        matching.push_matches(self.house, found)
    }
}

/// Returns whether some segment of a county is on the street. The candidates are all its segments with the street's name.
pub(crate) fn has_street<A: Allocator, C: Candidates + Drop>(
    street: Street<'_>,
    candidates: C,
    county: &County<A>,
) -> bool
    requires { IsComplete (C.are_left candidates county.now.segments) street.name.text.now county.now.segments }
    ensures { result ≡ list_any (is_on_street (looked_for.parts_of street.entry)) county.now.segments }
{
    let mut candidates = candidates;
    while let Some(candidate) = candidates.next() {
        if is_on_street(street, county, candidate.segment) {
            return true;
        }
    }
    false
}

/// Returns whether segment `n` is on the street.
fn is_on_street<A: Allocator>(street: Street<'_>, county: &County<A>, n: usize) -> bool
    requires { n < length county.now.segments }
    ensures { result ≡ is_on_street (looked_for.parts_of street.entry) (segment_at county.now.segments n) }
{
    street.name_on(&county.segments()[n]).is_some()
}
