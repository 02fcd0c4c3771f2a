//! Indexes of the street names of counties.
ghost use Rattle.std.specs.Prelude.{◌≡◌, ◌≤◌, ◌++◌, List, length, map, IfOk, OnOk};
ghost use Rattle.geocode.specs.Gazetteer.{IsGazetteerOf};
ghost use Rattle.geocode.specs.Hits.{find};
ghost use Rattle.geocode.specs.Matches.{HitsAgree, MatchParts, has_street, match_of, matches};
ghost use Rattle.geocode.specs.Street as looked_for;
ghost use Rattle.tl_segments.specs.declared.name.TheConstants.{NAME_LENGTH};

use crate::findings::Findings;
use crate::hit::Hit;
use crate::house::House;
use crate::matching::Match;
use crate::name_hash::hash_of;
use crate::name_index::NameIndex;
use crate::search::{Search, has_street};
use crate::street::Street;
use std::alloc::{AllocError, Allocator};
use tl_segments::{County, NAME_LENGTH};

/// An index of the street names of counties. It is built once and kept next to the counties, without borrowing them.
///
/// In each county, segments are chained by a key of their names: the name's hash, reduced to one key per eight names. [`find`](Self::find) looks up
/// the key in each county and walks its chain, which has the segments with the name and, on average, at most eight others. Segments without a name
/// have a chain of their own. A chain keeps the span of each segment's house numbers, so most segments that don't have the number aren't read.
///
/// Each name of a segment, including alternate names, takes 12 bytes, and the keys half a byte more. A county adds less than 100 bytes. If its segments
/// have more than eight names on average, as only a crafted county has, all names have the same key: a county then takes 12 bytes per segment, and a
/// search looks at all its segments.
#[derive(Drop)]
pub struct Gazetteer<A: Allocator> {
    // The counties aren't borrowed, as the server keeps both in one value. An index for each of them takes eight bytes less per name than one for
    // all.
    indexes: Vec<NameIndex<A>, A>,
}

impl<A: Allocator + Copy> Gazetteer<A> {
    /// Indexes the names of all segments of the counties.
    pub fn of(alloc: A, counties: &[County<A>]) -> Result<Self, AllocError>
        ensures { IfOk result (λ gazetteer. IsGazetteerOf gazetteer counties.now) }
    {
        let mut indexes = Vec::with_capacity(alloc, counties.len())?;
        for county in counties {
            indexes.push(NameIndex::of(alloc, county.segments())?)?;
        }
        Ok(Gazetteer { indexes })
    }

    /// Returns the same hits as [`find`](crate::find) over the counties that the gazetteer was made from, without visiting all their segments.
    /// Allocates only for hits.
    pub fn find(
        &self,
        alloc: A,
        counties: &[County<A>],
        number: u64,
        name: &[u8],
        zip: Option<u64>,
    ) -> Result<Vec<Hit, A>, AllocError>
        requires of { IsGazetteerOf self.now counties.now }
        requires some { 1 ≤ length name.now }
        requires few { length name.now ≤ NAME_LENGTH }
        ensures { IfOk result (λ hits. hits.items ≡ find name.now (record { number = number; zip = zip }) counties.now) }
    {
        let search = Search::by_name(name, House { number, zip });
        let mut hits = Vec::new(alloc);
        self.push_found(counties, search, &mut hits)?;
        Ok(hits)
    }

    /// Returns the hits of a house number on a street in the counties that the gazetteer was made from, each with the name that matched. They are in
    /// the order of counties, segments and ranges, the left side before the right. Allocates only for matches.
    pub fn matches<'a>(
        &self,
        alloc: A,
        counties: &'a [County<A>],
        number: u64,
        street: Street<'_>,
        zip: Option<u64>,
    ) -> Result<Vec<Match<'a>, A>, AllocError>
        requires of { IsGazetteerOf self.now counties.now }
        ensures { IfOk result (λ found. map match_of found.items
            ≡ matches (looked_for.parts_of street.entry) (record { number = number; zip = zip }) counties.now) }
    {
        let house = House { number, zip };
        let mut matches = Vec::new(alloc);
        self.push_found(counties, Search { street, house }, &mut matches)?;
        Ok(matches)
    }
}

impl<A: Allocator> Gazetteer<A> {
    /// Returns whether some segment of the counties that the gazetteer was made from is on the street. Doesn't allocate.
    pub fn has_street(&self, counties: &[County<A>], street: Street<'_>) -> bool
        requires of { IsGazetteerOf self.now counties.now }
        ensures { result ≡ has_street (looked_for.parts_of street.entry) counties.now }
    {
        let hash = hash_of(street.name.text);
        for (n, county) in counties.iter().enumerate() {
            if has_street(street, self.indexes[n].candidates(hash), county) {
                return true;
            }
        }
        false
    }

    /// Appends the matches in the counties that the gazetteer was made from.
    fn push_found<'a, F: Findings<'a>>(
        &self,
        counties: &'a [County<A>],
        search: Search<'_>,
        found: &mut F,
    ) -> Result<(), AllocError>
        requires of { IsGazetteerOf self.now counties.now }
        ensures matches { (so_far : List MatchParts) → F.has found.old so_far → OnOk result (F.has found.new
            (so_far ++ matches (looked_for.parts_of search.entry.street) search.entry.house counties.now)) }
        ensures hits { OnOk result (HitsAgree (looked_for.parts_of search.entry.street) search.entry.house counties.now) }
    {
        let hash = hash_of(search.street.name.text);
        for (n, county) in counties.iter().enumerate() {
            search.push_in_county(self.indexes[n].candidates(hash), n, county, found)?;
        }
        Ok(())
    }
}
