//! Hits of a house number in counties.
ghost use Rattle.std.specs.Prelude.{◌≡◌, ◌≤◌, length, IfOk};
ghost use Rattle.geocode.specs.Hits.{find};
ghost use Rattle.tl_segments.specs.declared.name.TheConstants.{NAME_LENGTH};

use crate::candidates::AllSegments;
use crate::hit::Hit;
use crate::house::House;
use crate::search::Search;
use std::alloc::{AllocError, Allocator};
use tl_segments::{County, NAME_LENGTH};

/// Returns the hits of a house number on a street: one for each side that the number lies on, for every segment that has the street's name among its
/// names. They are in the order of counties, segments and ranges, the left side before the right. ASCII case is ignored in names. If a ZIP code is
/// given, the range's side must have it.
///
/// It allocates only for hits.
pub fn find<A: Allocator + Copy>(
    alloc: A,
    counties: &[County<A>],
    number: u64,
    name: &[u8],
    zip: Option<u64>,
) -> Result<Vec<Hit, A>, AllocError>
    requires some { 1 ≤ length name.now }
    requires few { length name.now ≤ NAME_LENGTH }
    ensures { IfOk result (λ hits. hits.items ≡ find name.now (record { number = number; zip = zip }) counties.now) }
{
    // Without a gazetteer: for one query, a walk over all segments is cheaper than making one.
    let search = Search::by_name(name, House { number, zip });
    let mut hits = Vec::new(alloc);
    for (index, county) in counties.iter().enumerate() {
        search.push_in_county(AllSegments::of(county), index, county, &mut hits)?;
    }
    Ok(hits)
}
