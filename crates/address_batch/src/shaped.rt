//! Matches in their places along the shapes of their segments.
ghost use Rattle.std.specs.Prelude.{◌≡◌, ◌≤◌, length, map, IfOk};
ghost use Rattle.address_batch.specs.LookupResult as looked_up;
ghost use Rattle.address_batch.specs.ShapedLookup.{ArePlaced, IsInPlace, IsPlaced, shape_of};
ghost use Rattle.geocode.specs.Matches.{match_of};
ghost use Rattle.tl_segments.specs.declared.limits.TheConstants.{MAX_LINES_PER_TLID};

use crate::lookup::LookupResult;
use geocode::{Hit, Match};
use std::alloc::{AllocError, Allocator};
use tl_segments::{County, ShapePart};

/// Returns the answer with the matches of a house number in their places along the shapes of their segments.
pub(crate) fn placed_lookup<'a, A: Allocator + Copy>(
    alloc: A,
    number: u64,
    lookup: &LookupResult<'a, A>,
    counties: &[County<A>],
) -> Result<LookupResult<'a, A>, AllocError>
    ensures { IfOk result (λ placed. IsPlaced number counties.now (looked_up.parts_of lookup.now) (looked_up.parts_of placed)) }
{
    match lookup {
        LookupResult::Found(found) => {
            let placed = placed_matches(alloc, number, found.as_slice(), counties)?;
            Ok(LookupResult::Found(placed))
        }
        LookupResult::NotFound(reason) => Ok(LookupResult::NotFound(*reason)),
    }
}

/// Returns the matches of a house number, each in its place along the shape of its segment.
fn placed_matches<'a, A: Allocator + Copy>(
    alloc: A,
    number: u64,
    found: &[Match<'a>],
    counties: &[County<A>],
) -> Result<Vec<Match<'a>, A>, AllocError>
    ensures { IfOk result (λ placed. ArePlaced number counties.now (map match_of found.now) (map match_of placed.items)) }
{
    let mut placed = Vec::new(alloc);
    for one in found {
        placed.push(in_place(alloc, number, one, counties)?)?;
    }
    Ok(placed)
}

/// Returns the match in its place along the shape of its segment.
fn in_place<'a, A: Allocator + Copy>(
    alloc: A,
    number: u64,
    found: &Match<'a>,
    counties: &[County<A>],
) -> Result<Match<'a>, AllocError>
    ensures { IfOk result (λ placed. IsInPlace number counties.now (match_of found.now) (match_of placed)) }
{
    let place = found.place_on_shape(alloc, number, parts_of(counties, found))?;
    let hit = Hit {
        tlid: found.hit.tlid,
        side: found.hit.side,
        place,
    };
    Ok(Match {
        hit,
        county: found.county,
        name: found.name,
        from: found.from,
        to: found.to,
        zip: found.zip,
        bytes: found.bytes,
    })
}

/// Returns the parts of the shape of a match's segment: none if its county has no shapes.
fn parts_of<'s, A: Allocator>(counties: &'s [County<A>], found: &Match<'_>) -> &'s [ShapePart]
    ensures value { result.now ≡ shape_of counties.now (match_of found.now) }
    ensures few { length result.now ≤ MAX_LINES_PER_TLID }
{
    match counties.get(found.county) {
        Some(county) => county.shape(found.hit.tlid),
        None => &[],
    }
}
