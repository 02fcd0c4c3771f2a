//! The answer for an address.
ghost use Rattle.std.specs.Prelude.{◌≡◌, ◌≢◌, [], map, IfOk};
ghost use Rattle.address_batch.specs.LookupResult.{lookup_in, are_all_at, is_at, parts_of, status_of, why_none};
ghost use Rattle.address_batch.specs.AddressQuery as address_query;
ghost use Rattle.geocode.specs.Gazetteer.{IsGazetteerOf};
ghost use Rattle.geocode.specs.Matches.{match_of};
ghost use Rattle.geocode.specs.Street as looked_for;

use crate::address_query::AddressQuery;
use crate::reason::Reason;
use geocode::{Gazetteer, Match, Place, Street};
use std::alloc::{AllocError, Allocator};
use tl_segments::County;

/// The outcome of looking for an address.
#[derive(Clone, Copy, PartialEq, Eq)]
pub enum MatchStatus {
    /// It is in one place.
    Match,
    /// It is in several places, or its places are unknown.
    Tie,
    /// It wasn't found.
    NoMatch,
}

/// The matches of an address, at least one, or why there are none.
#[derive(Drop)]
pub(crate) enum LookupResult<'a, A: Allocator> {
    Found(Vec<Match<'a>, A>),
    NotFound(Reason),
}

impl AddressQuery<'_> {
    /// Looks for the answer to the question in counties, using their gazetteer.
    pub(crate) fn lookup<'c, A: Allocator + Copy>(
        &self,
        alloc: A,
        gazetteer: &Gazetteer<A>,
        counties: &'c [County<A>],
    ) -> Result<LookupResult<'c, A>, AllocError>
        requires { IsGazetteerOf gazetteer.now counties.now }
        ensures { IfOk result (λ lookup. parts_of lookup ≡ lookup_in counties.now (address_query.parts_of self.now)) }
    {
        let Some(street) = self.street() else {
            return Ok(LookupResult::NotFound(Reason::NoSuchStreet));
        };
        let number = self.query.number;
        let found = gazetteer.matches(alloc, counties, number, street, self.query.zip)?;
        if !found.is_empty() {
            return Ok(LookupResult::Found(found));
        }
        Ok(LookupResult::NotFound(why_none(alloc, gazetteer, counties, number, street)?))
    }
}

/// Returns why a house number wasn't found on a street.
fn why_none<A: Allocator + Copy>(
    alloc: A,
    gazetteer: &Gazetteer<A>,
    counties: &[County<A>],
    number: u64,
    street: Street<'_>,
) -> Result<Reason, AllocError>
    requires { IsGazetteerOf gazetteer.now counties.now }
    ensures { IfOk result (λ reason. reason ≡ why_none counties.now (looked_for.parts_of street.entry) number) }
{
    if !gazetteer.has_street(counties, street) {
        return Ok(Reason::NoSuchStreet);
    }
    let anywhere = gazetteer.matches(alloc, counties, number, street, None)?;
    if anywhere.is_empty() {
        return Ok(Reason::NoSuchNumber);
    }
    Ok(Reason::OtherZip)
}

/// Returns the status of an address with these matches.
pub(crate) fn status_of(found: &[Match<'_>]) -> MatchStatus
    ensures { result ≡ status_of (map match_of found.now) }
{
    let Some((first, others)) = found.split_first() else {
        return MatchStatus::NoMatch;
    };
    // On a county line, both counties' files have the house: two hits at one place are one.
    if are_all_at(first.hit.place, others) {
        return MatchStatus::Match;
    }
    MatchStatus::Tie
}

/// Returns whether all matches are in this place.
fn are_all_at(place: Option<Place>, found: &[Match<'_>]) -> bool
    ensures { result ≡ are_all_at place (map match_of found.now) }
{
    for other in found {
        if !is_at(place, other.hit.place) {
            return false;
        }
    }
    true
}

/// Returns whether both places are known and equal.
fn is_at(place: Option<Place>, other: Option<Place>) -> bool
    ensures { result ≡ is_at place other }
{
    match (place, other) {
        // An unknown place may be anywhere, so it equals none, not even another unknown one.
        (Some(place), Some(other)) => {
            place.longitude == other.longitude && place.latitude == other.latitude
        }
        _ => false,
    }
}
