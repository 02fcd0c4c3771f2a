//! The answer to a query for a place.
ghost use Rattle.std.specs.Prelude.{◌≡◌, ◌⊎◌, IfOk, option_map};
ghost use Rattle.geocode.specs.Gazetteer.{IsGazetteerOf};
ghost use Rattle.geocode.specs.Query.{parts_of};
ghost use Rattle.wire.specs.Answer.{GeocodesTo, place_reply};
ghost use Rattle.wire.specs.Query.{requested_place};
ghost use Rattle.wire.specs.Reply.{reply_of};

use crate::answer::Response;
use crate::query::first_value;
use geocode::{Gazetteer, Query, hit_lines};
use http_message::{MediaType, Status};
use refusals::Refusal;
use std::alloc::{AllocError, Allocator};
use tl_segments::County;

/// Returns the lines of the hits for the place in a query.
pub(crate) fn geocode<A: Allocator + Copy>(
    alloc: A,
    gazetteer: &Gazetteer<A>,
    counties: &[County<A>],
    query: &str,
) -> Response<'static, A>
    requires { IsGazetteerOf gazetteer.now counties.now }
    ensures { GeocodesTo counties.now query.now (reply_of result) }
{
    match answer_place(alloc, gazetteer, counties, query.as_bytes()) {
        Ok(answer) => answer,
        Err(_error) => Response::Refused(Refusal::memory()),
    }
}

fn answer_place<A: Allocator + Copy>(
    alloc: A,
    gazetteer: &Gazetteer<A>,
    counties: &[County<A>],
    query: &[u8],
) -> Result<Response<'static, A>, AllocError>
    requires { IsGazetteerOf gazetteer.now counties.now }
    ensures { IfOk result (λ answer. reply_of answer ≡ place_reply counties.now (requested_place query.now)) }
{
    let Some(place) = requested_place(alloc, query)? else {
        return Ok(Response::Status(Status::BadRequest));
    };
    let hits = place.find_in(alloc, gazetteer, counties)?;
    Ok(Response::Made {
        media: MediaType::Plain,
        body: hit_lines(alloc, hits.as_slice())?,
    })
}

/// Returns the place that a query requests: none if its number or its name is missing, or a part is malformed.
fn requested_place<A: Allocator + Copy>(alloc: A, query: &[u8]) -> Result<Option<Query>, AllocError>
    ensures { IfOk result (λ place. option_map parts_of place ≡ requested_place query.now) }
{
    let number = first_value(alloc, "number", query)?;
    let name = first_value(alloc, "name", query)?;
    let zip = first_value(alloc, "zip", query)?;
    let (Some(number), Some(name)) = (number, name) else {
        return Ok(None);
    };
    let zip = zip.as_ref().map(|zip| zip.as_bytes());
    Ok(Query::of(number.as_bytes(), name.as_str(), zip).ok())
}
