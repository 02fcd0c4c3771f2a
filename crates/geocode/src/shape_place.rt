//! Where a house number lies along the shape of its segment.
ghost use Rattle.std.specs.Prelude.{◌≡◌, ◌≤◌, length, IfOk, IfSome};
ghost use Rattle.geocode.specs.Matches.{match_of};
ghost use Rattle.geocode.specs.Measure.{IsMeasure, IsNear};
ghost use Rattle.geocode.specs.ShapePlace.{IsOnShape, line_points, measure_within, point_of, share_of};
ghost use Rattle.geocode.specs.Sides.{parts_of};
ghost use Rattle.tl_segments.specs.declared.limits.TheConstants.{MAX_LINES_PER_TLID};

use crate::matching::Match;
use crate::measure::{Measure, measure_on, place_at};
use crate::sides::SideFields;
use linear_referencing::{Place, Share, place_along};
use std::alloc::{AllocError, Allocator};
use tl_records::Type1;
use tl_segments::{MAX_LINES_PER_TLID, Point, ShapePart, lies_on};

impl Match<'_> {
    /// Returns the place of a house number on the line from the segment's start through the points of its shape to its end, or `None` if a coordinate
    /// of an end is unknown or the number isn't on the match's side.
    pub fn place_on_shape<A: Allocator>(
        &self,
        alloc: A,
        number: u64,
        parts: &[ShapePart],
    ) -> Result<Option<Place>, AllocError>
        requires { length parts.now ≤ MAX_LINES_PER_TLID }
        ensures { IfOk result (IsOnShape number (match_of self.now) parts.now) }
    {
        let side = SideFields {
            from: self.from,
            to: self.to,
            zip: self.zip,
        };
        let Some(measure) = measure_within(number, side) else {
            return Ok(None);
        };
        let Some(start) = place_at(Type1::FRLONG, Type1::FRLAT, self.bytes) else {
            return Ok(None);
        };
        let Some(end) = place_at(Type1::TOLONG, Type1::TOLAT, self.bytes) else {
            return Ok(None);
        };
        let line = line_points(alloc, point_of(start), parts, point_of(end))?;
        Ok(Some(place_along(line.as_slice(), share_of(measure))))
    }
}

/// Returns the points of a segment's line: its start, the points of its shape, its end.
fn line_points<A: Allocator>(
    alloc: A,
    start: Point,
    parts: &[ShapePart],
    end: Point,
) -> Result<Vec<Point, A>, AllocError>
    requires { length parts.now ≤ MAX_LINES_PER_TLID }
    ensures points { IfOk result (λ line. line.items ≡ line_points start parts.now end) }
    ensures several { IfOk result (λ line. 2 ≤ length line.items) }
    ensures few { IfOk result (λ line. length line.items ≤ 10002) }
{
    let mut line = Vec::new(alloc);
    line.push(start)?;
    for part in parts {
        line.extend_from_slice(part.points())?;
    }
    line.push(end)?;
    Ok(line)
}

/// Returns a place that is near as a point.
fn point_of(place: Place) -> Point
    requires { IsNear place }
    ensures { result ≡ point_of place }
{
    Point {
        longitude: place.longitude as i32,
        latitude: place.latitude as i32,
    }
}

/// Returns a house number with the addresses of the side that it lies on, or `None` if it isn't on this side.
fn measure_within(number: u64, side: SideFields<'_>) -> Option<Measure>
    ensures value { result ≡ measure_within number (parts_of side.entry) }
    ensures between { IfSome result IsMeasure }
{
    if lies_on(number, side.from, side.to) {
        measure_on(number, side)
    } else {
        None
    }
}

/// Returns how far the number is from the FR address, as a share of the way to the TO address; nothing of it if the addresses are equal.
fn share_of(measure: Measure) -> Share
    requires { IsMeasure measure }
    ensures value { result ≡ share_of measure }
    ensures some { 1 ≤ result.whole }
    ensures within { result.part ≤ result.whole }
{
    if measure.from == measure.to {
        return Share { part: 0, whole: 1 };
    }
    Share {
        part: measure.number.abs_diff(measure.from),
        whole: measure.to.abs_diff(measure.from),
    }
}
