//! Points of a segment's shape.
ghost use Rattle.std.specs.Prelude.{◌≡◌, ◌<◌, ◌≤◌, length, All, Some, IfSome};
ghost use Rattle.tl_segments.specs.Shape.{IsPoint, part_in, point_at, points_in, sequence_in};

use arrayvec::ArrayVec;
use std::marker::Model;
use tl_fields::coordinate;
use tl_records::{Rt2, Type2};

/// A point of a segment's shape, in millionths of a degree.
#[derive(Clone, Copy, Debug, Default, PartialEq, Eq)]
pub struct Point {
    pub longitude: i32,
    pub latitude: i32,
}

/// The points of one type 2 line, at most ten. Contracts see it as a record with the fields `sequence`, the number in the line's RTSQ, and `points`.
#[derive(Drop)]
pub struct ShapePart {
    sequence: u16,
    points: ArrayVec<Point, 10>,
}

impl Model for ShapePart {
    ghost use Rattle.std.specs.Prelude.{All};
    ghost use Rattle.tl_segments.specs.Shape.{IsPoint, ShapePartParts};

    ghost Value = { ShapePartParts };

    ghost view = { λ part. record { sequence = part.sequence; points = part.points.items } };

    ghost invariant = { λ part. All IsPoint part.points.items };
}

impl ShapePart {
    /// Reads a line's points.
    pub(crate) fn of(rt2: &Rt2<'_>) -> Self
        ensures value { result ≡ part_in rt2.now.bytes }
        ensures has { sequence_in rt2.now.bytes ≡ Some result.sequence }
        ensures small { result.sequence < 1000 }
    {
        ShapePart {
            sequence: rt2.sequence(),
            points: points_in(rt2),
        }
    }

    #[inline]
    pub(crate) fn sequence(&self) -> u16
        ensures { result ≡ self.now.sequence }
    {
        self.sequence
    }

    /// Returns the points in the order of the line's fields.
    #[inline]
    pub fn points(&self) -> &[Point]
        ensures value { result.now ≡ self.now.points }
        ensures few { length result.now ≤ Type2.POINTS }
        ensures small { All IsPoint result.now }
    {
        self.points.as_slice()
    }
}

/// Returns the points of a line, which end before the first unused one.
fn points_in(rt2: &Rt2<'_>) -> ArrayVec<Point, 10>
    ensures value { result.items ≡ points_in rt2.now.bytes }
    ensures small { All IsPoint result.items }
{
    let mut points = ArrayVec::new();
    for index in 0..Type2::POINTS {
        let Some(point) = point_at(rt2, index + 1) else {
            // As GDAL's driver for these files has it. Passing over unused points would draw another line.
            return points;
        };
        points.push(point);
    }
    points
}

/// Returns point `n` of a line, counted from 1, or `None` if it is unused: both coordinates are 0, or one is missing.
fn point_at(rt2: &Rt2<'_>, n: usize) -> Option<Point>
    requires first { 1 ≤ n }
    requires last { n ≤ Type2.POINTS }
    ensures value { result ≡ point_at rt2.now.bytes n }
    ensures small { IfSome result IsPoint }
{
    let longitude = coordinate(rt2.field(Type2::longitude(n)))?;
    let latitude = coordinate(rt2.field(Type2::latitude(n)))?;
    if longitude == 0 && latitude == 0 {
        return None;
    }
    Some(Point {
        longitude: longitude as i32,
        latitude: latitude as i32,
    })
}
