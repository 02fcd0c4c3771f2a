//! The ends of a segment.
ghost use Rattle.std.specs.Prelude.{◌≡◌, length, IfSome};
ghost use Rattle.tl_records.specs.Layout.{IsWithin};
ghost use Rattle.tl_segments.specs.Shape.{IsPoint};

use tl_fields::coordinate;
use tl_records::{Places, RECORD_LENGTH, Type1};
use tl_segments::Point;

/// The start and the end of a segment.
#[derive(Clone, Copy)]
pub(crate) struct Ends {
    pub start: Point,
    pub end: Point,
}

impl Ends {
    ghost use Rattle.layers.specs.Geometry.{AreEnds, ends_of, point_at};

    /// Returns the ends of the segment with this record, or `None` if one has no coordinates.
    pub(crate) fn of(line: &[u8]) -> Option<Ends>
        requires { length line.now ≡ RECORD_LENGTH }
        ensures value { result ≡ ends_of line.now }
        ensures small { IfSome result AreEnds }
    {
        Some(Ends {
            start: Self::point_at(Type1::FRLONG, Type1::FRLAT, line)?,
            end: Self::point_at(Type1::TOLONG, Type1::TOLAT, line)?,
        })
    }

    /// Returns the point whose coordinates are in these columns, or `None` if one of them isn't there.
    fn point_at(longitude: Places, latitude: Places, line: &[u8]) -> Option<Point>
        requires longitude { IsWithin longitude (length line.now) }
        requires latitude { IsWithin latitude (length line.now) }
        ensures value { result ≡ point_at longitude latitude line.now }
        ensures small { IfSome result (λ point. IsPoint point) }
    {
        Some(Point {
            longitude: coordinate(longitude.of(line))? as i32,
            latitude: coordinate(latitude.of(line))? as i32,
        })
    }
}
