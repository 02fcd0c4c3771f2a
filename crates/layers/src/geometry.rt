//! The geometry of a segment.
ghost use Rattle.std.specs.Prelude.{◌≡◌, length, IfSome};
ghost use Rattle.layers.specs.Geometry.{AreEnds, ends_for, inner_parts};

use crate::ends::Ends;
use tl_records::RECORD_LENGTH;
use tl_segments::ShapePart;

/// The geometry that is written of each segment.
#[derive(Clone, Copy, PartialEq, Eq)]
pub enum Geometry {
    None,
    /// A line from the start to the end.
    Line,
    /// A line from the start along the shape points to the end.
    Shape,
}

impl Geometry {
    /// Returns the ends of the line that is written of the segment with this record, or `None` if none is.
    pub(crate) fn ends(self, line: &[u8]) -> Option<Ends>
        requires { length line.now ≡ RECORD_LENGTH }
        ensures value { result ≡ ends_for self line.now }
        ensures small { IfSome result AreEnds }
    {
        match self {
            Geometry::None => None,
            Geometry::Line | Geometry::Shape => Ends::of(line),
        }
    }

    /// Returns the parts of the shape that are written between the ends.
    pub(crate) fn inner_parts(self, shape: &[ShapePart]) -> &[ShapePart]
        ensures { result.now ≡ inner_parts self shape.now }
    {
        match self {
            Geometry::None | Geometry::Line => &[],
            Geometry::Shape => shape,
        }
    }
}
