//! Functions of a segment, which are true, false or NULL.
use crate::geometry::{Bounds, Polygons, Shape};
use crate::number::{HouseNumber, NameLimit};
use crate::text::Text;
use std::alloc::Allocator;

/// A function with its arguments.
#[derive(Drop)]
pub enum Function<A: Allocator> {
    /// The house number lies on some side of some range of the segment.
    HasNumber(HouseNumber),
    /// The segment's own name or one of its first alternate names is this text.
    HasName(Text<A>, NameLimit),
    // Not the segment's shape, whose points programs don't see.
    /// The straight line from the segment's start to its end has a point in common with a shape.
    Intersects(Shape<A>),
    /// The segment starts inside one of these polygons or on its edge.
    StartsIn(Polygons<A>),
    /// The segment starts in a box or on its edge.
    StartsInBounds(Bounds),
    /// The straight line from the segment's start to its end lies in a box, which includes its edge.
    Within(Bounds),
}
