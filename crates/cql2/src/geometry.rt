//! Geometries in a filter, in millionths of a degree (NAD83).
ghost use Rattle.std.specs.Prelude.{◌<◌, ◌≤◌, ◌^◌, ◌≤ℤ◌, unsigned_abs};
ghost use Rattle.cql2.specs.Femtodegrees.{in_femtodegrees};

use std::alloc::Allocator;

// Rounded to the unit of the files, so that tests of it fit in 64 bits.
/// A vertex of a geometry. Its coordinates have at most nine digits, as those of a record.
#[derive(Clone, Copy)]
pub struct Vertex {
    pub longitude: i64,
    pub latitude: i64,
    ghost longitude_fits: { unsigned_abs longitude < 10 ^ 9 },
    ghost latitude_fits: { unsigned_abs latitude < 10 ^ 9 },
}

// Not rounded to the unit of the files: the edges of the box would move.
/// A bound of a box: a longitude or latitude, exact to 15 decimals of a degree.
#[derive(Clone, Copy)]
pub struct Bound {
    /// Whole millionths of a degree, rounded down.
    pub millionths: i64,
    /// The femtodegrees beyond them, of which 10⁹ make a millionth of a degree.
    pub rest: u32,
    ghost millionths_fit: { unsigned_abs millionths ≤ 10 ^ 9 },
    ghost rest_fits: { rest < 10 ^ 9 },
}

/// A box, which doesn't cross the 180th meridian.
#[derive(Clone, Copy)]
pub struct Bounds {
    pub west: Bound,
    pub south: Bound,
    pub east: Bound,
    pub north: Bound,
    ghost longitudes: { in_femtodegrees west.millionths west.rest ≤ℤ in_femtodegrees east.millionths east.rest },
    ghost latitudes: { in_femtodegrees south.millionths south.rest ≤ℤ in_femtodegrees north.millionths north.rest },
}

/// A closed line through vertices: from each to the next, and from the last back to the first.
#[derive(Drop)]
pub struct Ring<A: Allocator> {
    pub vertices: Vec<Vertex, A>,
}

/// A polygon, bounded by its rings: an outer one, and one around each hole.
#[derive(Drop)]
pub struct Polygon<A: Allocator> {
    pub rings: Vec<Ring<A>, A>,
}

/// Polygons. A point lies in them if it lies in one of them.
#[derive(Drop)]
pub struct Polygons<A: Allocator> {
    pub polygons: Vec<Polygon<A>, A>,
}

/// A shape that a segment's line may meet.
#[derive(Drop)]
pub enum Shape<A: Allocator> {
    Point(Vertex),
    /// A line through vertices, from each to the next.
    Line(Vec<Vertex, A>),
    Bounds(Bounds),
    Polygons(Polygons<A>),
}
