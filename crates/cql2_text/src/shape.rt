//! Shapes.
ghost use Rattle.std.specs.Prelude.{◌≡◌, ◌<◌, ◌+◌, ◌^◌, ℤ, nat_le, unsigned_abs, map, List, IfOk, MatchOption, MatchResult};
ghost use Rattle.cql2.specs.Geometry.{femtodegrees};
ghost use Rattle.cql2_text.specs.Corners.{AreSmall, IsOrdered, numbers_of};
ghost use Rattle.cql2_text.specs.Geometry.{AreCorners, Box, InParentheses, IsBox, IsCorner, ShapeContent, SpellsShape, SpellsTaggedShape};
ghost use Rattle.cql2_text.specs.Geometry.{box_of, points_of_ring, rings_of, shape_content, vertices_of};
ghost use Rattle.cql2_text.specs.Geometry.{vertices_of_polygon, vertices_of_polygons};
ghost use Rattle.cql2_text.specs.Read.{IsReadAs};
ghost use Rattle.cql2_tokens.specs.declared.token.Token.{Token};

use crate::coordinates::{after_commas, line, point, polygon, polygons};
use crate::fault::{Construct, FilterFaultKind};
use crate::operand::number;
use crate::syntax_fault::SyntaxFault;
use crate::terminal::{Terminal, expect, next};
use crate::unit::Unit;
use cql2::{Bound, Bounds, Literal, Polygon, Polygons, Ring, Shape};
use cql2_tokens::{Keyword, ShapeTag, Token};
use std::alloc::Allocator;

// An edge of a polygon takes 53 words, so such a shape still fits in a program.
/// The maximum number of vertices in a shape.
pub const MAX_VERTICES: usize = 1000;

/// The number of femtodegrees in a millionth of a degree.
const MILLIONTH: i64 = 1_000_000_000;

/// The corners of a box, in femtodegrees.
#[derive(Clone, Copy)]
pub(crate) struct Corners {
    pub west: Literal,
    pub south: Literal,
    pub east: Literal,
    pub north: Literal,
}

/// Reads a shape.
pub(crate) fn shape<'a, A: Allocator + Copy>(
    alloc: A,
    words: &'a [Token<'a>],
    expected: Construct,
) -> Result<(Shape<A>, &'a [Token<'a>]), SyntaxFault>
    ensures ok { IfOk result (λ read. SpellsShape words.now read.1.now (shape_content read.0)) }
    ensures reads { (rest : List Token) (content : ShapeContent) → SpellsShape words.now rest content
        → IsReadAs shape_content result rest content }
{
    match next(words) {
        Some((Token::Keyword(Keyword::Shape(tag)), after)) => {
            let (shape, rest) = tagged_shape(alloc, tag, after)?;
            if has_few_vertices(&shape) {
                Ok((shape, rest))
            } else {
                Err(SyntaxFault::at(words, FilterFaultKind::ManyVertices))
            }
        }
        _ => Err(SyntaxFault::unexpected_token(words, expected)),
    }
}

/// Reads a shape after its tag.
fn tagged_shape<'a, A: Allocator + Copy>(
    alloc: A,
    tag: ShapeTag,
    words: &'a [Token<'a>],
) -> Result<(Shape<A>, &'a [Token<'a>]), SyntaxFault>
    ensures ok { IfOk result (λ read. SpellsTaggedShape tag words.now read.1.now (shape_content read.0)) }
    ensures reads { (rest : List Token) (content : ShapeContent) → SpellsTaggedShape tag words.now rest content
        → IsReadAs shape_content result rest content }
{
    match tag {
        ShapeTag::Point => {
            let (vertex, rest) = point(words)?;
            Ok((Shape::Point(vertex), rest))
        }
        ShapeTag::LineString => {
            let (vertices, rest) = line(alloc, words)?;
            Ok((Shape::Line(vertices), rest))
        }
        ShapeTag::Polygon => {
            let (polygon, rest) = polygon(alloc, words)?;
            // A list of one, so the compiler has one case for both.
            let mut polygons = Vec::new(alloc);
            polygons.push(polygon)?;
            Ok((Shape::Polygons(Polygons { polygons }), rest))
        }
        ShapeTag::MultiPolygon => {
            let (several, rest) = polygons(alloc, words)?;
            Ok((Shape::Polygons(several), rest))
        }
        ShapeTag::Bbox => {
            let (bounds, rest) = bounds(words)?;
            Ok((Shape::Bounds(bounds), rest))
        }
    }
}

/// Reads a box that isn't turned around, after its tag.
pub(crate) fn bounds<'a>(words: &'a [Token<'a>]) -> Result<(Bounds, &'a [Token<'a>]), SyntaxFault>
    ensures ok { IfOk result (λ read. IsBox words.now read.1.now (box_of read.0)) }
    ensures reads { (rest : List Token) (box : Box) → IsBox words.now rest box
        → MatchResult result (λ read. (read.1.now ≡ rest) × (box_of read.0 ≡ box)) (λ fault. ⊥) }
{
    let (corners, rest) = bbox(words)?;
    if corners.west.number > corners.east.number {
        let east = after_commas(words, 2);
        return Err(SyntaxFault::at(east, FilterFaultKind::NumberRange));
    }
    if corners.south.number > corners.north.number {
        let north = after_commas(words, 3);
        return Err(SyntaxFault::at(north, FilterFaultKind::NumberRange));
    }
    Ok((bounds_of(corners), rest))
}

/// Returns a box by its corners.
fn bounds_of(corners: Corners) -> Bounds
    requires small { AreSmall corners }
    requires ordered { IsOrdered corners }
    ensures { box_of result ≡ numbers_of corners }
{
    Bounds {
        west: bound_of(corners.west),
        south: bound_of(corners.south),
        east: bound_of(corners.east),
        north: bound_of(corners.north),
    }
}

/// Returns a number of femtodegrees as a bound.
fn bound_of(number: Literal) -> Bound
    requires { unsigned_abs number.number < 10 ^ 18 }
    ensures { femtodegrees result ≡ number.number }
{
    Bound {
        // Rounded down also below zero, so the rest isn't negative.
        millionths: number.number.div_euclid(MILLIONTH),
        rest: number.number.rem_euclid(MILLIONTH) as u32,
    }
}

/// Reads the southwest and the northeast corner of a box, in parentheses.
fn bbox<'a>(words: &'a [Token<'a>]) -> Result<(Corners, &'a [Token<'a>]), SyntaxFault>
    ensures ok { IfOk result (λ read. InParentheses AreCorners words.now read.1.now (numbers_of read.0)) }
    ensures small { IfOk result (λ read. AreSmall read.0) }
    ensures reads { (rest : List Token) (box : Box) → InParentheses AreCorners words.now rest box
        → MatchResult result (λ read. (read.1.now ≡ rest) × (numbers_of read.0 ≡ box)) (λ fault. ⊥) }
{
    let inner = expect(words, Terminal::Opening)?;
    let (west, south, rest) = corner(inner)?;
    let rest = expect(rest, Terminal::Comma)?;
    let (east, north, rest) = corner(rest)?;
    let rest = expect(rest, Terminal::Closing)?;
    let corners = Corners {
        west,
        south,
        east,
        north,
    };
    Ok((corners, rest))
}

/// Reads a longitude and a latitude with a comma between them.
fn corner<'a>(words: &'a [Token<'a>]) -> Result<(Literal, Literal, &'a [Token<'a>]), SyntaxFault>
    ensures ok { IfOk result (λ read. IsCorner words.now read.2.now read.0.number read.1.number) }
    ensures x_fits { IfOk result (λ read. unsigned_abs read.0.number < 10 ^ 18) }
    ensures y_fits { IfOk result (λ read. unsigned_abs read.1.number < 10 ^ 18) }
    ensures reads { (rest : List Token) (x y : ℤ) → IsCorner words.now rest x y
        → MatchResult result (λ read. (read.2.now ≡ rest) × (read.0.number ≡ x) × (read.1.number ≡ y)) (λ fault. ⊥) }
{
    let (x, rest) = number(Unit::Femtodegrees, words)?;
    let rest = expect(rest, Terminal::Comma)?;
    let (y, rest) = number(Unit::Femtodegrees, rest)?;
    Ok((x, y, rest))
}

/// Returns whether a shape has at most the maximum number of vertices.
fn has_few_vertices<A: Allocator>(shape: &Shape<A>) -> bool
    ensures { result ≡ nat_le (vertices_of (shape_content shape.now)) MAX_VERTICES }
{
    match shape {
        Shape::Point(_vertex) => true,
        Shape::Line(vertices) => vertices.len() <= MAX_VERTICES,
        Shape::Bounds(_bounds) => true,
        Shape::Polygons(several) => left_after_polygons(&several.polygons, MAX_VERTICES).is_some(),
    }
}

/// Returns how many of `most` vertices are left after those of the polygons, if those are not more.
fn left_after_polygons<A: Allocator>(polygons: &[Polygon<A>], most: usize) -> Option<usize>
    ensures { MatchOption result (most < vertices_of_polygons (map rings_of polygons.now))
        (λ left. left + vertices_of_polygons (map rings_of polygons.now) ≡ most) }
{
    let mut left = most;
    let mut rest = polygons;
    while let Some((polygon, after)) = rest.split_first() {
        left = left_after_rings(&polygon.rings, left)?;
        rest = after;
    }
    Some(left)
}

/// Returns how many of `most` vertices are left after those of the rings, if those are not more.
fn left_after_rings<A: Allocator>(rings: &[Ring<A>], most: usize) -> Option<usize>
    ensures { MatchOption result (most < vertices_of_polygon (map points_of_ring rings.now))
        (λ left. left + vertices_of_polygon (map points_of_ring rings.now) ≡ most) }
{
    let mut left = most;
    let mut rest = rings;
    while let Some((ring, after)) = rest.split_first() {
        left = left.checked_sub(ring.vertices.len())?;
        rest = after;
    }
    Some(left)
}
