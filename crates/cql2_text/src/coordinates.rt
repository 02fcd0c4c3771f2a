//! Coordinates of shapes.
ghost use Rattle.std.specs.Prelude.{◌≡◌, ◌<◌, ◌↔◌, ◌^◌, ℤ, IsTrue, List, length, unsigned_abs, IfOk, IfSome, MatchResult};
ghost use Rattle.cql2.specs.Geometry.{Point as APoint, point_of};
ghost use Rattle.cql2_text.specs.Geometry.{ArePolygons, AreItems, InParentheses, IsCoordinate, IsLine, IsPolygon, IsPosition, IsRing};
ghost use Rattle.cql2_text.specs.Geometry.{points_of, points_of_ring, polygons_of, rings_of};
ghost use Rattle.cql2_text.specs.Read.{IsReadAs};
ghost use Rattle.cql2_tokens.specs.declared.token.Token.{Token};

use crate::fault::Construct;
use crate::literal::coordinate_of;
use crate::operand::numeral;
use crate::syntax_fault::SyntaxFault;
use crate::terminal::{Terminal, expect, next};
use cql2::{Literal, Polygon, Polygons, Ring, Vertex};
use cql2_tokens::Token;
use std::alloc::Allocator;

/// The minimum number of positions in a line.
const MIN_LINE_POSITIONS: usize = 2;
/// The minimum number of positions in a ring, of which the last one closes it.
const MIN_RING_POSITIONS: usize = 4;

/// Reads one coordinate of a position.
fn coordinate<'a>(words: &'a [Token<'a>]) -> Result<(Literal, &'a [Token<'a>]), SyntaxFault>
    ensures ok { IfOk result (λ read. IsCoordinate words.now read.1.now read.0.number) }
    ensures small { IfOk result (λ read. unsigned_abs read.0.number < 10 ^ 9) }
    ensures reads { (rest : List Token) (number : ℤ) → IsCoordinate words.now rest number
        → MatchResult result (λ read. (read.1.now ≡ rest) × (read.0.number ≡ number)) (λ fault. ⊥) }
{
    let (numeral, rest) = numeral(words)?;
    match coordinate_of(numeral) {
        Ok(number) => Ok((Literal { number }, rest)),
        Err(flaw) => Err(SyntaxFault::at(words, flaw)),
    }
}

/// Reads a position: a longitude and a latitude.
fn position<'a>(words: &'a [Token<'a>]) -> Result<(Vertex, &'a [Token<'a>]), SyntaxFault>
    ensures ok { IfOk result (λ read. IsPosition words.now read.1.now (point_of read.0)) }
    ensures reads { (rest : List Token) (point : APoint) → IsPosition words.now rest point
        → MatchResult result (λ read. (read.1.now ≡ rest) × (point_of read.0 ≡ point)) (λ fault. ⊥) }
{
    let (longitude, rest) = coordinate(words)?;
    let (latitude, rest) = coordinate(rest)?;
    Ok((
        Vertex {
            longitude: longitude.number,
            latitude: latitude.number,
        },
        rest,
    ))
}

/// Reads a position in parentheses.
pub(crate) fn point<'a>(words: &'a [Token<'a>]) -> Result<(Vertex, &'a [Token<'a>]), SyntaxFault>
    ensures ok { IfOk result (λ read. InParentheses IsPosition words.now read.1.now (point_of read.0)) }
    ensures reads { (rest : List Token) (point : APoint) → InParentheses IsPosition words.now rest point
        → MatchResult result (λ read. (read.1.now ≡ rest) × (point_of read.0 ≡ point)) (λ fault. ⊥) }
{
    let inner = expect(words, Terminal::Opening)?;
    let (vertex, rest) = position(inner)?;
    let rest = expect(rest, Terminal::Closing)?;
    Ok((vertex, rest))
}

/// Reads positions in parentheses.
fn positions<'a, A: Allocator + Copy>(
    alloc: A,
    words: &'a [Token<'a>],
) -> Result<(Vec<Vertex, A>, &'a [Token<'a>]), SyntaxFault>
    ensures ok { IfOk result (λ read. InParentheses (AreItems IsPosition) words.now read.1.now (points_of read.0.items)) }
    ensures reads { (rest : List Token) (points : List APoint) → InParentheses (AreItems IsPosition) words.now rest points
        → IsReadAs (λ vertices. points_of vertices.items) result rest points }
{
    let inner = expect(words, Terminal::Opening)?;
    let (first, mut rest) = position(inner)?;
    let mut vertices = Vec::new(alloc);
    vertices.push(first)?;
    while let Some((Token::Comma, after)) = next(rest) {
        let (vertex, after) = position(after)?;
        vertices.push(vertex)?;
        rest = after;
    }
    let rest = expect(rest, Terminal::Closing)?;
    Ok((vertices, rest))
}

/// Reads the positions of a line in parentheses.
pub(crate) fn line<'a, A: Allocator + Copy>(
    alloc: A,
    words: &'a [Token<'a>],
) -> Result<(Vec<Vertex, A>, &'a [Token<'a>]), SyntaxFault>
    ensures ok { IfOk result (λ read. IsLine words.now read.1.now (points_of read.0.items)) }
    ensures reads { (rest : List Token) (points : List APoint) → IsLine words.now rest points
        → IsReadAs (λ vertices. points_of vertices.items) result rest points }
{
    let (vertices, rest) = positions(alloc, words)?;
    if vertices.len() < MIN_LINE_POSITIONS {
        return Err(SyntaxFault::before(rest, Construct::Comma));
    }
    Ok((vertices, rest))
}

/// Reads the positions of a ring in parentheses, the last of which has to be the first one.
fn ring<'a, A: Allocator + Copy>(
    alloc: A,
    words: &'a [Token<'a>],
) -> Result<(Ring<A>, &'a [Token<'a>]), SyntaxFault>
    ensures ok { IfOk result (λ read. IsRing words.now read.1.now (points_of_ring read.0)) }
    ensures reads { (rest : List Token) (points : List APoint) → IsRing words.now rest points
        → IsReadAs points_of_ring result rest points }
{
    let (mut vertices, rest) = positions(alloc, words)?;
    if vertices.len() < MIN_RING_POSITIONS {
        return Err(SyntaxFault::before(rest, Construct::Comma));
    }
    match vertices.pop() {
        // The closing vertex isn't kept, as a ring has an edge from its last vertex to its first.
        Some(last) if is_same(vertices[0], last) => Ok((Ring { vertices }, rest)),
        _ => {
            let closing = after_commas(words, vertices.len());
            Err(SyntaxFault::unexpected_token(closing, Construct::FirstPoint))
        }
    }
}

/// Returns whether two vertices are the same point.
fn is_same(vertex: Vertex, other: Vertex) -> bool
    ensures { IsTrue result ↔ (point_of vertex ≡ point_of other) }
{
    vertex.longitude == other.longitude && vertex.latitude == other.latitude
}

/// Returns the tokens after this many commas.
pub(crate) fn after_commas<'a>(words: &'a [Token<'a>], count: usize) -> &'a [Token<'a>] {
    let mut rest = words;
    for _ in 0..count {
        rest = after_comma(rest);
    }
    rest
}

/// Returns the tokens after the first comma.
fn after_comma<'a>(words: &'a [Token<'a>]) -> &'a [Token<'a>] {
    match comma(words) {
        Some(index) => &words[index + 1..],
        None => &[],
    }
}

/// Returns the index of the first comma.
fn comma(words: &[Token]) -> Option<usize>
    ensures { IfSome result (λ index. index < length words.now) }
{
    words.iter().position(|token| matches!(token, Token::Comma))
}

/// Reads the rings of a polygon in parentheses.
pub(crate) fn polygon<'a, A: Allocator + Copy>(
    alloc: A,
    words: &'a [Token<'a>],
) -> Result<(Polygon<A>, &'a [Token<'a>]), SyntaxFault>
    ensures ok { IfOk result (λ read. IsPolygon words.now read.1.now (rings_of read.0)) }
    ensures reads { (rest : List Token) (rings : List (List APoint)) → IsPolygon words.now rest rings
        → IsReadAs rings_of result rest rings }
{
    let inner = expect(words, Terminal::Opening)?;
    let (first, mut rest) = ring(alloc, inner)?;
    let mut rings = Vec::new(alloc);
    rings.push(first)?;
    while let Some((Token::Comma, after)) = next(rest) {
        let (second, after) = ring(alloc, after)?;
        rings.push(second)?;
        rest = after;
    }
    let rest = expect(rest, Terminal::Closing)?;
    Ok((Polygon { rings }, rest))
}

/// Reads polygons in parentheses.
pub(crate) fn polygons<'a, A: Allocator + Copy>(
    alloc: A,
    words: &'a [Token<'a>],
) -> Result<(Polygons<A>, &'a [Token<'a>]), SyntaxFault>
    ensures ok { IfOk result (λ read. ArePolygons words.now read.1.now (polygons_of read.0)) }
    ensures reads { (rest : List Token) (several : List (List (List APoint))) → ArePolygons words.now rest several
        → IsReadAs polygons_of result rest several }
{
    let inner = expect(words, Terminal::Opening)?;
    let (first, mut rest) = polygon(alloc, inner)?;
    let mut polygons = Vec::new(alloc);
    polygons.push(first)?;
    while let Some((Token::Comma, after)) = next(rest) {
        let (second, after) = polygon(alloc, after)?;
        polygons.push(second)?;
        rest = after;
    }
    let rest = expect(rest, Terminal::Closing)?;
    Ok((Polygons { polygons }, rest))
}
