//! The code of an edge of a shape.
//!
//! An edge is tested by itself, as programs have no loops: a shape's code is the code of its edges, one after the other.
//!
//! How far a point lies across a line is a cross product; its sign says on which side. A line meets an edge unless both its ends lie on one side of
//! the edge, both ends of the edge on one side of the line, or the line beyond the edge in one of the four directions. That last test settles
//! collinear ones. For a polygon, a ray from each end of the line counts crossings, by parity.
//!
//! Always: register 1 has the marks, 1 and 2 while the ray from the start and from the end has crossed an odd number of edges, 4 once the line meets
//! the shape; registers 7, 8, 9 and 5 have the line's ends; 2 to 4 are free. Vertices have at most nine digits, so every product and difference fits
//! in 64 bits. Numbers such as 9 and 28 are lengths of the code that a jump skips.
ghost use Rattle.std.specs.Prelude.{◌≡◌, ◌≤◌, ◌++◌, int_lt, if◌then◌else◌};
ghost use Rattle.std.specs.Int.{int_max, int_min};
ghost use Rattle.bpf_insn.specs.Arithmetic.{immediate_operand};
ghost use Rattle.cql2.specs.declared.filter.Comparison.TheVariants.{GreaterOrEqual, LessOrEqual};
ghost use Rattle.cql2.specs.Geometry.{eastward, edge_of, northward, point_of};
ghost use Rattle.cql2_code.specs.ShapeCode as shape_code;
ghost use Rattle.cql2_code.specs.ShapeCode.{across_by, beside_by, edge_code, end_across, marks_met, meets_code, point_across, polygon_edge_code};
ghost use Rattle.cql2_code.specs.ShapeCode.{limits_of, ray_code, rays_code, sides_code, start_across, unless_beyond};
ghost use Rattle.cql2_code.specs.Layout.{IsPrepended, wide_load};

use crate::fault::CompileFault;
use crate::instructions::{copy, from_result, from_saved, into_argument_1, wide_load};
use crate::shape_instructions::{
    combine, combine_number, from_end_latitude, from_first, from_second, from_side, into_first,
    into_second, into_side, skip, skip_by_number,
};
use crate::suffix::CodeSuffix;
use bpf_insn::{Insn, Operation, Register};
use cql2::{Comparison, Vertex};
use std::alloc::Allocator;

/// An edge of a shape.
#[derive(Clone, Copy)]
pub(crate) struct BoxEdge {
    pub start: Vertex,
    pub end: Vertex,
}

/// The range of an edge's longitudes and latitudes.
#[derive(Clone, Copy)]
pub(crate) struct EdgeLimits {
    pub west: i32,
    pub east: i32,
    pub south: i32,
    pub north: i32,
}

/// Returns how far an edge goes to the east.
fn eastward(edge: BoxEdge) -> i32
    ensures { result ≡ eastward (edge_of edge.start edge.end) }
{
    (edge.end.longitude - edge.start.longitude) as i32
}

/// Returns how far an edge goes to the north.
fn northward(edge: BoxEdge) -> i32
    ensures { result ≡ northward (edge_of edge.start edge.end) }
{
    (edge.end.latitude - edge.start.latitude) as i32
}

/// Returns the lesser longitude of an edge's ends.
fn west(edge: BoxEdge) -> i32
    ensures { result ≡ int_min edge.start.longitude edge.end.longitude }
{
    edge.start.longitude.min(edge.end.longitude) as i32
}

/// Returns the greater longitude of an edge's ends.
fn east(edge: BoxEdge) -> i32
    ensures { result ≡ int_max edge.start.longitude edge.end.longitude }
{
    edge.start.longitude.max(edge.end.longitude) as i32
}

/// Returns the lesser latitude of an edge's ends.
fn south(edge: BoxEdge) -> i32
    ensures { result ≡ int_min edge.start.latitude edge.end.latitude }
{
    edge.start.latitude.min(edge.end.latitude) as i32
}

/// Returns the greater latitude of an edge's ends.
fn north(edge: BoxEdge) -> i32
    ensures { result ≡ int_max edge.start.latitude edge.end.latitude }
{
    edge.start.latitude.max(edge.end.latitude) as i32
}

/// Returns the range of an edge's longitudes and latitudes.
fn limits_of(edge: BoxEdge) -> EdgeLimits
    ensures { result ≡ limits_of (edge_of edge.start edge.end) }
{
    EdgeLimits {
        west: west(edge),
        east: east(edge),
        south: south(edge),
        north: north(edge),
    }
}

/// Returns the comparison that holds unless an end of the line lies to the west of an edge, by how far the end and the edge's start lie across it.
fn east_comparison(edge: BoxEdge) -> Comparison
    ensures { result ≡ (if int_lt edge.start.latitude edge.end.latitude then LessOrEqual else GreaterOrEqual) }
{
    if edge.start.latitude < edge.end.latitude {
        Comparison::LessOrEqual
    } else {
        Comparison::GreaterOrEqual
    }
}

/// Returns the code that leaves in register 3 how far an end of the line lies across an edge, by the edge's direction and the end's registers.
fn end_across(east: i32, north: i32, longitude: Register, latitude: Register) -> [Insn; 5]
    ensures { result ≡ across_by east north longitude latitude }
{
    [
        copy(into_first(), latitude),
        combine_number(Operation::Multiply, into_first(), east),
        copy(into_second(), longitude),
        combine_number(Operation::Multiply, into_second(), north),
        combine(Operation::Subtract, into_first(), from_second()),
    ]
}

/// Writes the code that leaves how far an end of the line lies across an edge in register 3.
fn prepend_across<A: Allocator + Copy>(
    code: &mut CodeSuffix<A>,
    edge: BoxEdge,
    longitude: Register,
    latitude: Register,
) -> Result<(), CompileFault>
    ensures { IsPrepended result (end_across (edge_of edge.start edge.end) longitude latitude ++ code.old) code.new }
{
    code.prepend_all(&end_across(eastward(edge), northward(edge), longitude, latitude))
}

/// Returns how far an edge's start lies across it.
fn start_across(edge: BoxEdge) -> i64
    ensures { result ≡ start_across (edge_of edge.start edge.end) }
{
    // Coordinates have at most nine digits, so this fits in 64 bits.
    let east = (edge.end.longitude - edge.start.longitude) * edge.start.latitude;
    let north = (edge.end.latitude - edge.start.latitude) * edge.start.longitude;
    east - north
}

/// Loads how far an edge's start lies across it into register 4.
fn load_start(edge: BoxEdge) -> Insn
    ensures { result ≡ wide_load shape_code.into_second (immediate_operand (start_across (edge_of edge.start edge.end))) }
{
    wide_load(into_second(), start_across(edge).cast_unsigned())
}

/// Writes the code that leaves how far the line's ends and an edge's start lie across the edge in registers 2 to 4.
fn prepend_sides<A: Allocator + Copy>(
    code: &mut CodeSuffix<A>,
    edge: BoxEdge,
) -> Result<(), CompileFault>
    ensures { IsPrepended result (sides_code (edge_of edge.start edge.end) ++ code.old) code.new }
{
    code.prepend(load_start(edge))?;
    prepend_across(code, edge, from_saved(2), from_end_latitude())?;
    code.prepend(copy(into_side(), from_first()))?;
    prepend_across(code, edge, from_saved(0), from_saved(1))
}

/// Returns the code that exchanges a mark if the ray from an end of the line crosses an edge.
fn ray(edge: BoxEdge, latitude: Register, side: Register, mark: i32) -> [Insn; 4]
    ensures { result ≡ ray_code (edge_of edge.start edge.end) latitude side mark }
{
    [
        // An edge has its lower end and not its upper one, so a ray through a vertex crosses one of its two edges.
        skip_by_number(Comparison::Less, latitude, south(edge), 3),
        skip_by_number(Comparison::GreaterOrEqual, latitude, north(edge), 2),
        skip(east_comparison(edge), side, from_second(), 1),
        combine_number(Operation::ExclusiveOr, into_argument_1(), mark),
    ]
}

/// Writes the code that exchanges the marks of the rays that cross an edge.
fn prepend_rays<A: Allocator + Copy>(
    code: &mut CodeSuffix<A>,
    edge: BoxEdge,
) -> Result<(), CompileFault>
    ensures { IsPrepended result (rays_code (edge_of edge.start edge.end) ++ code.old) code.new }
{
    code.prepend_all(&ray(edge, from_end_latitude(), from_first(), 2))?;
    code.prepend_all(&ray(edge, from_saved(1), from_side(), 1))
}

/// Returns the code that leaves in register 3 how far a point lies across the line.
pub(crate) fn point_across(longitude: i32, latitude: i32) -> [Insn; 7]
    ensures { result ≡ point_across (record { longitude = longitude; latitude = latitude }) }
{
    [
        copy(into_first(), from_saved(2)),
        combine(Operation::Subtract, into_first(), from_saved(0)),
        combine_number(Operation::Multiply, into_first(), latitude),
        copy(into_second(), from_end_latitude()),
        combine(Operation::Subtract, into_second(), from_saved(1)),
        combine_number(Operation::Multiply, into_second(), longitude),
        combine(Operation::Subtract, into_first(), from_second()),
    ]
}

/// Returns the code that leaves in register 3 how far a vertex lies across the line.
fn vertex_across(vertex: Vertex) -> [Insn; 7]
    ensures { result ≡ point_across (point_of vertex) }
{
    point_across(vertex.longitude as i32, vertex.latitude as i32)
}

/// Returns the code that skips words if the numbers in registers 2 and 3 are both greater than another, or both less.
fn skip_beside(other: Register, words: u8) -> [Insn; 4]
    requires { words ≤ 28 }
    ensures { result ≡ beside_by other words }
{
    [
        skip(Comparison::LessOrEqual, from_side(), other, 1),
        skip(Comparison::Greater, from_first(), other, words + 2),
        skip(Comparison::GreaterOrEqual, from_side(), other, 1),
        skip(Comparison::Less, from_first(), other, words),
    ]
}

/// Returns the code that marks that the line meets a shape, unless both of the line's ends lie beyond limits in one of the four directions.
pub(crate) fn marks_unless_beyond(limits: EdgeLimits) -> [Insn; 9]
    ensures { result ≡ unless_beyond limits marks_met }
{
    let EdgeLimits {
        west,
        east,
        south,
        north,
    } = limits;
    [
        skip_by_number(Comparison::GreaterOrEqual, from_saved(0), west, 1),
        skip_by_number(Comparison::Less, from_saved(2), west, 7),
        skip_by_number(Comparison::LessOrEqual, from_saved(0), east, 1),
        skip_by_number(Comparison::Greater, from_saved(2), east, 5),
        skip_by_number(Comparison::GreaterOrEqual, from_saved(1), south, 1),
        skip_by_number(Comparison::Less, from_end_latitude(), south, 3),
        skip_by_number(Comparison::LessOrEqual, from_saved(1), north, 1),
        skip_by_number(Comparison::Greater, from_end_latitude(), north, 1),
        combine_number(Operation::Or, into_argument_1(), 4),
    ]
}

/// Returns the code that marks that the line meets an edge, unless it lies beyond the edge in one of the four directions.
fn mark_meeting(edge: BoxEdge) -> [Insn; 9]
    ensures { result ≡ unless_beyond (limits_of (edge_of edge.start edge.end)) marks_met }
{
    marks_unless_beyond(limits_of(edge))
}

/// Writes the code that marks that the line meets an edge.
fn prepend_meets<A: Allocator + Copy>(
    code: &mut CodeSuffix<A>,
    edge: BoxEdge,
) -> Result<(), CompileFault>
    ensures { IsPrepended result (meets_code (edge_of edge.start edge.end) ++ code.old) code.new }
{
    code.prepend_all(&mark_meeting(edge))?;
    // Past the marks, which take 9 words.
    code.prepend_all(&skip_beside(from_result(), 9))?;
    code.prepend_all(&vertex_across(edge.end))?;
    code.prepend(copy(into_side(), from_first()))?;
    code.prepend_all(&vertex_across(edge.start))?;
    // Past everything above: 7 + 1 + 7 + 4 + 9 words.
    code.prepend_all(&skip_beside(from_second(), 28))
}

/// Writes the code of an edge.
pub(crate) fn prepend_edge<A: Allocator + Copy>(
    code: &mut CodeSuffix<A>,
    edge: BoxEdge,
) -> Result<(), CompileFault>
    ensures { IsPrepended result (edge_code (edge_of edge.start edge.end) ++ code.old) code.new }
{
    prepend_meets(code, edge)?;
    prepend_sides(code, edge)
}

/// Writes the code of a polygon's edge.
pub(crate) fn prepend_polygon_edge<A: Allocator + Copy>(
    code: &mut CodeSuffix<A>,
    edge: BoxEdge,
) -> Result<(), CompileFault>
    ensures { IsPrepended result (polygon_edge_code (edge_of edge.start edge.end) ++ code.old) code.new }
{
    prepend_meets(code, edge)?;
    prepend_rays(code, edge)?;
    prepend_sides(code, edge)
}
