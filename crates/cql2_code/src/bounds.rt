//! The code of a box.
//!
//! Its bounds have up to 15 decimals and aren't rounded to the files' unit, as its edges would move. A segment's own coordinates are whole millionths
//! of a degree. So wherever a coordinate is compared with a bound, the bound can be rounded inwards without changing an answer. A corner's distance
//! across the line is a product and can't be: a corner with a rest is computed in two parts, whole millionths and femtodegrees, and rounded down and
//! up, which brackets it. A line meets a box if it meets an edge or has an end inside.
//!
//! Always: an edge is a box without width or height that goes east or north, so a line that isn't beyond it doesn't lie beside it. The numbers of
//! words in jumps are sums of the lengths of the parts that follow; whoever changes a part changes them. As everywhere in this crate, the code is
//! written from its end to its front, so a function's last statement writes the words that run first.
ghost use Rattle.std.specs.Prelude.{◌≡◌, ◌≤◌, ◌++◌, ◌==◌, ◌&&◌};
ghost use Rattle.std.specs.List.{flat_map};
ghost use Rattle.bpf_insn.specs.Code.{word_count};
ghost use Rattle.cql2_code.specs.ShapeCode as shape_code;
ghost use Rattle.cql2_code.specs.ShapeCode.{add_across, both_lie_by, bounds_code, bounds_edge_code, corner_across, corners_across, ends_code, inner_limits};
ghost use Rattle.cql2_code.specs.ShapeCode.{marks_met, outside_by, point_across, rectangles_of, rest_point, round_first, rounded_across, rounded_up};
ghost use Rattle.cql2_code.specs.ShapeCode.{rounding_shift, unless_outside, whole_point};
ghost use Rattle.cql2_code.specs.Layout.{IsPrepended};
ghost use Rattle.cql2_code.specs.declared.bounds.Rounding.TheVariants as rounding_variants;

use crate::edges::{EdgeLimits, marks_unless_beyond, point_across};
use crate::fault::CompileFault;
use crate::instructions::{copy, from_result, from_saved, into_argument_1, wide_load};
use crate::question::opposite;
use crate::shape_instructions::{
    combine, combine_number, from_end_latitude, from_first, from_second, from_side, into_first,
    into_second, into_side, skip, skip_by_number,
};
use crate::suffix::CodeSuffix;
use bpf_insn::{Insn, Operation, Register};
use cql2::{Bound, Bounds, Comparison};
use std::alloc::Allocator;

/// How femtodegrees are rounded to whole millionths of a degree.
#[derive(Clone, Copy)]
enum Rounding {
    Down,
    Up,
}

/// A corner of a box.
#[derive(Clone, Copy)]
struct Corner {
    longitude: Bound,
    latitude: Bound,
}

/// An edge of a box, as a box with no width or no height.
#[derive(Clone, Copy)]
struct Rectangle {
    west: Bound,
    south: Bound,
    east: Bound,
    north: Bound,
}

/// Writes the code that marks that the line meets a box.
pub(crate) fn prepend_bounds<A: Allocator + Copy>(
    code: &mut CodeSuffix<A>,
    bounds: Bounds,
) -> Result<(), CompileFault>
    ensures { IsPrepended result (bounds_code bounds ++ code.old) code.new }
{
    prepend_edges(code, bounds)?;
    // A line inside of the box meets none of its edges.
    prepend_ends(code, bounds)
}

/// Writes the code that marks that the line meets an edge of a box.
fn prepend_edges<A: Allocator + Copy>(
    code: &mut CodeSuffix<A>,
    bounds: Bounds,
) -> Result<(), CompileFault>
    ensures { IsPrepended result (flat_map bounds_edge_code (rectangles_of bounds) ++ code.old) code.new }
{
    prepend_edge(code, west_edge(bounds))?;
    prepend_edge(code, north_edge(bounds))?;
    prepend_edge(code, east_edge(bounds))?;
    prepend_edge(code, south_edge(bounds))
}

/// Writes the code that marks that the line's start or its end lies in a box.
fn prepend_ends<A: Allocator + Copy>(
    code: &mut CodeSuffix<A>,
    bounds: Bounds,
) -> Result<(), CompileFault>
    ensures { IsPrepended result (ends_code bounds ++ code.old) code.new }
{
    prepend_end_in(code, bounds, from_saved(2), from_end_latitude())?;
    prepend_end_in(code, bounds, from_saved(0), from_saved(1))
}

/// Writes the code that marks that an end of the line lies in a box, by that end's registers.
pub(crate) fn prepend_end_in<A: Allocator + Copy>(
    code: &mut CodeSuffix<A>,
    bounds: Bounds,
    longitude: Register,
    latitude: Register,
) -> Result<(), CompileFault>
    ensures { IsPrepended result (unless_outside bounds longitude latitude marks_met ++ code.old) code.new }
{
    code.prepend(combine_number(Operation::Or, into_argument_1(), 4))?;
    code.prepend_all(&outside(bounds, longitude, latitude, 1))
}

/// Returns the code that skips words unless an end of the line lies in a box, by that end's registers.
pub(crate) fn outside(
    bounds: Bounds,
    longitude: Register,
    latitude: Register,
    words: u8,
) -> [Insn; 4]
    requires { words ≤ 5 }
    ensures { result ≡ outside_by bounds longitude latitude words }
{
    // The ends of a line are whole millionths, so moving a bound inwards to the next one changes no answer.
    let west = rounded_up(bounds.west);
    let east = bounds.east.millionths as i32;
    let south = rounded_up(bounds.south);
    let north = bounds.north.millionths as i32;
    [
        skip_by_number(Comparison::Less, longitude, west, words + 3),
        skip_by_number(Comparison::Greater, longitude, east, words + 2),
        skip_by_number(Comparison::Less, latitude, south, words + 1),
        skip_by_number(Comparison::Greater, latitude, north, words),
    ]
}

/// Returns the least whole number of millionths of a degree that isn't below a bound.
fn rounded_up(bound: Bound) -> i32
    ensures { result ≡ rounded_up bound }
{
    if bound.rest == 0 {
        bound.millionths as i32
    } else {
        bound.millionths as i32 + 1
    }
}

/// Returns the south edge of a box.
fn south_edge(bounds: Bounds) -> Rectangle
    ensures { result ≡ shape_code.south_edge bounds }
{
    Rectangle {
        west: bounds.west,
        south: bounds.south,
        east: bounds.east,
        north: bounds.south,
    }
}

/// Returns the east edge of a box.
fn east_edge(bounds: Bounds) -> Rectangle
    ensures { result ≡ shape_code.east_edge bounds }
{
    Rectangle {
        west: bounds.east,
        south: bounds.south,
        east: bounds.east,
        north: bounds.north,
    }
}

/// Returns the north edge of a box.
fn north_edge(bounds: Bounds) -> Rectangle
    ensures { result ≡ shape_code.north_edge bounds }
{
    Rectangle {
        west: bounds.west,
        south: bounds.north,
        east: bounds.east,
        north: bounds.north,
    }
}

/// Returns the west edge of a box.
fn west_edge(bounds: Bounds) -> Rectangle
    ensures { result ≡ shape_code.west_edge bounds }
{
    Rectangle {
        west: bounds.west,
        south: bounds.south,
        east: bounds.west,
        north: bounds.north,
    }
}

/// Writes the code that marks that the line meets an edge of a box.
fn prepend_edge<A: Allocator + Copy>(
    code: &mut CodeSuffix<A>,
    edge: Rectangle,
) -> Result<(), CompileFault>
    ensures { IsPrepended result (bounds_edge_code edge ++ code.old) code.new }
{
    code.prepend_all(&marks_unless_beyond(inner_limits(edge)))?;
    // Past the marks, which take 9 words.
    code.prepend_all(&both_lie(Comparison::Less, 9))?;
    prepend_corners(code, Rounding::Down, edge)?;
    // Past the corners, the comparison above (2 words) and the marks (9).
    code.prepend_all(&both_lie(Comparison::Greater, corners_words(edge) + 11))?;
    prepend_corners(code, Rounding::Up, edge)
}

/// Returns the range of whole millionths of a degree that lie in an edge's range of longitudes and latitudes.
fn inner_limits(edge: Rectangle) -> EdgeLimits
    ensures { result ≡ inner_limits edge }
{
    EdgeLimits {
        west: rounded_up(edge.west),
        east: edge.east.millionths as i32,
        south: rounded_up(edge.south),
        north: edge.north.millionths as i32,
    }
}

/// Returns the code that skips words if the numbers in registers 2 and 3 both compare with register 0 like this.
fn both_lie(comparison: Comparison, words: u8) -> [Insn; 2]
    ensures { result ≡ both_lie_by comparison words }
{
    [
        skip(opposite(comparison), from_side(), from_result(), 1),
        skip(comparison, from_first(), from_result(), words),
    ]
}

/// Returns the corner where an edge starts.
fn southwest(edge: Rectangle) -> Corner
    ensures { result ≡ shape_code.southwest edge }
{
    Corner {
        longitude: edge.west,
        latitude: edge.south,
    }
}

/// Returns the corner where an edge ends.
fn northeast(edge: Rectangle) -> Corner
    ensures { result ≡ shape_code.northeast edge }
{
    Corner {
        longitude: edge.east,
        latitude: edge.north,
    }
}

/// Writes the code that leaves in registers 2 and 3 how far an edge's start and end lie across the line.
fn prepend_corners<A: Allocator + Copy>(
    code: &mut CodeSuffix<A>,
    rounding: Rounding,
    edge: Rectangle,
) -> Result<(), CompileFault>
    ensures { IsPrepended result (corners_across rounding edge ++ code.old) code.new }
{
    prepend_corner(code, rounding, northeast(edge))?;
    code.prepend(copy(into_side(), from_first()))?;
    prepend_corner(code, rounding, southwest(edge))
}

/// Returns the number of words in the code of an edge's corners.
fn corners_words(edge: Rectangle) -> u8
    ensures value { result ≡ word_count (corners_across rounding_variants.Down edge) }
    ensures few { result ≤ 43 }
{
    corner_words(southwest(edge)) + 1 + corner_words(northeast(edge))
}

/// Returns whether a corner's coordinates are whole millionths of a degree.
fn is_whole(corner: Corner) -> bool
    ensures { result ≡ (corner.longitude.rest == 0 && corner.latitude.rest == 0) }
{
    corner.longitude.rest == 0 && corner.latitude.rest == 0
}

/// Returns the number of words in a corner's code.
fn corner_words(corner: Corner) -> u8
    ensures value { result ≡ word_count (corner_across rounding_variants.Down corner) }
    ensures few { result ≤ 21 }
{
    // 7 words for the rests, 6 for rounding, 8 for the whole millionths.
    if is_whole(corner) { 7 } else { 21 }
}

/// Writes the code that leaves in register 3 how far a corner lies across the line, rounded to whole millionths.
fn prepend_corner<A: Allocator + Copy>(
    code: &mut CodeSuffix<A>,
    rounding: Rounding,
    corner: Corner,
) -> Result<(), CompileFault>
    ensures { IsPrepended result (corner_across rounding corner ++ code.old) code.new }
{
    if is_whole(corner) {
        return code.prepend_all(&point_across(
            corner.longitude.millionths as i32,
            corner.latitude.millionths as i32,
        ));
    }
    prepend_rounded(code, rounding, corner)
}

/// Writes this code for a corner with rests.
fn prepend_rounded<A: Allocator + Copy>(
    code: &mut CodeSuffix<A>,
    rounding: Rounding,
    corner: Corner,
) -> Result<(), CompileFault>
    ensures { IsPrepended result (rounded_across rounding corner ++ code.old) code.new }
{
    code.prepend_all(&add_whole(corner))?;
    code.prepend_all(&round_first(rounding))?;
    code.prepend_all(&rest_across(corner))
}

/// Returns the code that leaves in register 3 how far the rests of a corner's coordinates lie across the line.
fn rest_across(corner: Corner) -> [Insn; 7]
    ensures { result ≡ point_across (rest_point corner) }
{
    point_across(corner.longitude.rest as i32, corner.latitude.rest as i32)
}

/// Returns the code that adds to register 3 how far the whole millionths of a corner's coordinates do.
fn add_whole(corner: Corner) -> [Insn; 8]
    ensures { result ≡ add_across (whole_point corner) }
{
    add_across(
        corner.longitude.millionths as i32,
        corner.latitude.millionths as i32,
    )
}

/// Returns the code that adds to register 3 how far a point lies across the line.
fn add_across(longitude: i32, latitude: i32) -> [Insn; 8]
    ensures { result ≡ add_across (record { longitude = longitude; latitude = latitude }) }
{
    [
        copy(into_second(), from_saved(2)),
        combine(Operation::Subtract, into_second(), from_saved(0)),
        combine_number(Operation::Multiply, into_second(), latitude),
        combine(Operation::Add, into_first(), from_second()),
        copy(into_second(), from_end_latitude()),
        combine(Operation::Subtract, into_second(), from_saved(1)),
        combine_number(Operation::Multiply, into_second(), longitude),
        combine(Operation::Subtract, into_first(), from_second()),
    ]
}

/// Returns the code that divides register 3 by 10⁹, rounded.
fn round_first(rounding: Rounding) -> [Insn; 5]
    ensures { result ≡ round_first rounding }
{
    [
        // A quotient is rounded towards zero, which is down if no number is negative.
        wide_load(into_second(), rounding_shift(rounding)),
        combine(Operation::Add, into_first(), from_second()),
        combine_number(Operation::SignedDivide, into_first(), 1_000_000_000),
        // Two subtractions, as an immediate has 32 bits.
        combine_number(Operation::Subtract, into_first(), 2_000_000_000),
        combine_number(Operation::Subtract, into_first(), 2_000_000_000),
    ]
}

/// Returns the number that is added before the division: a multiple of 10⁹ that leaves no number negative, and the rest for rounding up.
fn rounding_shift(rounding: Rounding) -> u64
    ensures { result ≡ rounding_shift rounding }
{
    match rounding {
        Rounding::Down => 4_000_000_000_000_000_000,
        Rounding::Up => 4_000_000_000_999_999_999,
    }
}
