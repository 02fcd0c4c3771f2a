//! Questions whether a segment's line meets a shape.
ghost use Rattle.std.specs.Prelude.{◌≡◌, ◌≤◌, ◌<◌, ◌-◌, ◌++◌, ◌∷◌, [], drop, length};
ghost use Rattle.std.specs.List.{flat_map};
ghost use Rattle.bpf_insn.specs.Code.{word_count};
ghost use Rattle.cql2.specs.Geometry.{edge_of, edges_of_ring, edges_through};
ghost use Rattle.cql2.specs.declared.geometry.Shape.TheVariants as shape_variants;
ghost use Rattle.cql2_code.specs.Function.{asks_meets};
ghost use Rattle.cql2_code.specs.Layout as layout;
ghost use Rattle.cql2_code.specs.Layout.{IsPrepended, Prepends};
ghost use Rattle.cql2_code.specs.Question.{Coded};
ghost use Rattle.cql2_code.specs.ShapeCode as shape_code;
ghost use Rattle.cql2_code.specs.ShapeCode.{edge_code, inside_code, mark_comparison, meets_shape, polygon_code, polygon_edge_code, ring_code};
ghost use Rattle.cql2_code.specs.declared.line.Extent.TheVariants.{Start, Whole};

use crate::bounds::prepend_bounds;
use crate::edges::{BoxEdge, prepend_edge, prepend_polygon_edge};
use crate::fault::CompileFault;
use crate::instructions::{copy, from_argument_1, into_argument_1, into_result};
use crate::line::{Extent, prepend_known_line, prepend_line};
use crate::question::Exits;
use crate::shape_instructions::{combine_number, from_first, into_first, skip_by_number};
use crate::suffix::CodeSuffix;
use bpf_insn::{Insn, Operation};
use cql2::{Comparison, Polygon, Polygons, Shape, Vertex};
use std::alloc::Allocator;

/// Writes the code that asks whether the line from a segment's start to its end meets a shape, or whether it doesn't.
pub(crate) fn prepend_intersects<A: Allocator + Copy>(
    code: &mut CodeSuffix<A>,
    shape: &Shape<A>,
    asked: bool,
    exits: Exits,
) -> Result<(), CompileFault>
    requires { exits.skip ≤ word_count code.old }
    ensures { Prepends result (asks_meets Whole shape.now asked) exits code.old code.new }
{
    let words = code.words();
    prepend_meets(code, shape, exits.if_asked(asked))?;
    let exits = code.exits_before(words, true, exits);
    prepend_known_line(code, Extent::Whole, exits)
}

/// Writes the code that asks whether a segment starts in one of several polygons, or whether it doesn't.
pub(crate) fn prepend_starts_in<A: Allocator + Copy>(
    code: &mut CodeSuffix<A>,
    several: &Polygons<A>,
    asked: bool,
    exits: Exits,
) -> Result<(), CompileFault>
    requires { exits.skip ≤ word_count code.old }
    ensures { Prepends result (asks_meets Start (shape_variants.Polygons several.now) asked) exits code.old code.new }
{
    let words = code.words();
    prepend_start_meets(code, several, exits.if_asked(asked))?;
    let exits = code.exits_before(words, true, exits);
    prepend_known_line(code, Extent::Start, exits)
}

/// Writes the code that decides whether a line meets a shape.
fn prepend_meets<A: Allocator + Copy>(
    code: &mut CodeSuffix<A>,
    shape: &Shape<A>,
    exits: Exits,
) -> Result<(), CompileFault>
    requires { exits.skip ≤ word_count code.old }
    ensures { Prepends result (Coded (meets_shape Whole shape.now)) exits code.old code.new }
{
    prepend_marks(code, exits)?;
    prepend_shape(code, shape)?;
    prepend_line(code, Extent::Whole)
}

/// Writes the code that decides whether a line's start is in one of several polygons.
fn prepend_start_meets<A: Allocator + Copy>(
    code: &mut CodeSuffix<A>,
    several: &Polygons<A>,
    exits: Exits,
) -> Result<(), CompileFault>
    requires { exits.skip ≤ word_count code.old }
    ensures { Prepends result (Coded (meets_shape Start (shape_variants.Polygons several.now))) exits code.old code.new }
{
    prepend_marks(code, exits)?;
    prepend_polygons(code, several)?;
    prepend_line(code, Extent::Start)
}

/// Writes the comparison of the marks with 0.
pub(crate) fn prepend_marks<A: Allocator + Copy>(
    code: &mut CodeSuffix<A>,
    exits: Exits,
) -> Result<(), CompileFault>
    requires { exits.skip ≤ word_count code.old }
    ensures { IsPrepended result (layout.copy shape_code.into_first layout.from_argument_1 ∷ (mark_comparison exits.falls exits.skip ++ code.old)) code.new }
{
    code.prepend_zero_comparison(Comparison::NotEqual, exits)?;
    code.prepend(copy(into_result(), from_first()))?;
    code.prepend(copy(into_first(), from_argument_1()))
}

/// Writes the code that marks that the line meets a shape.
fn prepend_shape<A: Allocator + Copy>(
    code: &mut CodeSuffix<A>,
    shape: &Shape<A>,
) -> Result<(), CompileFault>
    ensures { IsPrepended result (shape_code.shape_code shape.now ++ code.old) code.new }
{
    match shape {
        // An edge from a vertex to itself, so a point needs no code of its own.
        Shape::Point(vertex) => prepend_edge(
            code,
            BoxEdge {
                start: *vertex,
                end: *vertex,
            },
        ),
        Shape::Line(vertices) => prepend_edges(code, vertices.as_slice()),
        Shape::Bounds(bounds) => prepend_bounds(code, *bounds),
        Shape::Polygons(several) => prepend_polygons(code, several),
    }
}

/// Writes the code of the edges of a line through vertices.
fn prepend_edges<A: Allocator + Copy>(
    code: &mut CodeSuffix<A>,
    vertices: &[Vertex],
) -> Result<(), CompileFault>
    ensures { IsPrepended result (flat_map edge_code (edges_through vertices.now) ++ code.old) code.new }
{
    for next in (1..vertices.len()).rev() {
        prepend_edge(code, edge_to(vertices, next))?;
    }
    Ok(())
}

/// Returns the edge from the previous vertex to this one.
fn edge_to(vertices: &[Vertex], next: usize) -> BoxEdge
    requires some { 0 < next }
    requires inside { next < length vertices.now }
    ensures { edges_through (drop (next - 1) vertices.now) ≡ edge_of result.start result.end ∷ edges_through (drop next vertices.now) }
{
    BoxEdge {
        start: vertices[next - 1],
        end: vertices[next],
    }
}

/// Writes the code that marks that the line meets one of several polygons.
fn prepend_polygons<A: Allocator + Copy>(
    code: &mut CodeSuffix<A>,
    several: &Polygons<A>,
) -> Result<(), CompileFault>
    ensures { IsPrepended result (flat_map polygon_code several.now.polygons.items ++ code.old) code.new }
{
    // Edge by edge: programs have no loops that could go over a list of them.
    for polygon in several.polygons.iter().rev() {
        prepend_polygon(code, polygon)?;
    }
    Ok(())
}

/// Writes the code that marks that the line meets a polygon.
fn prepend_polygon<A: Allocator + Copy>(
    code: &mut CodeSuffix<A>,
    polygon: &Polygon<A>,
) -> Result<(), CompileFault>
    ensures { IsPrepended result (polygon_code polygon.now ++ code.old) code.new }
{
    code.prepend_all(&inside())?;
    prepend_rings(code, polygon)
}

/// Returns the code that marks that the line meets a polygon if one of its ends lies inside.
fn inside() -> [Insn; 5]
    ensures { result ≡ inside_code }
{
    [
        copy(into_first(), from_argument_1()),
        // The marks of the rays.
        combine_number(Operation::And, into_first(), 3),
        skip_by_number(Comparison::Equal, from_first(), 0, 1),
        combine_number(Operation::Or, into_argument_1(), 4),
        // The rays of the next polygon begin anew.
        combine_number(Operation::And, into_argument_1(), 4),
    ]
}

/// Writes the code of the edges of a polygon's rings.
fn prepend_rings<A: Allocator + Copy>(
    code: &mut CodeSuffix<A>,
    polygon: &Polygon<A>,
) -> Result<(), CompileFault>
    ensures { IsPrepended result (flat_map ring_code polygon.now.rings.items ++ code.old) code.new }
{
    for ring in polygon.rings.iter().rev() {
        prepend_ring(code, ring.vertices.as_slice())?;
    }
    Ok(())
}

/// Writes the code of a ring's edges, of which the last one closes it.
fn prepend_ring<A: Allocator + Copy>(
    code: &mut CodeSuffix<A>,
    vertices: &[Vertex],
) -> Result<(), CompileFault>
    ensures { IsPrepended result (flat_map polygon_edge_code (edges_of_ring vertices.now) ++ code.old) code.new }
{
    if vertices.is_empty() {
        return Ok(());
    }
    prepend_polygon_edge(code, closing_edge(vertices))?;
    prepend_ring_edges(code, vertices)
}

/// Writes the code of a ring's edges without the one that closes it.
fn prepend_ring_edges<A: Allocator + Copy>(
    code: &mut CodeSuffix<A>,
    vertices: &[Vertex],
) -> Result<(), CompileFault>
    ensures { IsPrepended result (flat_map polygon_edge_code (edges_through vertices.now) ++ code.old) code.new }
{
    for next in (1..vertices.len()).rev() {
        prepend_polygon_edge(code, edge_to(vertices, next))?;
    }
    Ok(())
}

/// Returns the edge that closes a ring.
fn closing_edge(vertices: &[Vertex]) -> BoxEdge
    requires { 0 < length vertices.now }
    ensures { edges_of_ring vertices.now ≡ edges_through vertices.now ++ edge_of result.start result.end ∷ [] }
{
    BoxEdge {
        start: vertices[vertices.len() - 1],
        end: vertices[0],
    }
}
