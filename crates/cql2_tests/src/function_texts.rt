//! Functions of filters as texts: between the vertices of a shape there are commas, between rings `/`, and between polygons `|`. A bound of a box
//! has its femtodegrees after a `+`.
use cql2::{Bound, Bounds, Function, Polygons, Shape, Vertex};
use std::alloc::{AllocError, Global};

/// Appends bytes in Latin-1.
pub(crate) fn push_bytes(text: &mut String, bytes: &[u8]) -> Result<(), AllocError> {
    for byte in bytes {
        text.push(*byte as char)?;
    }
    Ok(())
}

/// Appends a vertex.
fn push_vertex(alloc: Global, text: &mut String, vertex: Vertex) -> Result<(), AllocError> {
    let (longitude, latitude) = (vertex.longitude, vertex.latitude);
    text.push_str(format!(in alloc; "{longitude} {latitude}")?.as_str())
}

/// Appends vertices with commas between them.
fn push_vertices(alloc: Global, text: &mut String, vertices: &[Vertex]) -> Result<(), AllocError> {
    for (index, vertex) in vertices.iter().enumerate() {
        if index > 0 {
            text.push(',')?;
        }
        push_vertex(alloc, text, *vertex)?;
    }
    Ok(())
}

/// Appends the millionths of a bound, and its further femtodegrees if there are any.
fn push_bound(alloc: Global, text: &mut String, bound: Bound) -> Result<(), AllocError> {
    let (millionths, rest) = (bound.millionths, bound.rest);
    if rest == 0 {
        return text.push_str(format!(in alloc; "{millionths}")?.as_str());
    }
    text.push_str(format!(in alloc; "{millionths}+{rest}")?.as_str())
}

/// Appends the southwest and the northeast corner of a box.
fn push_bounds(alloc: Global, text: &mut String, bounds: &Bounds) -> Result<(), AllocError> {
    push_bound(alloc, text, bounds.west)?;
    text.push(' ')?;
    push_bound(alloc, text, bounds.south)?;
    text.push(',')?;
    push_bound(alloc, text, bounds.east)?;
    text.push(' ')?;
    push_bound(alloc, text, bounds.north)
}

/// Appends polygons.
fn push_polygons(
    alloc: Global,
    text: &mut String,
    several: &Polygons<Global>,
) -> Result<(), AllocError> {
    for (index, polygon) in several.polygons.iter().enumerate() {
        if index > 0 {
            text.push('|')?;
        }
        for (index, ring) in polygon.rings.iter().enumerate() {
            if index > 0 {
                text.push('/')?;
            }
            push_vertices(alloc, text, &ring.vertices)?;
        }
    }
    Ok(())
}

/// Appends a shape.
fn push_shape(alloc: Global, text: &mut String, shape: &Shape<Global>) -> Result<(), AllocError> {
    match shape {
        Shape::Point(vertex) => {
            text.push_str("point ")?;
            push_vertex(alloc, text, *vertex)
        }
        Shape::Line(vertices) => {
            text.push_str("line ")?;
            push_vertices(alloc, text, vertices)
        }
        Shape::Bounds(bounds) => {
            text.push_str("box ")?;
            push_bounds(alloc, text, bounds)
        }
        Shape::Polygons(several) => {
            text.push_str("polygons ")?;
            push_polygons(alloc, text, several)
        }
    }
}

/// Appends a function.
pub(crate) fn push_function(
    alloc: Global,
    text: &mut String,
    function: &Function<Global>,
) -> Result<(), AllocError> {
    match function {
        Function::HasNumber(house) => {
            let number = house.number;
            text.push_str(format!(in alloc; "number {number}")?.as_str())
        }
        Function::HasName(name, limit) => {
            let number = limit.number;
            text.push_str(format!(in alloc; "name {number} ")?.as_str())?;
            push_bytes(text, &name.bytes)
        }
        Function::Intersects(shape) => {
            text.push_str("meets ")?;
            push_shape(alloc, text, shape)
        }
        Function::StartsIn(several) => {
            text.push_str("starts ")?;
            push_polygons(alloc, text, several)
        }
        Function::StartsInBounds(bounds) => {
            text.push_str("starts box ")?;
            push_bounds(alloc, text, bounds)
        }
        Function::Within(bounds) => {
            text.push_str("within ")?;
            push_bounds(alloc, text, bounds)
        }
    }
}
