//! Lines of points, as a row or a feature ends with them.
ghost use Rattle.std.specs.Prelude.{◌≡◌, ◌+◌, ◌≤◌, [], ◌++◌, length, All};
ghost use Rattle.std.specs.List.{flat_map};
ghost use Rattle.counted_io.specs.Writing.{WritesText};
ghost use Rattle.layers.specs.Geometry.{AreEnds};
ghost use Rattle.layers.specs.Line.{coordinates_text, further_points, line_end, line_start, point_text, rest_text, start_text};
ghost use Rattle.tl_segments.specs.Shape.{IsPoint};

use crate::ends::Ends;
use crate::text::{MAX_PIECE_LENGTH, MAX_ROW_LENGTH, RowPiece, push, push_degrees};
use counted_io::{CountedWrite, WriteFault, write_text};
use tl_segments::{Point, ShapePart};

/// The greatest number of bytes of a point.
const MAX_POINT_LENGTH: usize = 59;

/// How a line is written.
#[derive(Clone, Copy)]
pub(crate) enum Notation {
    WellKnownText,
    GeoJson,
}

impl Notation {
    /// Returns the text before the first point.
    fn start(self) -> &'static [u8]
        ensures text { result.now ≡ line_start self }
        ensures short { length result.now ≤ 64 }
    {
        match self {
            Notation::WellKnownText => b",\"LINESTRING (",
            Notation::GeoJson => b"},\"geometry\":{\"type\":\"LineString\",\"coordinates\":[",
        }
    }

    /// Returns the text after the last point.
    fn end(self) -> &'static [u8]
        ensures text { result.now ≡ line_end self }
        ensures short { length result.now ≤ 4 }
    {
        match self {
            Notation::WellKnownText => b")\"\n",
            Notation::GeoJson => b"]}}\n",
        }
    }
}

/// Writes a row or a feature that ends in a line. The piece has the text before the line.
#[tactic(auto, using(crate::proofs::WritingLemmas::first_failed))]
pub(crate) fn write_line<W: CountedWrite>(
    notation: Notation,
    ends: Ends,
    between: &[ShapePart],
    piece: &mut RowPiece,
    out: &mut W,
) -> Result<(), WriteFault>
    requires room { length piece.old.items ≤ MAX_ROW_LENGTH }
    requires ends { AreEnds ends }
    ensures { WritesText (piece.old.items ++ start_text notation ends.start ++ rest_text notation between.now ends.end) result
        (W.writer out.old) (W.writer out.new) }
{
    push(notation.start(), piece);
    push_point(notation, ends.start, piece);
    write_text(out, piece.as_slice())?;
    write_rest(notation, between, ends.end, piece, out)
}

/// Writes the line after its first point, and the end of the row.
#[tactic(auto, using(crate::proofs::WritingLemmas::first_failed))]
fn write_rest<W: CountedWrite>(
    notation: Notation,
    between: &[ShapePart],
    end: Point,
    piece: &mut RowPiece,
    out: &mut W,
) -> Result<(), WriteFault>
    requires { IsPoint end }
    ensures { WritesText (rest_text notation between.now end) result (W.writer out.old) (W.writer out.new) }
{
    write_parts(notation, between, piece, out)?;
    piece.clear();
    push(b",", piece);
    push_point(notation, end, piece);
    push(notation.end(), piece);
    write_text(out, piece.as_slice())
}

/// Writes the points of a shape, a piece for each part.
#[tactic(auto, using(crate::proofs::WritingLemmas::piece_stopped, crate::proofs::WritingLemmas::piece_written))]
fn write_parts<W: CountedWrite>(
    notation: Notation,
    parts: &[ShapePart],
    piece: &mut RowPiece,
    out: &mut W,
) -> Result<(), WriteFault>
    ensures { WritesText (flat_map (λ part. further_points notation part.points) parts.now) result (W.writer out.old) (W.writer out.new) }
{
    // One part of a shape at a time, so that the buffer has a fixed size and nothing is allocated, however many points there are.
    for part in parts {
        piece.clear();
        push_points(notation, part.points(), piece);
        write_text(out, piece.as_slice())?;
    }
    Ok(())
}

/// Appends points, each after a comma.
fn push_points(notation: Notation, points: &[Point], piece: &mut RowPiece)
    requires empty { piece.old.items ≡ [] }
    requires few { length points.now ≤ 10 }
    requires small { All IsPoint points.now }
    ensures text { piece.new.items ≡ further_points notation points.now }
    ensures short { length piece.new.items ≤ 600 }
{
    for point in points {
        push(b",", piece);
        push_point(notation, *point, piece);
    }
}

/// Appends a point.
fn push_point(notation: Notation, point: Point, piece: &mut RowPiece)
    requires room { length piece.old.items + MAX_POINT_LENGTH ≤ MAX_PIECE_LENGTH }
    requires small { IsPoint point }
    ensures text { piece.new.items ≡ piece.old.items ++ point_text notation point }
    ensures short { length piece.new.items ≤ length piece.old.items + MAX_POINT_LENGTH }
{
    match notation {
        Notation::WellKnownText => push_coordinates(point, b' ', piece),
        Notation::GeoJson => {
            piece.push(b'[');
            push_coordinates(point, b',', piece);
            piece.push(b']');
        }
    }
}

/// Appends the longitude and the latitude of a point with a byte between them.
fn push_coordinates(point: Point, between: u8, piece: &mut RowPiece)
    requires room { length piece.old.items + 57 ≤ MAX_PIECE_LENGTH }
    requires small { IsPoint point }
    ensures text { piece.new.items ≡ piece.old.items ++ coordinates_text between point }
    ensures short { length piece.new.items ≤ length piece.old.items + 57 }
{
    push_degrees(point.longitude, piece);
    piece.push(between);
    push_degrees(point.latitude, piece);
}
