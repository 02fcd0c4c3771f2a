//! The format of tables and features.
ghost use Rattle.std.specs.Prelude.{◌≡◌, ◌≤◌, [], length, MatchOption};
ghost use Rattle.layers.specs.FeatureWriter.{end_without_line, parts_in, start_of};
ghost use Rattle.layers.specs.Layer.{Rows, shape_in};
ghost use Rattle.layers.specs.LayerParts.{parts_of};
ghost use Rattle.tl_segments.specs.Shapes.{table_of};

use crate::columns::Columns;
use crate::geometry::Geometry;
use crate::layer::{Layer, TableOptions};
use crate::line::{Notation, write_line};
use crate::text::{MAX_ROW_LENGTH, RowPiece, push};
use crate::{csv_table, feature_lines};
use counted_io::{CountedWrite, WriteFault, write_text};
use cql2::{Column, MAX_COLUMNS};
use extract::Format;
use std::alloc::Allocator;
use tl_fields::number;
use tl_records::{RECORD_LENGTH, Type1};
use tl_segments::{Segment, ShapePart, Shapes};

/// The format of a table or of features, with the shapes of a county's segments and a buffer, in which a row is collected up to its line. Without
/// shapes, segments are straight.
#[derive(Drop)]
pub(crate) struct FeatureWriter<A: Allocator> {
    notation: Notation,
    columns: Columns,
    geometry: Geometry,
    shapes: Option<Shapes<A>>,
    piece: RowPiece,
}

impl<A: Allocator> FeatureWriter<A> {
    /// Returns the format of a layer, or `None` if it consists of rows.
    pub fn of(layer: &Layer, shapes: Option<Shapes<A>>) -> Option<Self>
        ensures { MatchOption result (parts_of layer.now ≡ Rows)
            (λ writer. (parts_in writer ≡ parts_of layer.now) × (writer.shapes ≡ shapes)) }
    {
        match layer {
            Layer::Rows => None,
            Layer::Table(options) => Some(Self::new(Notation::WellKnownText, options, shapes)),
            Layer::Features(options) => Some(Self::new(Notation::GeoJson, options, shapes)),
        }
    }

    fn new(notation: Notation, options: &TableOptions, shapes: Option<Shapes<A>>) -> Self
        ensures notation { result.notation ≡ notation }
        ensures columns { result.columns ≡ options.now.columns }
        ensures geometry { result.geometry ≡ options.now.geometry }
        ensures shapes { result.shapes ≡ shapes }
    {
        FeatureWriter {
            notation,
            columns: options.columns.copied(),
            geometry: options.geometry,
            shapes,
            piece: RowPiece::new(),
        }
    }
}

impl<A: Allocator> Format for FeatureWriter<A> {
    ghost use Rattle.layers.specs.FeatureWriter.{format_of};

    ghost text_of = { format_of };

    fn reads_record_alone(&self) -> bool {
        true
    }

    #[inline(always)]
    fn write_segment<B: Allocator, W: CountedWrite>(
        &mut self,
        score: u64,
        segment: &Segment<B>,
        out: &mut W,
    ) -> Result<(), WriteFault> {
        let line = segment.bytes();
        self.piece.clear();
        push_start(
            self.notation,
            score,
            self.columns.as_slice(),
            line,
            &mut self.piece,
        );
        match self.geometry.ends(line) {
            Some(ends) => {
                let shape = shape_of(&self.shapes, line);
                let between = self.geometry.inner_parts(shape);
                write_line(self.notation, ends, between, &mut self.piece, out)
            }
            None => {
                push(
                    end_without_line(self.notation, self.geometry),
                    &mut self.piece,
                );
                write_text(out, self.piece.as_slice())
            }
        }
    }
}

/// Appends the score and the columns.
fn push_start(notation: Notation, score: u64, columns: &[Column], line: &[u8], piece: &mut RowPiece)
    requires empty { piece.old.items ≡ [] }
    requires few { length columns.now ≤ MAX_COLUMNS }
    requires whole { length line.now ≡ RECORD_LENGTH }
    ensures text { piece.new.items ≡ start_of notation score columns.now line.now }
    ensures short { length piece.new.items ≤ MAX_ROW_LENGTH }
{
    match notation {
        Notation::WellKnownText => csv_table::push_columns(score, columns, line, piece),
        Notation::GeoJson => feature_lines::push_start(score, columns, line, piece),
    }
}

/// Returns the end of a row or a feature that has no line.
fn end_without_line(notation: Notation, geometry: Geometry) -> &'static [u8]
    ensures text { result.now ≡ end_without_line notation geometry }
    ensures short { length result.now ≤ 32 }
{
    match notation {
        Notation::WellKnownText => csv_table::end_without_line(geometry),
        Notation::GeoJson => feature_lines::end_without_line(),
    }
}

/// Returns the parts of the shape of the segment with this record.
fn shape_of<'s, A: Allocator>(shapes: &'s Option<Shapes<A>>, line: &[u8]) -> &'s [ShapePart]
    requires { length line.now ≡ RECORD_LENGTH }
    ensures { result.now ≡ shape_in (table_of shapes.now) line.now }
{
    let Some(shapes) = shapes else {
        return &[];
    };
    match number(Type1::TLID.of(line)) {
        Some(tlid) => shapes.parts(tlid),
        None => &[],
    }
}
