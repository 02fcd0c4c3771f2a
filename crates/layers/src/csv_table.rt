//! Tables in CSV (RFC 4180): a header, and a row for each segment, with its line as Well-Known Text in the column `WKT`.
ghost use Rattle.std.specs.Prelude.{◌≡◌, ◌+◌, ◌≤◌, [], ◌++◌, length};
ghost use Rattle.counted_io.specs.Writing.{WritesText};
ghost use Rattle.csv.specs.Writing.{default_writer, field_text};
ghost use Rattle.layers.specs.CsvTable.{cell_of, columns_text, end_of_header, end_without_line, header_text, names_text};
ghost use Rattle.layers.specs.Value.{parts_of};

use crate::cell::push_cell;
use crate::columns::Columns;
use crate::geometry::Geometry;
use crate::text::{MAX_PIECE_LENGTH, MAX_ROW_LENGTH, RowPiece, push};
use crate::value::{CellValue, value_of};
use counted_io::{CountedWrite, WriteFault, write_text};
use cql2::{Column, MAX_COLUMNS};
use cql2_tokens::column_name;
use itoa::Buffer;
use tl_records::RECORD_LENGTH;

/// Writes the header of a table: the names of its columns. Nothing is retried, and nothing is flushed.
pub(crate) fn write_header<W: CountedWrite>(
    columns: &Columns,
    geometry: Geometry,
    out: &mut W,
) -> Result<(), WriteFault>
    ensures { WritesText (header_text (record { columns = columns.now; geometry = geometry })) result (W.writer out.old) (W.writer out.new) }
{
    let mut piece = RowPiece::new();
    push_names(columns.as_slice(), &mut piece);
    push(end_of_header(geometry), &mut piece);
    write_text(out, piece.as_slice())
}

/// Appends the names of the score and of the columns.
#[tactic(auto, using(crate::proofs::NameLemmas::name_short), unfolding(csv::specs::Writing::fields_text))]
fn push_names(columns: &[Column], piece: &mut RowPiece)
    requires empty { piece.old.items ≡ [] }
    requires few { length columns.now ≤ MAX_COLUMNS }
    ensures text { piece.new.items ≡ names_text columns.now }
    ensures short { length piece.new.items ≤ MAX_ROW_LENGTH }
{
    // No county's code, which isn't in the record. A caller with several counties can write it before each row.
    push(b"score", piece);
    for column in columns {
        push(b",", piece);
        push(column_name(*column).as_bytes(), piece);
    }
}

/// Returns the end of the header.
fn end_of_header(geometry: Geometry) -> &'static [u8]
    ensures text { result.now ≡ end_of_header geometry }
    ensures short { length result.now ≤ 5 }
{
    match geometry {
        Geometry::None => b"\n",
        Geometry::Line | Geometry::Shape => b",WKT\n",
    }
}

/// Appends the score and the values of columns, with which a row starts.
#[tactic(auto, unfolding(csv::specs::Writing::fields_text))]
pub(crate) fn push_columns(score: u64, columns: &[Column], line: &[u8], piece: &mut RowPiece)
    requires empty { piece.old.items ≡ [] }
    requires few { length columns.now ≤ MAX_COLUMNS }
    requires whole { length line.now ≡ RECORD_LENGTH }
    ensures text { piece.new.items ≡ columns_text score columns.now line.now }
    ensures short { length piece.new.items ≤ MAX_ROW_LENGTH }
{
    push_cell(Buffer::new().format(score).as_bytes(), piece);
    for column in columns {
        push(b",", piece);
        push_value(value_of(*column, line), piece);
    }
}

/// Appends a value; a missing one is an empty cell.
fn push_value(value: CellValue, piece: &mut RowPiece)
    requires { length piece.old.items + 122 ≤ MAX_PIECE_LENGTH }
    ensures text { piece.new.items ≡ piece.old.items ++ field_text default_writer (cell_of (parts_of value)) }
    ensures short { length piece.new.items ≤ length piece.old.items + 122 }
{
    match value {
        CellValue::Missing => {}
        CellValue::Text(bytes) => push_cell(bytes.as_slice(), piece),
        CellValue::Number(bytes) => push_cell(bytes.as_slice(), piece),
    }
}

/// Returns the end of a row that has no line.
pub(crate) fn end_without_line(geometry: Geometry) -> &'static [u8]
    ensures text { result.now ≡ end_without_line geometry }
    ensures short { length result.now ≤ 2 }
{
    match geometry {
        Geometry::None => b"\n",
        Geometry::Line | Geometry::Shape => b",\n",
    }
}
