//! Features of GeoJSON (RFC 7946), one on each line, with their score and their columns as properties.
ghost use Rattle.std.specs.Prelude.{◌≡◌, ◌+◌, ◌≤◌, [], ◌++◌, length};
ghost use Rattle.layers.specs.Feature.{end_without_line, feature_start, member_text, value_text};
ghost use Rattle.layers.specs.Value.{parts_of};

use crate::string::push_string;
use crate::text::{MAX_COLUMN_LENGTH, MAX_PIECE_LENGTH, MAX_ROW_LENGTH, RowPiece, push};
use crate::value::{CellValue, value_of};
use cql2::{Column, MAX_COLUMNS};
use cql2_tokens::column_name;
use itoa::Buffer;
use tl_records::RECORD_LENGTH;

/// Appends the start of a feature, with its score and its columns.
pub(crate) fn push_start(score: u64, columns: &[Column], line: &[u8], piece: &mut RowPiece)
    requires empty { piece.old.items ≡ [] }
    requires few { length columns.now ≤ MAX_COLUMNS }
    requires whole { length line.now ≡ RECORD_LENGTH }
    ensures text { piece.new.items ≡ feature_start score columns.now line.now }
    ensures short { length piece.new.items ≤ MAX_ROW_LENGTH }
{
    // A line has no record separator before it (RFC 8142), as jq, tippecanoe and BigQuery need. A feature has no `id`, as a TLID may come twice.
    push(b"{\"type\":\"Feature\",\"properties\":{\"score\":", piece);
    push(Buffer::new().format(score).as_bytes(), piece);
    for column in columns {
        push_member(*column, line, piece);
    }
}

/// Appends the member of a column.
fn push_member(column: Column, line: &[u8], piece: &mut RowPiece)
    requires room { length piece.old.items + MAX_COLUMN_LENGTH ≤ MAX_PIECE_LENGTH }
    requires whole { length line.now ≡ RECORD_LENGTH }
    ensures text { piece.new.items ≡ piece.old.items ++ member_text column line.now }
    ensures short { length piece.new.items ≤ length piece.old.items + MAX_COLUMN_LENGTH }
{
    push(b",\"", piece);
    push(column_name(column).as_bytes(), piece);
    push(b"\":", piece);
    push_value(value_of(column, line), piece);
}

/// Appends a value; a missing one is null.
fn push_value(value: CellValue, piece: &mut RowPiece)
    requires { length piece.old.items + 362 ≤ MAX_PIECE_LENGTH }
    ensures text { piece.new.items ≡ piece.old.items ++ value_text (parts_of value) }
    ensures short { length piece.new.items ≤ length piece.old.items + 362 }
{
    match value {
        CellValue::Missing => push(b"null", piece),
        CellValue::Text(bytes) => push_string(bytes.as_slice(), piece),
        CellValue::Number(bytes) => push(bytes.as_slice(), piece),
    }
}

/// Returns the end of a feature that has no line.
pub(crate) fn end_without_line() -> &'static [u8]
    ensures text { result.now ≡ end_without_line }
    ensures short { length result.now ≤ 32 }
{
    b"},\"geometry\":null}\n"
}
