//! Cells of CSV (RFC 4180, section 2).
ghost use Rattle.std.specs.Prelude.{[], ◌≡◌, ◌+◌, ◌*◌, ◌≤◌, ◌∷◌, ◌++◌, length};
ghost use Rattle.csv.specs.Writing.{default_writer, escaped, field_text, needs_quotes, quoted};

use crate::text::{MAX_PIECE_LENGTH, RowPiece, push};

/// Appends a cell. It is quoted if it has a comma, a quotation mark or a line end.
pub(crate) fn push_cell(cell: &[u8], piece: &mut RowPiece)
    requires { length piece.old.items + 2 * length cell.now + 2 ≤ MAX_PIECE_LENGTH }
    ensures text { piece.new.items ≡ piece.old.items ++ field_text default_writer cell.now }
    ensures short { length piece.new.items ≤ length piece.old.items + 2 * length cell.now + 2 }
{
    if needs_quotes(cell) {
        push_quoted(cell, piece);
    } else {
        push(cell, piece);
    }
}

/// Returns whether a cell has a comma, a quotation mark or a line end.
fn needs_quotes(cell: &[u8]) -> bool
    ensures { result ≡ needs_quotes default_writer cell.now }
{
    cell.iter().any(|byte| *byte == b',' || *byte == b'"' || *byte == b'\r' || *byte == b'\n')
}

/// Appends a cell in quotation marks, with each of its own doubled.
#[cold]
#[tactic(auto, using(crate::proofs::CellLemmas::escaped_next), unfolding(csv::specs::Writing::escaped))]
fn push_quoted(cell: &[u8], piece: &mut RowPiece)
    requires { length piece.old.items + 2 * length cell.now + 2 ≤ MAX_PIECE_LENGTH }
    ensures text { piece.new.items ≡ piece.old.items ++ quoted default_writer cell.now }
    ensures short { length piece.new.items ≤ length piece.old.items + 2 * length cell.now + 2 }
{
    push(b"\"", piece);
    for byte in cell {
        push_doubled(*byte, piece);
    }
    push(b"\"", piece);
}

/// Appends a byte of a quoted cell, twice if it is a quotation mark.
#[tactic(auto, unfolding(csv::specs::Writing::escaped))]
fn push_doubled(byte: u8, piece: &mut RowPiece)
    requires { length piece.old.items + 2 ≤ MAX_PIECE_LENGTH }
    ensures text { piece.new.items ≡ piece.old.items ++ escaped default_writer (byte ∷ []) }
    ensures short { length piece.new.items ≤ length piece.old.items + 2 }
{
    if byte == b'"' {
        piece.push(b'"');
    }
    piece.push(byte);
}
