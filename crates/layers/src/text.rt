//! The text of a row or of a part of it.
ghost use Rattle.std.specs.Prelude.{◌≡◌, ◌+◌, ◌<◌, ◌≤◌, ◌^◌, ◌++◌, length, nat_abs};
ghost use Rattle.numerals.specs.Degrees.{degrees};

use arrayvec::ArrayVec;
use cql2::MAX_COLUMNS;
use numerals::{DEGREES_LENGTH, degrees};

// A text of 60 bytes, each of which may be escaped to six, and the column's name with its punctuation.
/// The greatest number of bytes that a column takes in a row, with its name.
pub(crate) const MAX_COLUMN_LENGTH: usize = 384;

/// The greatest number of bytes of a row or a feature before its line, or of a header.
pub(crate) const MAX_ROW_LENGTH: usize = MAX_COLUMNS * MAX_COLUMN_LENGTH + 176;

/// The greatest number of bytes that are written at once: a row, and what is around its line.
pub(crate) const MAX_PIECE_LENGTH: usize = MAX_ROW_LENGTH + 400;

/// A piece of text, which is written at once.
pub(crate) type RowPiece = ArrayVec<u8, MAX_PIECE_LENGTH>;

/// Appends bytes.
#[inline(always)]
pub(crate) fn push(bytes: &[u8], piece: &mut RowPiece)
    requires { length piece.old.items + length bytes.now ≤ MAX_PIECE_LENGTH }
    ensures { piece.new.items ≡ piece.old.items ++ bytes.now }
{
    piece.try_extend_from_slice(bytes).unwrap();
}

/// Appends a coordinate, in millionths of a degree, as degrees.
pub(crate) fn push_degrees(coordinate: i32, piece: &mut RowPiece)
    requires room { length piece.old.items + DEGREES_LENGTH ≤ MAX_PIECE_LENGTH }
    requires small { nat_abs coordinate < 10 ^ 9 }
    ensures text { piece.new.items ≡ piece.old.items ++ degrees coordinate }
    ensures short { length piece.new.items ≤ length piece.old.items + DEGREES_LENGTH }
{
    push(degrees(i64::from(coordinate)).as_slice(), piece);
}
