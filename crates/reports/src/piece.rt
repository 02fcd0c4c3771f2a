//! Reports, piece by piece.
ghost use Rattle.std.specs.List.{flat_map};
ghost use Rattle.counted_io.specs.Writing.{WritesText};
ghost use Rattle.reports.specs.Piece.{reported};

use crate::escape::write_escaped;
use counted_io::{CountedWrite, WriteFault, write_text};

/// A piece of a report.
#[derive(Clone, Copy)]
pub enum Piece<'p> {
    /// Text that is written as it is.
    Text(&'p str),
    /// Text from the user, which is written with its control characters escaped.
    Echo(&'p str),
}

/// Writes the pieces in order, up to the first that can't be written completely. Nothing is retried, and nothing is flushed.
pub fn write_report<W: CountedWrite>(out: &mut W, pieces: &[Piece<'_>]) -> Result<(), WriteFault>
    ensures { WritesText (flat_map reported pieces.now) result (W.writer out.old) (W.writer out.new) }
{
    for piece in pieces {
        match write_piece(out, piece) {
            Ok(()) => {}
            Err(fault) => return Err(fault),
        }
    }
    Ok(())
}

fn write_piece<W: CountedWrite>(out: &mut W, piece: &Piece<'_>) -> Result<(), WriteFault>
    ensures { WritesText (reported piece.now) result (W.writer out.old) (W.writer out.new) }
{
    match piece {
        Piece::Text(text) => write_text(out, text.as_bytes()),
        Piece::Echo(text) => write_escaped(out, text),
    }
}
