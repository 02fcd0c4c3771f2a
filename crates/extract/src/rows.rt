//! The rows and texts of selected segments, and how they are written.
ghost use Rattle.std.specs.Prelude.{◌≡◌};
ghost use Rattle.counted_io.specs.Writing.{WritesText};
ghost use Rattle.bpf_meaning.specs.Extract.{row_of};
ghost use Rattle.extract.specs.Rows.{WritesIfChosen};

use crate::formatting::Format;
use crate::row_buffer::{MAX_ROW_LENGTH, RowBuffer};
use arrayvec::ArrayVec;
use bpf_machine::{Bare, run_in};
use bpf_verify::Verified;
use counted_io::{CountedWrite, WriteFault, write_text};
use std::alloc::Allocator;
use tl_segments::Segment;

/// Returns the row of a segment with a score: the score in decimal, a tab, the type 1 record, a line feed.
/// No caller in this program but [`row`]: part of the library's fixed interface.
pub fn row_text<A: Allocator>(score: u64, segment: &Segment<A>) -> ArrayVec<u8, MAX_ROW_LENGTH>
    ensures { result.items ≡ row_of score segment.now }
{
    let mut buffer = RowBuffer::new();
    buffer.set(score, segment);
    buffer.into_text()
}

/// Writes the row of a segment with a score. Nothing is retried, and nothing is flushed.
/// No caller in this program: part of the library's fixed interface.
pub fn row<A: Allocator, W: CountedWrite>(
    score: u64,
    segment: &Segment<A>,
    out: &mut W,
) -> Result<(), WriteFault>
    ensures { WritesText (row_of score segment.now) result (W.writer out.old) (W.writer out.new) }
{
    write_text(out, row_text(score, segment).as_slice())
}

/// Writes the text of a segment if the code selects it, and returns the number of texts written. Reuses `bare`; its previous contents don't matter.
#[inline(always)]
pub(crate) fn write_if_chosen<A: Allocator, B: Allocator, F: Format, W: CountedWrite>(
    verified: &Verified<A>,
    segment: &Segment<B>,
    bare: &mut Bare,
    format: &mut F,
    out: &mut W,
) -> Result<u64, WriteFault>
    ensures written { WritesIfChosen (F.text_of format.old) verified.now.code segment.now result (W.writer out.old) (W.writer out.new) }
    ensures same { F.text_of format.new ≡ F.text_of format.old }
{
    let answer = run_in(bare, verified, segment);
    if answer.r0 == 0 {
        return Ok(0);
    }
    match format.write_segment(answer.score, segment, out) {
        Ok(()) => Ok(1),
        Err(fault) => Err(fault),
    }
}
