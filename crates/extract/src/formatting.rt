//! Formats of extracts.
ghost use Rattle.std.specs.Prelude.{◌≡◌, IsTrue};
ghost use Rattle.counted_io.specs.Writing.{WritesText};
ghost use Rattle.bpf_meaning.specs.Extract.{TextFormat};
ghost use Rattle.extract.specs.Formatting.{IsOfRecordAlone};

use counted_io::{CountedWrite, WriteFault};
use std::alloc::Allocator;
use tl_segments::Segment;

// A trait with a ghost text per segment, so that one engine, with one proof for each fault, serves every format. Translating rows instead would lack
// names and ranges.
/// A format of extracts: the text that is written for a selected segment. It may keep a buffer for the texts.
pub trait Format {
    // The text of a segment with a score.
    ghost text_of: { Self → TextFormat };

    /// Returns `true` only if the texts depend on the record alone, so that nothing of the files of types 4, 5 and 6 need be kept for them.
    fn reads_record_alone(&self) -> bool
        ensures { IsTrue result → IsOfRecordAlone (text_of self.now) };

    /// Writes the text of a selected segment with its score. No write is retried, and nothing is flushed.
    fn write_segment<A: Allocator, W: CountedWrite>(
        &mut self,
        score: u64,
        segment: &Segment<A>,
        out: &mut W,
    ) -> Result<(), WriteFault>
        ensures written { WritesText (text_of self.old score segment.now) result (W.writer out.old) (W.writer out.new) }
        // It writes later segments in the same format.
        ensures same { text_of self.new ≡ text_of self.old };
}
