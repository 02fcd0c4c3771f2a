//! Laws about a compiled filter's extract. The functions do nothing: each function's contract is the law.
ghost use Rattle.std.specs.Prelude.{ℕ, List, length, All, Option};
ghost use Rattle.bpf_insn.specs.declared.instruction.Insn.{Insn};
ghost use Rattle.bpf_meaning.specs.Extract.{IsExtractIn, IsSelection, TextFormat, texts_of};
ghost use Rattle.cql2.specs.declared.column.NumericColumn.{NumericColumn};
ghost use Rattle.cql2.specs.declared.filter.Filter.{Filter};
ghost use Rattle.tl_segments.specs.County.{LoadsSegments, SegmentReaders};
ghost use Rattle.tl_segments.specs.Joining.{JoinedLines, segments_of};
ghost use Rattle.tl_segments.specs.Loading.{AreValidJoined, AreValidLines};
ghost use Rattle.tl_segments.specs.Segment.{SegmentParts, IsSegment};
ghost use Rattle.tl_segments.specs.declared.fault.CountyFile.TheVariants.{Rt1};
ghost use Rattle.cql2_code.specs.Chosen.{Chooses, IsExtractOf, selection_of};

use std::alloc::Allocator;

/// Proves that a compiled filter selects exactly the segments for which the filter is true, in order and with their scores, and that its extract has
/// their texts.
pub fn selects_what_is_true<A: Allocator>()
    ensures selection { (code : List Insn) (filter : Filter A) (score : Option NumericColumn) → Chooses code filter score
        → (segments : List SegmentParts) → All IsSegment segments → IsSelection code segments (selection_of filter score segments) }
    ensures extract { (text_of : TextFormat) (code : List Insn) (filter : Filter A) (score : Option NumericColumn) → Chooses code filter score
        → (segments : List SegmentParts) → All IsSegment segments
        → IsExtractIn text_of code segments (texts_of text_of (selection_of filter score segments)) (length (selection_of filter score segments)) }
{}

/// Proves that no other text is an extract of a compiled filter from lines without a fault, or from a county that was loaded.
pub fn extracts_what_is_true<A: Allocator>()
    ensures lines { (text_of : TextFormat) (code : List Insn) (filter : Filter A) (score : Option NumericColumn) → Chooses code filter score
        → (joined : JoinedLines) (lines : List (List ℕ)) → AreValidJoined joined → AreValidLines Rt1 lines
        → (text : List ℕ) (count : ℕ) → IsExtractIn text_of code (segments_of joined lines) text count
        → IsExtractOf text_of filter score (segments_of joined lines) text count }
    ensures loaded { (text_of : TextFormat) (code : List Insn) (filter : Filter A) (score : Option NumericColumn) → Chooses code filter score
        → (segments : List SegmentParts) (old new : SegmentReaders) → LoadsSegments segments old new
        → (text : List ℕ) (count : ℕ) → IsExtractIn text_of code segments text count → IsExtractOf text_of filter score segments text count }
{}
