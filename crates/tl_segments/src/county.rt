//! The segments of a county's files, and its shapes.
//!
//! The files of types 4, 5 and 6 come first: what is joined has to be known before a segment is made. The numbers of TLIDs are kept next to the
//! segments, so that a hit's isn't read from its field again. Segments of one TLID share their lists.
ghost use Rattle.std.specs.Prelude.{◌≡◌, ℕ, ◌^◌, ◌<◌, ◌≤◌, List, None, length, IfErr, IfOk, OnOk};
ghost use Rattle.tl_segments.specs.County.{AreTlids, HasTlids, HoldsSegments, IsSegmentsFault, LoadsSegments, shapes_in};
ghost use Rattle.tl_segments.specs.Indexing.{IsIndexOf};
ghost use Rattle.tl_segments.specs.Joining.{JoinedLines, segments_of};
ghost use Rattle.tl_segments.specs.Loading.{IsFileFault, readers};
ghost use Rattle.tl_segments.specs.SharedLists.{HoldsShared};
ghost use Rattle.tl_segments.specs.Adding.{IsLineAdded, HoldsFile};
ghost use Rattle.tl_segments.specs.declared.fault.CountyFile.TheVariants.{Rt1};
ghost use Rattle.tl_segments.specs.declared.limits.TheConstants.{MAX_LINES_PER_TLID};

use crate::county_file::record_in;
use crate::fault::{CountyFile, LoadFault};
use crate::index::Index;
use crate::segment::Segment;
use crate::shape::ShapePart;
use crate::shapes::Shapes;
use crate::shared_lists::SharedLists;
use counted_io::CountedRead;
use std::alloc::Allocator;
use std::marker::Model;
use tl_records::{Line, Type1, read_line};

/// A county: its segments, one for each line of its type 1 file, in file order and fewer than 2^32, and its shapes, if its type 2 file was loaded. Each
/// segment's TLID has a number. Contracts see it as a record with the fields `segments` and `shapes`.
#[derive(Drop)]
pub struct County<A: Allocator> {
    segments: Vec<Segment<A>, A>,
    tlids: Vec<u64, A>,
    shapes: Option<Shapes<A>>,
}

impl<A: Allocator> Model for County<A> {
    ghost use Rattle.std.specs.Prelude.{◌^◌, ◌<◌, length};
    ghost use Rattle.tl_segments.specs.County.{AreTlids, CountyParts};

    ghost Value = { CountyParts };

    ghost view = { λ county. record { segments = county.segments.items; shapes = county.shapes } };

    ghost invariant = { λ county. AreTlids county.tlids.items county.segments.items × (length county.segments.items < 2 ^ 32) };
}

impl<A: Allocator + Copy> County<A> {
    /// Reads the files of types 4, 5, 6 and 1, in this order, each to its end, or returns the first fault, leaving the input where it occurred.
    pub fn load<R: CountedRead>(
        alloc: A,
        rt1: &mut R,
        rt4: &mut R,
        rt5: &mut R,
        rt6: &mut R,
    ) -> Result<Self, LoadFault>
        ensures ok { IfOk result (λ county. LoadsSegments county.segments
            (record { rt1 = R.reader rt1.old; joined = readers R.reader rt4.old rt5.old rt6.old })
            (record { rt1 = R.reader rt1.new; joined = readers R.reader rt4.new rt5.new rt6.new })) }
        ensures straight { IfOk result (λ county. county.shapes ≡ None) }
        ensures err { IfErr result (λ fault. IsSegmentsFault fault
            (record { rt1 = R.reader rt1.old; joined = readers R.reader rt4.old rt5.old rt6.old })
            (record { rt1 = R.reader rt1.new; joined = readers R.reader rt4.new rt5.new rt6.new })) }
    {
        let index = Index::load(alloc, rt4, rt5, rt6)?;
        read_segments(alloc, &index, rt1)
    }
}

impl<A: Allocator> County<A> {
    /// Returns the segments, in the order of the type 1 lines.
    #[tactic(auto, using(crate::proofs::IndexLemmas::has_tlids))]
    pub fn segments(&self) -> &[Segment<A>]
        ensures value { result.now ≡ self.now.segments }
        ensures tlids { HasTlids result.now }
        ensures few { length result.now < 2 ^ 32 }
    {
        self.segments.as_slice()
    }

    /// Returns the numbers of the segments' TLIDs, in the same order.
    pub fn tlids(&self) -> &[u64]
        ensures { AreTlids result.now self.now.segments }
    {
        self.tlids.as_slice()
    }

    /// Returns the parts of a TLID's shape, one for each of its type 2 lines, in the order of RTSQ. A segment whose TLID has none is a straight line.
    pub fn shape(&self, tlid: u64) -> &[ShapePart]
        ensures value { result.now ≡ shapes_in self.now tlid }
        ensures few { length result.now ≤ MAX_LINES_PER_TLID }
    {
        match &self.shapes {
            Some(shapes) => shapes.parts(tlid),
            None => &[],
        }
    }

    /// Returns the county with other shapes.
    pub(crate) fn with_shapes(self, shapes: Option<Shapes<A>>) -> Self
        ensures { result ≡ record self { shapes = shapes } }
    {
        County {
            segments: self.segments,
            tlids: self.tlids,
            shapes,
        }
    }
}

/// Reads a type 1 file to its end or its first fault, joining what the index has for each line's TLID. The segments of a TLID share its lists.
fn read_segments<A: Allocator + Copy, R: CountedRead>(
    alloc: A,
    index: &Index<A>,
    input: &mut R,
) -> Result<County<A>, LoadFault>
    ensures ok { IfOk result (λ county. HoldsFile Rt1
        (λ lines. (joined : JoinedLines) → IsIndexOf index.now joined → county.segments ≡ segments_of joined lines)
        (R.reader input.old) (R.reader input.new)) }
    ensures straight { IfOk result (λ county. county.shapes ≡ None) }
    ensures err { IfErr result (λ fault. IsFileFault Rt1 fault (R.reader input.old) (R.reader input.new)) }
{
    let mut segments = Vec::new(alloc);
    let mut tlids = Vec::new(alloc);
    let mut shared = SharedLists::new(alloc);
    let mut line = Line::new();
    loop {
        match read_line(input, &mut line) {
            Ok(Some(())) => push_segment(index, &line, &mut shared, &mut segments, &mut tlids)?,
            Ok(None) => {
                return Ok(County {
                    segments,
                    tlids,
                    shapes: None,
                });
            }
            Err(fault) => return Err(LoadFault::in_line(CountyFile::Rt1, fault)),
        }
    }
}

/// Appends the segment of a type 1 line and its TLID's number, or returns the line's fault.
fn push_segment<A: Allocator + Copy>(
    index: &Index<A>,
    line: &Line,
    shared: &mut SharedLists<A>,
    segments: &mut Vec<Segment<A>, A>,
    tlids: &mut Vec<u64, A>,
) -> Result<(), LoadFault>
    requires { HoldsShared index.now shared.old }
    ensures holds { OnOk result (HoldsShared index.now shared.new) }
    ensures added_line { (lines : List (List ℕ)) → HoldsSegments index.now segments.old.items tlids.old.items lines
        → IsLineAdded Rt1 lines line.now result (HoldsSegments index.now segments.new.items tlids.new.items) }
{
    let record = record_in::<Type1>(line)?;
    segments.push(shared.segment(index, &record)?)?;
    tlids.push(record.number())?;
    Ok(())
}
