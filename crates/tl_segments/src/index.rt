//! What is joined to the type 1 lines of a county, by TLID.
//!
//! In the order 4, 5, 6, and before type 1, the long file, so that memory doesn't grow with it. Lines that belong to no segment are skipped, since a
//! county may be cut out of a larger set, but they count towards the limits, so that each file can be judged without type 1. `check` keeps counts
//! only, for programs that read the record alone, because the faults of the files are part of every answer.
ghost use Rattle.std.specs.Prelude.{◌≡◌, ◌≤◌, ◌+◌, ℕ, [], ◌++◌, length, IfErr, IfOk, IsTrue, OnErr, OnOk};
ghost use Rattle.tl_segments.specs.FullName.{with_names};
ghost use Rattle.tl_segments.specs.Joining.{JoinedLines, no_lines, segment_of};
ghost use Rattle.tl_segments.specs.Loading.{AreFaultless, IsJoinedFault, readers};
ghost use Rattle.tl_segments.specs.Segment.{HasJoined, blank_segment, line_of};
ghost use Rattle.tl_segments.specs.TableContents.{HasShortLists, list_at, names_among};
ghost use Rattle.tl_segments.specs.declared.limits.TheConstants.{MAX_NAMES};

use crate::county_file::read_file;
use crate::fault::{CountyFile, LoadFault};
use crate::feature_names::FeatureNames;
use crate::index_tables::Features;
use crate::multi_map::MultiMap;
use crate::range::RangeFields;
use crate::segment::Segment;
use crate::validation_tables::{IgnoreNames, LinesPerTlid};
use counted_io::CountedRead;
use std::alloc::{AllocError, Allocator};
use tl_records::{Rt1, Type4, Type6};

/// The alternate names and further ranges of a county's segments, by TLID: the contents of its files of types 4, 5 and 6.
#[derive(Drop)]
pub struct Index<A: Allocator> {
    alloc: A,
    features: MultiMap<Features, A>,
    names: FeatureNames<A>,
    ranges: MultiMap<RangeFields, A>,
    ghost few_names: { HasShortLists features },
    ghost few_ranges: { HasShortLists ranges },
}

impl<A: Allocator + Copy> Index<A> {
    ghost use Rattle.tl_segments.specs.Indexing.{IsIndexOf, IsSegmentRead, LoadsIndex, names_in};

    /// Creates the index of empty files. A segment made with it is the type 1 record alone and doesn't allocate.
    #[tactic(auto, using(crate::proofs::TableLemmas::no_lists_short))]
    pub fn new(alloc: A) -> Self
        ensures { IsIndexOf result no_lines }
    {
        Index {
            alloc,
            features: MultiMap::new(alloc),
            names: FeatureNames::new(alloc),
            ranges: MultiMap::new(alloc),
        }
    }

    /// Reads the files of types 4, 5 and 6, in this order, each to its end, or returns the first fault, leaving the input where it occurred.
    pub fn load<R: CountedRead>(
        alloc: A,
        rt4: &mut R,
        rt5: &mut R,
        rt6: &mut R,
    ) -> Result<Self, LoadFault>
        ensures ok { IfOk result (λ index. LoadsIndex index
            (readers R.reader rt4.old rt5.old rt6.old) (readers R.reader rt4.new rt5.new rt6.new)) }
        ensures err { IfErr result (λ fault. IsJoinedFault fault
            (readers R.reader rt4.old rt5.old rt6.old) (readers R.reader rt4.new rt5.new rt6.new)) }
    {
        let mut features = MultiMap::new(alloc);
        let mut names = FeatureNames::new(alloc);
        let mut ranges = MultiMap::new(alloc);
        read_file(&mut features, rt4)?;
        read_file(&mut names, rt5)?;
        read_file(&mut ranges, rt6)?;
        Ok(Index {
            alloc,
            features,
            names,
            ranges,
        })
    }

    /// Reads and checks the files as [`load`](Self::load) does, with the same first fault, but stores none of their contents. While it reads, it holds
    /// only the number of lines of each TLID.
    pub fn check<R: CountedRead>(
        alloc: A,
        rt4: &mut R,
        rt5: &mut R,
        rt6: &mut R,
    ) -> Result<(), LoadFault>
        ensures ok { OnOk result (AreFaultless
            (readers R.reader rt4.old rt5.old rt6.old) (readers R.reader rt4.new rt5.new rt6.new)) }
        ensures err { IfErr result (λ fault. IsJoinedFault fault
            (readers R.reader rt4.old rt5.old rt6.old) (readers R.reader rt4.new rt5.new rt6.new)) }
    {
        read_file(&mut LinesPerTlid::<Type4, A>::new(alloc), rt4)?;
        read_file(&mut IgnoreNames, rt5)?;
        read_file(&mut LinesPerTlid::<Type6, A>::new(alloc), rt6)?;
        Ok(())
    }

    /// Returns the segment of a type 1 line, with the alternate names and further ranges of its TLID. It allocates only if there are any.
    #[inline(always)]
    pub fn segment(&self, rt1: &Rt1<'_>) -> Result<Segment<A>, AllocError>
        ensures ok { IfOk result (λ segment. (lines : JoinedLines) → IsIndexOf self.now lines → segment ≡ segment_of lines rt1.now.bytes) }
        ensures bytes { IfOk result (λ segment. segment.bytes ≡ rt1.now.bytes) }
        ensures memory { OnErr result ((lines : JoinedLines) → IsIndexOf self.now lines → HasJoined (segment_of lines rt1.now.bytes)) }
    {
        let mut segment = Segment::of(self.alloc, rt1.bytes());
        let tlid = rt1.number();
        self.push_names(tlid, &mut segment)?;
        self.push_ranges(tlid, &mut segment)?;
        Ok(segment)
    }

    /// Returns a blank segment for [`next_segment`](Self::next_segment) to read into. It doesn't allocate.
    pub fn blank_segment(&self) -> Segment<A>
        ensures { result ≡ blank_segment }
    {
        Segment::blank(self.alloc)
    }

    /// Reads the next line of a type 1 file into `segment`, with what the index has for its TLID, or returns `None` at the end of the input. `number`
    /// is the previous line's number (0 before the first one) and becomes this line's. A line without alternate names and further ranges doesn't
    /// allocate. At the end and after a fault the segment is blank; if an allocation fails, it has the line's bytes.
    #[inline(always)]
    pub fn next_segment<R: CountedRead>(
        &self,
        input: &mut R,
        number: &mut u32,
        segment: &mut Segment<A>,
    ) -> Result<Option<()>, LoadFault>
        ensures { IsSegmentRead self.now (line_of number.old segment.old) (record { number = number.new; segment = segment.new })
            (R.reader input.old) (R.reader input.new) result }
    {
        match segment.read_record(input, number) {
            Ok(Some(())) => {}
            Ok(None) => return Ok(None),
            Err(fault) => return Err(LoadFault::in_line(CountyFile::Rt1, fault)),
        }
        if self.joins_nothing() {
            return Ok(Some(()));
        }
        let tlid = segment.tlid();
        self.push_names(tlid, segment)?;
        self.push_ranges(tlid, segment)?;
        Ok(Some(()))
    }

    /// Returns whether no TLID has an alternate name or a further range.
    #[inline]
    fn joins_nothing(&self) -> bool
        ensures { IsTrue result → (tlid : ℕ) → (list_at self.now.features tlid ≡ []) × (list_at self.now.ranges tlid ≡ []) }
    {
        self.features.is_empty() && self.ranges.is_empty()
    }

    /// Returns whether nothing is joined to a TLID. May be false although nothing joins, if the TLID's FEATs have no names.
    #[inline]
    pub(crate) fn joins_nothing_to(&self, tlid: u64) -> bool
        ensures { IsTrue result → (list_at self.now.features tlid ≡ []) × (list_at self.now.ranges tlid ≡ []) }
    {
        self.features.list(tlid).is_empty() && self.ranges.list(tlid).is_empty()
    }

    fn push_names(&self, tlid: u64, segment: &mut Segment<A>) -> Result<(), AllocError>
        requires { segment.old.names ≡ [] }
        ensures names { OnOk result (segment.new ≡ with_names segment.old (names_in self.now tlid)) }
        ensures some { OnErr result (1 ≤ length (names_in self.now tlid)) }
        ensures bytes { segment.new.bytes ≡ segment.old.bytes }
    {
        let lines = self.features.list(tlid);
        for features in lines {
            self.push_names_among(features, segment)?;
        }
        Ok(())
    }

    fn push_names_among(
        &self,
        features: &Features,
        segment: &mut Segment<A>,
    ) -> Result<(), AllocError>
        requires { length segment.old.names + 5 ≤ MAX_NAMES }
        ensures names { OnOk result (segment.new ≡ with_names segment.old (names_among self.now.names features.now)) }
        ensures few { OnOk result (length segment.new.names ≤ length segment.old.names + 5) }
        ensures some { OnErr result (1 ≤ length (names_among self.now.names features.now)) }
        ensures bytes { segment.new.bytes ≡ segment.old.bytes }
    {
        for feat in features {
            if let Some(name) = self.names.name(*feat) {
                segment.push_full_name(name.as_full_name())?;
            }
        }
        Ok(())
    }

    fn push_ranges(&self, tlid: u64, segment: &mut Segment<A>) -> Result<(), AllocError>
        requires { segment.old.ranges ≡ [] }
        ensures ranges { OnOk result (segment.new ≡ record segment.old { ranges = list_at self.now.ranges tlid }) }
        ensures some { OnErr result (1 ≤ length (list_at self.now.ranges tlid)) }
        ensures bytes { segment.new.bytes ≡ segment.old.bytes }
    {
        let ranges = self.ranges.list(tlid);
        for range in ranges {
            segment.push_range(range.as_range())?;
        }
        Ok(())
    }
}
