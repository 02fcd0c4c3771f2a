//! Street segments.
//!
//! A type 1 record with what the files of types 4, 5 and 6 say about its TLID. One segment serves all lines of a run: a line is read into the
//! segment's own buffer and checked there, and its lists keep their room. So the buffer has room for the longest content, not for a record, and a
//! fault leaves a blank segment, on a path that is taken once. A county instead keeps each segment, and the segments of a TLID share one copy of its
//! lists: 4,000 lines of type 1 with 1,000 lines of types 4 and 6 for one TLID are files of 1 MB, and would take hundreds of megabytes as copies. A
//! segment's own lists follow the shared ones.
//!
//! Always: a segment without alternate names and further ranges allocates nothing, as most have none. Name 0 and range 0 are those of the record
//! itself; the affixes of names are next to them, so that what is said of names needn't mention them. The bytes may be any: only those read from a
//! file are known to be a record.
ghost use Rattle.std.specs.Prelude.{◌≡◌, ◌≤◌, ◌<◌, ◌+◌, [], ◌∷◌, ◌++◌, length, replicate, option_copied, option_map, slice_get, Some, IfOk, IfSome, OnOk, OnErr};
ghost use Rattle.tl_records.specs.Records.{IsValidLine};
ghost use Rattle.tl_segments.specs.Affixes.{no_affixes};
ghost use Rattle.tl_segments.specs.CountyFile.{layout};
ghost use Rattle.tl_segments.specs.FullName.{HasNameLengths, IsFullName, all_with_affixes, contents, full_name_of, full_names_of, with_names};
ghost use Rattle.tl_segments.specs.Indexing.{IsRecordRead, IsRt1Read};
ghost use Rattle.tl_segments.specs.Joining.{number_in};
ghost use Rattle.tl_segments.specs.Range.{AreBytes, HasFieldLengths, IsRange, fields_of};
ghost use Rattle.tl_segments.specs.Segment.{IsSegment, blank_segment, line_of, names_of, ranges_of};
ghost use Rattle.tl_segments.specs.JoinedLists.{AreValidLists, shared_names, shared_ranges};
ghost use Rattle.tl_segments.specs.declared.fault.CountyFile.TheVariants.{Rt1};
ghost use Rattle.tl_segments.specs.declared.limits.TheConstants.{MAX_NAMES, MAX_RANGES};
ghost use Rattle.tl_segments.specs.declared.range.RangeFields.{RangeFields};

use crate::full_name::{DIRECTION_LENGTH, FullName, FullNameFields, TYPE_LENGTH, own_full_name};
use crate::joined::JoinedLists;
use crate::name::NAME_LENGTH;
use crate::range::{Range, RangeFields, own_range};
use arrayvec::ArrayVec;
use counted_io::{CountedRead, MAX_CONTENT_LENGTH};
use std::alloc::{AllocError, Allocator};
use std::marker::Model;
use std::rc::Rc;
use tl_fields::number;
use tl_records::{LineFault, RECORD_LENGTH, Rt1, Type1, read_line_into};

/// A street segment: its type 1 record, its alternate names and its further address ranges. Contracts see it as a record with the fields `bytes`,
/// `names`, `affixes` (one for each name) and `ranges`. It keeps the allocator that it was made with; a segment without alternate names and further
/// ranges doesn't allocate. The segments of a TLID in a county share one copy of both lists.
#[derive(Drop)]
pub struct Segment<A: Allocator> {
    // `MAX_CONTENT_LENGTH`, because a whole line is read here before its length is checked.
    record: ArrayVec<u8, MAX_CONTENT_LENGTH>,
    // Shared with the other segments of the TLID. Items pushed to this segment alone go to its own lists, which follow the shared ones.
    shared: Option<Rc<JoinedLists<A>, A>>,
    names: Vec<FullNameFields, A>,
    ranges: Vec<RangeFields, A>,
}

impl<A: Allocator> Model for Segment<A> {
    ghost use Rattle.tl_segments.specs.Segment.{SegmentParts, IsSegment};
    ghost use Rattle.tl_segments.specs.JoinedLists.{contents_with};

    ghost Value = { SegmentParts };

    ghost view = { λ segment. contents_with segment.shared segment.record.items segment.names.items segment.ranges.items };

    ghost invariant = { λ segment. IsSegment (contents_with segment.shared segment.record.items segment.names.items segment.ranges.items) };
}

impl<A: Allocator + Copy> Segment<A> {
    /// Creates the segment of a type 1 record without its line terminator, with no alternate names and no further ranges. Copies
    /// the bytes; doesn't check them.
    pub fn of(alloc: A, bytes: &[u8]) -> Self
        requires { length bytes.now ≡ RECORD_LENGTH }
        ensures { result ≡ record { bytes = bytes.now; names = []; affixes = []; ranges = [] } }
    {
        Segment {
            record: record_of(bytes),
            shared: None,
            names: Vec::new(alloc),
            ranges: Vec::new(alloc),
        }
    }

    /// Creates the segment of a type 1 record with shared lists.
    pub(crate) fn sharing(alloc: A, bytes: &[u8], joined: Rc<JoinedLists<A>, A>) -> Self
        requires length { length bytes.now ≡ RECORD_LENGTH }
        requires lists { AreValidLists joined.value }
        ensures { result ≡ contents bytes.now joined.value.names.items joined.value.ranges.items }
    {
        Segment {
            record: record_of(bytes),
            shared: Some(joined),
            names: Vec::new(alloc),
            ranges: Vec::new(alloc),
        }
    }

    /// Turns the segment's own lists into shared ones and returns them with it. They are `None` if the segment has no lists of its own or already has
    /// shared ones.
    pub(crate) fn share(self, alloc: A) -> Result<(Self, Option<Rc<JoinedLists<A>, A>>), AllocError>
        ensures same { IfOk result (λ both. both.0 ≡ self) }
        ensures shares { IfOk result (λ both. IfSome both.1 (λ joined.
            AreValidLists joined.value × (self ≡ contents self.bytes joined.value.names.items joined.value.ranges.items))) }
    {
        if self.shared.is_some() || self.names.is_empty() && self.ranges.is_empty() {
            return Ok((self, None));
        }
        // Exact copies, as they are kept as long as the county.
        let names = exact_copy(alloc, self.names.as_slice())?;
        let ranges = exact_copy(alloc, self.ranges.as_slice())?;
        let joined = Rc::new(alloc, JoinedLists { names, ranges })?;
        let shared = joined.clone()?;
        let segment = Segment {
            record: self.record,
            shared: Some(joined),
            names: Vec::new(alloc),
            ranges: Vec::new(alloc),
        };
        Ok((segment, Some(shared)))
    }

    /// Creates the segment of a blank record, for a line to be read into.
    pub(crate) fn blank(alloc: A) -> Self
        ensures { result ≡ blank_segment }
    {
        Segment {
            record: blank_record(),
            shared: None,
            names: Vec::new(alloc),
            ranges: Vec::new(alloc),
        }
    }
}

impl<A: Allocator> Segment<A> {
    /// Reads the next line of a type 1 file, replacing the segment's contents, or returns `None` at the end of the input. `number` is the previous
    /// line's number and becomes this line's. At the end and after a fault the segment is blank. The allocations for names and ranges are reused.
    #[inline(always)]
    pub(crate) fn read_record<R: CountedRead>(
        &mut self,
        input: &mut R,
        number: &mut u32,
    ) -> Result<Option<()>, LineFault>
        ensures { IsRecordRead (line_of number.old self.old) (record { number = number.new; segment = self.new })
            (R.reader input.old) (R.reader input.new) result }
    {
        self.shared = None;
        self.names.clear();
        self.ranges.clear();
        match read_rt1(input, number, &mut self.record) {
            Ok(Some(())) => Ok(Some(())),
            Ok(None) => {
                self.record = blank_record();
                Ok(None)
            }
            Err(fault) => {
                self.record = blank_record();
                Err(fault)
            }
        }
    }

    /// Returns the number of the record's TLID.
    pub(crate) fn tlid(&self) -> u64
        requires { IsValidLine (layout Rt1) self.now.bytes }
        ensures { number_in Rt1 self.now.bytes ≡ Some result }
    {
        match number(Type1::TLID.of(self.record.as_slice())) {
            Some(tlid) => tlid,
            None => unreachable!(),
        }
    }

    /// Appends an alternate name whose other three fields are blank.
    pub fn push_name(&mut self, name: &[u8]) -> Result<(), AllocError>
        requires length { length name.now ≡ NAME_LENGTH }
        requires room { length self.old.names < MAX_NAMES }
        ensures ok { OnOk result (self.new ≡ record self.old
            { names = self.old.names ++ name.now ∷ []; affixes = self.old.affixes ++ no_affixes ∷ [] }) }
        ensures err { OnErr result (self.new ≡ self.old) }
    {
        self.push_full_name(FullName {
            fedirp: &[b' '; DIRECTION_LENGTH],
            fename: name,
            fetype: &[b' '; TYPE_LENGTH],
            fedirs: &[b' '; DIRECTION_LENGTH],
        })
    }

    /// Appends an alternate name with all four fields.
    pub fn push_full_name(&mut self, name: FullName<'_>) -> Result<(), AllocError>
        requires lengths { HasNameLengths (full_name_of name) }
        requires room { length self.old.names < MAX_NAMES }
        ensures ok { OnOk result (self.new ≡ with_names self.old (full_name_of name.entry ∷ [])) }
        ensures err { OnErr result (self.new ≡ self.old) }
    {
        self.names.push(FullNameFields::of(name))?;
        Ok(())
    }

    /// Appends a further range.
    pub fn push_range(&mut self, range: Range<'_>) -> Result<(), AllocError>
        requires lengths { HasFieldLengths (fields_of range) }
        requires room { length self.old.ranges < MAX_RANGES }
        ensures ok { OnOk result (self.new ≡ record self.old { ranges = self.old.ranges ++ fields_of range.entry ∷ [] }) }
        ensures err { OnErr result (self.new ≡ self.old) }
    {
        self.ranges.push(RangeFields::of(range))?;
        Ok(())
    }

    /// Returns the type 1 record without its line terminator. Offsets count from 0, so the field at column p of the layout begins at p - 1.
    pub fn bytes(&self) -> &[u8]
        ensures value { result.now ≡ self.now.bytes }
        ensures whole { IsSegment self.now }
    {
        self.record.as_slice()
    }

    /// Returns the number of alternate names.
    pub fn names(&self) -> u64
        ensures value { result ≡ length self.now.names }
        ensures few { result ≤ MAX_NAMES }
    {
        (shared_names(&self.shared).len() + self.names.len()) as u64
    }

    /// Returns the name with number `n`, counted from 0: name 0 is the record's FENAME, and the alternate names follow. Returns `None` if there is no
    /// such name.
    pub fn name(&self, n: u64) -> Option<&[u8]>
        ensures value { option_copied result ≡ slice_get (names_of self.now) n }
        ensures bytes { IfSome result (λ name. AreBytes NAME_LENGTH name.now) }
    {
        match n.checked_sub(1) {
            Some(further) => self.further_name(further),
            None => Some(Type1::FENAME.of(self.record.as_slice())),
        }
    }

    fn further_name(&self, index: u64) -> Option<&[u8]>
        ensures value { option_copied result ≡ slice_get self.now.names index }
        ensures bytes { IfSome result (λ name. AreBytes NAME_LENGTH name.now) }
    {
        let name = self.further_fields(index)?;
        Some(name.fename())
    }

    /// Returns the full name with number `n`, counted as for [`name`](Self::name): the four fields in the record, or in an alternate name's type 5
    /// line. Returns `None` if there is no such name.
    pub fn full_name(&self, n: u64) -> Option<FullName<'_>>
        ensures value { option_map full_name_of result ≡ slice_get (full_names_of self.now) n }
        ensures name { option_map (λ name. name.fename.now) result ≡ slice_get (names_of self.now) n }
        ensures fields { IfSome result (λ name. IsFullName (full_name_of name)) }
    {
        match n.checked_sub(1) {
            Some(further) => self.further_full_name(further),
            None => Some(own_full_name(self.record.as_slice())),
        }
    }

    fn further_full_name(&self, index: u64) -> Option<FullName<'_>>
        ensures value { option_map full_name_of result ≡ slice_get (all_with_affixes self.now.affixes self.now.names) index }
        ensures name { option_map (λ name. name.fename.now) result ≡ slice_get self.now.names index }
        ensures fields { IfSome result (λ name. IsFullName (full_name_of name)) }
    {
        let name = self.further_fields(index)?;
        Some(name.as_full_name())
    }

    #[inline]
    fn further_fields(&self, index: u64) -> Option<&FullNameFields>
        ensures value { option_copied result ≡ slice_get (all_with_affixes self.now.affixes self.now.names) index }
        ensures whole { IsSegment self.now }
    {
        item_at(shared_names(&self.shared), self.names.as_slice(), index)
    }

    /// Returns the number of ranges: the record's own, plus the further ones.
    pub fn ranges(&self) -> u64
        ensures value { result ≡ length (ranges_of self.now) }
        ensures some { 1 ≤ result }
        ensures few { result ≤ MAX_RANGES + 1 }
    {
        (shared_ranges(&self.shared).len() + self.ranges.len()) as u64 + 1
    }

    /// Returns the range with number `n`, counted from 0: range 0 is the record's own, and the further ranges follow. Returns `None` if there is no
    /// such range.
    #[tactic(auto, using(crate::proofs::SegmentLemmas::slice_get_own))]
    pub fn range(&self, n: u64) -> Option<Range<'_>>
        ensures value { option_map fields_of result ≡ slice_get (ranges_of self.now) n }
        ensures fields { IfSome result (λ range. IsRange (fields_of range)) }
    {
        match n.checked_sub(1) {
            Some(further) => self.further_range(further),
            None => Some(own_range(self.record.as_slice())),
        }
    }

    fn further_range(&self, index: u64) -> Option<Range<'_>>
        ensures value { option_map fields_of result ≡ slice_get self.now.ranges index }
        ensures fields { IfSome result (λ range. IsRange (fields_of range)) }
    {
        let fields = item_at(shared_ranges(&self.shared), self.ranges.as_slice(), index)?;
        Some(fields.as_range())
    }
}

#[inline]
fn shared_names<A: Allocator>(shared: &Option<Rc<JoinedLists<A>, A>>) -> &[FullNameFields]
    ensures { result.now ≡ shared_names shared.now }
{
    match shared {
        Some(joined) => joined.as_ref().names.as_slice(),
        None => &[],
    }
}

#[inline]
fn shared_ranges<A: Allocator>(shared: &Option<Rc<JoinedLists<A>, A>>) -> &[RangeFields]
    ensures { result.now ≡ shared_ranges shared.now }
{
    match shared {
        Some(joined) => joined.as_ref().ranges.as_slice(),
        None => &[],
    }
}

/// Copies the items into a list without spare room.
fn exact_copy<T: Copy, A: Allocator>(alloc: A, items: &[T]) -> Result<Vec<T, A>, AllocError>
    ensures { IfOk result (λ copy. copy.items ≡ items.now) }
{
    let mut copy = Vec::new(alloc);
    copy.reserve_exact(items.len())?;
    copy.extend_from_slice(items)?;
    Ok(copy)
}

/// Returns the item at an index that counts through both lists.
#[inline]
fn item_at<'a, T>(shared: &'a [T], own: &'a [T], index: u64) -> Option<&'a T>
    ensures { option_copied result ≡ slice_get (shared.now ++ own.now) index }
{
    match index.checked_sub(shared.len() as u64) {
        Some(after) => own.get(after as usize),
        None => shared.get(index as usize),
    }
}

/// Copies the bytes into a buffer with room for a line.
fn record_of(bytes: &[u8]) -> ArrayVec<u8, MAX_CONTENT_LENGTH>
    requires { length bytes.now ≡ RECORD_LENGTH }
    ensures value { result.items ≡ bytes.now }
    ensures bytes { AreBytes RECORD_LENGTH result.items }
{
    let mut record = ArrayVec::new();
    record.try_extend_from_slice(bytes).unwrap();
    record
}

#[cold]
fn blank_record() -> ArrayVec<u8, MAX_CONTENT_LENGTH>
    ensures value { result.items ≡ replicate RECORD_LENGTH 32 }
    ensures bytes { AreBytes RECORD_LENGTH result.items }
{
    record_of(&[b' '; RECORD_LENGTH])
}

/// Reads the next line of a type 1 file and checks it, or returns `None` at the end of the input.
#[inline(always)]
fn read_rt1<R: CountedRead>(
    input: &mut R,
    number: &mut u32,
    content: &mut ArrayVec<u8, MAX_CONTENT_LENGTH>,
) -> Result<Option<()>, LineFault>
    ensures { IsRt1Read (record { number = number.old; bytes = content.old.items }) (record { number = number.new; bytes = content.new.items })
        (R.reader input.old) (R.reader input.new) result }
{
    match read_line_into(input, number, content) {
        Ok(Some(())) => {}
        Ok(None) => return Ok(None),
        Err(fault) => return Err(fault),
    }
    match Rt1::check(*number, content.as_slice()) {
        Ok(()) => Ok(Some(())),
        Err(fault) => Err(fault),
    }
}
