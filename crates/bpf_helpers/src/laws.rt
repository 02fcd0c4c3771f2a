//! Laws over the definitions, as contracts of functions that do nothing.
ghost use Rattle.std.specs.Prelude.{◌≡◌, ◌≢◌, ℕ, ◌+◌, ◌-◌, ◌^◌, ◌<◌, ◌≤◌, List, [], length, get_or, slice_get, slice_index, codes, IsTrue, Some, None};
ghost use Rattle.bpf_helpers.specs.Call.{MeetsSignature, call, first, meaning, group_of, write, written_length};
ghost use Rattle.bpf_helpers.specs.Helper.{by_number, reads_record_alone, signature};
ghost use Rattle.bpf_helpers.specs.Group.{frame_use};
ghost use Rattle.bpf_helpers.specs.declared.helper.Helper.{Helper};
ghost use Rattle.bpf_helpers.specs.declared.helper.Helper.TheVariants.{Field, HasField, NameCount, RangeCount, InRange, NameCopy, NameIs, Emit, Coord};
ghost use Rattle.bpf_helpers.specs.declared.signature.Argument.TheVariants.{Unused, Number, Frame};
ghost use Rattle.bpf_helpers.specs.declared.signature.FrameUse.TheVariants.{Nothing, Writes};
ghost use Rattle.bpf_kinds.specs.Interval.{Admits, between};
ghost use Rattle.tl_fields.specs.Number.{number_of};
ghost use Rattle.tl_records.specs.Layout.{places};
ghost use Rattle.tl_segments.specs.Segment.{SegmentParts, IsSegment};

use crate::fields::{COORDINATES, FIELDS};
use tl_segments::{MAX_NAMES, MAX_RANGES, NAME_LENGTH};

/// Each helper function is found by its own number and by no other; any other number finds none.
#[tactic(auto, using(crate::proofs::CallLemmas::by_number_own))]
pub fn numbers()
    ensures own { (helper : Helper) → by_number (signature helper).number ≡ Some helper }
    ensures only { (number : ℕ) (helper : Helper) → by_number number ≡ Some helper → (signature helper).number ≡ number }
    ensures none { by_number 0 ≡ None }
    ensures field { by_number 1 ≡ Some Field }
    ensures has { by_number 2 ≡ Some HasField }
    ensures names { by_number 3 ≡ Some NameCount }
    ensures ranges { by_number 4 ≡ Some RangeCount }
    ensures in_range { by_number 5 ≡ Some InRange }
    ensures name_copy { by_number 6 ≡ Some NameCopy }
    ensures name_is { by_number 7 ≡ Some NameIs }
    ensures emit { by_number 8 ≡ Some Emit }
    ensures coord { by_number 9 ≡ Some Coord }
    ensures ten { by_number 10 ≡ None }
    ensures large { by_number (2 ^ 31) ≡ None }
    ensures greatest { by_number (2 ^ 32 - 1) ≡ None }
{}

/// The fields that have an id are at these places in a record, and no other id has a field.
pub fn fields()
    ensures tlid { slice_get FIELDS 0 ≡ Some (places 6 15) }
    ensures fraddl { slice_get FIELDS 1 ≡ Some (places 59 69) }
    ensures toaddl { slice_get FIELDS 2 ≡ Some (places 70 80) }
    ensures fraddr { slice_get FIELDS 3 ≡ Some (places 81 91) }
    ensures toaddr { slice_get FIELDS 4 ≡ Some (places 92 102) }
    ensures zipl { slice_get FIELDS 5 ≡ Some (places 107 111) }
    ensures zipr { slice_get FIELDS 6 ≡ Some (places 112 116) }
    ensures statel { slice_get FIELDS 7 ≡ Some (places 131 132) }
    ensures stater { slice_get FIELDS 8 ≡ Some (places 133 134) }
    ensures countyl { slice_get FIELDS 9 ≡ Some (places 135 137) }
    ensures countyr { slice_get FIELDS 10 ≡ Some (places 138 140) }
    ensures placel { slice_get FIELDS 11 ≡ Some (places 161 165) }
    ensures placer { slice_get FIELDS 12 ≡ Some (places 166 170) }
    ensures tractl { slice_get FIELDS 13 ≡ Some (places 171 176) }
    ensures tractr { slice_get FIELDS 14 ≡ Some (places 177 182) }
    ensures blockl { slice_get FIELDS 15 ≡ Some (places 183 186) }
    ensures blockr { slice_get FIELDS 16 ≡ Some (places 187 190) }
    ensures no_more { length FIELDS ≡ 17 }
{}

/// The coordinates are at these places in a record.
pub fn coordinates()
    ensures frlong { slice_get COORDINATES 0 ≡ Some (places 191 200) }
    ensures frlat { slice_get COORDINATES 1 ≡ Some (places 201 209) }
    ensures tolong { slice_get COORDINATES 2 ≡ Some (places 210 219) }
    ensures tolat { slice_get COORDINATES 3 ≡ Some (places 220 228) }
    ensures no_more { length COORDINATES ≡ 4 }
{}

/// The bounds in the table of prototypes are those of records and segments.
#[tactic(auto, using(crate::proofs::CallLemmas::number_below), unfolding(tl_fields::specs::Number::number_of))]
pub fn bounds()
    ensures ids { get_or (signature Field).arguments 0 Unused ≡ Number (between 0 (length FIELDS - 1)) }
    ensures same_ids { (signature HasField).arguments ≡ (signature Field).arguments }
    ensures ends { get_or (signature Coord).arguments 0 Unused ≡ Number (between 0 (length COORDINATES - 1)) }
    ensures copied { get_or (signature NameCopy).arguments 2 Unused ≡ Number (between 1 NAME_LENGTH) }
    ensures compared { (signature NameIs).arguments ≡ (signature NameCopy).arguments }
    ensures names { (signature NameCount).answer ≡ between 0 MAX_NAMES }
    ensures ranges { (signature RangeCount).answer ≡ between 1 (MAX_RANGES + 1) }
    ensures numbers { (field : List ℕ) (n : ℕ) → number_of field ≡ Some n → n ≤ (signature Field).answer.high }
    ensures greatest_number { number_of (codes "99999999999") ≡ Some (signature Field).answer.high }
{}

/// The group in the table of prototypes is the group of the helper function's meaning.
pub fn groups()
    ensures { (helper : Helper) → (signature helper).group ≡ group_of (meaning helper) }
{}

/// The second argument of a call that reads or writes the frame is a pointer into it, and the third a length of 1 to 30 bytes.
#[tactic(auto, using(crate::proofs::CallLemmas::frame_pointer, crate::proofs::CallLemmas::frame_length))]
pub fn frame_uses()
    ensures pointer { (helper : Helper) → frame_use (signature helper).group ≢ Nothing
        → get_or (signature helper).arguments 1 Unused ≡ Frame }
    ensures length { (helper : Helper) → frame_use (signature helper).group ≢ Nothing
        → get_or (signature helper).arguments 2 Unused ≡ Number (between 1 NAME_LENGTH) }
{}

/// A call whose arguments meet the signature returns a number within the table's interval, and this number is a word.
pub fn answers()
    ensures interval { (helper : Helper) (segment : SegmentParts) (arguments bytes : List ℕ) (score : ℕ) → IsSegment segment
        → MeetsSignature helper arguments → Admits (signature helper).answer (call helper segment arguments bytes score).answer }
    ensures word { (helper : Helper) (segment : SegmentParts) (arguments bytes : List ℕ) (score : ℕ) → IsSegment segment
        → MeetsSignature helper arguments → (call helper segment arguments bytes score).answer < 2 ^ 64 }
{}

/// Such a call writes the number of bytes given by its third argument; a call that doesn't write the frame writes none.
pub fn written_bytes()
    ensures length { (helper : Helper) (segment : SegmentParts) (arguments bytes : List ℕ) (score : ℕ) → IsSegment segment
        → MeetsSignature helper arguments
        → length (call helper segment arguments bytes score).written ≡ written_length (frame_use (signature helper).group) arguments }
    ensures bytes { (helper : Helper) (segment : SegmentParts) (arguments bytes : List ℕ) (score i : ℕ) → IsSegment segment
        → MeetsSignature helper arguments → slice_index (call helper segment arguments bytes score).written i < 2 ^ 8 }
    ensures none { (helper : Helper) (segment : SegmentParts) (arguments bytes : List ℕ) (score : ℕ) → frame_use (signature helper).group ≢ Writes
        → (call helper segment arguments bytes score).written ≡ [] }
{}

/// One helper function sets the score; the others leave it unchanged.
pub fn scores()
    ensures set { (segment : SegmentParts) (arguments bytes : List ℕ) (score : ℕ)
        → (call Emit segment arguments bytes score).score ≡ first arguments }
    ensures score_unchanged { (helper : Helper) (segment : SegmentParts) (arguments bytes : List ℕ) (score : ℕ) → helper ≢ Emit
        → (call helper segment arguments bytes score).score ≡ score }
    ensures word { (helper : Helper) (segment : SegmentParts) (arguments bytes : List ℕ) (score : ℕ) → MeetsSignature helper arguments
        → score < 2 ^ 64 → (call helper segment arguments bytes score).score < 2 ^ 64 }
{}

/// A helper function that reads only the record has the same effect on all segments with the same record.
#[tactic(auto, using(crate::proofs::RecordLemmas::calls_alike))]
pub fn record_alone()
    ensures { (helper : Helper) (segment other : SegmentParts) (arguments bytes : List ℕ) (score : ℕ) → IsTrue (reads_record_alone helper)
        → segment.bytes ≡ other.bytes → call helper segment arguments bytes score ≡ call helper other arguments bytes score }
{}

/// Bytes written over a part of memory are there afterwards, and the rest of memory is unchanged.
pub fn writes<T>()
    ensures length { (memory bytes : List T) (at : ℕ) → at + length bytes ≤ length memory
        → length (write memory at bytes) ≡ length memory }
    ensures written { (memory bytes : List T) (at i : ℕ) (other : T) → at + length bytes ≤ length memory → i < length bytes
        → get_or (write memory at bytes) (at + i) other ≡ get_or bytes i other }
    ensures before { (memory bytes : List T) (at i : ℕ) (other : T) → at + length bytes ≤ length memory → i < at
        → get_or (write memory at bytes) i other ≡ get_or memory i other }
    ensures after { (memory bytes : List T) (at i : ℕ) (other : T) → at + length bytes ≤ length memory
        → at + length bytes ≤ i → get_or (write memory at bytes) i other ≡ get_or memory i other }
    ensures nothing { (memory : List T) (at : ℕ) → write memory at [] ≡ memory }
{}
