//! Laws about the definitions, stated as contracts of functions that do nothing.
ghost use Rattle.std.specs.Prelude.{◌≡◌, ◌≤◌, ℕ, List, length, All};
ghost use Rattle.std.specs.List.{flat_map};
ghost use Rattle.tl_segments.specs.County.{LoadsSegments, SegmentReaders};
ghost use Rattle.tl_segments.specs.Joining.{JoinedLines, lines_with, segments_of};
ghost use Rattle.tl_segments.specs.Loading.{AreValidJoined, AreValidLines};
ghost use Rattle.tl_segments.specs.Segment.{IsSegment, SegmentParts};
ghost use Rattle.tl_segments.specs.Shape.{ShapePartParts, shape_lines, shape_parts, shape_points};
ghost use Rattle.tl_segments.specs.declared.fault.CountyFile.TheVariants.{Rt1, Rt2};

use crate::full_name::{DIRECTION_LENGTH, TYPE_LENGTH};
use crate::limits::{MAX_LINES_PER_TLID, MAX_NAMES, MAX_POINTS, MAX_RANGES};
use crate::name::NAME_LENGTH;
use crate::range::{ADDRESS_LENGTH, ZIP_LENGTH};
use tl_records::RECORD_LENGTH;

/// States the lengths of the record layouts.
pub fn lengths()
    ensures record { RECORD_LENGTH ≡ 228 }
    ensures name { NAME_LENGTH ≡ 30 }
    ensures direction { DIRECTION_LENGTH ≡ 2 }
    ensures street_type { TYPE_LENGTH ≡ 4 }
    ensures address { ADDRESS_LENGTH ≡ 11 }
    ensures zip { ZIP_LENGTH ≡ 5 }
{}

/// States how many lines of record types 2, 4 and 6 a TLID may have, and thus the maximum numbers of a segment's alternate names and further ranges,
/// and of the points of its shape.
pub fn limits()
    ensures lines { MAX_LINES_PER_TLID ≡ 1000 }
    ensures names { MAX_NAMES ≡ 5000 }
    ensures ranges { MAX_RANGES ≡ 1000 }
    ensures points { MAX_POINTS ≡ 10000 }
{}

/// States that lines without a fault make segments: their fields have the lengths of the layout, and their names and ranges are within the limits.
pub fn lines_make_segments()
    ensures lines { (joined : JoinedLines) → AreValidJoined joined → (lines : List (List ℕ)) → AreValidLines Rt1 lines
        → All IsSegment (segments_of joined lines) }
    ensures loaded { (segments : List SegmentParts) (old new : SegmentReaders) → LoadsSegments segments old new → All IsSegment segments }
{}

/// States that the shape of a TLID has a limited number of points, those of its parts, and that the order of RTSQ leaves out none of its lines.
pub fn shapes()
    ensures few { (rt2 : List (List ℕ)) → AreValidLines Rt2 rt2 → (tlid : ℕ) → length (shape_points rt2 tlid) ≤ MAX_POINTS }
    ensures parts { (rt2 : List (List ℕ)) (tlid : ℕ)
        → flat_map (λ (part : ShapePartParts). part.points) (shape_parts rt2 tlid) ≡ shape_points rt2 tlid }
    ensures lines { (rt2 : List (List ℕ)) → AreValidLines Rt2 rt2 → (tlid : ℕ)
        → length (shape_lines rt2 tlid) ≡ length (lines_with Rt2 tlid rt2) }
{}
