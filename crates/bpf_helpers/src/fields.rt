//! The fields of a type 1 record that the helper functions know, by their places.
ghost use Rattle.std.specs.Prelude.{◌≡◌, ◌<◌, ◌^◌, IfSome};
ghost use Rattle.bpf_helpers.specs.Meaning.{bytes_at, coordinate, field_number};
ghost use Rattle.tl_records.specs.Layout.{IsWithin};
ghost use Rattle.tl_records.specs.declared.layout.TheConstants.{RECORD_LENGTH};

use std::alloc::Allocator;
use tl_fields::number;
use tl_records::{Places, Type1};
use tl_segments::Segment;

/// The fields that have an id, in the order of their ids (TIGER/Line 2006, record type 1).
pub(crate) const FIELDS: [Places; 17] = [
    Type1::TLID,
    Type1::FRADDL,
    Type1::TOADDL,
    Type1::FRADDR,
    Type1::TOADDR,
    Type1::ZIPL,
    Type1::ZIPR,
    Type1::STATEL,
    Type1::STATER,
    Type1::COUNTYL,
    Type1::COUNTYR,
    Type1::PLACEL,
    Type1::PLACER,
    Type1::TRACTL,
    Type1::TRACTR,
    Type1::BLOCKL,
    Type1::BLOCKR,
];

/// The coordinates of the segment's ends: longitude and latitude of its start, then those of its end.
pub(crate) const COORDINATES: [Places; 4] = [
    Type1::FRLONG,
    Type1::FRLAT,
    Type1::TOLONG,
    Type1::TOLAT,
];

/// Returns the number in the field with an id, if the field has one.
#[inline]
pub(crate) fn field_number<A: Allocator>(segment: &Segment<A>, id: u64) -> Option<u64>
    ensures value { result ≡ field_number segment.now.bytes id }
    ensures small { IfSome result (λ n. n < 10 ^ 11) }
{
    number(bytes_at(segment, FIELDS.get(id as usize).copied()))
}

/// Returns a coordinate of the segment's ends in two's complement, or 0 if it's missing.
#[inline]
pub(crate) fn coordinate<A: Allocator>(segment: &Segment<A>, which: u64) -> u64
    ensures { result ≡ coordinate segment.now.bytes which }
{
    let bytes = bytes_at(segment, COORDINATES.get(which as usize).copied());
    match tl_fields::coordinate(bytes) {
        Some(millionths) => millionths.cast_unsigned(),
        None => 0,
    }
}

/// Returns the bytes of the segment's record at the given places, or no bytes if there are no places.
#[inline]
fn bytes_at<A: Allocator>(segment: &Segment<A>, places: Option<Places>) -> &[u8]
    requires { IfSome places (λ p. IsWithin p RECORD_LENGTH) }
    ensures { result.now ≡ bytes_at segment.now.bytes places }
{
    match places {
        Some(places) => places.of(segment.bytes()),
        None => &[],
    }
}
