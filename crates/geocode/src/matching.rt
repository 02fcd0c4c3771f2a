//! Hits, each with the street name that matched.
ghost use Rattle.std.specs.Prelude.{◌≡◌, length};

use crate::hit::Hit;
use tl_segments::FullName;

/// A hit, with the street name that matched, the fields of its side as they are in the records, and the segment's record.
#[derive(Clone, Copy)]
pub struct Match<'a> {
    pub hit: Hit,
    /// The county's index in the list of counties, counted from 0.
    pub county: usize,
    /// The first of the segment's names that is the street's.
    pub name: FullName<'a>,
    /// The FR address of the range's side.
    pub from: &'a [u8],
    /// The TO address of the range's side.
    pub to: &'a [u8],
    /// The ZIP code of the range's side.
    pub zip: &'a [u8],
    /// The segment's type 1 record.
    pub bytes: &'a [u8],
    ghost is_record: { length bytes.now ≡ 228 },
}
