//! Spans of house numbers.
ghost use Rattle.std.specs.Prelude.{◌≡◌};
ghost use Rattle.geocode.specs.Sides.{parts_of};
ghost use Rattle.geocode.specs.Span.{IncludesHits, IncludesRange, IncludesSide, bucket, covers, widened};
ghost use Rattle.tl_segments.specs.Range.{fields_of};

use crate::hit::Side;
use crate::sides::SideFields;
use std::alloc::Allocator;
use tl_fields::number as number_of;
use tl_segments::{Range, Segment};

/// The most ranges of a segment whose span is computed: in a crafted file, thousands of segments share a thousand ranges.
const MAX_SPANNED_RANGES: u64 = 32;

/// The least and the greatest house number of a segment, each halved and capped at 65,535. Lets a search skip segments
/// without reading them.
#[derive(Clone, Copy)]
pub(crate) struct Span {
    low: u16,
    high: u16,
}

impl Span {
    /// The span of all house numbers.
    pub(crate) const WHOLE: Span = Span {
        low: 0,
        high: u16::MAX,
    };

    /// The span without any house number.
    const EMPTY: Span = Span {
        low: u16::MAX,
        high: 0,
    };

    /// Returns the span of the numbers at the ends of those sides of the segment that have a number at both ends, or that of all house numbers for
    /// a segment with many ranges.
    pub(crate) fn of<A: Allocator>(segment: &Segment<A>) -> Self
        ensures { IncludesHits result segment.now }
    {
        if segment.ranges() > MAX_SPANNED_RANGES {
            return Span::WHOLE;
        }
        Span::of_ranges(segment)
    }

    fn of_ranges<A: Allocator>(segment: &Segment<A>) -> Self
        ensures { IncludesHits result segment.now }
    {
        let mut span = Span::EMPTY;
        for n in 0..segment.ranges() {
            if let Some(range) = segment.range(n) {
                span = span.with_range(range);
            }
        }
        span
    }

    /// Returns whether a house with this number may be on the segment.
    pub(crate) fn covers(self, number: u64) -> bool
        ensures { result ≡ covers self number }
    {
        let number = bucket(number);
        self.low <= number && number <= self.high
    }

    fn with_range(self, range: Range<'_>) -> Self
        ensures { IncludesRange self result (fields_of range.entry) }
    {
        self.with_side(SideFields::of(range, Side::Left))
            .with_side(SideFields::of(range, Side::Right))
    }

    fn with_side(self, side: SideFields<'_>) -> Self
        ensures { IncludesSide self result (parts_of side.entry) }
    {
        match (number_of(side.from), number_of(side.to)) {
            (Some(from), Some(to)) => self.with(from).with(to),
            _ => self,
        }
    }

    fn with(self, number: u64) -> Self
        ensures { result ≡ widened self number }
    {
        let number = bucket(number);
        Span {
            low: self.low.min(number),
            high: self.high.max(number),
        }
    }
}

/// Returns half a house number, at most 65,535.
fn bucket(number: u64) -> u16
    ensures { result ≡ bucket number }
{
    // 16 bits for an end keep a link at 12 bytes. Few house numbers are above 131,071, and these share a value.
    (number / 2).min(u64::from(u16::MAX)) as u16
}
