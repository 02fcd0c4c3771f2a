//! The contents of segments, as a row describes them.
use fixtures::{TableFault, number};
use std::alloc::Allocator;
use tl_fields::field;
use tl_segments::Segment;

/// What was seen of segments, and what a row says about them. For each segment, the row has its TLID, a `+` before the four fields of each alternate
/// name, and a `/` before the left start address of each further range. A blank separates two segments. Alternatively, the row has `counts` and the
/// total numbers of segments, alternate names and ranges.
#[derive(Clone, Copy)]
pub struct Seen<'a> {
    /// What remains of the row's text, if everything seen so far agrees with it.
    rest: Option<&'a [u8]>,
    /// The counts that the row says, if it says them.
    expected: Option<Counts>,
    counts: Counts,
}

/// Total numbers.
#[derive(Clone, Copy, PartialEq)]
struct Counts {
    segments: u64,
    names: u64,
    ranges: u64,
}

impl Counts {
    /// Reads three numbers, separated by blanks.
    fn new(text: &str) -> Result<Self, TableFault> {
        let mut words = text.split(' ');
        let counts = Counts {
            segments: number(words.next().unwrap_or(""))?,
            names: number(words.next().unwrap_or(""))?,
            ranges: number(words.next().unwrap_or(""))?,
        };
        match words.next() {
            None => Ok(counts),
            Some(_) => Err(TableFault::Word),
        }
    }
}

impl<'a> Seen<'a> {
    /// Reads what a row says, before anything is seen.
    pub fn new(expected: &'a str) -> Result<Self, TableFault> {
        let counts = expected
            .strip_prefix("counts ")
            .map(Counts::new)
            .transpose()?;
        Ok(Seen {
            rest: Some(expected.as_bytes()),
            expected: counts,
            ..Seen::nothing()
        })
    }

    /// Returns what is seen of no segments, where no row says anything.
    pub fn nothing() -> Self {
        let counts = Counts {
            segments: 0,
            names: 0,
            ranges: 0,
        };
        Seen {
            rest: Some(b""),
            expected: None,
            counts,
        }
    }

    /// Compares the next segment with the row, and counts it.
    pub fn see<A: Allocator>(&mut self, segment: &Segment<A>) {
        let blank: &[u8] = if self.counts.segments == 0 { b"" } else { b" " };
        let expected = strip_field(self.rest, blank, field(segment.bytes(), 6, 15));
        self.rest = strip_ranges(segment, strip_names(segment, expected));
        let counts = &mut self.counts;
        counts.segments = counts.segments.wrapping_add(1);
        counts.names = counts.names.wrapping_add(segment.names());
        counts.ranges = counts.ranges.wrapping_add(segment.ranges());
    }

    /// Returns whether exactly what the row says was seen.
    pub fn is_all(&self) -> bool {
        match self.expected {
            Some(counts) => self.counts == counts,
            None => self.rest == Some(b""),
        }
    }
}

/// Strips a sign and the contents of a field from the remaining text, if it begins with them.
fn strip_field<'a>(expected: Option<&'a [u8]>, sign: &[u8], field: &[u8]) -> Option<&'a [u8]> {
    expected?
        .strip_prefix(sign)?
        .strip_prefix(field.trim_ascii())
}

/// Strips the alternate names of a segment.
fn strip_names<'a, A: Allocator>(
    segment: &Segment<A>,
    expected: Option<&'a [u8]>,
) -> Option<&'a [u8]> {
    let mut expected = expected;
    for n in 1..=segment.names() {
        let name = segment.full_name(n)?;
        expected = strip_field(expected, b"+", name.fedirp);
        expected = strip_field(expected, b"", segment.name(n)?);
        expected = strip_field(expected, b"", name.fetype);
        expected = strip_field(expected, b"", name.fedirs);
    }
    expected
}

/// Strips the starts of a segment's further ranges.
fn strip_ranges<'a, A: Allocator>(
    segment: &Segment<A>,
    expected: Option<&'a [u8]>,
) -> Option<&'a [u8]> {
    let mut expected = expected;
    for n in 1..segment.ranges() {
        expected = strip_field(expected, b"/", segment.range(n)?.fraddl);
    }
    expected
}
