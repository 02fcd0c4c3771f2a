//! Rows, written through a buffer.
ghost use Rattle.std.specs.Prelude.{◌≡◌, ◌≤◌, [], ◌∷◌, ◌++◌, length};
ghost use Rattle.bpf_meaning.specs.Extract.{row_of};

use crate::formatting::Format;
use arrayvec::ArrayVec;
use counted_io::{CountedWrite, WriteFault, write_text};
use itoa::Buffer;
use std::alloc::Allocator;
use tl_segments::Segment;

/// The maximum length of a row in bytes: a score of 20 digits, a tab, the record, a line feed.
pub const MAX_ROW_LENGTH: usize = 250;

/// The format of rows, with the row of a segment, which the next row overwrites. At first it is empty.
#[derive(Drop)]
pub struct RowBuffer {
    // Of a fixed size, so that no row allocates.
    text: ArrayVec<u8, MAX_ROW_LENGTH>,
}

impl RowBuffer {
    /// Returns an empty buffer.
    pub fn new() -> Self
        ensures { ⟦<RowBuffer as Format>⟧.text_of result ≡ row_of }
    {
        RowBuffer {
            text: ArrayVec::new(),
        }
    }

    pub(crate) fn as_bytes(&self) -> &[u8]
        ensures { result.now ≡ self.now.text.items }
    {
        self.text.as_slice()
    }

    pub(crate) fn into_text(self) -> ArrayVec<u8, MAX_ROW_LENGTH>
        ensures { result ≡ self.text }
    {
        self.text
    }

    /// Replaces the row with the row of a segment with a score.
    #[inline(always)]
    #[tactic(auto, using(std::proofs::lemmas::Fmt::decimal_digit))]
    pub(crate) fn set<A: Allocator>(&mut self, score: u64, segment: &Segment<A>)
        ensures { self.new.text.items ≡ row_of score segment.now }
    {
        // One digit, as for a program that sets no score, needs no formatting.
        if score < 10 {
            return self.set_digits(&[b'0' + score as u8], segment);
        }
        self.set_digits(Buffer::new().format(score).as_bytes(), segment);
    }

    /// Replaces the row with these digits, a tab, the segment's record and a line feed. A row of the same length, as most are, is overwritten in place.
    #[inline(always)]
    fn set_digits<A: Allocator>(&mut self, digits: &[u8], segment: &Segment<A>)
        requires { length digits.now ≤ 20 }
        ensures { self.new.text.items ≡ digits.now ++ 9 ∷ segment.now.bytes ++ 10 ∷ [] }
    {
        let record = segment.bytes();
        let start = digits.len() + 1;
        let end = start + record.len();
        if self.text.len() != end + 1 {
            return self.replace(digits, segment);
        }
        let row = self.text.as_mut_slice();
        row[..digits.len()].copy_from_slice(digits);
        row[digits.len()] = b'\t';
        row[start..end].copy_from_slice(record);
        row[end] = b'\n';
    }

    /// Replaces the row with one of another length. This is a separate function because a new text is cleared, which most rows don't need.
    #[cold]
    #[inline(never)]
    fn replace<A: Allocator>(&mut self, digits: &[u8], segment: &Segment<A>)
        requires { length digits.now ≤ 20 }
        ensures { self.new.text.items ≡ digits.now ++ 9 ∷ segment.now.bytes ++ 10 ∷ [] }
    {
        let mut text = ArrayVec::new();
        text.try_extend_from_slice(digits).unwrap();
        text.push(b'\t');
        text.try_extend_from_slice(segment.bytes()).unwrap();
        text.push(b'\n');
        self.text = text;
    }
}

impl Format for RowBuffer {
    ghost text_of = { λ _. row_of };

    fn reads_record_alone(&self) -> bool {
        true
    }

    #[inline(always)]
    fn write_segment<A: Allocator, W: CountedWrite>(
        &mut self,
        score: u64,
        segment: &Segment<A>,
        out: &mut W,
    ) -> Result<(), WriteFault> {
        self.set(score, segment);
        // One write per row, not one for each of its parts.
        write_text(out, self.as_bytes())
    }
}
