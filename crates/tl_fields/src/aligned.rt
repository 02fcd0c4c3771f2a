//! Whether a field has a number.
ghost use Rattle.std.specs.Prelude.{◌≡◌, ◌==◌, ◌+◌, ◌-◌, ◌<◌, ◌≤◌, ℕ, IsTrue, true, length, is_some, slice_index};
ghost use Rattle.std.specs.Char.{is_ascii_digit};
ghost use Rattle.tl_fields.specs.Aligned.{lowest_set_bit};
ghost use Rattle.tl_fields.specs.Field.{field_of};
ghost use Rattle.tl_fields.specs.Number.{number_of};

use crate::fields::field;
use crate::numbers::{BLANK, MAX_NUMBER_DIGITS, number};
use std::simd::prelude::*;

// The bytes of one vector.
const LANES: usize = 16;

/// Returns whether the field of a line from column `first` to column `last` has a number, as [`number`] reads it. This takes less time than reading
/// the number. Columns are counted as in [`field`].
#[inline]
pub fn has_number(line: &[u8], first: usize, last: usize) -> bool
    requires counted_from_one { 1 ≤ first }
    requires ordered { first ≤ last }
    requires within { last ≤ length line.now }
    ensures { result ≡ is_some (number_of (field_of line.now first last)) }
{
    // Most numbers are aligned, and vectors show that in a few instructions. The others are read.
    has_aligned_number(line, first, last) || number(field(line, first, last)).is_some()
}

/// Returns true if the field has blanks, and then digits up to its end, as numbers in records do. It may return false for such a field near the end of
/// the line.
#[inline(always)]
pub(crate) fn has_aligned_number(line: &[u8], first: usize, last: usize) -> bool
    requires counted_from_one { 1 ≤ first }
    requires ordered { first ≤ last }
    requires within { last ≤ length line.now }
    ensures { IsTrue result → is_some (number_of (field_of line.now first last)) ≡ true }
{
    let start = first - 1;
    if line.len() - start < 2 * LANES {
        return false;
    }
    let blanks = leading_blanks(u8x16::from_slice(&line[start..]));
    if last - start <= blanks {
        return false;
    }
    let digits = leading_digits(u8x16::from_slice(&line[start + blanks..]));
    last - start - blanks <= digits.min(MAX_NUMBER_DIGITS)
}

/// Returns the number of blanks before the first other byte.
#[inline(always)]
fn leading_blanks(lanes: u8x16) -> usize
    ensures blanks { (k : ℕ) → k < result → slice_index lanes k ≡ 32 }
    ensures within { result ≤ 16 }
{
    lowest_set_bit(lanes.simd_ne(u8x16::splat(BLANK)).to_bitmask())
}

/// Returns the number of digits before the first other byte.
#[inline(always)]
fn leading_digits(lanes: u8x16) -> usize
    ensures digits { (k : ℕ) → k < result → is_ascii_digit (slice_index lanes k) ≡ true }
    ensures within { result ≤ 16 }
{
    let others = lanes.simd_lt(u8x16::splat(b'0')) | lanes.simd_gt(u8x16::splat(b'9'));
    lowest_set_bit(others.to_bitmask())
}

/// Returns the index of the lowest bit that is set, or 16 if none is.
#[inline(always)]
fn lowest_set_bit(mask: u64) -> usize
    ensures { result ≡ lowest_set_bit mask LANES }
{
    if mask == 0 {
        LANES
    } else {
        mask.trailing_zeros() as usize
    }
}
