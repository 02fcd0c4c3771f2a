//! Copies of lines, many bytes at a time.
ghost use Rattle.std.specs.Prelude.{◌≡◌, ◌==◌, ◌+◌, ◌≤◌, IsTrue, length, map};
ghost use Rattle.std.specs.Simd.Lanes.{chunk, mask_l, put_chunk};
ghost use Rattle.counted_io.specs.Content.{HasNoLineFeed};

use crate::content::LINE_FEED;
use std::simd::prelude::*;

// The bytes of one vector.
pub(crate) const LANES: usize = 32;

/// Copies `from` into `to`, which has the same length, and returns true if there is no line feed. At a line feed it returns false, and `to` is then
/// unspecified.
#[inline(always)]
pub(crate) fn copy_if_no_line_feed(from: &[u8], to: &mut [u8]) -> bool
    requires long { LANES ≤ length from.now }
    requires same_length { length to.old ≡ length from.now }
    ensures copied { IsTrue result → to.new ≡ from.now }
    ensures no_line_feed { IsTrue result → HasNoLineFeed from.now }
    ensures length { length to.new ≡ length to.old }
{
    // The last vector overlaps the one before it.
    let last = from.len() - LANES;
    let mut at = 0;
    while at < last {
        if !copy_lanes(from, to, at) {
            return false;
        }
        at += LANES;
    }
    copy_lanes(from, to, last)
}

/// Copies one vector, and returns whether it has no line feed.
#[inline(always)]
fn copy_lanes(from: &[u8], to: &mut [u8], at: usize) -> bool
    requires within { at + LANES ≤ length from.now }
    requires same_length { length to.old ≡ length from.now }
    ensures copied { to.new ≡ put_chunk at to.old (chunk at LANES from.now) }
    ensures no_line_feed { IsTrue result → HasNoLineFeed (chunk at LANES from.now) }
    ensures length { length to.new ≡ length to.old }
{
    let lanes = u8x32::from_slice(&from[at..]);
    lanes.copy_to_slice(&mut to[at..]);
    line_feeds(lanes) == 0
}

/// Bit k of the mask is set if lane k is a line feed.
#[inline(always)]
fn line_feeds(lanes: u8x32) -> u64
    ensures { result ≡ mask_l (map (λ b. b == 10) lanes) }
{
    lanes.simd_eq(u8x32::splat(LINE_FEED)).to_bitmask()
}
