//! Calls of helper functions.
ghost use Rattle.std.specs.Prelude.{◌≡◌, ◌≤◌, is_some, length, slice_get};
ghost use Rattle.bpf_kinds.specs.Interval.{Admits};
ghost use Rattle.bpf_helpers.specs.Call.{MeetsSignature, bytes_read, call, second, write};
ghost use Rattle.bpf_helpers.specs.Helper.{signature};
ghost use Rattle.bpf_helpers.specs.Meaning.{first_bytes, is_name, sides};
ghost use Rattle.bpf_helpers.specs.Group.{frame_use};
ghost use Rattle.tl_segments.specs.Segment.{names_of, ranges_of};

use crate::fields::{coordinate, field_number};
use crate::helper::Helper;
use bpf_insn::FRAME_LENGTH;
use std::alloc::Allocator;
use tl_segments::{NAME_LENGTH, Segment, lies_on, name_equals};

/// Calls a helper function with arguments that the caller has checked against its signature, and returns its answer. The arguments are words; a
/// pointer into the frame is its offset. Only a call that copies a name writes to the frame, and only one that sets the score changes it.
#[tactic(auto, using(crate::proofs::WriteLemmas::none_written))]
pub fn call<A: Allocator>(
    helper: Helper,
    arguments: [u64; 3],
    segment: &Segment<A>,
    frame: &mut [u8; FRAME_LENGTH],
    score: &mut u64,
) -> u64
    requires { MeetsSignature helper arguments }
    ensures answer { result ≡
        (call helper segment.now arguments (bytes_read (frame_use (signature helper).group) arguments frame.old) score.old).answer }
    ensures frame { frame.new ≡ write frame.old (second arguments)
        (call helper segment.now arguments (bytes_read (frame_use (signature helper).group) arguments frame.old) score.old).written }
    ensures score { score.new ≡
        (call helper segment.now arguments (bytes_read (frame_use (signature helper).group) arguments frame.old) score.old).score }
    ensures interval { Admits (signature helper).answer result }
{
    // Words, neither values nor kinds, so that the machine can call this directly.
    let [first, second, third] = arguments;
    // Missing data has an answer, 0 or blanks, so that programs needn't ask for counts first.
    match helper {
        Helper::Field => field_number(segment, first).unwrap_or(0),
        Helper::HasField => u64::from(field_number(segment, first).is_some()),
        Helper::NameCount => segment.names(),
        Helper::RangeCount => segment.ranges(),
        Helper::InRange => sides(segment, first, second),
        Helper::NameCopy => {
            let at = second as usize;
            u64::from(name_copy(segment, first, &mut frame[at..at + third as usize]))
        }
        Helper::NameIs => {
            let at = second as usize;
            u64::from(is_name(segment, first, &frame[at..at + third as usize]))
        }
        Helper::Emit => {
            *score = first;
            0
        }
        Helper::Coord => coordinate(segment, first),
    }
}

/// Returns the sides of a range on which a house number lies: 0 for none, 1 for the left, 2 for the right, 3 for both.
fn sides<A: Allocator>(segment: &Segment<A>, number: u64, house: u64) -> u64
    ensures value { result ≡ sides house (slice_get (ranges_of segment.now) number) }
    ensures two_bits { result ≤ 3 }
{
    let Some(range) = segment.range(number) else {
        return 0;
    };
    let left = u64::from(lies_on(house, range.fraddl, range.toaddl));
    let right = u64::from(lies_on(house, range.fraddr, range.toaddr));
    left + 2 * right
}

/// Copies the first bytes of a name, or blanks if the segment has no such name, and returns whether it has one.
fn name_copy<A: Allocator>(segment: &Segment<A>, number: u64, bytes: &mut [u8]) -> bool
    requires { length bytes.old ≤ NAME_LENGTH }
    ensures answer { result ≡ is_some (slice_get (names_of segment.now) number) }
    ensures bytes { bytes.new ≡ first_bytes (length bytes.old) (slice_get (names_of segment.now) number) }
{
    match segment.name(number) {
        Some(name) => {
            bytes.copy_from_slice(&name[..bytes.len()]);
            true
        }
        None => {
            bytes.fill(b' ');
            false
        }
    }
}

/// Returns whether a name equals some bytes; a missing name equals none.
fn is_name<A: Allocator>(segment: &Segment<A>, number: u64, required: &[u8]) -> bool
    requires some { 1 ≤ length required.now }
    requires few { length required.now ≤ NAME_LENGTH }
    ensures { result ≡ is_name required.now (slice_get (names_of segment.now) number) }
{
    match segment.name(number) {
        Some(name) => name_equals(name, required),
        None => false,
    }
}
