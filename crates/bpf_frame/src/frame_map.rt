//! What is known of a program's frame: which bytes are written, and what its slots hold.
//!
//! Each state of the verifier's pass has such a map, and each edge copies or joins one, so it is laid out for that: the marks are eight lanes of 64
//! bits, which a few vector instructions join, and marking bytes is one `|` with the lanes of their range. There is one kind per slot and nothing for
//! less than eight bytes, because compilers with 64-bit registers spill whole slots.
//!
//! Always: a slot that is known to hold a number has all its marks, and one that is known to hold a pointer has none. So a load of a slot needs only
//! the kind, and a pointer has no bytes that a program could read. A slot of which nothing is known may still have marks.
ghost use Rattle.std.specs.Prelude.{◌≡◌, ◌≤◌, ◌<◌, ◌+◌, ◌*◌, ◌↔◌, ◌&&◌, ℕ, Bool, false, not, IsTrue, slice_index_or};
ghost use Rattle.bpf_frame.specs.FrameMap as map;
ghost use Rattle.bpf_frame.specs.FrameMap.{AllWritten, IsMarked, IsProper, all_written, fit_marks, mark, set_slot, slot_kind, touch, unwritten, with_marks};
ghost use Rattle.bpf_frame.specs.Lanes.{AreLanes, has_bit, marks_of};
ghost use Rattle.bpf_frame.specs.OrderLaws as laws;
ghost use Rattle.bpf_insn.specs.Frame.{FrameContents, clear_slots};
ghost use Rattle.bpf_kinds.specs.Kind as meaning;
ghost use Rattle.bpf_kinds.specs.declared.kind.Kind.TheVariants.{Nothing};

use bpf_insn::{FRAME_LENGTH, SLOT_LENGTH, SLOTS};
use bpf_kinds::{Kind, Order};
use std::marker::Model;
use std::simd::u64x8;

/// The number of bytes whose marks are in one lane.
const LANE_BITS: usize = 64;

/// The bytes of a program's frame that are known to be written, by their offset from 0, and the kind in each of its slots. Contracts see it as a
/// record with the fields `marks`, a list of truth values, and `kinds`.
#[derive(Drop)]
pub struct FrameMap {
    // The mark of the byte at an offset is the bit offset mod 64 of the lane offset div 64.
    lanes: u64x8,
    // One per slot, as compilers spill whole registers.
    kinds: [Kind; SLOTS],
}

// That a map is proper is a clause of its methods and no invariant of the type: the verifier's definitions speak of a map's contents, which no
// invariant covers.
impl Model for FrameMap {
    ghost use Rattle.bpf_frame.specs.FrameMap.{Contents};
    ghost use Rattle.bpf_frame.specs.Lanes.{AreLanes, marks_of};

    ghost Value = { Contents };

    ghost view = { λ map. record { marks = marks_of map.lanes; kinds = map.kinds } };

    ghost invariant = { λ map. AreLanes map.lanes };
}

impl FrameMap {
    /// Returns the map of a frame of which nothing is known.
    pub fn unwritten() -> Self
        ensures value { result ≡ unwritten }
        ensures proper { IsProper result }
    {
        FrameMap {
            lanes: u64x8::splat(0),
            kinds: [Kind::Nothing; SLOTS],
        }
    }

    /// Returns a copy.
    pub fn duplicate(&self) -> Self
        ensures { result ≡ self.now }
    {
        FrameMap {
            lanes: self.lanes,
            kinds: self.kinds,
        }
    }

    /// Marks `len` bytes from an offset on as written, and no others. Nothing is known of their slots afterwards.
    pub fn mark(&mut self, from: usize, len: usize)
        requires proper { IsProper self.old }
        requires within { from + len ≤ FRAME_LENGTH }
        ensures value { self.new ≡ mark self.old from len }
        ensures proper { IsProper self.new }
    {
        if len > 0 {
            // The bytes may be part of what a slot held.
            clear(&mut self.kinds, from, from + len - 1);
            self.lanes |= lanes_of_range(from, from + len);
        }
    }

    /// Forgets the kinds of the slots with a byte between two offsets, both included.
    pub fn touch(&mut self, from: usize, to: usize)
        requires proper { IsProper self.old }
        requires ordered { from ≤ to }
        requires within { to < FRAME_LENGTH }
        ensures value { self.new ≡ touch self.old from to }
        ensures proper { IsProper self.new }
    {
        clear(&mut self.kinds, from, to);
    }

    /// Returns the kind in a slot.
    pub fn slot(&self, slot: usize) -> Kind
        requires proper { IsProper self.now }
        requires within { slot < SLOTS }
        ensures value { result ≡ slot_kind self.now slot }
        ensures proper { meaning.IsProper result }
    {
        self.kinds[slot]
    }

    /// Sets the kind in a slot. The bytes of a number are written, and those of a pointer aren't.
    pub fn set_slot(&mut self, slot: usize, kind: Kind)
        requires proper { IsProper self.old }
        requires within { slot < SLOTS }
        requires kind { meaning.IsProper kind }
        ensures value { self.new ≡ set_slot self.old slot kind }
        ensures proper { IsProper self.new }
    {
        self.lanes = fit_lanes(self.lanes, slot, kind);
        self.kinds[slot] = kind;
    }

    /// Keeps only what the other map says too.
    pub fn join_with(&mut self, other: &FrameMap)
        requires proper { IsProper self.old }
        requires other { IsProper other.now }
        ensures value { self.new ≡ map.join self.old other.now }
        ensures proper { IsProper self.new }
    {
        self.lanes &= other.lanes;
        join_each(&mut self.kinds, &other.kinds);
    }

    /// Returns whether every byte between two offsets, both included, is known to be written.
    pub fn all_written(&self, from: usize, to: usize) -> bool
        requires ordered { from ≤ to }
        requires within { to < FRAME_LENGTH }
        ensures value { result ≡ all_written self.now.marks from to }
        ensures written { IsTrue result ↔ AllWritten self.now.marks from to }
    {
        // Only the lanes that the bytes are in: one or two, as a rule.
        for lane in from / LANE_BITS..=to / LANE_BITS {
            let bits = bits_within(lane, from, to + 1);
            if self.lanes[lane] & bits != bits {
                return false;
            }
        }
        true
    }
}

/// Returns lanes in which exactly the bytes from an offset on and before another one are marked.
fn lanes_of_range(from: usize, end: usize) -> u64x8
    requires ordered { from ≤ end }
    requires within { end ≤ FRAME_LENGTH }
    ensures lanes { AreLanes result }
    ensures marks { (at : ℕ) → IsMarked (marks_of result) at ↔ ((from ≤ at) × (at < end)) }
{
    let mut lanes = [0; 8];
    for lane in from / LANE_BITS..end.div_ceil(LANE_BITS) {
        lanes[lane] = bits_within(lane, from, end);
    }
    u64x8::from_array(lanes)
}

/// Returns the bits of a lane for the bytes from an offset on and before another one. The lane ends after the first offset and begins before the
/// second one, so neither shift is by 64.
fn bits_within(lane: usize, from: usize, end: usize) -> u64
    requires lane { lane < 8 }
    requires from { from < LANE_BITS * (lane + 1) }
    requires end { LANE_BITS * lane < end }
    ensures { (bit : ℕ) → bit < LANE_BITS
        → IsTrue (has_bit result bit) ↔ ((from ≤ LANE_BITS * lane + bit) × (LANE_BITS * lane + bit < end)) }
{
    let first = LANE_BITS * lane;
    let below = from.saturating_sub(first);
    let above = (first + LANE_BITS).saturating_sub(end);
    (u64::MAX << below) & (u64::MAX >> above)
}

/// Returns the lanes with the marks of a slot's bytes changed to fit its kind.
fn fit_lanes(lanes: u64x8, slot: usize, kind: Kind) -> u64x8
    requires lanes { AreLanes lanes }
    requires within { slot < SLOTS }
    ensures lanes { AreLanes result }
    ensures marks { marks_of result ≡ fit_marks kind (marks_of lanes) slot }
{
    let first = SLOT_LENGTH * slot;
    let range = lanes_of_range(first, first + SLOT_LENGTH);
    match kind {
        Kind::Number(_) => lanes | range,
        // A pointer's bytes count as unwritten, so no program can see how it is stored, or make one.
        Kind::Record(_) | Kind::Frame(_) => without(lanes, range),
        // Joins forget a kind before they forget marks: the bytes may still be written.
        Kind::Nothing => lanes,
    }
}

/// Returns the lanes without the marks of others.
fn without(lanes: u64x8, others: u64x8) -> u64x8
    requires lanes { AreLanes lanes }
    requires others { AreLanes others }
    ensures lanes { AreLanes result }
    ensures marks { (at : ℕ) → slice_index_or (marks_of result) at false
        ≡ (slice_index_or (marks_of lanes) at false && not (slice_index_or (marks_of others) at false)) }
{
    lanes & !others
}

/// Forgets the kinds of the slots with a byte between two offsets, both included.
fn clear(kinds: &mut [Kind; SLOTS], from: usize, to: usize)
    requires ordered { from ≤ to }
    requires within { to < FRAME_LENGTH }
    ensures { kinds.new ≡ clear_slots Nothing kinds.old from to }
{
    kinds[from / SLOT_LENGTH..to / SLOT_LENGTH + 1].fill(Kind::Nothing);
}

/// Joins each kind with the other one at its index.
fn join_each(kinds: &mut [Kind; SLOTS], others: &[Kind; SLOTS])
    ensures { kinds.new ≡ meaning.join_kinds kinds.old others.now }
{
    for slot in 0..SLOTS {
        // Most slots are unknown, and stay so.
        if let Kind::Nothing = kinds[slot] {
            continue;
        }
        kinds[slot] = kinds[slot].join(&others[slot]);
    }
}

/// Returns whether each kind is within the other one at its index.
fn are_within(kinds: &[Kind; SLOTS], others: &[Kind; SLOTS]) -> bool
    ensures { IsTrue result ↔ ((slot : ℕ) → meaning.IsWithin (slice_index_or kinds.now slot Nothing) (slice_index_or others.now slot Nothing)) }
{
    for slot in 0..SLOTS {
        if !kinds[slot].leq(&others[slot]) {
            return false;
        }
    }
    true
}

impl Order for FrameMap {
    ghost Element = { FrameContents };

    ghost IsProper = { map.IsProper };

    ghost Admits = { map.Admits };

    ghost IsWithin = { map.IsWithin };

    ghost join = { map.join };

    ghost laws = { laws.is_order };

    fn leq(&self, other: &FrameMap) -> bool {
        self.lanes & other.lanes == other.lanes && are_within(&self.kinds, &other.kinds)
    }

    fn join(&self, other: &FrameMap) -> FrameMap {
        let mut kinds = self.kinds;
        join_each(&mut kinds, &other.kinds);
        FrameMap {
            lanes: self.lanes & other.lanes,
            kinds,
        }
    }
}
