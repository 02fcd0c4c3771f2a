//! The program's own memory.
ghost use Rattle.std.specs.Prelude.{◌≡◌, ◌+◌, ◌≤◌, ◌<◌, IsTrue, length, map, take, drop, replicate, None};
ghost use Rattle.bpf_helpers.specs.Call.{MeetsSignature, bytes_read, call, second};
ghost use Rattle.bpf_helpers.specs.Helper.{signature};
ghost use Rattle.bpf_helpers.specs.Group.{frame_use};
ghost use Rattle.bpf_insn.specs.Frame.{Unwritten, number_of, overwrite_slots, slot_value};
ghost use Rattle.bpf_meaning.specs.Memory.{all_written, set_slot_pointer, store_number, write_bytes, written_bytes};

use crate::bytes::little_endian;
use bpf_helpers::{FrameUse, Helper, call};
use bpf_insn::{FRAME_LENGTH, Pointer, SLOT_LENGTH, SLOTS, Value};
use std::alloc::Allocator;
use std::marker::Model;
use tl_segments::Segment;

/// The program's own memory, by offset from 0. Contracts see it as a record with the fields `bytes`, each of which is unwritten or a byte, and
/// `slots`, each of which may be a pointer.
#[derive(Drop)]
pub struct Frame {
    bytes: [u8; FRAME_LENGTH],
    /// The marks of the bytes: true for those that were written.
    marks: [bool; FRAME_LENGTH],
    /// The pointers in slots.
    slots: [Option<Pointer>; SLOTS],
}

impl Model for Frame {
    ghost use Rattle.bpf_insn.specs.Frame.{FrameContents};
    ghost use Rattle.bpf_meaning.specs.Memory.{frame_bytes};

    ghost Value = { FrameContents };

    ghost view = { λ frame. record { bytes = frame_bytes frame.marks frame.bytes; slots = frame.slots } };
}

impl Frame {
    /// Returns a frame with nothing written.
    pub fn unwritten() -> Self
        ensures bytes { result.bytes ≡ replicate FRAME_LENGTH Unwritten }
        ensures slots { result.slots ≡ replicate SLOTS None }
    {
        Frame {
            bytes: [0; FRAME_LENGTH],
            marks: [false; FRAME_LENGTH],
            slots: [None; SLOTS],
        }
    }

    /// Returns the length of the frame, in bytes.
    pub(crate) fn len(&self) -> usize
        ensures value { result ≡ length self.now.bytes }
        ensures whole { result ≡ FRAME_LENGTH }
    {
        self.bytes.as_slice().len()
    }

    /// Returns the little-endian number in `count` bytes from an offset on, or `None` if one of them is unwritten.
    pub fn load(&self, at: usize, count: usize) -> Option<u64>
        requires count { count ≤ 8 }
        requires within { at + count ≤ FRAME_LENGTH }
        ensures { result ≡ number_of (take count (drop at self.now.bytes)) }
    {
        if self.marks[at..at + count].contains(&false) {
            return None;
        }
        Some(little_endian(&self.bytes[at..at + count]))
    }

    /// Returns the contents of a slot: the number in its bytes if all of them are written, or else its pointer, if there is one.
    pub fn slot_value(&self, slot: usize) -> Value
        requires { slot < SLOTS }
        ensures { result ≡ slot_value self.now slot }
    {
        // The marks tell a number from a pointer, so a slot needs no tag.
        match (self.load(SLOT_LENGTH * slot, SLOT_LENGTH), self.slots[slot]) {
            (Some(number), _) => Value::Number(number),
            (None, Some(pointer)) => Value::Pointer(pointer),
            (None, None) => Value::Empty,
        }
    }

    /// Writes the low `count` bytes of a number from an offset on, lowest first.
    pub fn store(&mut self, at: usize, count: usize, number: u64)
        requires count { count ≤ 8 }
        requires within { at + count ≤ FRAME_LENGTH }
        ensures { self.new ≡ store_number self.old at count number }
    {
        let bytes = number.to_le_bytes();
        self.bytes[at..at + count].copy_from_slice(&bytes[..count]);
        self.marks[at..at + count].fill(true);
        self.clear_slots(at, count);
    }

    /// Stores a pointer in a slot, where it takes all of the bytes.
    pub fn set_slot_pointer(&mut self, slot: usize, pointer: Pointer)
        requires { slot < SLOTS }
        ensures { self.new ≡ set_slot_pointer self.old slot pointer }
    {
        let at = SLOT_LENGTH * slot;
        // A pointer has no bytes, so no program can see how it is stored, or make one.
        self.marks[at..at + SLOT_LENGTH].fill(false);
        self.slots[slot] = Some(pointer);
    }

    /// Removes the pointer from each slot with one of `count` bytes from an offset on.
    fn clear_slots(&mut self, at: usize, count: usize)
        requires { at + count ≤ FRAME_LENGTH }
        ensures { self.new ≡ record self.old { slots = overwrite_slots None self.old.slots at count } }
    {
        if count > 0 {
            let last = at + count - 1;
            self.slots[at / SLOT_LENGTH..=last / SLOT_LENGTH].fill(None);
        }
    }

    /// Returns whether `count` bytes from an offset on are written.
    pub(crate) fn all_written(&self, at: usize, count: usize) -> bool
        requires { at + count ≤ FRAME_LENGTH }
        ensures { result ≡ all_written (take count (drop at self.now.bytes)) }
    {
        !self.marks[at..at + count].contains(&false)
    }

    /// Calls a helper function on a segment. It may read bytes that are written, and write bytes.
    pub(crate) fn call<A: Allocator>(
        &mut self,
        helper: Helper,
        arguments: [u64; 3],
        segment: &Segment<A>,
        score: &mut u64,
    ) -> u64
        requires meets { MeetsSignature helper arguments }
        requires written { IsTrue (all_written (bytes_read (frame_use (signature helper).group) arguments self.old.bytes)) }
        ensures answer { result ≡ (call helper segment.now arguments
            (written_bytes (bytes_read (frame_use (signature helper).group) arguments self.old.bytes)) score.old).answer }
        ensures frame { self.new ≡ write_bytes self.old (second arguments) (call helper segment.now arguments
            (written_bytes (bytes_read (frame_use (signature helper).group) arguments self.old.bytes)) score.old).written }
        ensures score { score.new ≡ (call helper segment.now arguments
            (written_bytes (bytes_read (frame_use (signature helper).group) arguments self.old.bytes)) score.old).score }
    {
        // Without its marks, since the machine's frame has none.
        let answer = call(helper, arguments, segment, &mut self.bytes, score);
        if let FrameUse::Writes = helper.signature().group.frame_use() {
            // For the proof only: `bytes` states that the segment's names have their full length, which determines the count of written bytes.
            let _bytes = segment.bytes();
            let [_, at, count] = arguments;
            self.marks[at as usize..at as usize + count as usize].fill(true);
            self.clear_slots(at as usize, count as usize);
        }
        answer
    }
}
