//! The parts of a state that an instruction reads.
//!
//! A note shows these parts, besides those that changed. Which registers an instruction reads follows from the instruction table (`bpf_insn`) for
//! those that its fields name, and from the signatures (`bpf_helpers`) for the arguments of a call, so neither a new instruction nor a new helper
//! function needs a line here. Bytes are counted as `i128` and may lie outside of their area, because a note is also made for an instruction that is
//! refused for exactly that.
//!
//! Always: a part that isn't shown is unchanged, so the notes together determine the states (`laws::notes_determine_states`). Parts are in the order
//! of a listing: the registers, then the slots from the frame's end, where programs begin to use it.
ghost use Rattle.std.specs.Prelude.{◌≡◌, ◌≤◌, ◌<◌, ◌+◌, pos, ◌+ℤ◌, ◌-ℤ◌, ◌++◌, ◌∷◌, [], cond, filter, IfOk, OnOk};
ghost use Rattle.std.specs.List.{All};
ghost use Rattle.bpf_verify.specs.LiftedState.{IsProperState, kind_of};
ghost use Rattle.listing_notes.specs.declared.reads.TheConstants.{PARTS};
ghost use Rattle.bpf_insn.specs.declared.memory.TheConstants.{SLOTS};
ghost use Rattle.bpf_meaning.specs.declared.state.TheConstants.{REGISTERS};
ghost use Rattle.listing_notes.specs.Notation.{IsPart};
ghost use Rattle.listing_notes.specs.Reads.{bytes_from, called_bytes, has_one_if, has_one_of, helper_of, is_used, lent_bytes, loaded_bytes, part_at};
ghost use Rattle.listing_notes.specs.Reads.{read_bytes, read_if, reads, reads_register, reads_unnamed, parts_from, registers_read, slots_read, uses_register};

use crate::notation::Part;
use bpf_helpers::{Argument, FrameUse, Helper};
use bpf_insn::{Insn, SLOT_LENGTH, SLOTS, load_length};
use bpf_kinds::{Kind, Offsets};
use bpf_meaning::REGISTERS;
use bpf_verify::AbstractState;
use std::alloc::{AllocError, Allocator};

/// The number of parts.
pub(crate) const PARTS: usize = REGISTERS + SLOTS;

/// Bytes of an area, from the first to the last, counted from the area's first byte. They may lie outside the area, and there are none if the last
/// comes before the first.
#[derive(Clone, Copy)]
pub struct Bytes {
    pub first: i128,
    pub last: i128,
}

pub(crate) fn reads(known: &AbstractState, insn: Insn, part: Part) -> bool
    requires known { IsProperState known.now }
    requires part { IsPart part }
    ensures { result ≡ reads known.now insn part }
{
    match part {
        Part::Register(register) => reads_register(insn, register),
        Part::Slot(slot) => match read_bytes(known, insn) {
            Some(bytes) => has_one_of(bytes, slot),
            None => false,
        },
    }
}

fn reads_register(insn: Insn, register: u8) -> bool
    ensures { result ≡ reads_register insn register }
{
    insn.reads_named(register) || reads_unnamed(insn, register)
}

/// Returns whether an instruction reads a register that none of its fields names.
fn reads_unnamed(insn: Insn, register: u8) -> bool
    ensures { result ≡ reads_unnamed insn register }
{
    match insn {
        Insn::Call { immediate } => uses_register(helper_of(immediate), register),
        Insn::Exit => register == 0,
        _ => false,
    }
}

/// Returns the helper function that a call invokes.
pub fn helper_of(immediate: i32) -> Option<Helper>
    ensures { result ≡ helper_of immediate }
{
    Helper::by_number(immediate.cast_unsigned())
}

fn uses_register(helper: Option<Helper>, register: u8) -> bool
    ensures { result ≡ uses_register helper register }
{
    let Some(helper) = helper else {
        return false;
    };
    let [first, second, third] = helper.signature().arguments;
    match register {
        1 => is_used(first),
        2 => is_used(second),
        3 => is_used(third),
        _ => false,
    }
}

fn is_used(argument: Argument) -> bool
    ensures { result ≡ is_used argument }
{
    !matches!(argument, Argument::Unused)
}

/// Returns the bytes of the frame that an instruction may read.
fn read_bytes(known: &AbstractState, insn: Insn) -> Option<Bytes>
    requires { IsProperState known.now }
    ensures { result ≡ read_bytes known.now insn }
{
    match insn {
        Insn::Load {
            format,
            base,
            offset,
            ..
        } => loaded_bytes(
            known.registers[usize::from(base.number)],
            offset,
            load_length(format),
        ),
        Insn::Call { immediate } => called_bytes(helper_of(immediate), known),
        _ => None,
    }
}

/// Returns the bytes of the frame that a load from a base may read.
fn loaded_bytes(base: Kind, offset: i16, count: usize) -> Option<Bytes>
    ensures { result ≡ loaded_bytes base offset count }
{
    match base {
        Kind::Frame(x) => Some(bytes_from(x, offset, count as u64)),
        _ => None,
    }
}

fn called_bytes(helper: Option<Helper>, known: &AbstractState) -> Option<Bytes>
    requires { IsProperState known.now }
    ensures { result ≡ called_bytes helper known.now }
{
    match helper?.signature().group.frame_use() {
        FrameUse::Reads => lent_bytes(known),
        FrameUse::Nothing | FrameUse::Writes => None,
    }
}

/// Returns the bytes of the frame that a call may read or write.
pub fn lent_bytes(known: &AbstractState) -> Option<Bytes>
    requires { IsProperState known.now }
    ensures { result ≡ lent_bytes (kind_of known.now 2) (kind_of known.now 3) }
{
    match (known.registers[2], known.registers[3]) {
        (Kind::Frame(x), Kind::Number(count)) => Some(bytes_from(x, 0, count.high)),
        _ => None,
    }
}

/// Returns `count` bytes from each of the offsets, plus another offset.
pub fn bytes_from(x: Offsets, offset: i16, count: u64) -> Bytes
    ensures { result ≡ bytes_from x offset count }
{
    Bytes {
        first: i128::from(byte_at(x.low, offset)),
        last: last_byte(byte_at(x.high, offset), count),
    }
}

fn byte_at(pointer: i16, offset: i16) -> i32
    ensures { result ≡ pointer +ℤ offset }
{
    i32::from(pointer) + i32::from(offset)
}

fn last_byte(first: i32, count: u64) -> i128
    ensures { result ≡ (first +ℤ pos count) -ℤ pos 1 }
{
    i128::from(first) + i128::from(count) - 1
}

/// Returns whether one of the bytes is in a slot.
fn has_one_of(bytes: Bytes, slot: usize) -> bool
    requires { slot < SLOTS }
    ensures { result ≡ has_one_of bytes slot }
{
    let start = (SLOT_LENGTH * slot) as i128;
    bytes.first <= bytes.last && bytes.first <= start + 7 && start <= bytes.last
}

/// Parts are ordered: the registers, then the slots from the last of the frame to the first.
pub(crate) fn part_at(place: usize) -> Part
    requires { place < PARTS }
    ensures value { result ≡ part_at place }
    ensures is { IsPart result }
{
    if place < REGISTERS {
        Part::Register(place as u8)
    } else {
        Part::Slot(PARTS - 1 - place)
    }
}

/// Returns the registers that an instruction reads.
pub fn registers_read<A: Allocator>(
    alloc: A,
    known: &AbstractState,
    insn: Insn,
) -> Result<Vec<Part, A>, AllocError>
    requires { IsProperState known.now }
    ensures value { IfOk result (λ parts. parts.items ≡ registers_read known.now insn) }
    ensures are { IfOk result (λ parts. All IsPart parts.items) }
{
    parts_read(alloc, known, insn, 0, REGISTERS)
}

/// Returns the slots that an instruction may read.
pub fn slots_read<A: Allocator>(
    alloc: A,
    known: &AbstractState,
    insn: Insn,
) -> Result<Vec<Part, A>, AllocError>
    requires { IsProperState known.now }
    ensures value { IfOk result (λ parts. parts.items ≡ slots_read known.now insn) }
    ensures are { IfOk result (λ parts. All IsPart parts.items) }
{
    parts_read(alloc, known, insn, REGISTERS, SLOTS)
}

/// Returns the parts that an instruction reads, of `count` parts from the place `first` on.
fn parts_read<A: Allocator>(
    alloc: A,
    known: &AbstractState,
    insn: Insn,
    first: usize,
    count: usize,
) -> Result<Vec<Part, A>, AllocError>
    requires known { IsProperState known.now }
    requires within { first + count ≤ PARTS }
    ensures value { IfOk result (λ parts. parts.items ≡ filter (reads known.now insn) (parts_from first count)) }
    ensures are { IfOk result (λ parts. All IsPart parts.items) }
{
    let mut parts = Vec::new(alloc);
    for index in 0..count {
        let part = part_at(first + index);
        push_if(&mut parts, part, reads(known, insn, part))?;
    }
    Ok(parts)
}

pub(crate) fn push_if<A: Allocator>(
    parts: &mut Vec<Part, A>,
    part: Part,
    chosen: bool,
) -> Result<(), AllocError>
    ensures { OnOk result (parts.new.items ≡ parts.old.items ++ cond chosen (part ∷ []) []) }
{
    if chosen {
        parts.push(part)?;
    }
    Ok(())
}
