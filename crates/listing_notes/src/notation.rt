//! The notation for what is known about registers and the frame.
ghost use Rattle.std.specs.Prelude.{◌≡◌, ◌≤◌, ◌<◌, ◌++◌, ◌∷◌, [], false, slice_index_or, OnOk};
ghost use Rattle.std.specs.Fmt.{signed_decimal};
ghost use Rattle.std.specs.String.{string_bytes};
ghost use Rattle.bpf_frame.specs.FrameMap as map;
ghost use Rattle.bpf_insn.specs.declared.memory.TheConstants.{FRAME_LENGTH, SLOTS};
ghost use Rattle.bpf_verify.specs.LiftedState.{IsProperState};
ghost use Rattle.listing_notes.specs.Notation.{IsPart, end_text, fact_text, interval_text, kind_text, mark_code, marks_text, offsets_text, part_name, part_text};
ghost use Rattle.listing_notes.specs.Notation.{slot_marks, slot_text};

use bpf_frame::FrameMap;
use bpf_insn::{FRAME_LENGTH, SLOT_LENGTH};
use bpf_kinds::{Interval, Kind, Offsets};
use bpf_verify::AbstractState;
use itoa::Buffer;
use std::alloc::{AllocError, Allocator};

/// A part of a state: a register by its number, or a slot of the frame, counted from the frame's first byte.
#[derive(Clone, Copy, Debug, PartialEq, Eq)]
pub enum Part {
    Register(u8),
    Slot(usize),
}

/// Pushes an interval of numbers as one number, as its two ends, or as `any number`.
fn push_interval<A: Allocator>(text: &mut String<A>, x: Interval) -> Result<(), AllocError>
    ensures { OnOk result (string_bytes text.new ≡ string_bytes text.old ++ interval_text x) }
{
    if x.low == 0 && x.high == u64::MAX {
        return text.push_str("any number");
    }
    // An interval above 2^63 is easier to read as negative numbers.
    let negative = x.low >= 1 << 63;
    push_end(text, negative, x.low)?;
    if x.low != x.high {
        text.push_str("..")?;
        push_end(text, negative, x.high)?;
    }
    Ok(())
}

/// Pushes an end of an interval as an unsigned or a negative number.
fn push_end<A: Allocator>(
    text: &mut String<A>,
    negative: bool,
    number: u64,
) -> Result<(), AllocError>
    ensures { OnOk result (string_bytes text.new ≡ string_bytes text.old ++ end_text negative number) }
{
    let mut digits = Buffer::new();
    if negative {
        text.push_str("-")?;
        return text.push_str(digits.format((1u128 << 64) - u128::from(number)));
    }
    text.push_str(digits.format(number))
}

/// Pushes the offsets of a pointer.
fn push_offsets<A: Allocator>(text: &mut String<A>, x: Offsets) -> Result<(), AllocError>
    ensures { OnOk result (string_bytes text.new ≡ string_bytes text.old ++ offsets_text x) }
{
    push_signed(text, x.low)?;
    if x.low != x.high {
        text.push_str("..")?;
        push_signed(text, x.high)?;
    }
    Ok(())
}

fn push_signed<A: Allocator>(text: &mut String<A>, number: i16) -> Result<(), AllocError>
    ensures { OnOk result (string_bytes text.new ≡ string_bytes text.old ++ signed_decimal number) }
{
    let mut digits = Buffer::new();
    text.push_str(digits.format(number))
}

/// Pushes what is known about a register.
pub fn push_kind<A: Allocator>(text: &mut String<A>, kind: Kind) -> Result<(), AllocError>
    ensures { OnOk result (string_bytes text.new ≡ string_bytes text.old ++ kind_text kind) }
{
    match kind {
        Kind::Number(x) => push_interval(text, x),
        Kind::Record(x) => {
            text.push_str("record + ")?;
            push_offsets(text, x)
        }
        Kind::Frame(x) => {
            text.push_str("frame + ")?;
            push_offsets(text, x)
        }
        Kind::Nothing => text.push_str("?"),
    }
}

/// Pushes what is known about a slot: the kind of what it holds, or else which of its bytes are written.
fn push_slot<A: Allocator>(
    text: &mut String<A>,
    frame: &FrameMap,
    slot: usize,
) -> Result<(), AllocError>
    requires proper { map.IsProper frame.now }
    requires within { slot < SLOTS }
    ensures { OnOk result (string_bytes text.new ≡ string_bytes text.old ++ slot_text frame.now slot) }
{
    match frame.slot(slot) {
        Kind::Nothing => push_marks(text, &slot_marks(frame, slot)),
        kind => push_kind(text, kind),
    }
}

fn push_marks<A: Allocator>(text: &mut String<A>, marks: &[bool]) -> Result<(), AllocError>
    ensures { OnOk result (string_bytes text.new ≡ string_bytes text.old ++ marks_text marks.now) }
{
    for mark in marks {
        text.push_str(mark_text(*mark))?;
    }
    Ok(())
}

fn mark_text(mark: bool) -> &'static str
    ensures { result.now ≡ mark_code mark ∷ [] }
{
    // As in the log of Linux's verifier.
    if mark { "m" } else { "?" }
}

/// Returns which bytes of a slot are written.
pub(crate) fn slot_marks(frame: &FrameMap, slot: usize) -> [bool; SLOT_LENGTH]
    requires proper { map.IsProper frame.now }
    requires within { slot < SLOTS }
    ensures { result ≡ slot_marks frame.now.marks slot }
{
    let start = SLOT_LENGTH * slot;
    [
        is_written(frame, start),
        is_written(frame, start + 1),
        is_written(frame, start + 2),
        is_written(frame, start + 3),
        is_written(frame, start + 4),
        is_written(frame, start + 5),
        is_written(frame, start + 6),
        is_written(frame, start + 7),
    ]
}

fn is_written(frame: &FrameMap, at: usize) -> bool
    requires proper { map.IsProper frame.now }
    requires within { at < FRAME_LENGTH }
    ensures { result ≡ slice_index_or frame.now.marks at false }
{
    frame.all_written(at, at)
}

/// Pushes the name of a part, as in `r1` and `[r10-8]`.
fn push_name<A: Allocator>(text: &mut String<A>, part: Part) -> Result<(), AllocError>
    requires { IsPart part }
    ensures { OnOk result (string_bytes text.new ≡ string_bytes text.old ++ part_name part) }
{
    let mut digits = Buffer::new();
    match part {
        Part::Register(register) => {
            text.push_str("r")?;
            text.push_str(digits.format(register))
        }
        Part::Slot(slot) => {
            text.push_str("[r10-")?;
            text.push_str(digits.format(FRAME_LENGTH - SLOT_LENGTH * slot))?;
            text.push_str("]")
        }
    }
}

fn push_part<A: Allocator>(
    text: &mut String<A>,
    known: &AbstractState,
    part: Part,
) -> Result<(), AllocError>
    requires known { IsProperState known.now }
    requires part { IsPart part }
    ensures { OnOk result (string_bytes text.new ≡ string_bytes text.old ++ part_text known.now part) }
{
    match part {
        Part::Register(register) => push_kind(text, known.registers[usize::from(register)]),
        Part::Slot(slot) => push_slot(text, &known.frame, slot),
    }
}

/// Pushes the name of a part and what is known about it.
pub fn push_fact<A: Allocator>(
    text: &mut String<A>,
    known: &AbstractState,
    part: Part,
) -> Result<(), AllocError>
    requires known { IsProperState known.now }
    requires part { IsPart part }
    ensures { OnOk result (string_bytes text.new ≡ string_bytes text.old ++ fact_text known.now part) }
{
    push_name(text, part)?;
    text.push_str(" = ")?;
    push_part(text, known, part)
}
