//! Loads and stores.
ghost use Rattle.std.specs.Prelude.{◌≡◌, ◌+◌, ◌+ℤ◌, ◌≤◌, IsTrue, map, unsigned_abs, MatchOption, false};
ghost use Rattle.bpf_insn.specs.Frame.{Byte};
ghost use Rattle.bpf_meaning.specs.Effect.{lie_within, load_bytes, load_frame, load_slot, load_value, pointer_in, store_at, store_change, store_number, store_pointer};

use crate::bytes::little_endian;
use crate::cause::Cause;
use crate::effect::Change;
use crate::frame::Frame;
use crate::operands::operand;
use crate::state::State;
use bpf_insn::{
    Area, FRAME_LENGTH, LoadFormat, Pointer, Register, Source, StoreSize, Value, load_length,
    slot_at, store_length,
};
use std::alloc::Allocator;
use tl_segments::Segment;

/// Returns an offset as an index if `count` bytes from it on lie within the first `bytes` bytes of an area.
#[inline(always)]
fn offset_within(offset: i32, count: usize, bytes: usize) -> Option<usize>
    requires { count ≤ 8 }
    ensures { MatchOption result (lie_within offset count bytes ≡ false)
        (λ at. IsTrue (lie_within offset count bytes) × (at ≡ unsigned_abs offset) × (at + count ≤ bytes)) }
{
    let Ok(at) = usize::try_from(offset) else {
        return None;
    };
    if at + count > bytes {
        return None;
    }
    Some(at)
}

/// Loads a number from the record, from an offset on.
#[inline(always)]
fn load_record(bytes: &[u8], format: LoadFormat, offset: i32) -> Result<Value, Cause>
    ensures { result ≡ load_bytes format (map Byte bytes.now) offset }
{
    let count = load_length(format);
    let Some(at) = offset_within(offset, count, bytes.len()) else {
        return Err(Cause::OutOfBounds);
    };
    let number = little_endian(&bytes[at..at + count]);
    Ok(Value::Number(format.extend(number)))
}

/// Loads a value from the frame, from an offset on. A load of a whole slot returns the slot's contents.
fn load_frame(frame: &Frame, format: LoadFormat, offset: i32) -> Result<Value, Cause>
    ensures { result ≡ load_frame format frame.now offset }
{
    let count = load_length(format);
    let Some(at) = offset_within(offset, count, frame.len()) else {
        return Err(Cause::OutOfBounds);
    };
    if let Some(slot) = slot_at(at, count) {
        return load_slot(frame.slot_value(slot));
    }
    match frame.load(at, count) {
        Some(number) => Ok(Value::Number(format.extend(number))),
        None => Err(Cause::UnwrittenFrame),
    }
}

/// Returns the value that a load of a whole slot yields, if the slot holds one.
fn load_slot(held: Value) -> Result<Value, Cause>
    ensures { result ≡ load_slot held }
{
    match held {
        Value::Empty => Err(Cause::UnwrittenFrame),
        value => Ok(value),
    }
}

/// Returns the pointer in the base register of a load or a store.
#[inline(always)]
fn pointer_in(state: &State, register: u8) -> Result<Pointer, Cause>
    requires { register ≤ 10 }
    ensures { result ≡ pointer_in state.now register }
{
    match state.read(register)? {
        Value::Pointer(pointer) => Ok(pointer),
        _ => Err(Cause::NotPointer),
    }
}

/// Returns where a load or a store begins: `offset` bytes from where the pointer points.
fn offset_from(pointer: Pointer, offset: i16) -> i32
    ensures { result ≡ pointer.offset +ℤ offset }
{
    // This sum is no pointer: out of bounds it is 44 OutOfBounds, never 42 LeavesArea.
    i32::from(pointer.offset) + i32::from(offset)
}

/// Returns the value that a load yields.
pub(crate) fn load_value<A: Allocator>(
    segment: &Segment<A>,
    state: &State,
    format: LoadFormat,
    base: Register,
    offset: i16,
) -> Result<Value, Cause>
    ensures { result ≡ load_value segment.now state.now format base.number offset }
{
    let pointer = pointer_in(state, base.number)?;
    let start = offset_from(pointer, offset);
    match pointer.area {
        Area::Record => load_record(segment.bytes(), format, start),
        Area::Frame => load_frame(&state.frame, format, start),
    }
}

/// Returns the change that a store makes to the frame.
pub(crate) fn store_change(
    state: &State,
    size: StoreSize,
    base: Register,
    offset: i16,
    source: Source,
) -> Result<Change, Cause>
    ensures { result ≡ store_change state.now size base.number offset source }
{
    let pointer = pointer_in(state, base.number)?;
    // The area is checked before the source is read, and the bounds come last.
    let Area::Frame = pointer.area else {
        return Err(Cause::WritesRecord);
    };
    let value = operand(state, source)?;
    store_at(offset_from(pointer, offset), size, value)
}

/// Returns the change that storing a value in the frame makes, from an offset on.
fn store_at(offset: i32, size: StoreSize, value: Value) -> Result<Change, Cause>
    ensures { result ≡ store_at offset size value }
{
    match value {
        // `operand` refuses an empty register, so this isn't reached.
        Value::Empty => Err(Cause::StoresPointer),
        Value::Number(number) => store_number(offset, size, number),
        Value::Pointer(pointer) => store_pointer(offset, size, pointer),
    }
}

/// Returns the change that storing a pointer in the frame makes, from an offset on. A pointer can only be stored in a whole slot.
fn store_pointer(offset: i32, size: StoreSize, pointer: Pointer) -> Result<Change, Cause>
    ensures { result ≡ store_pointer offset size pointer }
{
    let count = store_length(size);
    // Whether the bytes would be a slot comes before the bounds, also for a negative offset: 47 before 44.
    let Some(slot) = slot_at(offset.unsigned_abs() as usize, count) else {
        return Err(Cause::StoresPointer);
    };
    match offset_within(offset, count, FRAME_LENGTH) {
        Some(_) => Ok(Change::StorePointer { slot, pointer }),
        None => Err(Cause::OutOfBounds),
    }
}

/// Returns the change that storing a number in the frame makes, from an offset on.
fn store_number(offset: i32, size: StoreSize, number: u64) -> Result<Change, Cause>
    ensures { result ≡ store_number offset size number }
{
    match offset_within(offset, store_length(size), FRAME_LENGTH) {
        Some(at) => Ok(Change::StoreBytes { at, size, number }),
        None => Err(Cause::OutOfBounds),
    }
}
