//! Loads and stores.
//!
//! The checks of loads and stores on what is known, in the order of the meaning's: base (40, 43), record (46), source (40), pointer (47), bounds (44)
//! and unwritten bytes (45).
//!
//! Which cause a program is refused for is part of the verdict, and the verdict is exact, so an order that differs from `bpf_meaning::memory` in one
//! place is refused by the prover. Bounds apply to base plus offset, which is no pointer: it is computed in 32 bits and never becomes 42 LeavesArea.
//! What is known of a store at an unknown offset is only what it may have destroyed: it marks nothing, and each slot from its least byte to its
//! greatest becomes unknown, also those that no run reaches.
//!
//! Always: a load whose slot has a known kind needs no marks, as `FrameMap` keeps both in step; and the area of a base is the same in every run, so
//! the machine may rely on `area_of`.
ghost use Rattle.std.specs.Prelude.{◌≡◌, ◌≤◌, ◌<◌, IfErr, IfOk, IfSome, IsTrue, OnOk, Err, Ok, option_map};
ghost use Rattle.bpf_kinds.specs.Kind as kinds;
ghost use Rattle.bpf_kinds.specs.Offsets as pointer_offsets;
ghost use Rattle.bpf_verify.specs.Annotation.{area_of, area_of_kind};
ghost use Rattle.bpf_verify.specs.LiftedState.{IsProperState, Reached};
ghost use Rattle.bpf_meaning.specs.Walk.{load_value, store};
ghost use Rattle.bpf_verify.specs.Transfer.{area_length, slot_kind_or_nothing, known_slot, lie_within, load_area, load_from, pointers_in, storable, store_at};
ghost use Rattle.bpf_verify.specs.Transfer.{kinds as known_kinds};
ghost use Rattle.bpf_verify.specs.Verified.{base_of};
ghost use Rattle.bpf_insn.specs.declared.memory.TheConstants.{FRAME_LENGTH, SLOTS};
ghost use Rattle.bpf_insn.specs.Memory.{load_length};
ghost use Rattle.bpf_insn.specs.declared.value.Area.TheVariants as Area;

use crate::abstract_state::AbstractState;
use crate::operands::operand;
use bpf_insn::{
    Area, FRAME_LENGTH, Insn, LoadFormat, Register, Source, StoreSize, load_length, slot_at,
    store_length,
};
use bpf_kinds::{Kind, Offsets, load};
use bpf_meaning::Cause;
use tl_segments::RECORD_LENGTH;

/// The area and the possible offsets of a pointer.
#[derive(Clone, Copy)]
pub(crate) struct Pointers {
    pub area: Area,
    pub offsets: Offsets,
}

/// Returns the base register of a load or a store, from which its offset counts.
fn base_of(insn: Insn) -> Option<Register>
    ensures { option_map (λ base. base.number) result ≡ base_of insn }
{
    match insn {
        Insn::Load { base, .. } | Insn::StoreImmediate { base, .. } | Insn::Store { base, .. } => {
            Some(base)
        }
        _ => None,
    }
}

/// Returns the area that pointers of a kind point into.
fn area_of_kind(kind: Kind) -> Option<Area>
    ensures { result ≡ area_of_kind kind }
{
    match kind {
        Kind::Record(_) => Some(Area::Record),
        Kind::Frame(_) => Some(Area::Frame),
        _ => None,
    }
}

/// Returns the area that the base of an instruction points into, if it's a load or a store.
pub(crate) fn area_of(known: &AbstractState, insn: Insn) -> Option<Area>
    requires { IsProperState known.now }
    ensures { result ≡ area_of (Reached known.now) insn }
{
    let base = base_of(insn)?;
    area_of_kind(known.registers[usize::from(base.number)])
}

/// Returns the pointers in the base register of a load or a store.
fn pointers_in(known: &AbstractState, register: Register) -> Result<Pointers, Cause>
    requires { IsProperState known.now }
    ensures value { result ≡ pointers_in known.now register.number }
    ensures proper { IfOk result (λ pointers. pointer_offsets.IsProper pointers.offsets) }
{
    match known.read(register.number)? {
        Kind::Record(offsets) => Ok(Pointers {
            area: Area::Record,
            offsets,
        }),
        Kind::Frame(offsets) => Ok(Pointers {
            area: Area::Frame,
            offsets,
        }),
        _ => Err(Cause::NotPointer),
    }
}

/// Returns whether `count` bytes from each of `offsets` plus `offset` lie within the first `bytes` bytes of an area.
pub(crate) fn lie_within(offsets: Offsets, offset: i16, count: usize, bytes: usize) -> bool
    requires count { count ≤ 512 }
    requires bytes { bytes ≤ 512 }
    ensures { result ≡ lie_within offsets offset count bytes }
{
    // Of more than 16 bits: the sum of base and offset is no pointer, so it may be anywhere.
    let first = i32::from(offsets.low) + i32::from(offset);
    let end = i32::from(offsets.high) + i32::from(offset) + count as i32;
    first >= 0 && end <= bytes as i32
}

/// Returns the length of an area, in bytes.
fn area_length(area: Area) -> usize
    ensures value { result ≡ area_length area }
    ensures short { result ≤ 512 }
{
    match area {
        Area::Record => RECORD_LENGTH,
        Area::Frame => FRAME_LENGTH,
    }
}

/// Returns the kind of a load's result.
pub(crate) fn load_kind(
    known: &AbstractState,
    format: LoadFormat,
    base: Register,
    offset: i16,
) -> Result<Kind, Cause>
    requires { IsProperState known.now }
    ensures value { result ≡ load_value (known_kinds known.now) format base.number offset }
    ensures proper { IfOk result kinds.IsProper }
{
    let pointers = pointers_in(known, base)?;
    load_from(known, format, pointers, offset)
}

/// Returns the kind of a load's result, given the pointers in its base register.
fn load_from(
    known: &AbstractState,
    format: LoadFormat,
    pointers: Pointers,
    offset: i16,
) -> Result<Kind, Cause>
    requires known { IsProperState known.now }
    requires pointers { pointer_offsets.IsProper pointers.offsets }
    ensures value { result ≡ load_from known.now format pointers offset }
    ensures proper { IfOk result kinds.IsProper }
{
    let Pointers { area, offsets } = pointers;
    let count = load_length(format);
    if !lie_within(offsets, offset, count, area_length(area)) {
        return Err(Cause::OutOfBounds);
    }
    match area {
        Area::Record => Ok(Kind::Number(load(format))),
        Area::Frame => load_frame(known, format, offsets, offset),
    }
}

/// Returns the kind of a load within the frame: the kind in a slot, or a number if all of the bytes are written.
fn load_frame(
    known: &AbstractState,
    format: LoadFormat,
    offsets: Offsets,
    offset: i16,
) -> Result<Kind, Cause>
    requires known { IsProperState known.now }
    requires offsets { pointer_offsets.IsProper offsets }
    requires within { IsTrue (lie_within offsets offset (load_length format) FRAME_LENGTH) }
    ensures value { result ≡ load_area known.now format (record { area = Area.Frame; offsets = offsets }) offset }
    ensures proper { IfOk result kinds.IsProper }
{
    let count = load_length(format);
    match slot_kind_or_nothing(known, known_slot(offsets, offset, count)) {
        Kind::Nothing if known.all_marked(offsets, offset, count) => Ok(Kind::Number(load(format))),
        Kind::Nothing => Err(Cause::UnwrittenFrame),
        kind => Ok(kind),
    }
}

/// Returns the slot of the frame that `count` bytes fill exactly, starting at `offsets` plus `offset`, if that is a single offset.
fn known_slot(offsets: Offsets, offset: i16, count: usize) -> Option<usize>
    ensures { result ≡ known_slot offsets offset count }
{
    let at = i32::from(offsets.low) + i32::from(offset);
    if offsets.low != offsets.high {
        return None;
    }
    // Also for an offset before the frame, which the bounds refuse later.
    slot_at(at.unsigned_abs() as usize, count)
}

/// Returns the kind in a slot, or `Kind::Nothing` if there is no slot.
fn slot_kind_or_nothing(known: &AbstractState, slot: Option<usize>) -> Kind
    requires known { IsProperState known.now }
    requires within { IfSome slot (λ slot. slot < SLOTS) }
    ensures value { result ≡ slot_kind_or_nothing known.now slot }
    ensures proper { kinds.IsProper result }
{
    match slot {
        Some(slot) => known.frame.slot(slot),
        None => Kind::Nothing,
    }
}

/// Checks a store and updates the state.
pub(crate) fn store(
    known: &mut AbstractState,
    size: StoreSize,
    base: Register,
    offset: i16,
    source: Source,
) -> Result<(), Cause>
    requires { IsProperState known.old }
    ensures ok { OnOk result (store (known_kinds known.old) size base.number offset source ≡ Ok known.new) }
    ensures err { IfErr result (λ cause. store (known_kinds known.old) size base.number offset source ≡ Err cause) }
    ensures proper { OnOk result (IsProperState known.new) }
{
    let pointers = pointers_in(known, base)?;
    let Area::Frame = pointers.area else {
        return Err(Cause::WritesRecord);
    };
    let kind = operand(known, source)?;
    store_at(known, pointers.offsets, offset, size, kind)
}

/// Checks a store of a value of a kind to the frame and updates the state.
fn store_at(
    known: &mut AbstractState,
    offsets: Offsets,
    offset: i16,
    size: StoreSize,
    kind: Kind,
) -> Result<(), Cause>
    requires known { IsProperState known.old }
    requires offsets { pointer_offsets.IsProper offsets }
    requires kind { kinds.IsProper kind }
    ensures ok { OnOk result (store_at known.old offsets offset size kind ≡ Ok known.new) }
    ensures err { IfErr result (λ cause. store_at known.old offsets offset size kind ≡ Err cause) }
    ensures proper { OnOk result (IsProperState known.new) }
{
    let count = store_length(size);
    let slot = known_slot(offsets, offset, count);
    // 47 StoresPointer comes before 44 OutOfBounds.
    let kind = storable(slot, kind)?;
    if !lie_within(offsets, offset, count, FRAME_LENGTH) {
        return Err(Cause::OutOfBounds);
    }
    match slot {
        Some(slot) => known.store_kind(slot, kind),
        None => known.write_bytes(offsets, offset, count, count),
    }
    Ok(())
}

/// Returns the kind if its values may be stored. A pointer may only be stored in a whole slot.
fn storable(slot: Option<usize>, kind: Kind) -> Result<Kind, Cause>
    ensures { result ≡ storable slot kind }
{
    match (slot, kind) {
        (_, Kind::Number(_)) | (Some(_), Kind::Record(_) | Kind::Frame(_)) => Ok(kind),
        _ => Err(Cause::StoresPointer),
    }
}
