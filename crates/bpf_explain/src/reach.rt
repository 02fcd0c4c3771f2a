//! Accesses to bytes that are outside an area or aren't written.
//!
//! The words of 44 OutOfBounds and 45 UnwrittenFrame. The numbers shown are those that the verifier compared: the least offset of the base plus the
//! instruction's own, up to the last byte from the greatest one. They need more than 64 bits with a sign, so they are computed as `i128`. A call has
//! no base and offset; its bytes are those of registers 2 and 3, a pointer and a count, where the count's greatest value is what may be reached.
//!
//! Each function appends one part of a sentence and has a definition of the same name, because the text is part of the contract of `explain`.
//!
//! Always: what is shown is what is known, so no text says more than the check that failed.
ghost use Rattle.std.specs.Prelude.{◌≡◌, ◌++◌, OnOk, decimal};
ghost use Rattle.std.specs.String.{string_bytes};
ghost use Rattle.bpf_verify.specs.LiftedState.{IsProperState};
ghost use Rattle.bpf_explain.specs.Reach.{access_outside, access_unwritten, area_name, bytes_text, call_outside, call_unwritten, ends_text, is_write, last_of};
ghost use Rattle.bpf_explain.specs.Reach.{lent_facts, lent_outside, lent_unwritten, limit_text, outside, outside_from, outside_text, unwritten, unwritten_from};
ghost use Rattle.bpf_explain.specs.Reach.{unwritten_text, verb, writes_frame};

use crate::access::{Access, access_of, push_access, push_number, push_register, push_signed};
use bpf_helpers::{FrameUse, Helper};
use bpf_insn::{Area, FRAME_LENGTH, Insn};
use bpf_kinds::{Kind, Offsets};
use bpf_verify::AbstractState;
use listing_notes::{Bytes, bytes_from, helper_of, lent_bytes};
use std::alloc::{AllocError, Allocator};
use tl_segments::RECORD_LENGTH;

/// Pushes the bytes that an instruction reads or writes, some of them outside their area.
#[tactic(auto, unfolding(crate::specs::Reach::outside))]
pub(crate) fn push_outside<A: Allocator>(
    text: &mut String<A>,
    known: &AbstractState,
    insn: Insn,
) -> Result<(), AllocError>
    requires { IsProperState known.now }
    ensures { OnOk result (string_bytes text.new ≡ string_bytes text.old ++ outside known.now insn) }
{
    // A call has no base and offset: registers 2 and 3 say which bytes it uses.
    if let Insn::Call { immediate } = insn {
        return push_call_outside(text, known, immediate);
    }
    match access_of(insn) {
        Some(access) => push_access_outside(text, known, access),
        None => Ok(()),
    }
}

#[tactic(auto, unfolding(crate::specs::Reach::call_outside))]
fn push_call_outside<A: Allocator>(
    text: &mut String<A>,
    known: &AbstractState,
    immediate: i32,
) -> Result<(), AllocError>
    requires { IsProperState known.now }
    ensures { OnOk result (string_bytes text.new ≡ string_bytes text.old ++ call_outside known.now immediate) }
{
    let writes = writes_frame(helper_of(immediate));
    match lent_bytes(known) {
        Some(bytes) => push_lent_outside(text, known, writes, bytes),
        None => Ok(()),
    }
}

#[tactic(auto, unfolding(crate::specs::Reach::lent_outside))]
fn push_lent_outside<A: Allocator>(
    text: &mut String<A>,
    known: &AbstractState,
    writes: bool,
    bytes: Bytes,
) -> Result<(), AllocError>
    requires { IsProperState known.now }
    ensures { OnOk result (string_bytes text.new ≡ string_bytes text.old ++ lent_outside known.now writes bytes) }
{
    push_outside_bytes(text, writes, Area::Frame, bytes)?;
    push_lent(text, known)
}

#[tactic(auto, unfolding(crate::specs::Reach::access_outside))]
fn push_access_outside<A: Allocator>(
    text: &mut String<A>,
    known: &AbstractState,
    access: Access,
) -> Result<(), AllocError>
    requires { IsProperState known.now }
    ensures { OnOk result (string_bytes text.new ≡ string_bytes text.old ++ access_outside known.now access) }
{
    match known.registers[usize::from(access.base.number)] {
        Kind::Record(x) => push_outside_from(text, known, access, Area::Record, x),
        Kind::Frame(x) => push_outside_from(text, known, access, Area::Frame, x),
        _ => Ok(()),
    }
}

#[tactic(auto, unfolding(crate::specs::Reach::outside_from))]
fn push_outside_from<A: Allocator>(
    text: &mut String<A>,
    known: &AbstractState,
    access: Access,
    area: Area,
    x: Offsets,
) -> Result<(), AllocError>
    requires { IsProperState known.now }
    ensures { OnOk result (string_bytes text.new ≡ string_bytes text.old ++ outside_from known.now access area x) }
{
    let bytes = bytes_from(x, access.offset, access.count as u64);
    push_outside_bytes(text, access.writes, area, bytes)?;
    push_access(text, known, access)
}

/// Pushes the bytes of the frame that an instruction reads, not all of which are written.
#[tactic(auto, unfolding(crate::specs::Reach::unwritten))]
pub(crate) fn push_unwritten<A: Allocator>(
    text: &mut String<A>,
    known: &AbstractState,
    insn: Insn,
) -> Result<(), AllocError>
    requires { IsProperState known.now }
    ensures { OnOk result (string_bytes text.new ≡ string_bytes text.old ++ unwritten known.now insn) }
{
    if let Insn::Call { .. } = insn {
        return push_call_unwritten(text, known);
    }
    match access_of(insn) {
        Some(access) => push_access_unwritten(text, known, access),
        None => Ok(()),
    }
}

#[tactic(auto, unfolding(crate::specs::Reach::call_unwritten))]
fn push_call_unwritten<A: Allocator>(
    text: &mut String<A>,
    known: &AbstractState,
) -> Result<(), AllocError>
    requires { IsProperState known.now }
    ensures { OnOk result (string_bytes text.new ≡ string_bytes text.old ++ call_unwritten known.now) }
{
    match lent_bytes(known) {
        Some(bytes) => push_lent_unwritten(text, known, bytes),
        None => Ok(()),
    }
}

#[tactic(auto, unfolding(crate::specs::Reach::lent_unwritten))]
fn push_lent_unwritten<A: Allocator>(
    text: &mut String<A>,
    known: &AbstractState,
    bytes: Bytes,
) -> Result<(), AllocError>
    requires { IsProperState known.now }
    ensures { OnOk result (string_bytes text.new ≡ string_bytes text.old ++ lent_unwritten known.now bytes) }
{
    push_unwritten_bytes(text, bytes)?;
    push_lent(text, known)
}

#[tactic(auto, unfolding(crate::specs::Reach::access_unwritten))]
fn push_access_unwritten<A: Allocator>(
    text: &mut String<A>,
    known: &AbstractState,
    access: Access,
) -> Result<(), AllocError>
    requires { IsProperState known.now }
    ensures { OnOk result (string_bytes text.new ≡ string_bytes text.old ++ access_unwritten known.now access) }
{
    match known.registers[usize::from(access.base.number)] {
        Kind::Frame(x) => push_unwritten_from(text, known, access, x),
        _ => Ok(()),
    }
}

#[tactic(auto, unfolding(crate::specs::Reach::unwritten_from))]
fn push_unwritten_from<A: Allocator>(
    text: &mut String<A>,
    known: &AbstractState,
    access: Access,
    x: Offsets,
) -> Result<(), AllocError>
    requires { IsProperState known.now }
    ensures { OnOk result (string_bytes text.new ≡ string_bytes text.old ++ unwritten_from known.now access x) }
{
    push_unwritten_bytes(text, bytes_from(x, access.offset, access.count as u64))?;
    push_access(text, known, access)
}

#[tactic(auto, unfolding(crate::specs::Reach::outside_text))]
fn push_outside_bytes<A: Allocator>(
    text: &mut String<A>,
    writes: bool,
    area: Area,
    bytes: Bytes,
) -> Result<(), AllocError>
    ensures { OnOk result (string_bytes text.new ≡ string_bytes text.old ++ outside_text writes area bytes) }
{
    push_bytes(text, writes, area, bytes)?;
    push_limit(text, area)
}

#[tactic(auto, unfolding(crate::specs::Reach::limit_text))]
fn push_limit<A: Allocator>(text: &mut String<A>, area: Area) -> Result<(), AllocError>
    ensures { OnOk result (string_bytes text.new ≡ string_bytes text.old ++ limit_text area) }
{
    text.push_str(", which has 0..")?;
    push_last(text, area)?;
    text.push_str(": ")
}

fn push_last<A: Allocator>(text: &mut String<A>, area: Area) -> Result<(), AllocError>
    ensures { OnOk result (string_bytes text.new ≡ string_bytes text.old ++ decimal (last_of area)) }
{
    push_number(text, last_of(area))
}

#[tactic(auto, unfolding(crate::specs::Reach::unwritten_text))]
fn push_unwritten_bytes<A: Allocator>(text: &mut String<A>, bytes: Bytes) -> Result<(), AllocError>
    ensures { OnOk result (string_bytes text.new ≡ string_bytes text.old ++ unwritten_text bytes) }
{
    push_bytes(text, false, Area::Frame, bytes)?;
    text.push_str(", not all of which are written: ")
}

#[tactic(auto, unfolding(crate::specs::Reach::bytes_text))]
fn push_bytes<A: Allocator>(
    text: &mut String<A>,
    writes: bool,
    area: Area,
    bytes: Bytes,
) -> Result<(), AllocError>
    ensures { OnOk result (string_bytes text.new ≡ string_bytes text.old ++ bytes_text writes area bytes) }
{
    text.push_str(verb(writes))?;
    text.push_str(" bytes ")?;
    push_ends(text, bytes)?;
    text.push_str(" of the ")?;
    text.push_str(area_name(area))
}

#[tactic(auto, unfolding(crate::specs::Reach::ends_text))]
fn push_ends<A: Allocator>(text: &mut String<A>, bytes: Bytes) -> Result<(), AllocError>
    ensures { OnOk result (string_bytes text.new ≡ string_bytes text.old ++ ends_text bytes) }
{
    push_signed(text, bytes.first)?;
    text.push_str("..")?;
    push_signed(text, bytes.last)
}

fn verb(writes: bool) -> &'static str
    ensures { result.now ≡ verb writes }
{
    if writes { "writes" } else { "reads" }
}

fn area_name(area: Area) -> &'static str
    ensures { result.now ≡ area_name area }
{
    match area {
        Area::Record => "record",
        Area::Frame => "frame",
    }
}

#[tactic(auto, unfolding(crate::specs::Reach::last_of))]
fn last_of(area: Area) -> u64
    ensures { result ≡ last_of area }
{
    match area {
        Area::Record => RECORD_LENGTH as u64 - 1,
        Area::Frame => FRAME_LENGTH as u64 - 1,
    }
}

#[tactic(auto, unfolding(crate::specs::Reach::writes_frame))]
fn writes_frame(helper: Option<Helper>) -> bool
    ensures { result ≡ writes_frame helper }
{
    match helper {
        Some(helper) => is_write(helper.signature().group.frame_use()),
        None => false,
    }
}

fn is_write(frame_use: FrameUse) -> bool
    ensures { result ≡ is_write frame_use }
{
    match frame_use {
        FrameUse::Writes => true,
        FrameUse::Nothing | FrameUse::Reads => false,
    }
}

/// Pushes what is known about registers 2 and 3, the pointer and the number of the bytes that a call reads or writes.
#[tactic(auto, unfolding(crate::specs::Reach::lent_facts))]
fn push_lent<A: Allocator>(text: &mut String<A>, known: &AbstractState) -> Result<(), AllocError>
    requires { IsProperState known.now }
    ensures { OnOk result (string_bytes text.new ≡ string_bytes text.old ++ lent_facts known.now) }
{
    push_register(text, known, 2)?;
    text.push_str(", ")?;
    push_register(text, known, 3)
}
