//! Loads and stores, and what is known about their base registers.
ghost use Rattle.std.specs.Prelude.{◌≡◌, ◌++◌, true, OnOk, decimal};
ghost use Rattle.std.specs.Fmt.{signed_decimal};
ghost use Rattle.std.specs.String.{string_bytes};
ghost use Rattle.bpf_insn.specs.Memory.{store_length};
ghost use Rattle.bpf_verify.specs.LiftedState.{IsProperState, kind_of};
ghost use Rattle.bpf_explain.specs.Access.{access_facts, access_of, access_text, base_text, offset_if, offset_text, register_fact};

use bpf_insn::{Insn, Register, StoreSize, load_length, store_length};
use bpf_kinds::Kind;
use bpf_verify::AbstractState;
use itoa::Buffer;
use listing_notes::push_kind;
use std::alloc::{AllocError, Allocator};

/// The access of a load or a store.
#[derive(Clone, Copy)]
pub struct Access {
    pub base: Register,
    /// The offset that is added to the base.
    pub offset: i16,
    /// The number of bytes that it reads or writes.
    pub count: usize,
    pub writes: bool,
}

#[tactic(auto, unfolding(crate::specs::Access::base_text))]
pub(crate) fn push_base<A: Allocator>(
    text: &mut String<A>,
    known: &AbstractState,
    insn: Insn,
) -> Result<(), AllocError>
    requires { IsProperState known.now }
    ensures { OnOk result (string_bytes text.new ≡ string_bytes text.old ++ base_text known.now insn) }
{
    match access_of(insn) {
        Some(access) => push_register(text, known, access.base.number),
        None => Ok(()),
    }
}

#[tactic(auto, unfolding(crate::specs::Access::access_text))]
pub(crate) fn push_access_if<A: Allocator>(
    text: &mut String<A>,
    known: &AbstractState,
    insn: Insn,
) -> Result<(), AllocError>
    requires { IsProperState known.now }
    ensures { OnOk result (string_bytes text.new ≡ string_bytes text.old ++ access_text known.now insn) }
{
    match access_of(insn) {
        Some(access) => push_access(text, known, access),
        None => Ok(()),
    }
}

#[tactic(auto, unfolding(crate::specs::Access::offset_if))]
pub(crate) fn push_offset_if<A: Allocator>(
    text: &mut String<A>,
    insn: Insn,
) -> Result<(), AllocError>
    ensures { OnOk result (string_bytes text.new ≡ string_bytes text.old ++ offset_if insn) }
{
    match access_of(insn) {
        Some(access) => push_offset(text, access),
        None => Ok(()),
    }
}

/// Returns the access of a load or a store, or `None` for any other instruction.
#[tactic(auto, unfolding(crate::specs::Access::access_of))]
pub(crate) fn access_of(insn: Insn) -> Option<Access>
    ensures { result ≡ access_of insn }
{
    match insn {
        Insn::Load {
            format,
            base,
            offset,
            ..
        } => Some(Access {
            base,
            offset,
            count: load_length(format),
            writes: false,
        }),
        Insn::StoreImmediate {
            size,
            base,
            offset,
            ..
        } => Some(store_access(size, base, offset)),
        Insn::Store {
            size,
            base,
            offset,
            ..
        } => Some(store_access(size, base, offset)),
        _ => None,
    }
}

pub(crate) fn store_access(size: StoreSize, base: Register, offset: i16) -> Access
    ensures { result ≡ record { base = base; offset = offset; count = store_length size; writes = true } }
{
    Access {
        base,
        offset,
        count: store_length(size),
        writes: true,
    }
}

/// Pushes what is known about the base of a load or a store, and the offset that is added to it.
#[tactic(auto, unfolding(crate::specs::Access::access_facts))]
pub(crate) fn push_access<A: Allocator>(
    text: &mut String<A>,
    known: &AbstractState,
    access: Access,
) -> Result<(), AllocError>
    requires { IsProperState known.now }
    ensures { OnOk result (string_bytes text.new ≡ string_bytes text.old ++ access_facts known.now access) }
{
    push_register(text, known, access.base.number)?;
    push_offset(text, access)
}

#[tactic(auto, unfolding(crate::specs::Access::offset_text))]
pub(crate) fn push_offset<A: Allocator>(
    text: &mut String<A>,
    access: Access,
) -> Result<(), AllocError>
    ensures { OnOk result (string_bytes text.new ≡ string_bytes text.old ++ offset_text access) }
{
    text.push_str(", offset ")?;
    push_signed(text, i128::from(access.offset))
}

/// Pushes what is known about a register. Nothing is known about a register that doesn't exist.
#[tactic(auto, unfolding(crate::specs::Access::register_fact))]
pub(crate) fn push_register<A: Allocator>(
    text: &mut String<A>,
    known: &AbstractState,
    register: u8,
) -> Result<(), AllocError>
    requires { IsProperState known.now }
    ensures { OnOk result (string_bytes text.new ≡ string_bytes text.old ++ register_fact known.now register) }
{
    text.push_str("r")?;
    push_number(text, u64::from(register))?;
    text.push_str(" = ")?;
    push_kind(text, kind_of(known, register))
}

pub(crate) fn kind_of(known: &AbstractState, register: u8) -> Kind
    requires { IsProperState known.now }
    ensures { result ≡ kind_of known.now register }
{
    if register > 10 {
        return Kind::Nothing;
    }
    known.registers[usize::from(register)]
}

pub(crate) fn push_number<A: Allocator>(text: &mut String<A>, number: u64) -> Result<(), AllocError>
    ensures { OnOk result (string_bytes text.new ≡ string_bytes text.old ++ decimal number) }
{
    let mut digits = Buffer::new();
    text.push_str(digits.format(number))
}

pub(crate) fn push_signed<A: Allocator>(
    text: &mut String<A>,
    number: i128,
) -> Result<(), AllocError>
    ensures { OnOk result (string_bytes text.new ≡ string_bytes text.old ++ signed_decimal number) }
{
    let mut digits = Buffer::new();
    text.push_str(digits.format(number))
}
