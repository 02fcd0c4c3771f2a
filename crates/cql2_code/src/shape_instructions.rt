//! The registers of a shape's code, and the instructions on them.
ghost use Rattle.std.specs.Prelude.{◌≡◌};
ghost use Rattle.bpf_insn.specs.declared.instruction.Insn.{Insn};
ghost use Rattle.cql2_code.specs.ShapeCode as shape_code;
ghost use Rattle.cql2_code.specs.ShapeCode.{combine, combine_number, compare, compare_number};
ghost use Rattle.cql2_code.specs.Skipping.{skip};

use crate::question::condition_of;
use bpf_insn::{Insn, Operation, Register, Source, Width, WritableRegister};
use cql2::Comparison;

/// Returns the register for a side, for writing.
pub(crate) fn into_side() -> WritableRegister
    ensures { result ≡ shape_code.into_side }
{
    WritableRegister { number: 2 }
}

/// Returns the register for a side, for reading.
pub(crate) fn from_side() -> Register
    ensures { result ≡ shape_code.from_side }
{
    Register { number: 2 }
}

/// Returns the register for a first operand, for writing.
pub(crate) fn into_first() -> WritableRegister
    ensures { result ≡ shape_code.into_first }
{
    WritableRegister { number: 3 }
}

/// Returns the register for a first operand, for reading.
pub(crate) fn from_first() -> Register
    ensures { result ≡ shape_code.from_first }
{
    Register { number: 3 }
}

/// Returns the register for a second operand, for writing.
pub(crate) fn into_second() -> WritableRegister
    ensures { result ≡ shape_code.into_second }
{
    WritableRegister { number: 4 }
}

/// Returns the register for a second operand, for reading.
pub(crate) fn from_second() -> Register
    ensures { result ≡ shape_code.from_second }
{
    Register { number: 4 }
}

/// Returns the register of the latitude of the line's end, for reading.
pub(crate) fn from_end_latitude() -> Register
    ensures { result ≡ shape_code.from_end_latitude }
{
    Register { number: 5 }
}

/// Returns the register of the latitude of the line's end, for writing.
pub(crate) fn into_end_latitude() -> WritableRegister
    ensures { result ≡ shape_code.into_end_latitude }
{
    WritableRegister { number: 5 }
}

/// Combines a register with another.
pub(crate) fn combine(operation: Operation, register: WritableRegister, other: Register) -> Insn
    ensures { result ≡ combine operation register other }
{
    Insn::Alu {
        operation,
        width: Width::Bits64,
        destination: register,
        source: Source::Register(other),
    }
}

/// Combines a register with a number.
pub(crate) fn combine_number(operation: Operation, register: WritableRegister, number: i32) -> Insn
    ensures { result ≡ combine_number operation register number }
{
    Insn::Alu {
        operation,
        width: Width::Bits64,
        destination: register,
        source: Source::Immediate(number),
    }
}

/// Skips the next words if a comparison of two registers holds.
pub(crate) fn skip(comparison: Comparison, left: Register, right: Register, words: u8) -> Insn
    ensures { result ≡ skip (compare comparison left right) words }
{
    Insn::JumpIf {
        condition: condition_of(comparison),
        width: Width::Bits64,
        left,
        right: Source::Register(right),
        offset: i16::from(words),
    }
}

/// Skips the next words if a comparison of a register with a number holds.
pub(crate) fn skip_by_number(comparison: Comparison, left: Register, number: i32, words: u8) -> Insn
    ensures { result ≡ skip (compare_number comparison left number) words }
{
    Insn::JumpIf {
        condition: condition_of(comparison),
        width: Width::Bits64,
        left,
        right: Source::Immediate(number),
        offset: i16::from(words),
    }
}
