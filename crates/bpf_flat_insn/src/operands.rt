//! The operands that the variants of the flat form carry.
use bpf_insn::{Register, WritableRegister};

/// A destination register, with an immediate as the second operand.
#[derive(Clone, Copy)]
pub struct WithImmediate {
    pub destination: WritableRegister,
    pub immediate: i32,
}

/// A destination register, with another register as the second operand.
#[derive(Clone, Copy)]
pub struct WithRegister {
    pub destination: WritableRegister,
    pub source: Register,
}

/// A conditional jump that compares a register with an immediate.
#[derive(Clone, Copy)]
pub struct JumpWithImmediate {
    pub left: Register,
    pub immediate: i32,
    /// The distance in words, counted from the word after the jump.
    pub offset: i16,
    /// The jump's target if it's taken: an instruction's index, from 0.
    pub target: u32,
}

/// A conditional jump that compares two registers.
#[derive(Clone, Copy)]
pub struct JumpWithRegister {
    pub left: Register,
    pub right: Register,
    /// The distance in words, counted from the word after the jump.
    pub offset: i16,
    /// The jump's target if it's taken: an instruction's index, from 0.
    pub target: u32,
}

/// A load at a base register plus an offset in bytes.
#[derive(Clone, Copy)]
pub struct LoadOperands {
    pub destination: WritableRegister,
    pub base: Register,
    pub offset: i16,
}

/// A store of an immediate at a base register plus an offset in bytes.
#[derive(Clone, Copy)]
pub struct StoreImmediateOperands {
    pub base: Register,
    pub offset: i16,
    pub immediate: i32,
}

/// A store of a register at a base register plus an offset in bytes.
#[derive(Clone, Copy)]
pub struct StoreRegisterOperands {
    pub base: Register,
    pub offset: i16,
    pub source: Register,
}
