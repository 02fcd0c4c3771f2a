//! The instructions of a filter's program.
//!
//! Registers are named by what they are for: 0 has the answer of a call and whatever is compared, 1 to 3 the arguments of calls, which empty them, 6
//! the record's pointer, and 7 to 9 numbers that survive calls. The frame holds nothing but a name of 32 bytes at its end. Reading and writing have a
//! function each (`from_..`, `into_..`), as `bpf_insn` has a type for each.
//!
//! Always: registers 6 to 10 have one use in the whole program, and 0 to 5 keep nothing across a call. The proof that the verifier accepts relies on
//! that: what an instruction needs of registers and frame is read off the instruction alone, with no history. A new form of code has to fit in.
ghost use Rattle.std.specs.Prelude.{◌≡◌, ◌≤◌, pos};
ghost use Rattle.bpf_insn.specs.declared.code.TheConstants.{MAX_WORDS};
ghost use Rattle.bpf_insn.specs.declared.instruction.Insn.{Insn};
ghost use Rattle.cql2_code.specs.Layout as layout;
ghost use Rattle.cql2_code.specs.Layout.{call, copy, jump, jump_if, load, move, move_to_name, set_number, store_word, wide_load};

use crate::bytes::signed_word;
use crate::question::{Chunk, condition_of};
use bpf_helpers::Helper;
use bpf_insn::{
    Insn, JumpDistance, LoadFormat, MAX_WORDS, Operation, Register, Source, StoreSize, Width,
    WritableRegister,
};
use cql2::Comparison;

/// Returns the register of the answer, for writing.
pub(crate) fn into_result() -> WritableRegister
    ensures { result ≡ layout.into_result }
{
    WritableRegister { number: 0 }
}

/// Returns the register of a call's first argument, for writing.
pub(crate) fn into_argument_1() -> WritableRegister
    ensures { result ≡ layout.into_argument_1 }
{
    WritableRegister { number: 1 }
}

/// Returns the register of a call's second argument, for writing.
pub(crate) fn into_argument_2() -> WritableRegister
    ensures { result ≡ layout.into_argument_2 }
{
    WritableRegister { number: 2 }
}

/// Returns the register of a call's third argument, for writing.
pub(crate) fn into_argument_3() -> WritableRegister
    ensures { result ≡ layout.into_argument_3 }
{
    WritableRegister { number: 3 }
}

/// Returns the register that keeps the record's pointer, for writing.
pub(crate) fn into_record() -> WritableRegister
    ensures { result ≡ layout.into_record }
{
    WritableRegister { number: 6 }
}

/// Returns the register that keeps the numbers of a level, 7, 8 or 9, for writing.
pub(crate) fn into_saved(level: u8) -> WritableRegister
    ensures { result ≡ layout.into_saved level }
{
    match level {
        0 => WritableRegister { number: 7 },
        1 => WritableRegister { number: 8 },
        _ => WritableRegister { number: 9 },
    }
}

/// Returns the register that keeps the numbers of a level, 7, 8 or 9, for reading.
pub(crate) fn from_saved(level: u8) -> Register
    ensures { result ≡ layout.from_saved level }
{
    match level {
        0 => Register { number: 7 },
        1 => Register { number: 8 },
        _ => Register { number: 9 },
    }
}

/// Returns whether an instruction writes a register that keeps numbers.
pub(crate) fn writes_saved(insn: Insn) -> bool
    ensures { result ≡ layout.writes_saved insn }
{
    match insn {
        Insn::Alu { destination, .. } => destination.number >= 7,
        _ => false,
    }
}

/// Returns the register of the answer, for reading.
pub(crate) fn from_result() -> Register
    ensures { result ≡ layout.from_result }
{
    Register { number: 0 }
}

/// Returns the register of a call's first argument, for reading.
pub(crate) fn from_argument_1() -> Register
    ensures { result ≡ layout.from_argument_1 }
{
    Register { number: 1 }
}

/// Returns the register that keeps the record's pointer, for reading.
pub(crate) fn from_record() -> Register
    ensures { result ≡ layout.from_record }
{
    Register { number: 6 }
}

/// Returns the register of the frame's pointer.
pub(crate) fn from_frame() -> Register
    ensures { result ≡ layout.from_frame }
{
    Register { number: 10 }
}

/// Moves a number into a register.
pub(crate) fn move_number(register: WritableRegister, number: i32) -> Insn
    ensures { result ≡ move register number }
{
    Insn::Alu {
        operation: Operation::Move,
        width: Width::Bits64,
        destination: register,
        source: Source::Immediate(number),
    }
}

/// Copies a register.
pub(crate) fn copy(register: WritableRegister, source: Register) -> Insn
    ensures { result ≡ copy register source }
{
    Insn::Alu {
        operation: Operation::Move,
        width: Width::Bits64,
        destination: register,
        source: Source::Register(source),
    }
}

/// Moves the pointer in register 2 from the frame's end to the name.
pub(crate) fn move_to_name() -> Insn
    ensures { result ≡ move_to_name }
{
    Insn::Alu {
        operation: Operation::Add,
        width: Width::Bits64,
        destination: into_argument_2(),
        source: Source::Immediate(-32),
    }
}

/// Loads a 64-bit number, as two halves.
pub(crate) fn wide_load(register: WritableRegister, number: u64) -> Insn
    ensures { result ≡ wide_load register number }
{
    let low = (number % 0x1_0000_0000) as u32;
    let high = (number / 0x1_0000_0000) as u32;
    Insn::WideLoad {
        destination: register,
        immediate: low.cast_signed(),
        next_immediate: high.cast_signed(),
    }
}

/// Prepends a number into a register with one instruction, a move or a wide load.
pub(crate) fn set_number(register: WritableRegister, number: u64) -> Insn
    ensures { result ≡ set_number register number }
{
    match i32::try_from(number) {
        Ok(number) => move_number(register, number),
        Err(_) => wide_load(register, number),
    }
}

/// Calls a helper function.
#[tactic(auto, using(crate::proofs::Casts::number_signed))]
pub(crate) fn call(helper: Helper) -> Insn
    ensures { result ≡ call helper }
{
    Insn::Call {
        immediate: helper.signature().number.cast_signed(),
    }
}

/// Jumps past the next `distance` words.
#[tactic(auto, unfolding(crate::specs::Layout::in_field))]
pub(crate) fn jump(distance: usize) -> Insn
    requires { distance ≤ MAX_WORDS }
    ensures { result ≡ jump (pos distance) }
{
    // The short form if it reaches, as any assembler would write it.
    Insn::Jump(match i16::try_from(distance) {
        Ok(distance) => JumpDistance::Short(distance),
        Err(_) => JumpDistance::Long(distance as i32),
    })
}

/// Jumps past the next `distance` words if a comparison of register 0 with the operand holds.
pub(crate) fn jump_if(comparison: Comparison, operand: Source, distance: i16) -> Insn
    ensures { result ≡ jump_if comparison operand distance }
{
    Insn::JumpIf {
        condition: condition_of(comparison),
        width: Width::Bits64,
        left: from_result(),
        right: operand,
        offset: distance,
    }
}

/// Loads a chunk of the record into register 0.
pub(crate) fn load(chunk: Chunk, at: u8) -> Insn
    ensures { result ≡ load chunk at }
{
    Insn::Load {
        format: load_format(chunk),
        destination: into_result(),
        base: from_record(),
        offset: i16::from(at),
    }
}

fn load_format(chunk: Chunk) -> LoadFormat
    ensures { result ≡ layout.load_format chunk }
{
    match chunk {
        Chunk::Byte => LoadFormat::Byte,
        Chunk::Word => LoadFormat::Word,
        Chunk::DoubleWord => LoadFormat::DoubleWord,
    }
}

/// Stores four bytes of a name in the frame.
pub(crate) fn store_word(word: u8, name: &[u8; 32]) -> Insn
    requires { word ≤ 7 }
    ensures { result ≡ store_word word name.now }
{
    // An immediate has 32 bits, so a store writes four bytes at most.
    let from = usize::from(word) * 4;
    Insn::StoreImmediate {
        size: StoreSize::Word,
        base: from_frame(),
        offset: i16::from(word) * 4 - 32,
        immediate: signed_word(&name[from..from + 4]),
    }
}
