//! The instruction, if any, that begins with a word of a program.
ghost use Rattle.std.specs.Prelude.{◌≡◌, ◌≢◌, ◌≤◌, ◌<◌, ◌/◌, length, take, None, IfOk, OnOk};
ghost use Rattle.bpf_insn.specs.declared.fault.CodeFault.{CodeFault};
ghost use Rattle.listing_excerpt.specs.Reading.{Begins, IsOnly, from_place, sole};

use bpf_insn::{CodeFault, Insn, decode};
use std::alloc::{AllocError, Allocator};

/// The number of bytes in a word.
pub(crate) const WORD_BYTES: usize = 8;

/// Returns the instruction that begins with the word at a place.
pub(crate) fn instruction_in<A: Allocator + Copy>(
    alloc: A,
    program: &[u8],
    place: usize,
) -> Result<Option<Insn>, AllocError>
    requires { place < length program.now / 8 }
    ensures { IfOk result (Begins (from_place program.now place)) }
{
    first_instruction(alloc, &program[place * WORD_BYTES..])
}

fn first_instruction<A: Allocator + Copy>(
    alloc: A,
    bytes: &[u8],
) -> Result<Option<Insn>, AllocError>
    requires { 8 ≤ length bytes.now }
    ensures { IfOk result (Begins bytes.now) }
{
    // Decoded by itself, as the program as a whole is refused.
    match only_instruction(alloc, &bytes[..WORD_BYTES])? {
        Some(insn) => Ok(Some(insn)),
        None => wide_instruction(alloc, bytes),
    }
}

/// Returns the instruction of two words that the bytes begin with, given that they begin with none of one word.
fn wide_instruction<A: Allocator + Copy>(alloc: A, bytes: &[u8]) -> Result<Option<Insn>, AllocError>
    requires long { 8 ≤ length bytes.now }
    requires not_one { IsOnly (take 8 bytes.now) None }
    ensures { IfOk result (Begins bytes.now) }
{
    if bytes.len() < 2 * WORD_BYTES {
        return Ok(None);
    }
    let found = only_instruction(alloc, &bytes[..2 * WORD_BYTES])?;
    Ok(found)
}

/// Returns the instruction that the bytes encode, if they encode exactly one.
fn only_instruction<A: Allocator + Copy>(alloc: A, bytes: &[u8]) -> Result<Option<Insn>, AllocError>
    ensures { IfOk result (IsOnly bytes.now) }
{
    match decode(alloc, bytes) {
        Ok(code) => Ok(sole(code.instructions())),
        Err(fault) => {
            not_memory(fault)?;
            Ok(None)
        }
    }
}

fn not_memory(fault: CodeFault) -> Result<(), AllocError>
    ensures { OnOk result (fault ≢ CodeFault.Memory) }
{
    match fault {
        CodeFault::Memory => Err(AllocError),
        _ => Ok(()),
    }
}

/// Returns the instruction of a code that has one.
fn sole(instructions: &[Insn]) -> Option<Insn>
    ensures { result ≡ sole instructions.now }
{
    match instructions {
        [insn] => Some(*insn),
        _ => None,
    }
}
