//! Encoding: from a code to bytes.
ghost use Rattle.std.specs.Prelude.{◌≡◌, ◌<◌, ℕ, List, All, IfOk, OnOk};
ghost use Rattle.bpf_insn.specs.Word.{AppendsWords};
ghost use Rattle.bpf_insn.specs.Form.{spelling};
ghost use Rattle.bpf_insn.specs.Code.{IsCodeOf};

use crate::code::Code;
use crate::instruction::Insn;
use std::alloc::{AllocError, Allocator};

/// Encodes a code as little-endian words, in the only spelling that it has (RFC 9669, section 3.1).
pub fn encode<A: Allocator + Copy, B: Allocator>(
    alloc: A,
    code: &Code<B>,
) -> Result<Vec<u8, A>, AllocError>
    ensures code { IfOk result (λ bytes. IsCodeOf bytes.items code.now) }
    // No other bytes have this code.
    ensures only { (bytes : List ℕ) → All (λ byte. byte < 256) bytes → IsCodeOf bytes code.now
        → IfOk result (λ encoded. encoded.items ≡ bytes) }
{
    let mut bytes = Vec::with_capacity(alloc, code.words() * 8)?;
    for instruction in code.instructions() {
        write_instruction(&mut bytes, *instruction)?;
    }
    Ok(bytes)
}

/// Appends an instruction's words.
fn write_instruction<A: Allocator>(
    bytes: &mut Vec<u8, A>,
    instruction: Insn,
) -> Result<(), AllocError>
    ensures { OnOk result (AppendsWords (spelling instruction) bytes.old.items bytes.new.items) }
{
    let (first, second) = instruction.spelling();
    bytes.extend_from_slice(&first.bytes())?;
    match second {
        Some(second) => bytes.extend_from_slice(&second.bytes()),
        None => Ok(()),
    }
}
