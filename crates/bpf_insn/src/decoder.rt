//! Decoding: from bytes to a code.
//!
//! It isn't named `decode`, because a module can't share a name with an item beside it.
ghost use Rattle.std.specs.Prelude.{◌≡◌, ◌≢◌, ◌*◌, ◌/◌, ◌≤◌, ◌<◌, ◌%◌, List, length, IfOk, IfErr, ◌⊎◌, OnOk, MatchResult, IsErrAnd};
ghost use Rattle.bpf_insn.specs.Word.{words_of};
ghost use Rattle.bpf_insn.specs.Code.{IsCodeOf, IsFirstFault, code_words};
ghost use Rattle.bpf_insn.specs.Reading.{BeginsAt, IsFaultAt};
ghost use Rattle.bpf_insn.specs.declared.fault.CodeFault.{CodeFault};
ghost use Rattle.bpf_insn.specs.declared.instruction.Insn.{Insn};

use crate::code::{Code, CodeBuilder, MAX_WORDS};
use crate::fault::{CodeFault, WordFault};
use crate::instruction::Insn;
use crate::word::Word;
use std::alloc::Allocator;

/// The number of bytes in a word.
const WORD_BYTES: usize = 8;

/// Decodes a program's bytes, which are little-endian words (RFC 9669, section 3.1). The code keeps the allocator and doesn't borrow from `bytes`.
/// Memory is allocated at one point, for three lists, after the length is checked.
pub fn decode<A: Allocator + Copy>(alloc: A, bytes: &[u8]) -> Result<Code<A>, CodeFault>
    ensures ok { IfOk result (IsCodeOf bytes.now) }
    ensures err { IfErr result (IsFirstFault bytes.now) }

    // Bytes that have a code are refused only if memory runs out, and have no other code.
    ensures only { (code : List Insn) → IsCodeOf bytes.now code
        → MatchResult result (λ decoded. decoded ≡ code) (λ fault. fault ≡ CodeFault.Memory) }

    // Bytes that have a first fault are refused, with it or because memory runs out.
    ensures refused { (fault : CodeFault) → IsFirstFault bytes.now fault → fault ≢ CodeFault.Memory
        → IsErrAnd result (λ given. (given ≡ fault) ⊎ (given ≡ CodeFault.Memory)) }
{
    read_code(alloc, bytes)
}

fn read_code<A: Allocator + Copy>(alloc: A, bytes: &[u8]) -> Result<Code<A>, CodeFault>
    ensures ok { IfOk result (IsCodeOf bytes.now) }
    ensures err { IfErr result (IsFirstFault bytes.now) }
{
    check_length(bytes)?;
    read_instructions(alloc, bytes)?.finish()
}

/// Checks that the bytes have the length of a program.
fn check_length(bytes: &[u8]) -> Result<(), CodeFault>
    ensures ok { OnOk result
        ((length bytes.now % 8 ≡ 0) × (0 < length bytes.now) × (length bytes.now ≤ 8 * MAX_WORDS)) }
    ensures err { IfErr result (IsFirstFault bytes.now) }
{
    // In this order 524,289 bytes are `NotWhole`, not `TooLong`.
    match bytes.len() {
        0 => Err(CodeFault::Empty),
        length if length % WORD_BYTES != 0 => Err(CodeFault::NotWhole),
        length if length > WORD_BYTES * MAX_WORDS => Err(CodeFault::TooLong),
        _ => Ok(()),
    }
}

fn read_instructions<A: Allocator + Copy>(
    alloc: A,
    bytes: &[u8],
) -> Result<CodeBuilder<A>, CodeFault>
    requires whole { length bytes.now % 8 ≡ 0 }
    requires within { length bytes.now ≤ 8 * MAX_WORDS }
    ensures ok { IfOk result (λ code. words_of bytes.now ≡ code_words code) }
    ensures err { IfErr result (IsFirstFault bytes.now) }
{
    let count = bytes.len() / WORD_BYTES;
    let mut code = CodeBuilder::with_capacity(alloc, count)?;
    let mut place = 0;
    while place < count {
        // Only up to the first fault, as it isn't known where later instructions would begin.
        let instruction = match read_instruction(bytes, place) {
            Ok(instruction) => instruction,
            Err(fault) => return Err(CodeFault::InWord { place, fault }),
        };
        match code.push(instruction) {
            Ok(()) => place += instruction.words(),
            Err(fault) => return Err(fault),
        }
    }
    Ok(code)
}

/// Decodes the instruction at a place.
fn read_instruction(bytes: &[u8], place: usize) -> Result<Insn, WordFault>
    requires { place < length bytes.now / 8 }
    ensures ok { IfOk result (BeginsAt bytes.now place) }
    ensures err { IfErr result (λ fault. IsFaultAt bytes.now place fault) }
{
    let first = Word::read(&bytes[place * WORD_BYTES..]);
    let after = (place + 1) * WORD_BYTES;
    let next = bytes.get(after..after + WORD_BYTES).map(Word::read);
    first.instruction(next)
}
