//! The conversions between program text and program bytes.
ghost use Rattle.std.specs.Prelude.{◌≡◌, ◌≢◌, ◌<◌, ◌⊎◌, ℕ, List, All, IfErr, IfOk, IsErrAnd, MatchResult};
ghost use Rattle.std.specs.String.{string_bytes};
ghost use Rattle.bpf_insn.specs.Code.{IsFirstFault};
ghost use Rattle.bpf_text.specs.Conversion.{IsAssembled, IsDisassembled};
ghost use Rattle.bpf_text.specs.SourceFault.{IsSourceFault};
ghost use Rattle.bpf_text.specs.declared.fault.SourceFault.{SourceFault};
ghost use Rattle.bpf_text.specs.declared.fault.SourceFault.TheVariants.{Text};
ghost use Rattle.bpf_assembler.specs.declared.fault.TextFault.TheVariants.{Memory};

use crate::disassembler::disassemble;
use crate::fault::SourceFault;
use bpf_assembler::assemble;
use bpf_insn::{CodeFault, decode, encode};
use std::alloc::Allocator;

/// Returns the instruction words, little-endian, of the code that a source means. The source is program text in UTF-8.
pub fn assemble_source<A: Allocator + Copy>(
    alloc: A,
    source: &[u8],
) -> Result<Vec<u8, A>, SourceFault>
    ensures ok { IfOk result (λ words. IsAssembled source.now words.items) }
    ensures err { IfErr result (IsSourceFault source.now) }

    // A source that can be assembled is refused only if an allocation fails, and yields no other words.
    ensures only { (words : List ℕ) → All (λ byte. byte < 256) words → IsAssembled source.now words
        → MatchResult result (λ given. given.items ≡ words) (λ fault. fault ≡ Text Memory) }

    // A source that has a fault is refused with this fault, or because an allocation fails.
    ensures refused { (fault : SourceFault) → IsSourceFault source.now fault → fault ≢ Text Memory
        → IsErrAnd result (λ given. (given ≡ fault) ⊎ (given ≡ Text Memory)) }
{
    // A source that isn't UTF-8 is no text: it has no line that a refusal could name.
    let Ok(text) = str::from_utf8(source) else {
        return Err(SourceFault::NotUtf8);
    };
    let code = assemble(alloc, text)?;
    let words = encode(alloc, &code)?;
    Ok(words)
}

/// Returns the text of a program's code. Assembling it yields the program's bytes again.
pub fn disassemble_program<A: Allocator + Copy>(
    alloc: A,
    program: &[u8],
) -> Result<String<A>, CodeFault>
    ensures ok { IfOk result (λ text. IsDisassembled program.now (string_bytes text)) }
    ensures err { IfErr result (IsFirstFault program.now) }
{
    let code = decode(alloc, program)?;
    let text = disassemble(alloc, &code)?;
    Ok(text)
}
