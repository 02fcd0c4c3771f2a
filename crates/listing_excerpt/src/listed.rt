//! The text that shows why a program is refused before it is verified.
ghost use Rattle.std.specs.Prelude.{◌≡◌, ◌<◌, ◌/◌, List, length, IfOk};
ghost use Rattle.bpf_flow.specs.Flow as flow;
ghost use Rattle.bpf_insn.specs.Code.{IsCodeOf, IsFirstFault};
ghost use Rattle.bpf_insn.specs.Word.{word_of};
ghost use Rattle.bpf_insn.specs.declared.code.TheConstants.{MAX_WORDS};
ghost use Rattle.bpf_insn.specs.declared.fault.CodeFault.TheVariants.{InWord};
ghost use Rattle.bpf_insn.specs.declared.instruction.Insn.{Insn};
ghost use Rattle.listing_lines.specs.SourceLines.{parts_of};
ghost use Rattle.listing_excerpt.specs.Reading.{from_place};
ghost use Rattle.listing_excerpt.specs.Reason.{place_of, word_reason};
ghost use Rattle.listing_excerpt.specs.Listed.{ListsCodeFault, ListsFlowFault};

use crate::excerpt::excerpt;
use crate::reading::{WORD_BYTES, instruction_in};
use crate::reason::{place_of, push_flow_reason, word_reason};
use bpf_flow::FlowFault;
use bpf_insn::{CodeFault, WordFault};
use listing_lines::SourceLines;
use std::alloc::{AllocError, Allocator};

/// Lists the words around the one that a program's bytes are refused for. A program that is refused for its length has no listing.
pub fn list_code_fault<A: Allocator + Copy>(
    alloc: A,
    program: &[u8],
    fault: CodeFault,
    lines: SourceLines<'_>,
) -> Result<Vec<u8, A>, AllocError>
    requires { IsFirstFault program.now fault }
    ensures { IfOk result (λ text. ListsCodeFault program.now (parts_of lines.entry) fault text.items) }
{
    match fault {
        CodeFault::InWord { place, fault } => list_word_fault(alloc, program, place, fault, lines),
        CodeFault::Memory => Err(AllocError),
        _ => Ok(Vec::new(alloc)),
    }
}

fn list_word_fault<A: Allocator + Copy>(
    alloc: A,
    program: &[u8],
    place: usize,
    fault: WordFault,
    lines: SourceLines<'_>,
) -> Result<Vec<u8, A>, AllocError>
    requires { place < length program.now / 8 }
    ensures { IfOk result (λ text. ListsCodeFault program.now (parts_of lines.entry) (InWord place fault) text.items) }
{
    let lines = lines.read(alloc)?;
    let reason = reason_at(program, place, fault);
    excerpt(alloc, program, &lines, place, reason)
}

fn reason_at(program: &[u8], place: usize, fault: WordFault) -> &'static str
    requires { place < length program.now / 8 }
    ensures { result.now ≡ word_reason fault (word_of (from_place program.now place)) }
{
    word_reason(fault, &program[place * WORD_BYTES..])
}

/// Lists the words around a jump that is refused, or around a last instruction that is no exit.
pub fn list_flow_fault<A: Allocator + Copy>(
    alloc: A,
    program: &[u8],
    fault: FlowFault,
    lines: SourceLines<'_>,
) -> Result<Vec<u8, A>, AllocError>
    requires { (code : List Insn) × IsCodeOf program.now code × flow.IsFirstFault code fault }
    ensures { IfOk result (λ text. ListsFlowFault program.now (parts_of lines.entry) fault text.items) }
{
    list_instruction(alloc, program, fault, lines)
}

fn list_instruction<A: Allocator + Copy>(
    alloc: A,
    program: &[u8],
    fault: FlowFault,
    lines: SourceLines<'_>,
) -> Result<Vec<u8, A>, AllocError>
    requires place { place_of fault < length program.now / 8 }
    requires few { place_of fault < MAX_WORDS }
    ensures { IfOk result (λ text. ListsFlowFault program.now (parts_of lines.entry) fault text.items) }
{
    let lines = lines.read(alloc)?;
    let place = place_of(fault);
    let insn = instruction_in(alloc, program, place)?;
    let mut reason = String::new(alloc);
    push_flow_reason(&mut reason, fault, insn)?;
    excerpt(alloc, program, &lines, place, &reason)
}
