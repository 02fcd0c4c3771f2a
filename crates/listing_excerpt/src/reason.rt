//! Why a word or a jump is refused, in words.
ghost use Rattle.std.specs.Prelude.{◌≡◌, ◌≤◌, ◌<◌, ◌++◌, length, OnOk};
ghost use Rattle.std.specs.String.{string_bytes};
ghost use Rattle.bpf_insn.specs.Word.{word_of};
ghost use Rattle.listing_excerpt.specs.Reason.{address_reason, call_reason, distance_text, flow_reason, flow_words, place_of, target_text, unused_reason, word_reason};

use bpf_flow::FlowFault;
use bpf_insn::{Insn, MAX_WORDS, WordFault};
use byteorder::{ByteOrder, LittleEndian};
use itoa::Buffer;
use std::alloc::{AllocError, Allocator};

const CALL: u8 = 0x85;

const WIDE_LOAD: u8 = 0x18;

const UNUSED_FIELD: &str = "a field that the instruction doesn't use isn't zero";

/// Returns why no instruction begins with the word.
pub(crate) fn word_reason(fault: WordFault, word: &[u8]) -> &'static str
    requires { 8 ≤ length word.now }
    ensures { result.now ≡ word_reason fault (word_of word.now) }
{
    match fault {
        WordFault::UnknownOpcode => "no instruction has this opcode",
        WordFault::BadRegister => "there is no register above r10",
        WordFault::UnusedNotZero => unused_reason(word),
        WordFault::BadWidth => "the instruction has no such width",
        WordFault::CutWide => "the second word of the wide load is missing",
        WordFault::WritesFramePointer => "writes r10, which is read-only",
    }
}

fn unused_reason(word: &[u8]) -> &'static str
    requires { 8 ≤ length word.now }
    ensures { result.now ≡ unused_reason (word_of word.now) }
{
    let source = word[1] / 16;
    match word[0] {
        CALL => call_reason(source, LittleEndian::read_i32(&word[4..8])),
        WIDE_LOAD => address_reason(source),
        _ => UNUSED_FIELD,
    }
}

/// Returns why a call is refused, given its fields `src_reg` and `imm`.
fn call_reason(source: u8, immediate: i32) -> &'static str
    ensures { result.now ≡ call_reason source immediate }
{
    // By this field clang and the kernel tell other calls apart. Here it is unused.
    if source == 1 {
        if immediate == -1 {
            return "calls another function (src_reg 1), whose place clang left to a linker";
        }
        return "calls another function (src_reg 1)";
    }
    if source == 2 {
        return "calls a function of the kernel (src_reg 2)";
    }
    UNUSED_FIELD
}

fn address_reason(source: u8) -> &'static str
    ensures { result.now ≡ address_reason source }
{
    if source == 0 {
        UNUSED_FIELD
    } else {
        "loads the address of a map or a variable (src_reg isn't 0)"
    }
}

/// Returns the place of the jump, or of the last instruction.
pub(crate) fn place_of(fault: FlowFault) -> usize
    ensures { result ≡ place_of fault }
{
    match fault {
        FlowFault::BackwardJump { place }
        | FlowFault::OutOfProgram { place }
        | FlowFault::IntoWide { place }
        | FlowFault::LastNotExit { place } => place,
    }
}

/// Pushes why the flow is refused at an instruction.
pub(crate) fn push_flow_reason<A: Allocator>(
    text: &mut String<A>,
    fault: FlowFault,
    insn: Option<Insn>,
) -> Result<(), AllocError>
    requires { place_of fault < MAX_WORDS }
    ensures { OnOk result (string_bytes text.new ≡ string_bytes text.old ++ flow_reason fault insn) }
{
    text.push_str(flow_words(fault))?;
    match fault {
        FlowFault::LastNotExit { .. } => Ok(()),
        fault => push_target(text, place_of(fault), insn),
    }
}

fn flow_words(fault: FlowFault) -> &'static str
    ensures { result.now ≡ flow_words fault }
{
    match fault {
        FlowFault::BackwardJump { .. } => "jumps back",
        FlowFault::OutOfProgram { .. } => "jumps past the last word",
        FlowFault::IntoWide { .. } => "jumps to the second word of a wide load",
        FlowFault::LastNotExit { .. } => "the last instruction isn't exit",
    }
}

fn push_target<A: Allocator>(
    text: &mut String<A>,
    place: usize,
    insn: Option<Insn>,
) -> Result<(), AllocError>
    requires { place < MAX_WORDS }
    ensures { OnOk result (string_bytes text.new ≡ string_bytes text.old ++ target_text place insn) }
{
    match insn {
        Some(insn) => push_distance(text, place, insn.jump_distance()),
        None => Ok(()),
    }
}

/// Pushes where a jump by a distance leads.
fn push_distance<A: Allocator>(
    text: &mut String<A>,
    place: usize,
    distance: Option<i32>,
) -> Result<(), AllocError>
    requires { place < MAX_WORDS }
    ensures { OnOk result (string_bytes text.new ≡ string_bytes text.old ++ distance_text place distance) }
{
    let Some(distance) = distance else {
        return Ok(());
    };
    let mut digits = Buffer::new();
    let target = place as i64 + 1 + i64::from(distance);
    text.push_str(", to place ")?;
    text.push_str(digits.format(target))
}
