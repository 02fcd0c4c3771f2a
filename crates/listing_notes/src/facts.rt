//! An instruction's line, with a note that shows a part of what is known before it.
ghost use Rattle.std.specs.Prelude.{◌≡◌, ◌++◌, ◌+◌, ◌-◌, replicate, length, IfOk, OnOk, codes};
ghost use Rattle.std.specs.List.{All};
ghost use Rattle.std.specs.String.{string_bytes};
ghost use Rattle.bpf_verify.specs.LiftedState.{IsProperState, Reached};
ghost use Rattle.std.specs.Prelude.{Decides, ◌&&◌, ◌<◌};
ghost use Rattle.std.specs.Str.{bytes_eq};
ghost use Rattle.bpf_frame.specs.FrameMap as map;
ghost use Rattle.bpf_insn.specs.declared.memory.TheConstants.{SLOTS};
ghost use Rattle.bpf_kinds.specs.Kind as kinds;
ghost use Rattle.listing_notes.specs.Notation.{IsPart, kind_text, slot_marks, slot_text};
ghost use Rattle.listing_notes.specs.Facts.{facts_text, instruction_line, is_changed, is_shown, joined, note_text, noted, prefix_text, shown_parts};

use crate::notation::{Part, push_fact, slot_marks};
use crate::reads::{PARTS, part_at, push_if, reads};
use bpf_frame::FrameMap;
use bpf_insn::Insn;
use bpf_kinds::Kind;
use bpf_text::push_instruction;
use bpf_verify::AbstractState;
use itoa::Buffer;
use std::alloc::{AllocError, Allocator};

/// The column in which notes begin.
pub const NOTE_COLUMN: usize = 40;

/// Pushes the facts about parts, separated by commas.
pub fn push_facts<A: Allocator>(
    text: &mut String<A>,
    known: &AbstractState,
    parts: &[Part],
) -> Result<(), AllocError>
    requires known { IsProperState known.now }
    requires parts { All IsPart parts.now }
    ensures { OnOk result (string_bytes text.new ≡ string_bytes text.old ++ facts_text known.now parts.now) }
{
    let mut comma = "";
    for part in parts {
        text.push_str(comma)?;
        push_fact(text, known, *part)?;
        comma = ", ";
    }
    Ok(())
}

/// Returns the parts that are shown: those that the instruction reads and those that changed.
fn shown_parts<A: Allocator>(
    alloc: A,
    last: &AbstractState,
    known: &AbstractState,
    insn: Insn,
) -> Result<Vec<Part, A>, AllocError>
    requires last { IsProperState last.now }
    requires known { IsProperState known.now }
    ensures value { IfOk result (λ parts. parts.items ≡ shown_parts last.now known.now insn) }
    ensures are { IfOk result (λ parts. All IsPart parts.items) }
{
    let mut parts = Vec::new(alloc);
    for place in 0..PARTS {
        let part = part_at(place);
        push_if(&mut parts, part, is_shown(last, known, insn, part))?;
    }
    Ok(parts)
}

fn is_shown(last: &AbstractState, known: &AbstractState, insn: Insn, part: Part) -> bool
    requires last { IsProperState last.now }
    requires known { IsProperState known.now }
    requires part { IsPart part }
    ensures { result ≡ is_shown last.now known.now insn part }
{
    // Only these, so that the listing of 65,536 words stays readable. What isn't shown is as it was.
    reads(known, insn, part) || is_changed(last, known, part)
}

/// Returns whether a part differs from the last state. Its text then differs too, because texts show all that is known.
fn is_changed(last: &AbstractState, known: &AbstractState, part: Part) -> bool
    requires last { IsProperState last.now }
    requires known { IsProperState known.now }
    requires part { IsPart part }
    ensures { result ≡ is_changed last.now known.now part }
{
    match part {
        Part::Register(register) => {
            let register = usize::from(register);
            !is_same_kind(last.registers[register], known.registers[register])
        }
        Part::Slot(slot) => !is_same_slot(&last.frame, &known.frame, slot),
    }
}

/// Kinds are equal exactly if their texts are.
fn is_same_kind(kind: Kind, other: Kind) -> bool
    requires kind { kinds.IsProper kind }
    requires other { kinds.IsProper other }
    ensures text { result ≡ bytes_eq (kind_text kind) (kind_text other) }
    ensures value { Decides result (kind ≡ other) }
{
    kind == other
}

fn is_same_slot(frame: &FrameMap, other: &FrameMap, slot: usize) -> bool
    requires frame { map.IsProper frame.now }
    requires other { map.IsProper other.now }
    requires slot { slot < SLOTS }
    ensures { result ≡ bytes_eq (slot_text frame.now slot) (slot_text other.now slot) }
{
    let kinds = is_same_kind(frame.slot(slot), other.slot(slot));
    let marks = are_same_marks(frame, other, slot);
    both(kinds, marks)
}

fn both(first: bool, second: bool) -> bool
    ensures { result ≡ (first && second) }
{
    first && second
}

fn are_same_marks(frame: &FrameMap, other: &FrameMap, slot: usize) -> bool
    requires frame { map.IsProper frame.now }
    requires other { map.IsProper other.now }
    requires slot { slot < SLOTS }
    ensures { Decides result (slot_marks frame.now.marks slot ≡ slot_marks other.now.marks slot) }
{
    slot_marks(frame, slot) == slot_marks(other, slot)
}

/// Pushes the note of an instruction that is reached.
fn push_note<A: Allocator + Copy>(
    alloc: A,
    text: &mut String<A>,
    last: &AbstractState,
    known: &AbstractState,
    insn: Insn,
) -> Result<(), AllocError>
    requires last { IsProperState last.now }
    requires known { IsProperState known.now }
    ensures { OnOk result (string_bytes text.new ≡ string_bytes text.old ++ note_text last.now (Reached known.now) insn) }
{
    let parts = shown_parts(alloc, last, known, insn)?;
    push_facts(text, known, &parts)
}

/// Returns the note of an instruction that is reached.
pub fn note<A: Allocator + Copy>(
    alloc: A,
    last: &AbstractState,
    known: &AbstractState,
    insn: Insn,
) -> Result<String<A>, AllocError>
    requires last { IsProperState last.now }
    requires known { IsProperState known.now }
    ensures { IfOk result (λ text. string_bytes text ≡ note_text last.now (Reached known.now) insn) }
{
    let mut text = String::new(alloc);
    push_note(alloc, &mut text, last, known, insn)?;
    Ok(text)
}

fn prefix<A: Allocator>(alloc: A, place: usize, insn: Insn) -> Result<String<A>, AllocError>
    ensures { IfOk result (λ text. string_bytes text ≡ prefix_text place insn) }
{
    let mut text = String::new(alloc);
    let mut digits = Buffer::new();
    text.push_str(digits.format(place))?;
    text.push_str(": ")?;
    push_instruction(&mut text, insn)?;
    Ok(text)
}

/// Pushes a place, its instruction, and the note unless it is empty.
pub fn push_instruction_line<A: Allocator + Copy>(
    alloc: A,
    text: &mut String<A>,
    place: usize,
    insn: Insn,
    note: &str,
) -> Result<(), AllocError>
    ensures { OnOk result (string_bytes text.new ≡ string_bytes text.old ++ (noted (prefix_text place insn) note.now ++ codes "\n")) }
{
    // Made first, since its length says where the note begins.
    let prefix = prefix(alloc, place, insn)?;
    push_noted(text, &prefix, note)?;
    text.push_str("\n")
}

/// Pushes a text, and its note at the notes' column unless it is empty.
fn push_noted<A: Allocator>(
    text: &mut String<A>,
    prefix: &str,
    note: &str,
) -> Result<(), AllocError>
    ensures { OnOk result (string_bytes text.new ≡ string_bytes text.old ++ noted prefix.now note.now) }
{
    text.push_str(prefix)?;
    if note.is_empty() {
        return Ok(());
    }
    push_blanks(text, NOTE_COLUMN.saturating_sub(prefix.len()))?;
    text.push_str("; ")?;
    text.push_str(note)
}

fn push_blanks<A: Allocator>(text: &mut String<A>, count: usize) -> Result<(), AllocError>
    ensures { OnOk result (string_bytes text.new ≡ string_bytes text.old ++ replicate count 32) }
{
    for _blank in 0..count {
        text.push_str(" ")?;
    }
    Ok(())
}
