//! Why an instruction is refused, in words.
ghost use Rattle.std.specs.Prelude.{◌≡◌, ◌++◌, OnOk, codes, decimal};
ghost use Rattle.std.specs.List.{All};
ghost use Rattle.std.specs.String.{string_bytes};
ghost use Rattle.bpf_verify.specs.LiftedState.{IsProperState};
ghost use Rattle.bpf_explain.specs.Failure.{argument_text, called_number, failure_facts, failure_text, failure_words, more_facts, registers_text, slots_text};
ghost use Rattle.bpf_explain.specs.Failure.{numbers_text, requirement, requirement_of, requirement_text};
ghost use Rattle.listing_notes.specs.Notation.{IsPart};

use crate::access::{push_access_if, push_base, push_number, push_offset_if, push_register};
use crate::arithmetic::push_arithmetic;
use crate::reach::{push_outside, push_unwritten};
use bpf_helpers::{Argument, Helper};
use bpf_insn::Insn;
use bpf_kinds::Interval;
use bpf_meaning::Cause;
use bpf_verify::AbstractState;
use listing_notes::{Part, helper_of, push_fact, push_facts, registers_read, slots_read};
use std::alloc::{AllocError, Allocator};

/// Pushes why an instruction is refused, given what is known before it and the check that fails.
#[tactic(auto, unfolding(crate::specs::Failure::failure_text))]
pub(crate) fn push_failure<A: Allocator + Copy>(
    alloc: A,
    text: &mut String<A>,
    known: &AbstractState,
    insn: Insn,
    cause: Cause,
) -> Result<(), AllocError>
    requires { IsProperState known.now }
    ensures { OnOk result (string_bytes text.new ≡ string_bytes text.old ++ failure_text known.now insn cause) }
{
    text.push_str(failure_words(cause))?;
    push_failure_facts(alloc, text, known, insn, cause)
}

fn failure_words(cause: Cause) -> &'static str
    ensures { result.now ≡ failure_words cause }
{
    match cause {
        Cause::OutOfProgram | Cause::IntoWide | Cause::PointerArithmetic => "",
        Cause::ReadsNothing(_) => "reads r",
        Cause::LeavesArea => "moves a pointer to an offset outside -32768..32767: ",
        Cause::NotPointer => "the base is no pointer: ",
        Cause::OutOfBounds | Cause::UnwrittenFrame => "",
        Cause::WritesRecord => "writes to the record, which is read-only: ",
        Cause::StoresPointer => {
            "a pointer is stored only by stxdw, at one known offset divisible by 8: "
        }
        Cause::ComparesPointer => "compares a pointer: ",
        Cause::UnknownHelper => "there is no helper function ",
        Cause::BadArgument(_) => "argument ",
        Cause::ExitNotNumber => "exits with a pointer: ",
    }
}

/// Pushes the facts that follow the words of the check that fails.
fn push_failure_facts<A: Allocator + Copy>(
    alloc: A,
    text: &mut String<A>,
    known: &AbstractState,
    insn: Insn,
    cause: Cause,
) -> Result<(), AllocError>
    requires { IsProperState known.now }
    ensures { OnOk result (string_bytes text.new ≡ string_bytes text.old ++ failure_facts known.now insn cause) }
{
    match cause {
        Cause::OutOfProgram | Cause::IntoWide => Ok(()),
        Cause::ReadsNothing(register) => push_nothing(text, register),
        Cause::PointerArithmetic => {
            push_arithmetic(text, known, insn)?;
            push_registers(alloc, text, known, insn)
        }
        Cause::LeavesArea | Cause::ComparesPointer => push_registers(alloc, text, known, insn),
        Cause::NotPointer => push_base(text, known, insn),
        Cause::OutOfBounds => push_outside(text, known, insn),
        Cause::UnwrittenFrame => {
            push_unwritten(text, known, insn)?;
            push_slots(alloc, text, known, insn)
        }
        Cause::WritesRecord => push_access_if(text, known, insn),
        Cause::StoresPointer => {
            push_registers(alloc, text, known, insn)?;
            push_offset_if(text, insn)
        }
        Cause::UnknownHelper => push_called_number(text, insn),
        Cause::BadArgument(number) => push_argument(text, known, insn, number),
        Cause::ExitNotNumber => push_register(text, known, 0),
    }
}

fn push_nothing<A: Allocator>(text: &mut String<A>, register: u8) -> Result<(), AllocError>
    ensures { OnOk result (string_bytes text.new ≡ string_bytes text.old ++ (decimal register ++ codes ", of which nothing is known")) }
{
    push_number(text, u64::from(register))?;
    text.push_str(", of which nothing is known")
}

/// Pushes an argument that doesn't meet the helper function's signature.
#[tactic(auto, unfolding(crate::specs::Failure::argument_text))]
fn push_argument<A: Allocator>(
    text: &mut String<A>,
    known: &AbstractState,
    insn: Insn,
    number: u8,
) -> Result<(), AllocError>
    requires { IsProperState known.now }
    ensures { OnOk result (string_bytes text.new ≡ string_bytes text.old ++ argument_text known.now insn number) }
{
    push_number(text, u64::from(number))?;
    text.push_str(" must be ")?;
    push_requirement(text, requirement(insn, number))?;
    text.push_str(": ")?;
    push_register(text, known, number)
}

/// Pushes what is known about the registers that an instruction reads.
#[tactic(auto, unfolding(crate::specs::Failure::registers_text))]
fn push_registers<A: Allocator + Copy>(
    alloc: A,
    text: &mut String<A>,
    known: &AbstractState,
    insn: Insn,
) -> Result<(), AllocError>
    requires { IsProperState known.now }
    ensures { OnOk result (string_bytes text.new ≡ string_bytes text.old ++ registers_text known.now insn) }
{
    let parts = registers_read(alloc, known, insn)?;
    push_facts(text, known, &parts)
}

/// Pushes what is known about the slots that an instruction may read, each after a comma.
#[tactic(auto, unfolding(crate::specs::Failure::slots_text))]
fn push_slots<A: Allocator + Copy>(
    alloc: A,
    text: &mut String<A>,
    known: &AbstractState,
    insn: Insn,
) -> Result<(), AllocError>
    requires { IsProperState known.now }
    ensures { OnOk result (string_bytes text.new ≡ string_bytes text.old ++ slots_text known.now insn) }
{
    let parts = slots_read(alloc, known, insn)?;
    push_more_facts(text, known, &parts)
}

#[tactic(auto, unfolding(crate::specs::Failure::more_facts))]
fn push_more_facts<A: Allocator>(
    text: &mut String<A>,
    known: &AbstractState,
    parts: &[Part],
) -> Result<(), AllocError>
    requires known { IsProperState known.now }
    requires parts { All IsPart parts.now }
    ensures { OnOk result (string_bytes text.new ≡ string_bytes text.old ++ more_facts known.now parts.now) }
{
    for part in parts {
        text.push_str(", ")?;
        push_fact(text, known, *part)?;
    }
    Ok(())
}

/// Pushes the number of the helper function that is called.
#[tactic(auto, unfolding(crate::specs::Failure::called_number))]
fn push_called_number<A: Allocator>(text: &mut String<A>, insn: Insn) -> Result<(), AllocError>
    ensures { OnOk result (string_bytes text.new ≡ string_bytes text.old ++ called_number insn) }
{
    // A helper function's number is unsigned: `call -1` calls 4294967295.
    match insn {
        Insn::Call { immediate } => push_number(text, u64::from(immediate.cast_unsigned())),
        _ => Ok(()),
    }
}

/// Returns a call's requirement on its argument with this number, counted from 1.
#[tactic(auto, unfolding(crate::specs::Failure::requirement))]
fn requirement(insn: Insn, number: u8) -> Argument
    ensures { result ≡ requirement insn number }
{
    match insn {
        Insn::Call { immediate } => requirement_of(helper_of(immediate), number),
        _ => Argument::Unused,
    }
}

fn requirement_of(helper: Option<Helper>, number: u8) -> Argument
    ensures { result ≡ requirement_of helper number }
{
    let Some(helper) = helper else {
        return Argument::Unused;
    };
    let [first, second, third] = helper.signature().arguments;
    match number {
        1 => first,
        2 => second,
        3 => third,
        _ => Argument::Unused,
    }
}

#[tactic(auto, unfolding(crate::specs::Failure::requirement_text))]
fn push_requirement<A: Allocator>(
    text: &mut String<A>,
    requirement: Argument,
) -> Result<(), AllocError>
    ensures { OnOk result (string_bytes text.new ≡ string_bytes text.old ++ requirement_text requirement) }
{
    match requirement {
        Argument::Unused => text.push_str("anything"),
        Argument::Number(x) => push_numbers(text, x),
        Argument::Frame => text.push_str("a pointer into the frame"),
    }
}

fn push_numbers<A: Allocator>(text: &mut String<A>, x: Interval) -> Result<(), AllocError>
    ensures { OnOk result (string_bytes text.new ≡ string_bytes text.old ++ numbers_text x) }
{
    if x.low == 0 && x.high == u64::MAX {
        return text.push_str("any number");
    }
    text.push_str("a number from ")?;
    push_number(text, x.low)?;
    text.push_str(" to ")?;
    push_number(text, x.high)
}
