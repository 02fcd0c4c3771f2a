//! Arithmetic with a pointer that is refused: the operation, and which of two facts fails.
ghost use Rattle.std.specs.Prelude.{◌≡◌, ◌++◌, OnOk};
ghost use Rattle.std.specs.String.{string_bytes};
ghost use Rattle.bpf_verify.specs.LiftedState.{IsProperState};
ghost use Rattle.bpf_explain.specs.Arithmetic.{arithmetic_text, arithmetic_words, is_number, is_number_from, is_number_in, moves, moves_pointer, operation_name};

use crate::access::kind_of;
use bpf_assembler::MnemonicForm;
use bpf_insn::{Insn, Operation, Source, Width};
use bpf_kinds::Kind;
use bpf_verify::AbstractState;
use std::alloc::{AllocError, Allocator};

/// Pushes the mnemonic of an arithmetic instruction that is refused for a pointer, and the fact that fails.
#[tactic(auto, unfolding(crate::specs::Arithmetic::arithmetic_text))]
pub(crate) fn push_arithmetic<A: Allocator>(
    text: &mut String<A>,
    known: &AbstractState,
    insn: Insn,
) -> Result<(), AllocError>
    requires { IsProperState known.now }
    ensures { OnOk result (string_bytes text.new ≡ string_bytes text.old ++ arithmetic_text known.now insn) }
{
    text.push_str(operation_name(insn))?;
    text.push_str(arithmetic_words(moves(known, insn)))
}

#[tactic(auto, unfolding(crate::specs::Arithmetic::operation_name))]
fn operation_name(insn: Insn) -> &'static str
    ensures { result.now ≡ operation_name insn }
{
    match insn {
        Insn::Alu {
            operation,
            width,
            ..
        } => MnemonicForm::Alu(operation, width).name(),
        Insn::MoveSignExtended { extension, .. } => {
            MnemonicForm::MoveSignExtended(extension).name()
        }
        Insn::Negate { width, .. } => MnemonicForm::Negate(width).name(),
        Insn::ByteSwap { order, width, .. } => MnemonicForm::ByteSwap(order, width).name(),
        _ => "",
    }
}

fn arithmetic_words(moves: bool) -> &'static str
    ensures { result.now ≡ arithmetic_words moves }
{
    if moves {
        " moves a pointer only by a number from -32768 to 32767: "
    } else {
        " of a pointer, which is only copied by mov, or moved by add or sub of a number: "
    }
}

/// Returns whether an instruction moves a pointer by a number, given that it has a pointer as an operand.
#[tactic(auto, unfolding(crate::specs::Arithmetic::moves))]
fn moves(known: &AbstractState, insn: Insn) -> bool
    requires { IsProperState known.now }
    ensures { result ≡ moves known.now insn }
{
    match insn {
        Insn::Alu {
            operation,
            width: Width::Bits64,
            destination,
            source,
        } => {
            let left = is_number_in(known, destination.number);
            let right = is_number_from(known, source);
            moves_pointer(operation, left, right)
        }
        _ => false,
    }
}

fn moves_pointer(operation: Operation, left: bool, right: bool) -> bool
    ensures { result ≡ moves_pointer operation left right }
{
    match operation {
        Operation::Add => left || right,
        Operation::Subtract => right,
        _ => false,
    }
}

fn is_number_from(known: &AbstractState, source: Source) -> bool
    requires { IsProperState known.now }
    ensures { result ≡ is_number_from known.now source }
{
    match source {
        Source::Register(register) => is_number_in(known, register.number),
        Source::Immediate(_) => true,
    }
}

#[tactic(auto, unfolding(crate::specs::Arithmetic::is_number_in))]
fn is_number_in(known: &AbstractState, register: u8) -> bool
    requires { IsProperState known.now }
    ensures { result ≡ is_number_in known.now register }
{
    is_number(kind_of(known, register))
}

fn is_number(kind: Kind) -> bool
    ensures { result ≡ is_number kind }
{
    matches!(kind, Kind::Number(_))
}
