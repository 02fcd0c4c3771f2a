//! The instruction table: the checks of each instruction in order, and the abstract state after it.
ghost use Rattle.std.specs.Prelude.{◌≡◌, IfErr, IfOk, Err, Ok};
ghost use Rattle.bpf_meaning.specs.Walk.{walk};
ghost use Rattle.bpf_verify.specs.LiftedState.{AreProperEdges, IsProperState};
ghost use Rattle.bpf_verify.specs.Transfer.{edges_to};
ghost use Rattle.bpf_verify.specs.Transfer.{kinds as known_kinds};

use crate::abstract_state::AbstractState;
use crate::calls::call;
use crate::comparison::JumpCondition;
use crate::memory::{load_kind, store};
use crate::operands::{number_in, number_or, operation_kind};
use crate::successors::Successors;
use bpf_helpers::Helper;
use bpf_insn::{Insn, Source};
use bpf_kinds::{Kind, byte_swap, extend, negate, wide_number};
use bpf_meaning::Cause;

/// Applies the transfer function: updates `known` to the state after the instruction, and returns where control goes next. Returns the first check
/// that fails for some of the possible values; `known` is then meaningless.
pub(crate) fn transfer(known: &mut AbstractState, insn: Insn) -> Result<Successors, Cause>
    requires { IsProperState known.old }
    ensures ok { IfOk result (λ successors. walk (known_kinds known.old) insn ≡ Ok (edges_to known.new successors)) }
    ensures err { IfErr result (λ cause. walk (known_kinds known.old) insn ≡ Err cause) }
    ensures proper { IfOk result (λ successors. AreProperEdges (edges_to known.new successors)) }
{
    // In place: a state has almost 2 KB, and most instructions have one edge out of them.
    match insn {
        Insn::Alu {
            operation,
            width,
            destination,
            source,
        } => {
            let kind = operation_kind(known, operation, width, destination, source)?;
            known.set(destination.number, kind);
            Ok(Successors::Next)
        }
        Insn::MoveSignExtended {
            extension,
            destination,
            source,
        } => {
            let x = number_in(known, source.number)?;
            known.set(destination.number, Kind::Number(extend(extension, x)));
            Ok(Successors::Next)
        }
        Insn::Negate { width, destination } => {
            let x = number_in(known, destination.number)?;
            known.set(destination.number, Kind::Number(negate(width, x)));
            Ok(Successors::Next)
        }
        Insn::ByteSwap {
            order,
            width,
            destination,
        } => {
            let x = number_in(known, destination.number)?;
            known.set(destination.number, Kind::Number(byte_swap(order, width, x)));
            Ok(Successors::Next)
        }
        Insn::JumpIf {
            condition,
            width,
            left,
            right,
            ..
        } => {
            let comparison = JumpCondition {
                condition,
                width,
                left,
                right,
            };
            comparison.successors(known)
        }
        Insn::Jump(_) => Ok(Successors::Target),
        Insn::Call { immediate } => {
            call(known, Helper::by_number(immediate.cast_unsigned()))?;
            Ok(Successors::Next)
        }
        Insn::Exit => {
            number_or(Cause::ExitNotNumber, known.read(0)?)?;
            Ok(Successors::End)
        }
        Insn::Load {
            format,
            destination,
            base,
            offset,
        } => {
            let kind = load_kind(known, format, base, offset)?;
            known.set(destination.number, kind);
            Ok(Successors::Next)
        }
        Insn::StoreImmediate {
            size,
            base,
            offset,
            immediate,
        } => {
            store(known, size, base, offset, Source::Immediate(immediate))?;
            Ok(Successors::Next)
        }
        Insn::Store {
            size,
            base,
            offset,
            source,
        } => {
            store(known, size, base, offset, Source::Register(source))?;
            Ok(Successors::Next)
        }
        Insn::WideLoad {
            destination,
            immediate,
            next_immediate,
        } => {
            let x = wide_number(immediate, next_immediate);
            known.set(destination.number, Kind::Number(x));
            Ok(Successors::Next)
        }
    }
}
