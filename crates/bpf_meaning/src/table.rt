//! The instruction table: the checks of each instruction in order, and its effect.
//!
//! The order of an instruction's checks decides which cause a program is refused for. The verifier's table and the machine's are proved equal to the
//! same definition, so a change here is one of all three.
ghost use Rattle.std.specs.Prelude.{◌≡◌, ◌<◌};
ghost use Rattle.bpf_insn.specs.declared.code.TheConstants.{MAX_WORDS};
ghost use Rattle.bpf_meaning.specs.Effect.{effect, values};
ghost use Rattle.bpf_meaning.specs.Walk.{walk};

use crate::calls::call_change;
use crate::cause::Cause;
use crate::effect::{Change, Effect};
use crate::memory::{load_value, store_change};
use crate::operands::{compare, number_in, number_or, operand, operation_value};
use crate::progress::{continue_with, jump, set_register};
use crate::state::State;
use bpf_helpers::Helper;
use bpf_insn::{Code, Insn, Source, Value, negate, wide_number};
use std::alloc::Allocator;
use tl_segments::Segment;

/// Returns the effect of the instruction at the state's place, or the first check that fails. Changes nothing.
#[inline(always)]
pub(crate) fn effect<A: Allocator, B: Allocator>(
    code: &Code<A>,
    segment: &Segment<B>,
    state: &State,
) -> Result<Effect, Cause>
    ensures { result ≡ effect code.now segment.now state.now }
{
    match code.at(state.place) {
        Some(insn) => {
            let next = state.place + insn.words();
            instruction_effect(code, segment, state, next, insn)
        }
        None => Err(Cause::OutOfProgram),
    }
}

/// Returns the effect of an instruction, with the next one beginning at `next`. Each arm is one row of the table.
#[inline(always)]
fn instruction_effect<A: Allocator, B: Allocator>(
    code: &Code<A>,
    segment: &Segment<B>,
    state: &State,
    next: usize,
    insn: Insn,
) -> Result<Effect, Cause>
    requires { state.now.place < MAX_WORDS }
    ensures { result ≡ walk (values code.now segment.now state.now next) insn }
{
    match insn {
        Insn::Alu {
            operation,
            width,
            destination,
            source,
        } => {
            let value = operation_value(state, operation, width, destination, source)?;
            set_register(code, next, destination, value)
        }
        Insn::MoveSignExtended {
            extension,
            destination,
            source,
        } => {
            let x = number_in(state, source.number)?;
            set_register(code, next, destination, Value::Number(extension.apply(x)))
        }
        Insn::Negate { width, destination } => {
            let x = number_in(state, destination.number)?;
            set_register(code, next, destination, Value::Number(negate(width, x)))
        }
        Insn::ByteSwap {
            order,
            width,
            destination,
        } => {
            let x = number_in(state, destination.number)?;
            set_register(
                code,
                next,
                destination,
                Value::Number(order.apply(width, x)),
            )
        }
        Insn::JumpIf {
            condition,
            width,
            left,
            right,
            offset,
        } => {
            let x = state.read(left.number)?;
            let y = operand(state, right)?;
            // The target of a jump that isn't taken is no fault of the run. Only `trace` meets one that the verifier refuses.
            if compare(condition, width, x, y)? {
                jump(code, state.place, i32::from(offset))
            } else {
                continue_with(code, next, Change::Nothing)
            }
        }
        Insn::Jump(distance) => jump(code, state.place, distance.words()),
        Insn::Call { immediate } => {
            let change = call_change(state, Helper::by_number(immediate.cast_unsigned()))?;
            continue_with(code, next, change)
        }
        Insn::Exit => {
            let answer = number_or(Cause::ExitNotNumber, state.read(0)?)?;
            Ok(Effect::End { answer })
        }
        Insn::Load {
            format,
            destination,
            base,
            offset,
        } => {
            let value = load_value(segment, state, format, base, offset)?;
            set_register(code, next, destination, value)
        }
        Insn::StoreImmediate {
            size,
            base,
            offset,
            immediate,
        } => {
            let change = store_change(state, size, base, offset, Source::Immediate(immediate))?;
            continue_with(code, next, change)
        }
        Insn::Store {
            size,
            base,
            offset,
            source,
        } => {
            let change = store_change(state, size, base, offset, Source::Register(source))?;
            continue_with(code, next, change)
        }
        Insn::WideLoad {
            destination,
            immediate,
            next_immediate,
        } => {
            let value = Value::Number(wide_number(immediate, next_immediate));
            set_register(code, next, destination, value)
        }
    }
}
