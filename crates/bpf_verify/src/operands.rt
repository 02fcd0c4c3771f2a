//! Operands and results of instructions, as kinds.
ghost use Rattle.std.specs.Prelude.{◌≡◌, ◌≤◌, IfOk};
ghost use Rattle.bpf_kinds.specs.Interval as interval;
ghost use Rattle.bpf_kinds.specs.Kind as kinds;
ghost use Rattle.bpf_kinds.specs.Offsets as offset;
ghost use Rattle.bpf_verify.specs.LiftedState.{IsProperState};
ghost use Rattle.bpf_meaning.specs.Tags.{move, move_pointer, move_pointer_back, operate, operate_on_pointer, operate_with_pointer};
ghost use Rattle.bpf_meaning.specs.Walk.{number_in, operand, operation_value};
ghost use Rattle.bpf_verify.specs.Transfer.{kind_registers, kind_tags, number_or};

use crate::abstract_state::AbstractState;
use bpf_insn::{Operation, Source, Width, WritableRegister};
use bpf_kinds::{Interval, Kind, NumberWidth, Offsets, alu, immediate_operand, near_distances};
use bpf_meaning::Cause;

/// Returns the interval of a number kind, or `cause` if the kind is no number.
pub(crate) fn number_or(cause: Cause, kind: Kind) -> Result<Interval, Cause>
    ensures { result ≡ number_or cause kind }
{
    match kind {
        Kind::Number(x) => Ok(x),
        _ => Err(cause),
    }
}

/// Returns the interval of the number in a register that an instruction computes with.
pub(crate) fn number_in(known: &AbstractState, register: u8) -> Result<Interval, Cause>
    requires in_range { register ≤ 10 }
    requires proper { IsProperState known.now }
    ensures value { result ≡ number_in (kind_registers known.now) register }
    ensures proper { IfOk result interval.IsProper }
{
    number_or(Cause::PointerArithmetic, known.read(register)?)
}

/// Returns the kind of the second operand.
pub(crate) fn operand(known: &AbstractState, source: Source) -> Result<Kind, Cause>
    requires { IsProperState known.now }
    ensures value { result ≡ operand (kind_registers known.now) source }
    ensures proper { IfOk result kinds.IsProper }
{
    match source {
        Source::Immediate(immediate) => Ok(Kind::Number(immediate_operand(immediate))),
        Source::Register(register) => known.read(register.number),
    }
}

/// Returns the kind of an arithmetic instruction's result. A move doesn't read its destination.
pub(crate) fn operation_kind(
    known: &AbstractState,
    operation: Operation,
    width: Width,
    destination: WritableRegister,
    source: Source,
) -> Result<Kind, Cause>
    requires { IsProperState known.now }
    ensures value { result ≡ operation_value (kind_registers known.now) operation width destination.number source }
    ensures proper { IfOk result kinds.IsProper }
{
    match operation {
        Operation::Move => move_kind(width, operand(known, source)?),
        _ => {
            let x = known.read(destination.number)?;
            let y = operand(known, source)?;
            operate(operation, width, x, y)
        }
    }
}

/// Returns the kind of a move's result: any kind with 64 bits, the low halves of numbers with 32.
fn move_kind(width: Width, kind: Kind) -> Result<Kind, Cause>
    requires { kinds.IsProper kind }
    ensures value { result ≡ move kind_tags width kind }
    ensures proper { IfOk result kinds.IsProper }
{
    match (width, kind) {
        (Width::Bits64, kind) => Ok(kind),
        (Width::Bits32, Kind::Number(x)) => Ok(Kind::Number(x.cut(NumberWidth::Bits32))),
        _ => Err(Cause::PointerArithmetic),
    }
}

/// Returns the kind of an operation's result on two operands.
fn operate(operation: Operation, width: Width, x: Kind, y: Kind) -> Result<Kind, Cause>
    requires left { kinds.IsProper x }
    requires right { kinds.IsProper y }
    ensures value { result ≡ operate kind_tags operation width x y }
    ensures proper { IfOk result kinds.IsProper }
{
    match (width, x, y) {
        (_, Kind::Number(x), Kind::Number(y)) => Ok(Kind::Number(alu(operation, width, x, y))),
        (Width::Bits64, Kind::Record(offsets), Kind::Number(y)) => {
            Ok(Kind::Record(operate_on_pointer(operation, offsets, y)?))
        }
        (Width::Bits64, Kind::Frame(offsets), Kind::Number(y)) => {
            Ok(Kind::Frame(operate_on_pointer(operation, offsets, y)?))
        }
        (Width::Bits64, Kind::Number(x), Kind::Record(offsets)) => {
            Ok(Kind::Record(operate_with_pointer(operation, x, offsets)?))
        }
        (Width::Bits64, Kind::Number(x), Kind::Frame(offsets)) => {
            Ok(Kind::Frame(operate_with_pointer(operation, x, offsets)?))
        }
        _ => Err(Cause::PointerArithmetic),
    }
}

/// Returns the offsets that an operation on pointers and numbers yields.
fn operate_on_pointer(operation: Operation, offsets: Offsets, y: Interval) -> Result<Offsets, Cause>
    requires offsets { offset.IsProper offsets }
    requires number { interval.IsProper y }
    ensures value { result ≡ operate_on_pointer kind_tags operation offsets y }
    ensures proper { IfOk result offset.IsProper }
{
    match operation {
        Operation::Add => move_pointer(offsets, y),
        Operation::Subtract => move_pointer_back(offsets, y),
        _ => Err(Cause::PointerArithmetic),
    }
}

/// Returns the offsets that an operation on numbers and pointers yields.
fn operate_with_pointer(
    operation: Operation,
    x: Interval,
    offsets: Offsets,
) -> Result<Offsets, Cause>
    requires offsets { offset.IsProper offsets }
    requires number { interval.IsProper x }
    ensures value { result ≡ operate_with_pointer kind_tags operation x offsets }
    ensures proper { IfOk result offset.IsProper }
{
    match operation {
        Operation::Add => move_pointer(offsets, x),
        _ => Err(Cause::PointerArithmetic),
    }
}

/// Moves pointers forward by numbers of bytes.
fn move_pointer(offsets: Offsets, x: Interval) -> Result<Offsets, Cause>
    requires offsets { offset.IsProper offsets }
    requires number { interval.IsProper x }
    ensures value { result ≡ move_pointer kind_tags offsets x }
    ensures proper { IfOk result offset.IsProper }
{
    let distances = near_distances(x).ok_or(Cause::PointerArithmetic)?;
    offsets.move_by(distances).ok_or(Cause::LeavesArea)
}

/// Moves pointers backward by numbers of bytes.
fn move_pointer_back(offsets: Offsets, x: Interval) -> Result<Offsets, Cause>
    requires offsets { offset.IsProper offsets }
    requires number { interval.IsProper x }
    ensures value { result ≡ move_pointer_back kind_tags offsets x }
    ensures proper { IfOk result offset.IsProper }
{
    let distances = near_distances(x).ok_or(Cause::PointerArithmetic)?;
    offsets.move_back_by(distances).ok_or(Cause::LeavesArea)
}
