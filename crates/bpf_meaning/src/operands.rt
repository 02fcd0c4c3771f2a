//! Operands and results of instructions, as values.
ghost use Rattle.std.specs.Prelude.{◌≡◌, ◌≤◌};
ghost use Rattle.bpf_meaning.specs.Effect.{compare, near_distance, number_or, offset_or, value_registers, value_tags};
ghost use Rattle.bpf_meaning.specs.Tags.{move, move_pointer, move_pointer_back, operate, operate_on_pointer, operate_with_pointer};
ghost use Rattle.bpf_meaning.specs.Walk.{number_in, operand, operation_value};

use crate::cause::Cause;
use crate::state::State;
use bpf_insn::{
    Condition, Operation, Pointer, Source, Value, Width, WritableRegister, immediate_operand,
};

/// Returns the number that a value is, or `cause` if it is none.
#[inline(always)]
pub(crate) fn number_or(cause: Cause, value: Value) -> Result<u64, Cause>
    ensures { result ≡ number_or cause value }
{
    match value {
        Value::Number(number) => Ok(number),
        _ => Err(cause),
    }
}

/// Returns the number in a register that an instruction computes with.
#[inline(always)]
pub(crate) fn number_in(state: &State, register: u8) -> Result<u64, Cause>
    requires { register ≤ 10 }
    ensures { result ≡ number_in (value_registers state.now) register }
{
    number_or(Cause::PointerArithmetic, state.read(register)?)
}

/// Returns the second operand.
#[inline(always)]
pub(crate) fn operand(state: &State, source: Source) -> Result<Value, Cause>
    ensures { result ≡ operand (value_registers state.now) source }
{
    match source {
        Source::Immediate(immediate) => Ok(Value::Number(immediate_operand(immediate))),
        Source::Register(register) => state.read(register.number),
    }
}

/// Returns the result of an arithmetic instruction. A move doesn't read its destination.
#[inline(always)]
pub(crate) fn operation_value(
    state: &State,
    operation: Operation,
    width: Width,
    destination: WritableRegister,
    source: Source,
) -> Result<Value, Cause>
    ensures { result ≡ operation_value (value_registers state.now) operation width destination.number source }
{
    match operation {
        Operation::Move => move_value(width, operand(state, source)?),
        _ => {
            let x = state.read(destination.number)?;
            let y = operand(state, source)?;
            operate(operation, width, x, y)
        }
    }
}

/// Returns the result of a move: any value with 64 bits, the low half of a number with 32.
#[inline(always)]
fn move_value(width: Width, value: Value) -> Result<Value, Cause>
    ensures { result ≡ move value_tags width value }
{
    match (width, value) {
        (Width::Bits64, value) => Ok(value),
        (Width::Bits32, Value::Number(number)) => Ok(Value::Number(number % (1 << 32))),
        _ => Err(Cause::PointerArithmetic),
    }
}

/// Returns the result of an operation on two values.
#[inline(always)]
fn operate(operation: Operation, width: Width, x: Value, y: Value) -> Result<Value, Cause>
    ensures { result ≡ operate value_tags operation width x y }
{
    match (width, x, y) {
        (_, Value::Number(x), Value::Number(y)) => {
            Ok(Value::Number(operation.apply(width, x, y)))
        }
        (Width::Bits64, Value::Pointer(pointer), Value::Number(y)) => {
            let offset = operate_on_pointer(operation, pointer.offset, y)?;
            Ok(Value::Pointer(Pointer {
                area: pointer.area,
                offset,
            }))
        }
        (Width::Bits64, Value::Number(x), Value::Pointer(pointer)) => {
            let offset = operate_with_pointer(operation, x, pointer.offset)?;
            Ok(Value::Pointer(Pointer {
                area: pointer.area,
                offset,
            }))
        }
        _ => Err(Cause::PointerArithmetic),
    }
}

/// Returns the offset that an operation on a pointer's offset and a number yields.
fn operate_on_pointer(operation: Operation, offset: i16, y: u64) -> Result<i16, Cause>
    ensures { result ≡ operate_on_pointer value_tags operation offset y }
{
    match operation {
        Operation::Add => move_pointer(offset, y),
        Operation::Subtract => move_pointer_back(offset, y),
        _ => Err(Cause::PointerArithmetic),
    }
}

/// Returns the offset that an operation on a number and a pointer's offset yields.
fn operate_with_pointer(operation: Operation, x: u64, offset: i16) -> Result<i16, Cause>
    ensures { result ≡ operate_with_pointer value_tags operation x offset }
{
    match operation {
        Operation::Add => move_pointer(offset, x),
        _ => Err(Cause::PointerArithmetic),
    }
}

/// Moves an offset forward by a number of bytes.
fn move_pointer(offset: i16, number: u64) -> Result<i16, Cause>
    ensures { result ≡ move_pointer value_tags offset number }
{
    let distance = near_distance(number)?;
    offset_or(i32::from(offset) + i32::from(distance))
}

/// Moves an offset backward by a number of bytes.
fn move_pointer_back(offset: i16, number: u64) -> Result<i16, Cause>
    ensures { result ≡ move_pointer_back value_tags offset number }
{
    let distance = near_distance(number)?;
    offset_or(i32::from(offset) - i32::from(distance))
}

/// Returns the distance by which a number moves a pointer: the number in two's complement, if it lies in the range of offsets.
fn near_distance(number: u64) -> Result<i16, Cause>
    ensures { result ≡ near_distance number }
{
    match i16::try_from(number.cast_signed()) {
        Ok(distance) => Ok(distance),
        Err(_) => Err(Cause::PointerArithmetic),
    }
}

/// Returns an offset if it lies in the range of offsets.
fn offset_or(offset: i32) -> Result<i16, Cause>
    ensures { result ≡ offset_or offset }
{
    match i16::try_from(offset) {
        Ok(offset) => Ok(offset),
        Err(_) => Err(Cause::LeavesArea),
    }
}

/// Returns whether two values meet a condition.
#[inline(always)]
pub(crate) fn compare(condition: Condition, width: Width, x: Value, y: Value) -> Result<bool, Cause>
    ensures { result ≡ compare condition width x y }
{
    match (x, y) {
        (Value::Number(x), Value::Number(y)) => Ok(condition.holds(width, x, y)),
        _ => Err(Cause::ComparesPointer),
    }
}
