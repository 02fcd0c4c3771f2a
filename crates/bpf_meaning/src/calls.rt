//! Calls of helper functions: the checks before a call.
ghost use Rattle.std.specs.Prelude.{◌≡◌, ◌≤◌, ◌+◌, IfOk};
ghost use Rattle.bpf_helpers.specs.Call.{second, third};
ghost use Rattle.bpf_insn.specs.declared.memory.TheConstants.{FRAME_LENGTH};
ghost use Rattle.bpf_meaning.specs.Effect.{argument_in, argument_word, arguments_in, call_change, call_helper, is_allowed, lend_bytes, lend_frame, lend_written};

use crate::cause::Cause;
use crate::effect::Change;
use crate::state::State;
use bpf_helpers::{Argument, FrameUse, Helper};
use bpf_insn::{Area, FRAME_LENGTH, Value};
use bpf_kinds::Interval;

/// Returns the change that a call makes, or an error if there is no such helper function.
pub(crate) fn call_change(state: &State, helper: Option<Helper>) -> Result<Change, Cause>
    ensures { result ≡ call_change state.now helper }
{
    match helper {
        Some(helper) => call_helper(state, helper),
        None => Err(Cause::UnknownHelper),
    }
}

/// Returns the call of a helper function, after checking its arguments against its prototype.
fn call_helper(state: &State, helper: Helper) -> Result<Change, Cause>
    ensures { result ≡ call_helper state.now helper }
{
    let signature = helper.signature();
    // Before the frame, so a number out of its bounds is 50 BadArgument and never 44 OutOfBounds.
    let arguments = arguments_in(state, signature.arguments)?;
    let arguments = lend_frame(state, signature.group.frame_use(), arguments)?;
    Ok(Change::CallHelper { helper, arguments })
}

/// Returns the arguments that a prototype requires, in order. Each one is read and checked before the next one.
fn arguments_in(state: &State, required: [Argument; 3]) -> Result<[u64; 3], Cause>
    ensures { result ≡ arguments_in state.now required }
{
    let [first, second, third] = required;
    let first = argument_in(state, 1, first)?;
    let second = argument_in(state, 2, second)?;
    let third = argument_in(state, 3, third)?;
    Ok([first, second, third])
}

/// Returns an argument, numbered from 1. An unused argument isn't read.
fn argument_in(state: &State, number: u8, required: Argument) -> Result<u64, Cause>
    requires { number ≤ 10 }
    ensures { result ≡ argument_in state.now number required }
{
    match required {
        Argument::Unused => Ok(0),
        _ => argument_word(number, required, state.read(number)?),
    }
}

/// Returns the word for an argument: a number, or the offset of a pointer into the frame in two's complement.
fn argument_word(number: u8, required: Argument, value: Value) -> Result<u64, Cause>
    ensures { result ≡ argument_word number required value }
{
    match (required, value) {
        (Argument::Unused, _) => Ok(0),
        (Argument::Number(allowed), Value::Number(n)) if is_allowed(allowed, n) => Ok(n),
        (Argument::Frame, Value::Pointer(pointer)) if pointer.area == Area::Frame => {
            Ok(i64::from(pointer.offset).cast_unsigned())
        }
        _ => Err(Cause::BadArgument(number)),
    }
}

/// Returns whether a number lies in the interval that a prototype allows.
fn is_allowed(allowed: Interval, n: u64) -> bool
    ensures { result ≡ is_allowed allowed n }
{
    allowed.low <= n && n <= allowed.high
}

/// Returns the arguments, after checking that the bytes of the frame that a call reads or writes lie within it, and that those it reads are
/// written.
fn lend_frame(state: &State, frame: FrameUse, arguments: [u64; 3]) -> Result<[u64; 3], Cause>
    ensures { result ≡ lend_frame state.now frame arguments }
{
    match frame {
        FrameUse::Nothing => Ok(arguments),
        FrameUse::Writes => lend_bytes(arguments),
        FrameUse::Reads => lend_written(state, lend_bytes(arguments)?),
    }
}

/// Returns the arguments, after checking that the bytes lie within the frame. An offset below 0 is a word greater than all others.
fn lend_bytes(arguments: [u64; 3]) -> Result<[u64; 3], Cause>
    ensures value { result ≡ lend_bytes arguments }
    ensures within { IfOk result (λ arguments. second arguments + third arguments ≤ FRAME_LENGTH) }
{
    let [_, at, count] = arguments;
    let bytes = FRAME_LENGTH as u64;
    if at > bytes || count > bytes - at {
        return Err(Cause::OutOfBounds);
    }
    Ok(arguments)
}

/// Returns the arguments, after checking that the bytes are written.
fn lend_written(state: &State, arguments: [u64; 3]) -> Result<[u64; 3], Cause>
    requires { second arguments + third arguments ≤ FRAME_LENGTH }
    ensures { result ≡ lend_written state.now arguments }
{
    let [_, at, count] = arguments;
    if !state.frame.all_written(at as usize, count as usize) {
        return Err(Cause::UnwrittenFrame);
    }
    Ok(arguments)
}
