//! Calls of helper functions: their checks in order, and the state after them.
ghost use Rattle.std.specs.Prelude.{◌≡◌, ◌≤◌, IfErr, IfOk, OnOk, Err, Ok};
ghost use Rattle.bpf_kinds.specs.Kind as kinds;
ghost use Rattle.bpf_verify.specs.LiftedState.{IsProperState};
ghost use Rattle.bpf_verify.specs.Transfer.{AreProper, LieWithinFrame, are_allowed, argument_in, argument_kind, arguments_in, call, lend_bytes, lend_frame, lend_read};

use crate::abstract_state::AbstractState;
use crate::memory::lie_within;
use bpf_helpers::{Argument, FrameUse, Helper};
use bpf_insn::FRAME_LENGTH;
use bpf_kinds::{Interval, Kind, Offsets};
use bpf_meaning::Cause;

/// What is known of the bytes of the frame that a call reads or writes.
#[derive(Clone, Copy)]
pub(crate) struct LentBytes {
    /// Where they begin.
    pub offsets: Offsets,
    /// How many there are.
    pub count: Interval,
}

/// Checks a call of a helper function and updates the state. `None` stands for an unknown function, which is an error.
pub(crate) fn call(known: &mut AbstractState, helper: Option<Helper>) -> Result<(), Cause>
    requires { IsProperState known.old }
    ensures ok { OnOk result (call known.old helper ≡ Ok known.new) }
    ensures err { IfErr result (λ cause. call known.old helper ≡ Err cause) }
    ensures proper { OnOk result (IsProperState known.new) }
{
    let signature = helper.ok_or(Cause::UnknownHelper)?.signature();
    let arguments = arguments_in(known, signature.arguments)?;
    lend_frame(known, signature.group.frame_use(), arguments)?;
    known.clobber_for_call(signature.answer);
    Ok(())
}

/// Returns the kinds of the arguments that a prototype requires, in order. Each one is checked before the next one is read.
fn arguments_in(known: &AbstractState, required: [Argument; 3]) -> Result<[Kind; 3], Cause>
    requires { IsProperState known.now }
    ensures value { result ≡ arguments_in known.now required }
    ensures proper { IfOk result AreProper }
{
    let [first, second, third] = required;
    let first = argument_in(known, 1, first)?;
    let second = argument_in(known, 2, second)?;
    let third = argument_in(known, 3, third)?;
    Ok([first, second, third])
}

/// Returns the kind of an argument, numbered from 1. An unused argument isn't read.
fn argument_in(known: &AbstractState, number: u8, required: Argument) -> Result<Kind, Cause>
    requires number { number ≤ 10 }
    requires proper { IsProperState known.now }
    ensures value { result ≡ argument_in known.now number required }
    ensures proper { IfOk result kinds.IsProper }
{
    match required {
        Argument::Unused => Ok(Kind::Nothing),
        _ => argument_kind(number, required, known.read(number)?),
    }
}

/// Returns the kind of an argument if the prototype accepts all of its values.
fn argument_kind(number: u8, required: Argument, kind: Kind) -> Result<Kind, Cause>
    requires { kinds.IsProper kind }
    ensures value { result ≡ argument_kind number required kind }
    ensures proper { IfOk result kinds.IsProper }
{
    match (required, kind) {
        (Argument::Unused, _) => Ok(Kind::Nothing),
        (Argument::Number(allowed), Kind::Number(x)) if are_allowed(allowed, x) => Ok(kind),
        (Argument::Frame, Kind::Frame(_)) => Ok(kind),
        _ => Err(Cause::BadArgument(number)),
    }
}

/// Returns whether all numbers of an interval lie in the interval that a prototype allows.
fn are_allowed(allowed: Interval, x: Interval) -> bool
    ensures { result ≡ are_allowed allowed x }
{
    allowed.low <= x.low && x.high <= allowed.high
}

/// Checks a call's use of the frame and updates the state.
fn lend_frame(known: &mut AbstractState, frame: FrameUse, arguments: [Kind; 3]) -> Result<(), Cause>
    requires known { IsProperState known.old }
    requires arguments { AreProper arguments }
    ensures ok { OnOk result (lend_frame known.old frame arguments ≡ Ok known.new) }
    ensures err { IfErr result (λ cause. lend_frame known.old frame arguments ≡ Err cause) }
    ensures proper { OnOk result (IsProperState known.new) }
{
    let [_, second, third] = arguments;
    match frame {
        FrameUse::Nothing => Ok(()),
        FrameUse::Writes => {
            let bytes = lend_bytes(second, third)?;
            known.write_bytes(
                bytes.offsets,
                0,
                bytes.count.low as usize,
                bytes.count.high as usize,
            );
            Ok(())
        }
        FrameUse::Reads => lend_read(known, lend_bytes(second, third)?),
    }
}

/// Returns the bytes of the frame that the second argument points to and the third one counts. All of them must lie within the frame.
fn lend_bytes(second: Kind, third: Kind) -> Result<LentBytes, Cause>
    requires second { kinds.IsProper second }
    requires third { kinds.IsProper third }
    ensures value { result ≡ lend_bytes second third }
    ensures within { IfOk result LieWithinFrame }
{
    let (Kind::Frame(offsets), Kind::Number(count)) = (second, third) else {
        // Not reached: the signature of a function that uses the frame requires these kinds.
        return Err(Cause::OutOfBounds);
    };
    let bytes = FRAME_LENGTH as u64;
    if count.high > bytes || !lie_within(offsets, 0, count.high as usize, FRAME_LENGTH) {
        return Err(Cause::OutOfBounds);
    }
    Ok(LentBytes { offsets, count })
}

/// Checks that every byte of the frame that a call may read is written.
fn lend_read(known: &AbstractState, bytes: LentBytes) -> Result<(), Cause>
    requires known { IsProperState known.now }
    requires within { LieWithinFrame bytes }
    ensures ok { OnOk result (lend_read known.now bytes ≡ Ok known.now) }
    ensures err { IfErr result (λ cause. lend_read known.now bytes ≡ Err cause) }
{
    if !known.all_marked(bytes.offsets, 0, bytes.count.high as usize) {
        return Err(Cause::UnwrittenFrame);
    }
    Ok(())
}
