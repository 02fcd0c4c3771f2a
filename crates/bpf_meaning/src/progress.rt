//! The next place of a program.
ghost use Rattle.std.specs.Prelude.{◌≡◌, ◌<◌};
ghost use Rattle.bpf_insn.specs.declared.code.TheConstants.{MAX_WORDS};
ghost use Rattle.bpf_meaning.specs.Effect.{continue_with, jump, set_register};

use crate::cause::Cause;
use crate::effect::{Change, Effect};
use bpf_insn::{Code, Value, WritableRegister};
use std::alloc::Allocator;

/// Continues at a place, with a change, if an instruction begins there.
#[inline(always)]
pub(crate) fn continue_with<A: Allocator>(
    code: &Code<A>,
    place: usize,
    change: Change,
) -> Result<Effect, Cause>
    ensures { result ≡ continue_with code.now place change }
{
    if code.at(place).is_some() {
        return Ok(Effect::Continue { change, place });
    }
    if place < code.words() {
        return Err(Cause::IntoWide);
    }
    Err(Cause::OutOfProgram)
}

/// Continues at a place with a register set.
#[inline(always)]
pub(crate) fn set_register<A: Allocator>(
    code: &Code<A>,
    place: usize,
    register: WritableRegister,
    value: Value,
) -> Result<Effect, Cause>
    ensures { result ≡ set_register code.now place register value }
{
    continue_with(code, place, Change::SetRegister { register, value })
}

/// Jumps from a place by `distance` words, counted from the word after the jump.
#[inline(always)]
pub(crate) fn jump<A: Allocator>(
    code: &Code<A>,
    place: usize,
    distance: i32,
) -> Result<Effect, Cause>
    requires { place < MAX_WORDS }
    ensures { result ≡ jump code.now place distance }
{
    let target = (place + 1) as i64 + i64::from(distance);
    match usize::try_from(target) {
        Ok(target) => continue_with(code, target, Change::Nothing),
        Err(_) => Err(Cause::OutOfProgram),
    }
}
