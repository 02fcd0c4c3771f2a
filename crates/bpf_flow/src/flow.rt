//! Codes whose jumps all go forward.
//!
//! Jumps go only forward, so one pass over the places sees everything that leads to an instruction before the instruction itself, and a run needs no
//! limit of steps. A `Flow` keeps its code private and is made by `of` alone, so that nothing checks the jumps again.
ghost use Rattle.std.specs.Prelude.{◌≡◌, ◌≢◌, ◌<◌, ◌+◌, ◌≤ℤ◌, pos, length, option_map, Some, IsSome, IfSome, IsOk, IfOk, IfErr, OnOk};
ghost use Rattle.bpf_insn.specs.Code.{instruction_at};
ghost use Rattle.bpf_insn.specs.Form.{spelling};
ghost use Rattle.bpf_insn.specs.Jump.{jump_distance};
ghost use Rattle.bpf_insn.specs.declared.code.TheConstants.{MAX_WORDS};
ghost use Rattle.bpf_insn.specs.declared.instruction.Insn.{Insn};
ghost use Rattle.bpf_flow.specs.Flow.{target_of, IsForwardJump, JumpsAreForward, JumpsBy, JumpsAreForwardBefore, EndsInExit, IsForward, IsFirstFault};

use crate::fault::FlowFault;
use bpf_insn::{Code, Insn};
use std::alloc::Allocator;
use std::marker::Model;

/// A code whose jumps all go forward to the beginning of an instruction, and whose last instruction is EXIT. Contracts see it as a record with the
/// field `code`, the list of its instructions.
#[derive(Drop)]
pub struct Flow<A: Allocator> {
    code: Code<A>,
}

impl<A: Allocator> Model for Flow<A> {
    ghost use Rattle.bpf_flow.specs.Flow.{Contents, IsForward};

    ghost Value = { Contents };

    ghost view = { λ flow. record { code = flow.code } };

    ghost invariant = { λ flow. IsForward flow.code };
}

impl<A: Allocator> Flow<A> {
    /// Checks a code's jumps in order, then that its last instruction is EXIT, and returns the first fault. Allocates nothing; the time grows with
    /// the number of instructions.
    pub fn of(code: Code<A>) -> Result<Self, FlowFault>
        ensures ok { IfOk result (λ flow. (flow.code ≡ code) × IsForward code) }
        ensures err { IfErr result (IsFirstFault code) }
        ensures forward { IsForward code → IsOk result }
    {
        // Jumps come first, also in code that nothing reaches, so that a fault depends on the words alone.
        check_jumps(&code)?;
        check_last(&code)?;
        Ok(Flow { code })
    }

    /// Borrows the code.
    pub fn code(&self) -> &Code<A>
        ensures value { result.now ≡ self.now.code }
        ensures forward { IsForward self.now.code }
    {
        &self.code
    }

    /// Returns the code.
    pub fn into_code(self) -> Code<A>
        ensures value { result ≡ self.code }
        ensures forward { IsForward self.code }
    {
        self.code
    }

    /// Returns the place after the instruction that begins at a place. Unless that instruction is EXIT, another one begins there.
    pub fn next(&self, place: usize) -> usize
        requires { IsSome (instruction_at self.now.code place) }
        ensures value { IfSome (instruction_at self.now.code place) (λ insn. result ≡ place + length (spelling insn)) }
        ensures begins { instruction_at self.now.code place ≢ Some Insn.Exit → IsSome (instruction_at self.now.code result) }
    {
        match self.code.at(place) {
            Some(insn) => place + insn.words(),
            None => unreachable!(),
        }
    }

    /// Returns the target of the instruction that begins at a place, if it's a jump: a later place, at which an instruction begins. A conditional
    /// jump leads there if it's taken.
    pub fn target(&self, place: usize) -> Option<usize>
        requires { IsSome (instruction_at self.now.code place) }
        ensures value { IfSome (instruction_at self.now.code place)
            (λ insn. option_map pos result ≡ option_map (target_of place) (jump_distance insn)) }
        ensures later { IfSome result (λ target. place < target) }
        ensures begins { IfSome result (λ target. IsSome (instruction_at self.now.code target)) }
    {
        let distance = self.code.at(place)?.jump_distance()?;
        Some(target_of(place, distance))
    }
}

/// Checks that each jump goes forward to an instruction, in order.
fn check_jumps<A: Allocator>(code: &Code<A>) -> Result<(), FlowFault>
    ensures ok { OnOk result (JumpsAreForward code.now) }
    ensures err { IfErr result (IsFirstFault code.now) }
{
    let instructions = code.instructions();
    let mut place = 0;
    for insn in instructions {
        if let Some(distance) = insn.jump_distance() {
            check_jump(code, place, distance)?;
        }
        place += insn.words();
    }
    Ok(())
}

/// Checks that a jump goes forward to an instruction, given that those before it do.
fn check_jump<A: Allocator>(code: &Code<A>, place: usize, distance: i32) -> Result<(), FlowFault>
    requires before { JumpsAreForwardBefore code.now place }
    requires jump { JumpsBy code.now place distance }
    ensures ok { OnOk result (IsForwardJump code.now place distance) }
    ensures err { IfErr result (IsFirstFault code.now) }
{
    // Checked before the target is computed, since a target can't be negative.
    if distance < 0 {
        return Err(FlowFault::BackwardJump { place });
    }
    let words = code.words();
    let target = target_of(place, distance);
    if target >= words {
        return Err(FlowFault::OutOfProgram { place });
    }
    if code.at(target).is_none() {
        return Err(FlowFault::IntoWide { place });
    }
    Ok(())
}

/// Returns the target of a jump that goes forward.
fn target_of(place: usize, distance: i32) -> usize
    requires within { place < MAX_WORDS }
    requires forward { pos 0 ≤ℤ distance }
    ensures { pos result ≡ target_of place distance }
{
    place + 1 + distance as usize
}

/// Checks that the last instruction is EXIT, after all jumps were checked.
fn check_last<A: Allocator>(code: &Code<A>) -> Result<(), FlowFault>
    requires { JumpsAreForward code.now }
    ensures ok { OnOk result (EndsInExit code.now) }
    ensures err { IfErr result (IsFirstFault code.now) }
{
    let instructions = code.instructions();
    let last = instructions.len() - 1;
    match instructions[last] {
        Insn::Exit => Ok(()),
        _ => Err(FlowFault::LastNotExit {
            place: code.place(last),
        }),
    }
}
