//! Steps and runs of verified programs on bare words.
ghost use Rattle.std.specs.Prelude.{◌≡◌, ◌*◌, ◌^◌, ◌<◌, None, length};
ghost use Rattle.bpf_meaning.specs.Run.{Answers};
ghost use Rattle.bpf_meaning.specs.Step.{after};
ghost use Rattle.bpf_meaning.specs.declared.state.State.{State};
ghost use Rattle.bpf_verify.specs.Verified.{AreVerified};
ghost use Rattle.bpf_machine.specs.Machine.{Does, HoldsState, IsReachable, IsReached, StepsTo};

use crate::bare::{Answer, Bare};
use crate::table::execute;
use bpf_flat_insn::FlatInsn;
use bpf_verify::Verified;
use std::alloc::Allocator;
use tl_segments::Segment;

/// Executes the instruction at the machine's entry, and returns the answer if the program ends there. Doesn't repeat the verifier's checks.
/// No caller in this program: part of the library's fixed interface.
#[inline(always)]
pub fn step<A: Allocator, B: Allocator>(
    verified: &Verified<A>,
    bare: &mut Bare,
    segment: &Segment<B>,
) -> Option<Answer>
    requires { IsReachable verified.now.code segment.now bare.old }
    ensures does { (state : State) → IsReached verified.now.code segment.now state → HoldsState verified.now.code state bare.old
        → Does verified.now.code (after verified.now.code segment.now state) result bare.old bare.new }
    ensures continues { result ≡ None → IsReachable verified.now.code segment.now bare.new }
{
    match step_from(verified, verified.flat_forms(), bare, segment, bare.at) {
        Some(next) => {
            bare.at = next;
            None
        }
        None => Some(bare.answer()),
    }
}

/// Executes the instruction at an entry, and returns the next entry, or `None` if the program ends there. The machine's own entry is
/// neither read nor written, so that a run can keep it in a register.
#[inline(always)]
fn step_from<A: Allocator, B: Allocator>(
    verified: &Verified<A>,
    flat_forms: &[FlatInsn],
    bare: &mut Bare,
    segment: &Segment<B>,
    at: usize,
) -> Option<usize>
    requires forms { AreVerified verified.now.code verified.now.areas flat_forms.now }
    // A flat form has 16 bytes.
    requires fit { length flat_forms.now * 16 < 2 ^ 64 }
    requires reachable { IsReachable verified.now.code segment.now (record bare.old { at = at }) }
    ensures { (state : State) → IsReached verified.now.code segment.now state → HoldsState verified.now.code state (record bare.old { at = at })
        → StepsTo verified.now.code (after verified.now.code segment.now state) result bare.old bare.new }
{
    // For the proof only: `bytes` states that the segment has its full length, which safe code requires.
    let _bytes = segment.bytes();
    // By reference: a copy would load all operands before the jump to the operation.
    execute(bare, segment, &flat_forms[at], at + 1)
}

/// Returns the answer of a verified program on a segment. Allocates nothing, and takes no more steps than the program has instructions.
pub fn run<A: Allocator, B: Allocator>(verified: &Verified<A>, segment: &Segment<B>) -> Answer
    ensures { Answers verified.now.code segment.now result.r0 result.score }
{
    run_in(&mut Bare::start(), verified, segment)
}

/// Returns the answer of [`run`]. Reuses a machine; its previous contents don't matter. Clears only what a program may read before writing it.
pub fn run_in<A: Allocator, B: Allocator>(
    bare: &mut Bare,
    verified: &Verified<A>,
    segment: &Segment<B>,
) -> Answer
    ensures { Answers verified.now.code segment.now result.r0 result.score }
{
    // Fetched once, so the loop keeps this list and the entry in registers. `step` has to look up both each time.
    let flat_forms = verified.flat_forms();
    // For the proof only, as in `step_from`.
    let _bytes = segment.bytes();
    bare.restart();
    let mut at = 0;
    // Jumps go only forward, so a run has at most one step per instruction.
    for _steps in 0..flat_forms.len() {
        match step_from(verified, flat_forms, bare, segment, at) {
            Some(next) => at = next,
            None => return bare.answer(),
        }
    }
    unreachable!()
}
