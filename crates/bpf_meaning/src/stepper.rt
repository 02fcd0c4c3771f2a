//! Steps and traces.
//!
//! It isn't named `step`, because a module can't share a name with an item beside it.
ghost use Rattle.std.specs.Prelude.{◌≡◌};
ghost use Rattle.bpf_meaning.specs.Run.{IsTraced};
ghost use Rattle.bpf_meaning.specs.Step.{after, configuration_of, UnchangedAtEnd};

use crate::outcome::Outcome;
use crate::state::State;
use crate::table::effect;
use bpf_insn::Code;
use std::alloc::Allocator;
use tl_segments::Segment;

/// Runs a code on a segment for at most `limit` steps, and returns the outcome of the last one. Allocates nothing; the time grows with the steps
/// taken.
pub fn trace<A: Allocator, B: Allocator>(
    code: &Code<A>,
    segment: &Segment<B>,
    limit: u64,
) -> Outcome
    ensures { IsTraced code.now segment.now limit result }
{
    let mut state = State::start();
    for _steps in 0..limit {
        match step(code, segment, &mut state) {
            Outcome::Running => {}
            ended => return ended,
        }
    }
    Outcome::Running
}

/// Executes the instruction at the state's place, after its checks. The state moves to the next instruction, or is unchanged if the program has
/// ended, so another step ends in the same way. Any state is accepted, even one that no run reaches.
#[inline(always)]
#[tactic(auto, unfolding(crate::specs::Step::after))]
pub fn step<A: Allocator, B: Allocator>(
    code: &Code<A>,
    segment: &Segment<B>,
    state: &mut State,
) -> Outcome
    ensures next { configuration_of result state.new ≡ after code.now segment.now state.old }
    ensures ended { UnchangedAtEnd result state.old state.new }
{
    // All checks come before the effect is applied, so a stuck step leaves the state as it was.
    match effect(code, segment, state) {
        Ok(effect) => state.apply(segment, effect),
        Err(cause) => Outcome::Stuck {
            place: state.place,
            cause,
        },
    }
}
