//! Visitors, which observe the pass over a code.
ghost use Rattle.std.specs.Prelude.{◌≡◌, OnOk};
ghost use Rattle.bpf_verify.specs.LiftedState.{IsProperState, Reached, Unreached};
ghost use Rattle.bpf_verify.specs.Visit.{Visit};

use crate::abstract_state::AbstractState;
use bpf_insn::Insn;
use std::alloc::AllocError;

/// A visitor that is shown each instruction of a code, in order, with the state before it, as the pass goes over it. Places count words from 0.
pub trait Visitor {
    // The visitor after a visit.
    ghost visited: { Self → Visit → Self };

    /// Visits an instruction that is reached. The state is only valid during the call.
    fn reached(&mut self, place: usize, insn: Insn, known: &AbstractState) -> Result<(), AllocError>
        requires { IsProperState known.now }
        ensures { OnOk result (self.new ≡ visited self.old (record { place = place; insn = insn; state = Reached known.now })) };

    /// Visits an instruction that no edge leads to.
    fn unreached(&mut self, place: usize, insn: Insn) -> Result<(), AllocError>
        ensures { OnOk result (self.new ≡ visited self.old (record { place = place; insn = insn; state = Unreached })) };
}

// Visitors are called by static dispatch, so `verify` pays nothing for the visits that `explain` needs.
/// A visitor that ignores every instruction.
impl Visitor for () {
    ghost visited = { λ visitor visit. visitor };

    fn reached(
        &mut self,
        _place: usize,
        _insn: Insn,
        _known: &AbstractState,
    ) -> Result<(), AllocError> {
        Ok(())
    }

    fn unreached(&mut self, _place: usize, _insn: Insn) -> Result<(), AllocError> {
        Ok(())
    }
}
