//! Conditional jumps, and what they add on each of their edges.
ghost use Rattle.std.specs.Prelude.{◌≡◌};
ghost use Rattle.bpf_kinds.specs.Interval as interval;
ghost use Rattle.bpf_verify.specs.LiftedState.{IsProper, IsProperState};
ghost use Rattle.bpf_verify.specs.Transfer.{branch, on_edge, with_narrowed};

use crate::abstract_state::AbstractState;
use bpf_insn::{Condition, Register, Source, Width};
use bpf_kinds::{Interval, Kind, Narrowed, refine};

/// The condition of a conditional jump, and its operands.
#[derive(Clone, Copy)]
pub(crate) struct JumpCondition {
    pub condition: Condition,
    pub width: Width,
    pub left: Register,
    pub right: Source,
}

/// What a conditional jump adds, on one of its edges, to what is known before it.
#[derive(Clone, Copy)]
pub(crate) enum Edge {
    /// Never taken.
    Unreached,
    Unchanged,
    /// The operands are narrowed to these.
    Narrows(Narrowed),
}

impl JumpCondition {
    /// Returns what the jump adds on an edge. Comparing a register with itself adds nothing.
    pub(crate) fn branch(self, known: &AbstractState, x: Interval, y: Interval, taken: bool) -> Edge
        requires known { IsProperState known.now }
        requires left { interval.IsProper x }
        requires right { interval.IsProper y }
        ensures value { result ≡ branch self x y taken }
        ensures proper { IsProper (on_edge known.now self result) }
    {
        // The two sides would narrow one register to different intervals.
        if self.right == Source::Register(self.left) {
            return Edge::Unchanged;
        }
        match refine(self.condition, self.width, x, y, taken) {
            Some(both) => Edge::Narrows(both),
            None => Edge::Unreached,
        }
    }

    /// Narrows the operands to what is known of them on an edge.
    pub fn narrow(self, known: &mut AbstractState, both: Narrowed)
        ensures { known.new ≡ with_narrowed known.old self.left.number self.right both }
    {
        // Copies of a register and slots aren't narrowed, as it isn't known where a value came from.
        known.registers[usize::from(self.left.number)] = Kind::Number(both.left);
        if let Source::Register(right) = self.right {
            known.registers[usize::from(right.number)] = Kind::Number(both.right);
        }
    }
}
