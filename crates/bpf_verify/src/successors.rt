//! Where control goes after an instruction.
ghost use Rattle.std.specs.Prelude.{◌≡◌, IfErr, IfOk, Err, Ok};
ghost use Rattle.bpf_kinds.specs.Kind as kinds;
ghost use Rattle.bpf_meaning.specs.Walk.{compared_operand};
ghost use Rattle.bpf_verify.specs.LiftedState.{AreProperEdges, IsProperState};
ghost use Rattle.bpf_verify.specs.Transfer.{branches, compare, edges_to, kind_registers};

use crate::abstract_state::AbstractState;
use crate::comparison::{Edge, JumpCondition};
use bpf_insn::{Source, Width, immediate_operand};
use bpf_kinds::{Interval, Kind};
use bpf_meaning::Cause;

/// Where control goes after an instruction.
#[derive(Clone, Copy)]
pub(crate) enum Successors {
    /// Nowhere: the program ends.
    End,
    /// Only to the next instruction.
    Next,
    /// Only to a jump's target.
    Target,
    /// To either one, after a conditional jump.
    Branch {
        comparison: JumpCondition,
        next: Edge,
        target: Edge,
    },
}

impl JumpCondition {
    /// Returns where control goes after the jump.
    pub fn successors(self, known: &AbstractState) -> Result<Successors, Cause>
        requires { IsProperState known.now }
        ensures ok { IfOk result (λ successors. branches known.now self ≡ Ok (edges_to known.now successors)) }
        ensures err { IfErr result (λ cause. branches known.now self ≡ Err cause) }
        ensures proper { IfOk result (λ successors. AreProperEdges (edges_to known.now successors)) }
    {
        let x = known.read(self.left.number)?;
        let y = self.compared_operand(known)?;
        self.compare(known, x, y)
    }

    /// Returns the kind of the right operand. An immediate is truncated to the width of the comparison.
    fn compared_operand(self, known: &AbstractState) -> Result<Kind, Cause>
        requires { IsProperState known.now }
        ensures value { result ≡ compared_operand (kind_registers known.now) self.width self.right }
        ensures proper { IfOk result kinds.IsProper }
    {
        match self.right {
            Source::Immediate(immediate) => {
                let number = match self.width {
                    // Unsigned, since this is the number that the comparison narrows a register to.
                    Width::Bits32 => immediate_operand(immediate) % (1 << 32),
                    Width::Bits64 => immediate_operand(immediate),
                };
                Ok(Kind::Number(Interval::single(number)))
            }
            Source::Register(register) => known.read(register.number),
        }
    }

    /// Returns where control goes, given the operands' kinds.
    fn compare(self, known: &AbstractState, x: Kind, y: Kind) -> Result<Successors, Cause>
        requires known { IsProperState known.now }
        requires left { kinds.IsProper x }
        requires right { kinds.IsProper y }
        ensures ok { IfOk result (λ successors. compare known.now self x y ≡ Ok (edges_to known.now successors)) }
        ensures err { IfErr result (λ cause. compare known.now self x y ≡ Err cause) }
        ensures proper { IfOk result (λ successors. AreProperEdges (edges_to known.now successors)) }
    {
        match (x, y) {
            (Kind::Number(x), Kind::Number(y)) => Ok(Successors::Branch {
                comparison: self,
                next: self.branch(known, x, y, false),
                target: self.branch(known, x, y, true),
            }),
            _ => Err(Cause::ComparesPointer),
        }
    }
}
