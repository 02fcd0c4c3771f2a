//! The states ahead of the pass.
ghost use Rattle.std.specs.Prelude.{◌≡◌, ◌+◌, ◌<◌, ℕ, length, option_map, pos, IfOk, IfSome, IsSome, OnOk, Some};
ghost use Rattle.bpf_flow.specs.Flow.{IsForward, target_of};
ghost use Rattle.bpf_insn.specs.Code.{HasProgramSize, instruction_at, spelling, word_count};
ghost use Rattle.bpf_insn.specs.Jump.{jump_distance};
ghost use Rattle.bpf_verify.specs.Pass.{AreProper, IsTargetAhead, edges_of, initial, joined_if, pending, state_of, waiting_at};
ghost use Rattle.bpf_verify.specs.LiftedState.{AreProperEdges, IsProperState, Reached, Unreached, join};

use crate::abstract_state::AbstractState;
use bpf_flow::Flow;
use bpf_insn::Insn;
use std::alloc::{AllocError, Allocator};
use std::collections::BTreeMap;
use std::marker::Model;

/// The states on the edges out of an instruction; `None` for an edge that isn't reached.
#[derive(Drop)]
pub(crate) struct EdgeStates<A: Allocator> {
    /// To the next instruction.
    pub next: Option<Box<AbstractState, A>>,
    /// To a jump's target.
    pub target: Option<Box<AbstractState, A>>,
}

/// The states ahead of the pass: at its current place, and at targets of jumps that it has passed. Each state is dropped when the pass gets there,
/// so memory grows with the number of targets ahead, not with the code.
#[derive(Drop)]
pub(crate) struct Worklist<'a, A: Allocator> {
    flow: &'a Flow<A>,
    /// The current place of the pass.
    place: usize,
    /// The state there on the edge from the instruction before it.
    straight: Option<Box<AbstractState, A>>,
    // Ordered, to find the state to join into. A list of all places would take memory by the program's length, a heap has no lookup, and strangers
    // could attack an unseeded hash, as they choose the places.
    /// The states at targets of jumps, by place.
    waiting: BTreeMap<usize, Box<AbstractState, A>, A>,
}

impl<'a, A: Allocator> Model for Worklist<'a, A> {
    ghost use Rattle.bpf_verify.specs.Pass.{PassState, IsProperPass, pass_state};

    ghost Value = { PassState };

    ghost view = { λ worklist. pass_state worklist.flow.now.code worklist.place worklist.straight worklist.waiting.entries };

    ghost invariant = { λ worklist. IsProperPass (pass_state worklist.flow.now.code worklist.place worklist.straight worklist.waiting.entries) };
}

impl<'a, A: Allocator + Copy> Worklist<'a, A> {
    /// Returns the states at the start of the pass: only place 0 is reached, with the entry state.
    pub fn new(alloc: A, flow: &'a Flow<A>) -> Result<Self, AllocError>
        requires { IsForward flow.now.code }
        ensures { IfOk result (λ worklist. worklist ≡ initial flow.now.code) }
    {
        let entry = Box::new(alloc, AbstractState::entry())?;
        Ok(Worklist {
            flow,
            place: 0,
            straight: Some(entry),
            waiting: BTreeMap::new(alloc),
        })
    }

    /// Records the states on the edges out of the instruction taken last: to the place after it and, if it's a jump, to its target.
    pub fn push_edges(
        &mut self,
        target: Option<usize>,
        edges: EdgeStates<A>,
    ) -> Result<(), AllocError>
        requires target { IfSome target (IsTargetAhead self.old.code self.old.place) }
        requires proper { AreProperEdges (edges_of edges) }
        ensures code { self.new.code ≡ self.old.code }
        ensures place { self.new.place ≡ self.old.place }
        ensures proper_states { AreProper (pending self.new) }
        ensures straight { OnOk result (self.new.straight ≡ (edges_of edges).next) }
        ensures waiting { OnOk result ((other : ℕ) → waiting_at self.new.waiting other ≡ joined_if (waiting_at self.old.waiting) target (edges_of edges).target other) }
    {
        self.straight = edges.next;
        let Some(target) = target else {
            return Ok(());
        };
        let Some(known) = edges.target else {
            return Ok(());
        };
        if let Some(waiting) = self.waiting.get_mut(&target) {
            waiting.join_with(&known);
            return Ok(());
        }
        self.waiting.insert(target, known)?;
        Ok(())
    }
}

impl<'a, A: Allocator> Worklist<'a, A> {
    /// Returns the current place of the pass.
    pub fn place(&self) -> usize
        ensures { result ≡ self.now.place }
    {
        self.place
    }

    /// Returns the target of the instruction at the current place, if it's a jump.
    pub fn target(&self) -> Option<usize>
        requires { IsSome (instruction_at self.now.code self.now.place) }
        ensures value { IfSome (instruction_at self.now.code self.now.place)
            (λ insn. option_map pos result ≡ option_map (target_of self.now.place) (jump_distance insn)) }
        ensures later { IfSome result (λ target. self.now.place < target) }
        ensures begins { IfSome result (λ target. IsSome (instruction_at self.now.code target)) }
    {
        self.flow.target(self.place)
    }

    /// Takes the state at the current place, if it's reached, and moves on to the place after the instruction there.
    pub fn pop(&mut self, insn: Insn) -> Option<Box<AbstractState, A>>
        requires sized { HasProgramSize (word_count self.old.code) }
        requires is_insn { instruction_at self.old.code self.old.place ≡ Some insn }
        ensures value { state_of result ≡ pending self.old self.old.place }
        ensures proper { IfSome result (λ known. IsProperState known.value) }
        ensures code { self.new.code ≡ self.old.code }
        ensures place { self.new.place ≡ self.old.place + length (spelling insn) }
        ensures proper_states { AreProper (pending self.new) }
        ensures straight { self.new.straight ≡ Unreached }
        ensures waiting { (other : ℕ) → self.old.place < other → waiting_at self.new.waiting other ≡ waiting_at self.old.waiting other }
    {
        let there = self.waiting.remove(&self.place);
        self.place += insn.words();
        let Some(known) = self.straight.take() else {
            return there;
        };
        Some(join_into(there, known))
    }
}

/// Joins the state on an edge into the state that the edge leads to, if there is one.
fn join_into<A: Allocator>(
    there: Option<Box<AbstractState, A>>,
    known: Box<AbstractState, A>,
) -> Box<AbstractState, A>
    requires there { IfSome there (λ there. IsProperState there.value) }
    requires known { IsProperState known.value }
    ensures value { Reached result.value ≡ join (state_of there) (Reached known.value) }
    ensures proper { IsProperState result.value }
{
    match there {
        Some(mut there) => {
            there.join_with(&known);
            there
        }
        None => known,
    }
}
