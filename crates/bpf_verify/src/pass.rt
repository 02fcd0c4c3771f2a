//! The one pass over a code.
//!
//! One pass suffices because jumps go only forward: whatever leads to a place is known when the pass gets there. The transfer function is monotone,
//! so the pass finds the least annotation, and the verdict is exact: if a check fails here, some check fails for every annotation, so an author can
//! predict the verdict. Definitions speak of any annotation, so safety is proved without the pass.
ghost use Rattle.std.specs.Prelude.{◌≡◌, IfOk, IfErr, OnOk, Some};
ghost use Rattle.bpf_insn.specs.Code.{HasProgramSize, instruction_at, word_count};
ghost use Rattle.bpf_insn.specs.Immediates.{HasImmediates};
ghost use Rattle.bpf_meaning.specs.Run.{IsSafe};
ghost use Rattle.bpf_verify.specs.Annotation.{HasGoodAnnotation, IsAccepted, IsVerifyFault, area_of};
ghost use Rattle.bpf_verify.specs.Pass.{AreProper, IsRefusedVisit, IsVisitFault, Visits, edges_of, pending, state_of, visit_of};
ghost use Rattle.bpf_verify.specs.Transfer.{edges_to, on_edge};
ghost use Rattle.bpf_verify.specs.Verified.{HasBaseAreas};
ghost use Rattle.bpf_verify.specs.Visit.{IsShown, IsShownRefusal};
ghost use Rattle.bpf_verify.specs.declared.fault.VerifyFault.TheVariants.{Memory};

use crate::abstract_state::AbstractState;
use crate::comparison::{Edge, JumpCondition};
use crate::fault::VerifyFault;
use crate::memory::area_of;
use crate::successors::Successors;
use crate::table::transfer;
use crate::verified::Verified;
use crate::visitor::Visitor;
use crate::worklist::{EdgeStates, Worklist};
use bpf_flow::Flow;
use bpf_insn::{Area, Insn};
use std::alloc::{AllocError, Allocator};

/// Returns the verdict on a code, found in one pass over its instructions in order. The code is refused at the first place where a check fails in
/// the state before it. The rules allow no better verdict: no other annotation goes further. The pass looks at each instruction once, and copies a
/// state only where two edges leave an instruction. It allocates memory for what is kept of each instruction, for the state at the current place,
/// and for the states at targets ahead of the jumps it has passed.
pub fn verify<A: Allocator + Copy>(alloc: A, flow: Flow<A>) -> Result<Verified<A>, VerifyFault>
    ensures ok { IfOk result (λ verified. (verified.code ≡ flow.code) × HasGoodAnnotation flow.code) }
    ensures areas { IfOk result (λ verified. IsAccepted flow.code verified.areas) }
    ensures safe { OnOk result (IsSafe flow.code) }
    ensures err { IfErr result (IsVerifyFault flow.code) }
    // A code with such an annotation fails only if memory runs out.
    ensures only { HasGoodAnnotation flow.code → IfErr result (λ fault. fault ≡ Memory) }
{
    verify_with(alloc, flow, &mut ())
}

/// Returns what [`verify`] returns, and shows the visitor each instruction with the state before it, including the refused one. Stops at the
/// visitor's first error.
pub fn verify_with<A: Allocator + Copy, V: Visitor>(
    alloc: A,
    flow: Flow<A>,
    visitor: &mut V,
) -> Result<Verified<A>, VerifyFault>
    ensures ok { IfOk result (λ verified. (verified.code ≡ flow.code) × HasGoodAnnotation flow.code) }
    ensures areas { IfOk result (λ verified. IsAccepted flow.code verified.areas) }
    ensures safe { OnOk result (IsSafe flow.code) }
    ensures err { IfErr result (IsVerifyFault flow.code) }
    ensures only { HasGoodAnnotation flow.code → IfErr result (λ fault. fault ≡ Memory) }
    ensures shown { OnOk result (IsShown V.visited flow.code visitor.old visitor.new) }
    ensures shown_refusal { IfErr result (λ fault. IsShownRefusal V.visited flow.code fault visitor.old visitor.new) }
{
    let areas = pass(alloc, &flow, visitor)?;
    Ok(Verified::of(alloc, &flow, areas)?)
}

/// Returns the verdict of [`verify`] only.
pub fn check<A: Allocator + Copy>(alloc: A, flow: &Flow<A>) -> Result<(), VerifyFault>
    ensures ok { OnOk result (HasGoodAnnotation flow.now.code) }
    ensures safe { OnOk result (IsSafe flow.now.code) }
    ensures err { IfErr result (IsVerifyFault flow.now.code) }
    ensures only { HasGoodAnnotation flow.now.code → IfErr result (λ fault. fault ≡ Memory) }
{
    pass(alloc, flow, &mut ())?;
    Ok(())
}

/// Visits each instruction in order, and returns the areas of their bases.
fn pass<A: Allocator + Copy, V: Visitor>(
    alloc: A,
    flow: &Flow<A>,
    visitor: &mut V,
) -> Result<Vec<Option<Area>, A>, VerifyFault>
    ensures ok { IfOk result (λ areas. IsAccepted flow.now.code areas.items) }
    ensures areas { IfOk result (λ areas. HasBaseAreas flow.now.code areas.items) }
    ensures safe { OnOk result (IsSafe flow.now.code) }
    ensures err { IfErr result (IsVerifyFault flow.now.code) }
    ensures shown { OnOk result (IsShown V.visited flow.now.code visitor.old visitor.new) }
    ensures shown_refusal { IfErr result (λ fault. IsShownRefusal V.visited flow.now.code fault visitor.old visitor.new) }
{
    let instructions = flow.code().instructions();
    let mut areas = Vec::with_capacity(alloc, instructions.len())?;
    let mut worklist = Worklist::new(alloc, flow)?;
    for insn in instructions {
        areas.push_reserved(visit(alloc, *insn, &mut worklist, visitor)?);
    }
    Ok(areas)
}

/// Takes the state before the current instruction, checks the instruction, and propagates the state after it unless a check fails. Returns the area
/// of the instruction's base, if it's a load or a store that is reached.
fn visit<A: Allocator + Copy, V: Visitor>(
    alloc: A,
    insn: Insn,
    worklist: &mut Worklist<'_, A>,
    visitor: &mut V,
) -> Result<Option<Area>, VerifyFault>
    requires sized { HasProgramSize (word_count worklist.old.code) }
    requires is_insn { instruction_at worklist.old.code worklist.old.place ≡ Some insn }
    ensures area { IfOk result (λ area. area ≡ area_of (pending worklist.old worklist.old.place) insn) }
    ensures ok { OnOk result (Visits insn worklist.old worklist.new) }
    ensures proper { OnOk result (AreProper (pending worklist.new)) }
    ensures immediates { HasImmediates insn }
    ensures err { IfErr result (IsVisitFault worklist.old insn) }
    ensures shown { OnOk result (visitor.new ≡ V.visited visitor.old (visit_of worklist.old insn)) }
    ensures shown_refusal { IfErr result (λ fault. IsRefusedVisit V.visited (visit_of worklist.old insn) fault visitor.old visitor.new) }
{
    let place = worklist.place();
    let target = worklist.target();
    let Some(mut known) = worklist.pop(insn) else {
        visitor.unreached(place, insn)?;
        return Ok(None);
    };
    visitor.reached(place, insn, &known)?;
    let area = area_of(&known, insn);
    let successors = match transfer(&mut known, insn) {
        Ok(successors) => successors,
        Err(cause) => return Err(VerifyFault::Refused { place, cause }),
    };
    worklist.push_edges(target, follow(alloc, known, successors)?)?;
    Ok(area)
}

/// Returns the states on the edges out of an instruction, from the state after it and where control goes.
fn follow<A: Allocator + Copy>(
    alloc: A,
    known: Box<AbstractState, A>,
    successors: Successors,
) -> Result<EdgeStates<A>, AllocError>
    ensures { IfOk result (λ edges. edges_of edges ≡ edges_to known.value successors) }
{
    match successors {
        Successors::End => Ok(EdgeStates {
            next: None,
            target: None,
        }),
        Successors::Next => Ok(EdgeStates {
            next: Some(known),
            target: None,
        }),
        Successors::Target => Ok(EdgeStates {
            next: None,
            target: Some(known),
        }),
        Successors::Branch {
            comparison,
            next,
            target,
        } => branch(alloc, known, comparison, next, target),
    }
}

/// Returns the states on the edges of a conditional jump. A state is copied only here, where two edges leave an instruction.
fn branch<A: Allocator + Copy>(
    alloc: A,
    known: Box<AbstractState, A>,
    comparison: JumpCondition,
    next: Edge,
    target: Edge,
) -> Result<EdgeStates<A>, AllocError>
    ensures next { IfOk result (λ edges. (edges_of edges).next ≡ on_edge known.value comparison next) }
    ensures target { IfOk result (λ edges. (edges_of edges).target ≡ on_edge known.value comparison target) }
{
    match (next, target) {
        (Edge::Unreached, _) => Ok(EdgeStates {
            next: None,
            target: on_edge(known, comparison, target),
        }),
        (_, Edge::Unreached) => Ok(EdgeStates {
            next: on_edge(known, comparison, next),
            target: None,
        }),
        _ => {
            let taken = Box::new(alloc, known.duplicate())?;
            Ok(EdgeStates {
                next: on_edge(known, comparison, next),
                target: on_edge(taken, comparison, target),
            })
        }
    }
}

/// Returns the state on one edge of a conditional jump.
fn on_edge<A: Allocator>(
    mut known: Box<AbstractState, A>,
    comparison: JumpCondition,
    edge: Edge,
) -> Option<Box<AbstractState, A>>
    ensures { state_of result ≡ on_edge known.value comparison edge }
{
    match edge {
        Edge::Unreached => None,
        Edge::Unchanged => Some(known),
        Edge::Narrows(both) => {
            comparison.narrow(&mut known, both);
            Some(known)
        }
    }
}
