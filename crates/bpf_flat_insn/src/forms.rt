//! The flat forms of a complete code.
ghost use Rattle.std.specs.Prelude.{◌≡◌, ◌≤◌, length, IsSome, IfOk, IfSome};
ghost use Rattle.bpf_insn.specs.Code.{HasProgramSize, instruction_at, word_count};
ghost use Rattle.bpf_flat_insn.specs.Flat.{AreFlatForms, JumpsTo};

use crate::flat::FlatInsn;
use crate::table::flatten;
use bpf_flow::Flow;
use bpf_insn::Area;
use std::alloc::{AllocError, Allocator};

/// Returns the flat forms of the instructions, in order. `areas` holds, for each instruction, the area that its base points into, if that's known.
pub fn flat_forms<A: Allocator + Copy>(
    alloc: A,
    flow: &Flow<A>,
    areas: &[Option<Area>],
) -> Result<Vec<FlatInsn, A>, AllocError>
    requires { length areas.now ≡ length flow.now.code }
    ensures { IfOk result (λ flats. AreFlatForms flow.now.code areas.now (length flow.now.code) flats.items) }
{
    let code = flow.code();
    let instructions = code.instructions();
    let mut flats = Vec::with_capacity(alloc, areas.len())?;
    for index in 0..areas.len() {
        let insn = instructions[index];
        let target = target_index(flow, code.place(index));
        flats.push(flatten(insn, areas[index], target))?;
    }
    Ok(flats)
}

/// Returns the index of the instruction that the one at a place jumps to, or 0 if it doesn't jump.
fn target_index<A: Allocator>(flow: &Flow<A>, place: usize) -> u32
    requires sized { HasProgramSize (word_count flow.now.code) }
    requires begins { IsSome (instruction_at flow.now.code place) }
    ensures { IfSome (instruction_at flow.now.code place) (λ insn. JumpsTo flow.now.code place insn result) }
{
    let Some(target) = flow.target(place) else {
        return 0;
    };
    match flow.code().index_at(target) {
        Some(index) => index as u32,
        None => unreachable!(),
    }
}
