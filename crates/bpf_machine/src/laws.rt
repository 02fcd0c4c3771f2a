//! Laws of the definitions themselves. The functions do nothing: each contract is a law.
ghost use Rattle.std.specs.Prelude.{◌≡◌, ℕ, List};
ghost use Rattle.bpf_insn.specs.Code.{place_of};
ghost use Rattle.bpf_insn.specs.declared.instruction.Insn.{Insn};
ghost use Rattle.bpf_insn.specs.declared.value.Area.{Area};
ghost use Rattle.bpf_insn.specs.Immediates.{HasImmediates};
ghost use Rattle.bpf_flat_insn.specs.Flat.{JumpsTo};
ghost use Rattle.tl_segments.specs.Segment.{SegmentParts, IsSegment};
ghost use Rattle.bpf_meaning.specs.Checks.{Sound};
ghost use Rattle.bpf_meaning.specs.Effect.{instruction_effect};
ghost use Rattle.bpf_meaning.specs.State.{HoldsBytes, IsWellFormed};
ghost use Rattle.bpf_meaning.specs.declared.state.State.{State};
ghost use Rattle.bpf_machine.specs.Words.{HasAreas, Holds, HoldsEffect, Words, next_words};

/// The words are held: if words hold a state, and an instruction passes all its checks there, then its result on bare words holds its result on
/// the state, at the entry of the next place.
pub fn words_are_held()
    ensures { (code : List Insn) (segment : SegmentParts) (state : State) (areas : ℕ → Area) (words : Words) (insn : Insn) (next at target : ℕ)
        → IsSegment segment → IsWellFormed state → HoldsBytes state → HasImmediates insn → HasAreas state areas → Holds state words
        → next ≡ place_of code at → JumpsTo code state.place insn target
        → Sound (HoldsEffect code segment state) (instruction_effect code segment state next insn) (next_words segment areas words at target insn) }
{}
