//! Laws of the definitions themselves. The functions do nothing: each contract is a law.
ghost use Rattle.std.specs.Prelude.{◌≡◌, ◌≢◌, ℕ, ℤ, List, Option, Ok, Some};
ghost use Rattle.bpf_insn.specs.Immediates.{HaveImmediates};
ghost use Rattle.bpf_insn.specs.declared.instruction.Insn.{Insn};
ghost use Rattle.bpf_insn.specs.declared.value.Area.{Area};
ghost use Rattle.bpf_flow.specs.Flow.{IsForward};
ghost use Rattle.bpf_helpers.specs.declared.helper.Helper.{Helper};
ghost use Rattle.bpf_helpers.specs.declared.signature.Argument.{Argument};
ghost use Rattle.bpf_insn.specs.declared.instruction.LoadFormat.{LoadFormat};
ghost use Rattle.bpf_insn.specs.declared.instruction.StoreSize.{StoreSize};
ghost use Rattle.bpf_kinds.specs.Kind as kinds;
ghost use Rattle.bpf_kinds.specs.Offsets as pointer_offsets;
ghost use Rattle.bpf_kinds.specs.declared.kind.Kind.{Kind};
ghost use Rattle.bpf_kinds.specs.declared.offsets.Offsets.{Offsets};
ghost use Rattle.bpf_meaning.specs.Checks.{Sound};
ghost use Rattle.bpf_meaning.specs.Run.{IsSafe};
ghost use Rattle.bpf_meaning.specs.declared.cause.Cause.{Cause};
ghost use Rattle.bpf_meaning.specs.declared.cause.Cause.TheVariants.{IntoWide, OutOfProgram};
ghost use Rattle.bpf_meaning.specs.declared.state.State.{State};
ghost use Rattle.bpf_verify.specs.Annotation.{HasGoodAnnotation, IsAccepted, IsRefusedAt};
ghost use Rattle.bpf_verify.specs.LiftedState.{LiftedState, Admits, AreEdgesWithin, Edges, IsBelow, IsProper, IsWithin, IsWithinState, Unreached, join};
ghost use Rattle.bpf_verify.specs.Transfer.{ArePointersWithin, argument_in, call, compare, load_from, pointers_in, read, store_at, transfer};
ghost use Rattle.bpf_verify.specs.declared.comparison.JumpCondition.{JumpCondition};
ghost use Rattle.bpf_verify.specs.declared.memory.Pointers.{Pointers};
ghost use Rattle.bpf_verify.specs.declared.abstract_state.AbstractState.{AbstractState};
ghost use Rattle.bpf_verify.specs.Verified.{HasBaseAreas};

/// Soundness: a code never gets stuck on a segment, and exits in no more steps than it has instructions, if its jumps go forward, it ends in EXIT,
/// its immediates have 32 bits, and it has an annotation that is good to its end.
pub fn accepted_is_safe()
    ensures { (code : List Insn) → IsForward code → HaveImmediates code → HasGoodAnnotation code → IsSafe code }
{}

/// Areas are sound: if a code is accepted with these areas, then in every run on any segment, the bases of the loads and stores that the run
/// reaches point into them.
pub fn accepted_areas_hold()
    ensures { (code : List Insn) (areas : List (Option Area)) → IsForward code → HaveImmediates code → IsAccepted code areas
        → HasBaseAreas code areas }
{}

/// Abstract states are partially ordered, with the unreached state at the bottom. A join is the least upper bound of two states, and a higher state
/// admits everything that a lower one admits.
pub fn states_form_a_lattice()
    ensures reflexive { (x : LiftedState) → IsWithin x x }
    ensures transitive { (x y z : LiftedState) → IsWithin x y → IsWithin y z → IsWithin x z }
    ensures antisymmetric { (x y : LiftedState) → IsProper x → IsProper y → IsWithin x y → IsWithin y x → x ≡ y }
    ensures bottom { (x : LiftedState) → IsWithin Unreached x }
    ensures join_is_proper { (x y : LiftedState) → IsProper x → IsProper y → IsProper (join x y) }
    ensures left_below_join { (x y : LiftedState) → IsProper x → IsProper y → IsWithin x (join x y) }
    ensures right_below_join { (x y : LiftedState) → IsProper x → IsProper y → IsWithin y (join x y) }
    ensures join_is_least { (x y z : LiftedState) → IsProper x → IsProper y → IsWithin x z → IsWithin y z → IsWithin (join x y) z }
    ensures admits_more { (x y : LiftedState) (state : State) → IsWithin x y → Admits x state → Admits y state }
{}

/// Each check is monotone: a lower state passes every check that a higher one passes, with a lower result. Results of operations, narrowing, moves
/// of pointers and marks are monotone by the laws of `bpf_kinds` and `bpf_frame`.
pub fn checks_are_monotone()
    ensures read { (lower higher : AbstractState) (register : ℕ) → IsBelow lower higher
        → Sound (λ x n. kinds.IsWithin n x) (read higher register) (read lower register) }
    ensures base { (lower higher : AbstractState) (base : ℕ) → IsBelow lower higher
        → Sound (λ x n. ArePointersWithin n x) (pointers_in higher base) (pointers_in lower base) }
    ensures load { (lower higher : AbstractState) (format : LoadFormat) (x n : Pointers) (offset : ℤ) → IsBelow lower higher
        → pointer_offsets.IsProper n.offsets → ArePointersWithin n x
        → Sound (λ x n. kinds.IsWithin n x) (load_from higher format x offset) (load_from lower format n offset) }
    ensures store { (lower higher : AbstractState) (x n : Offsets) (offset : ℤ) (size : StoreSize) (k l : Kind) → IsBelow lower higher
        → pointer_offsets.IsProper n → pointer_offsets.IsWithin n x → kinds.IsProper l → kinds.IsWithin l k
        → Sound (λ x n. IsWithinState n x) (store_at higher x offset size k) (store_at lower n offset size l) }
    ensures argument { (lower higher : AbstractState) (number : ℕ) (required : Argument) → IsBelow lower higher
        → Sound (λ x n. kinds.IsWithin n x) (argument_in higher number required) (argument_in lower number required) }
    ensures call { (lower higher : AbstractState) (helper : Helper) → IsBelow lower higher
        → Sound (λ x n. IsWithinState n x) (call higher (Some helper)) (call lower (Some helper)) }
    ensures compare { (lower higher : AbstractState) (comparison : JumpCondition) (x y m n : Kind) → IsBelow lower higher
        → kinds.IsProper m → kinds.IsProper n → kinds.IsWithin m x → kinds.IsWithin n y
        → Sound (λ x n. AreEdgesWithin n x) (compare higher comparison x y) (compare lower comparison m n) }
{}

/// The transfer function is monotone: if no check of an instruction fails in a state, none fails in a state below it, and the states on its edges
/// are lower too.
pub fn upward()
    ensures { (insn : Insn) (lower higher : LiftedState) (edges : Edges) → IsProper lower → IsProper higher → IsWithin lower higher
        → transfer higher insn ≡ Ok edges → (below : Edges) × (transfer lower insn ≡ Ok below) × AreEdgesWithin below edges }
{}

/// A code has at most one verdict: a code with an annotation that is good to its end isn't refused, the place and the cause of a refusal are
/// unique, and so are the areas of an accepted code.
pub fn verdicts()
    ensures accepted { (code : List Insn) (place : ℕ) (cause : Cause) → HasGoodAnnotation code → IsRefusedAt code place cause → ⊥ }
    ensures refused { (code : List Insn) (place other : ℕ) (cause why : Cause) → IsRefusedAt code place cause → IsRefusedAt code other why
        → (place ≡ other) × (cause ≡ why) }
    ensures areas { (code : List Insn) (areas others : List (Option Area)) → IsAccepted code areas → IsAccepted code others → areas ≡ others }
{}

/// A code is refused for a check that an instruction fails, never because control leaves the program or enters a wide load.
pub fn refusals_are_of_checks()
    ensures program { (code : List Insn) (place : ℕ) (cause : Cause) → IsRefusedAt code place cause → cause ≢ OutOfProgram }
    ensures wide_load { (code : List Insn) (place : ℕ) (cause : Cause) → IsRefusedAt code place cause → cause ≢ IntoWide }
{}
