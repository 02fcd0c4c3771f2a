//! Laws of the definitions themselves. The functions do nothing: each contract is a law.
ghost use Rattle.std.specs.Prelude.{◌≡◌, List};
ghost use Rattle.bpf_insn.specs.declared.instruction.Insn.{Insn};
ghost use Rattle.bpf_flow.specs.Flow.{IsForward, IsFirstFault};
ghost use Rattle.bpf_flow.specs.declared.fault.FlowFault.{FlowFault};

/// A code has at most one first fault.
pub fn one_fault()
    ensures { (code : List Insn) (a b : FlowFault) → IsFirstFault code a → IsFirstFault code b → a ≡ b }
{}

/// A code has no fault if its jumps all go forward and it ends in EXIT.
pub fn forward_has_no_fault()
    ensures { (code : List Insn) (fault : FlowFault) → IsForward code → IsFirstFault code fault → ⊥ }
{}
