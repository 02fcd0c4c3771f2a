//! Laws about the definitions, stated as contracts of functions that do nothing.
ghost use Rattle.std.specs.Prelude.{◌≡◌, ◌≢◌, ℕ, List};
ghost use Rattle.bpf_insn.specs.declared.instruction.Insn.{Insn};
ghost use Rattle.bpf_program.specs.Program.{IsSafeProgram, IsProgramFault};
ghost use Rattle.bpf_program.specs.declared.program.ProgramFault.{ProgramFault};
ghost use Rattle.bpf_program.specs.declared.program.ProgramFault.TheVariants.{Memory};

/// States that a program has at most one verdict, unless memory runs out: an accepted program has no fault, and any other has at most one.
#[tactic(auto, using(crate::proofs::VerdictLemmas::no_fault, crate::proofs::VerdictLemmas::one_fault))]
pub fn verdicts()
    ensures accepted { (program : List ℕ) (code : List Insn) (fault : ProgramFault) → IsSafeProgram program code
        → IsProgramFault program fault → fault ≡ Memory }
    ensures refused { (program : List ℕ) (a b : ProgramFault) → IsProgramFault program a → IsProgramFault program b
        → a ≢ Memory → b ≢ Memory → a ≡ b }
{}
