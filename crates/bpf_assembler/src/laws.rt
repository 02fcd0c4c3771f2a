//! Laws over the definitions, as contracts of functions that do nothing.
ghost use Rattle.std.specs.Prelude.{◌≡◌, ◌≢◌, ◌≤◌, ◌++◌, ℕ, List, codes, decimal};
ghost use Rattle.bpf_insn.specs.declared.instruction.Insn.{Insn};
ghost use Rattle.bpf_assembler.specs.declared.fault.TextFault.{TextFault};
ghost use Rattle.bpf_assembler.specs.Operand.{register_name};
ghost use Rattle.bpf_assembler.specs.Text.{Means, IsFirstFault};

/// A text means at most one code.
pub fn one_code()
    ensures { (text : List ℕ) (a b : List Insn) → Means text a → Means text b → a ≡ b }
{}

/// A text has at most one first fault, apart from a failed allocation, which depends on more than the text.
pub fn one_fault()
    ensures { (text : List ℕ) (a b : TextFault) → IsFirstFault text a → IsFirstFault text b
        → a ≢ TextFault.Memory → b ≢ TextFault.Memory → a ≡ b }
{}

/// A register's name is `r` followed by its number.
pub fn register_names()
    ensures { (number : ℕ) → number ≤ 10 → register_name number ≡ codes "r" ++ decimal number }
{}
