//! Laws of narrowing, each of which is the contract of a function that does nothing.
ghost use Rattle.std.specs.Prelude.{◌≡◌, ℕ, Bool, Some};
ghost use Rattle.bpf_insn.specs.Arithmetic.{condition_holds};
ghost use Rattle.bpf_insn.specs.declared.instruction.Condition.{Condition};
ghost use Rattle.bpf_insn.specs.declared.instruction.Width.{Width};
ghost use Rattle.bpf_kinds.specs.Interval.{IsProper, Admits, IsWithin};
ghost use Rattle.bpf_kinds.specs.Narrowing.{refine};
ghost use Rattle.bpf_kinds.specs.declared.interval.Interval.{Interval};
ghost use Rattle.bpf_kinds.specs.declared.narrowing.Narrowed.{Narrowed};

/// Two compared numbers remain admitted on the edge that their comparison takes.
pub fn refine_still_admits()
    ensures { (condition : Condition) (width : Width) (x y : Interval) (m n : ℕ) (taken : Bool)
        → IsProper x → IsProper y → Admits x m → Admits y n → condition_holds condition width m n ≡ taken
        → (both : Narrowed) × (refine condition width x y taken ≡ Some both) × Admits both.left m × Admits both.right n }
{}

/// Narrowed intervals are proper, and lie within the original ones.
pub fn refine_within()
    ensures { (condition : Condition) (width : Width) (x y : Interval) (taken : Bool) (both : Narrowed)
        → IsProper x → IsProper y → refine condition width x y taken ≡ Some both
        → IsProper both.left × IsProper both.right × IsWithin both.left x × IsWithin both.right y }
{}

/// Narrowing is monotone: lower intervals are narrowed to lower ones, and reach no edge that higher ones don't reach.
pub fn refine_is_monotone()
    ensures { (condition : Condition) (width : Width) (x y a b : Interval) (taken : Bool) (both : Narrowed)
        → IsProper x → IsProper y → IsWithin x a → IsWithin y b → refine condition width x y taken ≡ Some both
        → (wider : Narrowed) × (refine condition width a b taken ≡ Some wider)
        × IsWithin both.left wider.left × IsWithin both.right wider.right }
{}
