//! Laws of the definitions themselves. The functions do nothing: each contract is a law.
ghost use Rattle.std.specs.Prelude.{ℕ, ℤ, ◌<◌, ◌^◌, FitsSigned};
ghost use Rattle.std.specs.Int.{w32, Width as Bits};
ghost use Rattle.bpf_insn.specs.Arithmetic as arithmetic;
ghost use Rattle.bpf_insn.specs.Arithmetic.{low_bits, result_of, extension_of, load_extension};
ghost use Rattle.bpf_insn.specs.Memory.{load_length};
ghost use Rattle.bpf_insn.specs.declared.instruction.ByteOrder.{ByteOrder};
ghost use Rattle.bpf_insn.specs.declared.instruction.LoadFormat.{LoadFormat};
ghost use Rattle.bpf_insn.specs.declared.instruction.Operation.{Operation};
ghost use Rattle.bpf_insn.specs.declared.instruction.SignExtension.{SignExtension};
ghost use Rattle.bpf_insn.specs.declared.instruction.SwapWidth.{SwapWidth};
ghost use Rattle.bpf_insn.specs.declared.instruction.Width.{Width};
ghost use Rattle.bpf_kinds.specs.Interval.{IsProper, Admits, IsWithin, cut};
ghost use Rattle.bpf_kinds.specs.Results.{alu, negate, extend, byte_swap, load, wide_number, immediate_operand};
ghost use Rattle.bpf_kinds.specs.declared.interval.Interval.{Interval};

use crate::order::Order;

/// Results are sound: the interval that results from intervals admits every number that results from numbers in them.
pub fn results_are_admitted()
    ensures low_bits { (w : Bits) (x : Interval) (n : ℕ) → IsProper x → Admits x n → Admits (cut w x) (low_bits w n) }
    ensures alu { (operation : Operation) (width : Width) (x y : Interval) (m n : ℕ) → IsProper x → IsProper y
        → Admits x m → Admits y n → Admits (alu operation width x y) (result_of operation width m n) }
    ensures negate { (width : Width) (x : Interval) (n : ℕ) → IsProper x → Admits x n
        → Admits (negate width x) (arithmetic.negate width n) }
    ensures extend { (extension : SignExtension) (x : Interval) (n : ℕ) → IsProper x → Admits x n
        → Admits (extend extension x) (extension_of extension n) }
    ensures byte_swap { (order : ByteOrder) (width : SwapWidth) (x : Interval) (n : ℕ) → IsProper x → Admits x n
        → Admits (byte_swap order width x) (arithmetic.byte_swap order width n) }
    ensures load { (format : LoadFormat) (n : ℕ) → n < 256 ^ load_length format
        → Admits (load format) (load_extension format n) }
    ensures wide_number { (immediate next_immediate : ℤ)
        → Admits (wide_number immediate next_immediate) (arithmetic.wide_number immediate next_immediate) }
    ensures immediate_operand { (immediate : ℤ) → Admits (immediate_operand immediate) (arithmetic.immediate_operand immediate) }
{}

/// The result of an instruction on proper intervals is a proper interval.
pub fn results_are_proper()
    ensures alu { (operation : Operation) (width : Width) (x y : Interval) → IsProper x → IsProper y
        → IsProper (alu operation width x y) }
    ensures negate { (width : Width) (x : Interval) → IsProper x → IsProper (negate width x) }
    ensures extend { (extension : SignExtension) (x : Interval) → IsProper x → IsProper (extend extension x) }
    ensures byte_swap { (order : ByteOrder) (width : SwapWidth) (x : Interval) → IsProper x → IsProper (byte_swap order width x) }
    ensures load { (format : LoadFormat) → IsProper (load format) }
    ensures wide_number { (immediate next_immediate : ℤ) → FitsSigned w32 immediate → FitsSigned w32 next_immediate
        → IsProper (wide_number immediate next_immediate) }
    ensures immediate_operand { (immediate : ℤ) → FitsSigned w32 immediate → IsProper (immediate_operand immediate) }
{}

/// Results are monotone: the result of an instruction on intervals lies within its result on wider ones.
pub fn results_are_monotone()
    ensures low_bits { (w : Bits) (x a : Interval) → IsProper x → IsProper a → IsWithin x a → IsWithin (cut w x) (cut w a) }
    ensures alu { (operation : Operation) (width : Width) (x y a b : Interval) → IsProper x → IsProper y → IsProper a
        → IsProper b → IsWithin x a → IsWithin y b → IsWithin (alu operation width x y) (alu operation width a b) }
    ensures negate { (width : Width) (x a : Interval) → IsProper x → IsProper a → IsWithin x a
        → IsWithin (negate width x) (negate width a) }
    ensures extend { (extension : SignExtension) (x a : Interval) → IsProper x → IsProper a → IsWithin x a
        → IsWithin (extend extension x) (extend extension a) }
    ensures byte_swap { (order : ByteOrder) (width : SwapWidth) (x a : Interval) → IsProper x → IsProper a → IsWithin x a
        → IsWithin (byte_swap order width x) (byte_swap order width a) }
{}

/// A join admits everything that one of its two values admits.
pub fn joins_admit<T: Order>()
    ensures left { (x y : T) (element : T.Element) → T.IsProper x → T.IsProper y → T.Admits x element
        → T.Admits (T.join x y) element }
    ensures right { (x y : T) (element : T.Element) → T.IsProper x → T.IsProper y → T.Admits y element
        → T.Admits (T.join x y) element }
{}
