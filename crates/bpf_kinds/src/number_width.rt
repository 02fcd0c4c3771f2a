//! Widths of numbers.
ghost use Rattle.std.specs.Prelude.{◌≡◌, ◌+◌, ◌-◌, ◌^◌, IfSome, IfNone};
ghost use Rattle.std.specs.Int.{w64};
ghost use mir.Val.{bits};
ghost use Rattle.bpf_insn.specs.Arithmetic.{operand_bits, swap_bits};
ghost use Rattle.bpf_kinds.specs.NumberWidth.{number_bits};

use bpf_insn::{SwapWidth, Width};

/// The number of bits of a number.
#[derive(Clone, Copy, PartialEq, Eq)]
pub enum NumberWidth {
    Bits8,
    Bits16,
    Bits32,
    Bits64,
}

impl NumberWidth {
    /// Returns the width of an operation's operands.
    pub fn of_operands(width: Width) -> NumberWidth
        ensures { number_bits result ≡ operand_bits width }
    {
        match width {
            Width::Bits32 => NumberWidth::Bits32,
            Width::Bits64 => NumberWidth::Bits64,
        }
    }

    /// Returns the width that a byte swap keeps.
    pub fn of_swap(width: SwapWidth) -> NumberWidth
        ensures { number_bits result ≡ swap_bits width }
    {
        match width {
            SwapWidth::Bits16 => NumberWidth::Bits16,
            SwapWidth::Bits32 => NumberWidth::Bits32,
            SwapWidth::Bits64 => NumberWidth::Bits64,
        }
    }

    /// Returns the greatest number of the width.
    pub fn greatest(self) -> u64
        ensures { result + 1 ≡ 2 ^ bits (number_bits self) }
    {
        match self {
            NumberWidth::Bits8 => 0xff,
            NumberWidth::Bits16 => 0xffff,
            NumberWidth::Bits32 => 0xffff_ffff,
            NumberWidth::Bits64 => u64::MAX,
        }
    }

    /// Returns the greatest number of the width whose sign bit is 0.
    pub(crate) fn greatest_positive(self) -> u64
        ensures { result + 1 ≡ 2 ^ (bits (number_bits self) - 1) }
    {
        self.greatest() / 2
    }

    /// Returns how many numbers of the width there are, if that count fits in 64 bits.
    pub(crate) fn count(self) -> Option<u64>
        ensures some { IfSome result (λ count. count ≡ 2 ^ bits (number_bits self)) }
        ensures none { IfNone result (number_bits self ≡ w64) }
    {
        match self {
            NumberWidth::Bits8 => Some(1 << 8),
            NumberWidth::Bits16 => Some(1 << 16),
            NumberWidth::Bits32 => Some(1 << 32),
            NumberWidth::Bits64 => None,
        }
    }
}
