//! The results of arithmetic, comparisons and loads, on numbers of 64 bits.
//!
//! The meaning, the machine and, for single numbers, the verifier compute by these functions, so they can't differ. `apply` and `holds` are inlined,
//! because the machine passes a constant operation and width, for which the match becomes straight code.
ghost use Rattle.std.specs.Prelude.{◌≡◌, ◌<◌, ◌%◌, ◌^◌};
ghost use Rattle.std.specs.Int.{w8, w16, w32, w64, cast_signed, cast_unsigned, swap_bytes};
ghost use mir.Val.{bits};
ghost use Rattle.bpf_insn.specs.Arithmetic.{operand_bits, low_bits, result_of, negate, extension_of, swap_bits, byte_swap, condition_holds, immediate_operand, wide_number, load_extension};

use crate::instruction::{
    ByteOrder, Condition, LoadFormat, Operation, SignExtension, SwapWidth, Width,
};

impl Operation {
    /// Returns the result of the operation, with the destination's value as the first operand and the source's as the second (RFC 9669, section
    /// 4.1). Signed numbers are in two's complement.
    #[inline(always)]
    pub fn apply(self, width: Width, x: u64, y: u64) -> u64
        ensures value { result ≡ result_of self width x y }

        // With 32 bits the upper half is zero.
        ensures fits { result < 2 ^ bits (operand_bits width) }
    {
        let x = width.low_bits(x);
        let y = width.low_bits(y);
        // RFC 9669 defines division by zero: the quotient is 0, the remainder the dividend. The least number divided by -1 is itself.
        match self {
            Operation::Add => width.low_bits(x.wrapping_add(y)),
            Operation::Subtract => width.low_bits(x.wrapping_sub(y)),
            Operation::Multiply => width.low_bits(x.wrapping_mul(y)),
            Operation::Divide => if y == 0 { 0 } else { x / y },
            Operation::SignedDivide => if y == 0 {
                0
            } else {
                width.bits_of(width.signed(x).wrapping_div(width.signed(y)))
            },
            Operation::Or => x | y,
            Operation::And => x & y,
            Operation::ShiftLeft => width.low_bits(x << width.shift_amount(y)),
            Operation::ShiftRight => x >> width.shift_amount(y),
            Operation::Modulo => if y == 0 { x } else { x % y },
            Operation::SignedModulo => if y == 0 {
                x
            } else {
                width.bits_of(width.signed(x).wrapping_rem(width.signed(y)))
            },
            Operation::ExclusiveOr => x ^ y,
            Operation::Move => y,
            Operation::ArithmeticShiftRight => {
                width.bits_of(width.signed(x) >> width.shift_amount(y))
            }
        }
    }
}

impl Condition {
    /// Returns whether the jump is taken, with the destination's value as the first operand and the source's as the second (RFC 9669, section 4.3).
    #[inline(always)]
    pub fn holds(self, width: Width, x: u64, y: u64) -> bool
        ensures { result ≡ condition_holds self width x y }
    {
        let (x, y) = (width.low_bits(x), width.low_bits(y));
        match self {
            Condition::Equal => x == y,
            Condition::Greater => x > y,
            Condition::GreaterOrEqual => x >= y,
            Condition::SharesBit => x & y != 0,
            Condition::NotEqual => x != y,
            Condition::SignedGreater => width.signed(x) > width.signed(y),
            Condition::SignedGreaterOrEqual => width.signed(x) >= width.signed(y),
            Condition::Less => x < y,
            Condition::LessOrEqual => x <= y,
            Condition::SignedLess => width.signed(x) < width.signed(y),
            Condition::SignedLessOrEqual => width.signed(x) <= width.signed(y),
        }
    }
}

impl Width {
    /// Returns the low bits, as wide as the operands.
    fn low_bits(self, x: u64) -> u64
        ensures value { result ≡ low_bits (operand_bits self) x }
        ensures fits { result < 2 ^ bits (operand_bits self) }
    {
        match self {
            Width::Bits32 => u64::from(low_word(x)),
            Width::Bits64 => x,
        }
    }

    /// Returns the low bits as a signed number.
    fn signed(self, x: u64) -> i64
        ensures { result ≡ cast_signed (operand_bits self) (low_bits (operand_bits self) x) }
    {
        match self {
            Width::Bits32 => i64::from(signed_word(x)),
            Width::Bits64 => x.cast_signed(),
        }
    }

    /// Returns the low bits of a signed number in two's complement.
    fn bits_of(self, number: i64) -> u64
        ensures { result ≡ low_bits (operand_bits self) (cast_unsigned w64 number) }
    {
        self.low_bits(number.cast_unsigned())
    }

    /// Returns the number of bits to shift by.
    fn shift_amount(self, y: u64) -> u32
        ensures value { result ≡ y % bits (operand_bits self) }
        ensures below { result < bits (operand_bits self) }
    {
        // RFC 9669 masks the amount, so no shift is too far.
        match self {
            Width::Bits32 => (y % 32) as u32,
            Width::Bits64 => (y % 64) as u32,
        }
    }
}

/// Returns the negative of `x`: the number whose sum with `x` is 0 (RFC 9669, section 4.1).
pub fn negate(width: Width, x: u64) -> u64
    ensures value { result ≡ negate width x }
    ensures fits { result < 2 ^ bits (operand_bits width) }
{
    width.low_bits(0u64.wrapping_sub(x))
}

impl SignExtension {
    /// Returns the low 8, 16 or 32 bits, sign-extended (RFC 9669, section 4.1).
    pub fn apply(self, x: u64) -> u64
        ensures { result ≡ extension_of self x }
    {
        match self {
            SignExtension::Bits8To32 => u64::from(i32::from(signed_byte(x)).cast_unsigned()),
            SignExtension::Bits16To32 => u64::from(i32::from(signed_half_word(x)).cast_unsigned()),
            SignExtension::Bits8To64 => i64::from(signed_byte(x)).cast_unsigned(),
            SignExtension::Bits16To64 => i64::from(signed_half_word(x)).cast_unsigned(),
            SignExtension::Bits32To64 => i64::from(signed_word(x)).cast_unsigned(),
        }
    }
}

impl LoadFormat {
    /// Returns the value that a load puts into a register, from the number in the bytes read (RFC 9669, sections 5.1 and 5.2).
    pub fn extend(self, number: u64) -> u64
        ensures { result ≡ load_extension self number }
    {
        match self {
            LoadFormat::Byte | LoadFormat::HalfWord | LoadFormat::Word | LoadFormat::DoubleWord =>
                number,
            LoadFormat::SignedByte => SignExtension::Bits8To64.apply(number),
            LoadFormat::SignedHalfWord => SignExtension::Bits16To64.apply(number),
            LoadFormat::SignedWord => SignExtension::Bits32To64.apply(number),
        }
    }
}

impl ByteOrder {
    /// Returns the low bytes in this order, with zeros above them (RFC 9669, section 4.2).
    pub fn apply(self, width: SwapWidth, x: u64) -> u64
        ensures value { result ≡ byte_swap self width x }
        ensures fits { result < 2 ^ bits (swap_bits width) }
    {
        match self {
            ByteOrder::LittleEndian => width.low_bits(x),
            ByteOrder::BigEndian | ByteOrder::Swapped => width.swap_bytes(x),
        }
    }
}

impl SwapWidth {
    /// Returns the low bits, as wide as the swap.
    fn low_bits(self, x: u64) -> u64
        ensures { result ≡ low_bits (swap_bits self) x }
    {
        match self {
            SwapWidth::Bits16 => u64::from(low_half_word(x)),
            SwapWidth::Bits32 => u64::from(low_word(x)),
            SwapWidth::Bits64 => x,
        }
    }

    /// Returns the low bytes in the opposite order.
    fn swap_bytes(self, x: u64) -> u64
        ensures value { result ≡ swap_bytes (swap_bits self) (low_bits (swap_bits self) x) }
        ensures fits { result < 2 ^ bits (swap_bits self) }
    {
        match self {
            SwapWidth::Bits16 => u64::from(low_half_word(x).swap_bytes()),
            SwapWidth::Bits32 => u64::from(low_word(x).swap_bytes()),
            SwapWidth::Bits64 => x.swap_bytes(),
        }
    }
}

/// Returns an immediate as a 64-bit operand, sign-extended (RFC 9669, section 4.1).
pub fn immediate_operand(immediate: i32) -> u64
    ensures { result ≡ immediate_operand immediate }
{
    i64::from(immediate).cast_unsigned()
}

/// Returns the number of a wide load: the next word's immediate above the word's own, both unsigned (RFC 9669, section 5.4).
pub fn wide_number(immediate: i32, next_immediate: i32) -> u64
    ensures { result ≡ wide_number immediate next_immediate }
{
    u64::from(next_immediate.cast_unsigned()) * (1 << 32) + u64::from(immediate.cast_unsigned())
}

fn low_half_word(x: u64) -> u16
    ensures { result ≡ low_bits w16 x }
{
    (x % (1 << 16)) as u16
}

fn low_word(x: u64) -> u32
    ensures { result ≡ low_bits w32 x }
{
    (x % (1 << 32)) as u32
}

fn signed_byte(x: u64) -> i8
    ensures { result ≡ cast_signed w8 (low_bits w8 x) }
{
    ((x % (1 << 8)) as u8).cast_signed()
}

fn signed_half_word(x: u64) -> i16
    ensures { result ≡ cast_signed w16 (low_bits w16 x) }
{
    low_half_word(x).cast_signed()
}

fn signed_word(x: u64) -> i32
    ensures { result ≡ cast_signed w32 (low_bits w32 x) }
{
    low_word(x).cast_signed()
}
