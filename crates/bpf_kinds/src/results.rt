//! The results of instructions on intervals: each result contains every number that the instruction yields for numbers in the operands' intervals.
//! If every operand is one number, so is the result.
ghost use Rattle.std.specs.Prelude.{◌≡◌, ◌<◌, ◌^◌, ℕ};
ghost use Rattle.bpf_insn.specs.Arithmetic as arithmetic;
ghost use Rattle.bpf_insn.specs.Arithmetic.{result_of, extension_of, load_extension};
ghost use Rattle.bpf_insn.specs.Memory.{load_length};
ghost use Rattle.bpf_kinds.specs.Interval.{IsProper, Admits};
ghost use Rattle.bpf_kinds.specs.NumberWidth.{number_bits};
ghost use Rattle.bpf_kinds.specs.Results.{alu, negate, source_bits, target_bits, extend, reversal, byte_swap, load, wide_number, immediate_operand};

use crate::interval::Interval;
use crate::number_width::NumberWidth;
use crate::operation::result_on;
use bpf_insn::{ByteOrder, LoadFormat, Operation, SignExtension, SwapWidth, Width};

/// Returns the result of an operation, with the destination as the first operand and the source as the second. With 32 bits, it operates on the low
/// halves.
pub fn alu(operation: Operation, width: Width, x: Interval, y: Interval) -> Interval
    requires x { IsProper x }
    requires y { IsProper y }
    ensures value { result ≡ alu operation width x y }
    ensures admits { (m n : ℕ) → Admits x m → Admits y n → Admits result (result_of operation width m n) }
    ensures proper { IsProper result }
{
    let operand = NumberWidth::of_operands(width);
    result_on(operation, width, x.cut(operand), y.cut(operand))
}

/// Returns the interval of the negatives of an operand's numbers.
pub fn negate(width: Width, x: Interval) -> Interval
    requires { IsProper x }
    ensures value { result ≡ negate width x }
    ensures admits { (n : ℕ) → Admits x n → Admits result (arithmetic.negate width n) }
    ensures proper { IsProper result }
{
    let operand = NumberWidth::of_operands(width);
    let x = x.cut(operand);
    if x.is_single() {
        Interval::single(bpf_insn::negate(width, x.low))
    } else {
        Interval::full(operand)
    }
}

/// Returns the low 8, 16 or 32 bits, sign-extended.
pub fn extend(extension: SignExtension, x: Interval) -> Interval
    requires { IsProper x }
    ensures value { result ≡ extend extension x }
    ensures admits { (n : ℕ) → Admits x n → Admits result (extension_of extension n) }
    ensures proper { IsProper result }
{
    let source = source_bits(extension);
    let target = target_bits(extension);
    let x = x.cut(target);
    if x.is_single() {
        return Interval::single(extension.apply(x.low));
    }
    let low = x.cut(source);
    if low.high <= source.greatest_positive() {
        low
    } else {
        Interval::full(target)
    }
}

/// Returns the number of bits that a move with sign extension takes.
fn source_bits(extension: SignExtension) -> NumberWidth
    ensures { number_bits result ≡ source_bits extension }
{
    match extension {
        SignExtension::Bits8To32 | SignExtension::Bits8To64 => NumberWidth::Bits8,
        SignExtension::Bits16To32 | SignExtension::Bits16To64 => NumberWidth::Bits16,
        SignExtension::Bits32To64 => NumberWidth::Bits32,
    }
}

/// Returns the number of bits to which a move with sign extension extends them.
fn target_bits(extension: SignExtension) -> NumberWidth
    ensures { number_bits result ≡ target_bits extension }
{
    match extension {
        SignExtension::Bits8To32 | SignExtension::Bits16To32 => NumberWidth::Bits32,
        SignExtension::Bits8To64 | SignExtension::Bits16To64 | SignExtension::Bits32To64 => {
            NumberWidth::Bits64
        }
    }
}

/// Returns the low bytes in another order.
pub fn byte_swap(order: ByteOrder, width: SwapWidth, x: Interval) -> Interval
    requires { IsProper x }
    ensures value { result ≡ byte_swap order width x }
    ensures admits { (n : ℕ) → Admits x n → Admits result (arithmetic.byte_swap order width n) }
    ensures proper { IsProper result }
{
    match order {
        ByteOrder::LittleEndian => x.cut(NumberWidth::of_swap(width)),
        ByteOrder::BigEndian | ByteOrder::Swapped => reversal(order, width, x),
    }
}

/// Returns the low bytes in the opposite order.
fn reversal(order: ByteOrder, width: SwapWidth, x: Interval) -> Interval
    ensures { result ≡ reversal order width x }
{
    if x.is_single() {
        Interval::single(order.apply(width, x.low))
    } else {
        Interval::full(NumberWidth::of_swap(width))
    }
}

/// Returns the result of a load of any bytes.
pub fn load(format: LoadFormat) -> Interval
    ensures value { result ≡ load format }
    ensures admits { (n : ℕ) → n < 256 ^ load_length format → Admits result (load_extension format n) }
    ensures proper { IsProper result }
{
    match format {
        LoadFormat::Byte => Interval::full(NumberWidth::Bits8),
        LoadFormat::HalfWord => Interval::full(NumberWidth::Bits16),
        LoadFormat::Word => Interval::full(NumberWidth::Bits32),
        LoadFormat::DoubleWord
        | LoadFormat::SignedByte
        | LoadFormat::SignedHalfWord
        | LoadFormat::SignedWord => Interval::full(NumberWidth::Bits64),
    }
}

/// Returns the number of a wide load, from the immediates of its two words.
pub fn wide_number(immediate: i32, next_immediate: i32) -> Interval
    ensures value { result ≡ wide_number immediate next_immediate }
    ensures admits { Admits result (arithmetic.wide_number immediate next_immediate) }
    ensures proper { IsProper result }
{
    Interval::single(bpf_insn::wide_number(immediate, next_immediate))
}

/// Returns an immediate as a 64-bit operand.
pub fn immediate_operand(immediate: i32) -> Interval
    ensures value { result ≡ immediate_operand immediate }
    ensures admits { Admits result (arithmetic.immediate_operand immediate) }
    ensures proper { IsProper result }
{
    Interval::single(bpf_insn::immediate_operand(immediate))
}
