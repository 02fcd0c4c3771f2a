//! The results of operations on intervals of operands.
//!
//! Each function is equal to a row of a table in the definitions. Safety needs only that a result admits every number that may come of it; that
//! people can work out a verdict beforehand needs the rows.
ghost use Rattle.std.specs.Prelude.{◌≡◌, ◌<◌, ◌≤◌, ◌%◌};
ghost use mir.Val.{bits};
ghost use Rattle.bpf_insn.specs.Arithmetic.{operand_bits};
ghost use Rattle.bpf_kinds.specs.Interval.{HasBits, full};
ghost use Rattle.bpf_kinds.specs.Results.{greatest_of_length, sum_of, difference_of, product_of, quotient_of, remainder_of, left_shift_of, right_shift_of, arithmetic_shift_of, operation_on, result_on};

use crate::interval::Interval;
use crate::number_width::NumberWidth;
use bpf_insn::{Operation, Width};

/// Returns the result of an operation on operands of its own width.
pub(crate) fn result_on(operation: Operation, width: Width, x: Interval, y: Interval) -> Interval
    requires x { HasBits (operand_bits width) x }
    requires y { HasBits (operand_bits width) y }
    ensures { result ≡ result_on operation (operand_bits width) x y }
{
    if x.is_single() && y.is_single() {
        Interval::single(operation.apply(width, x.low, y.low))
    } else {
        operation_on(operation, width, x, y)
    }
}

/// Returns the result of an operation on operands of which at least one is more than one number.
fn operation_on(operation: Operation, width: Width, x: Interval, y: Interval) -> Interval
    requires x { HasBits (operand_bits width) x }
    requires y { HasBits (operand_bits width) y }
    ensures { result ≡ operation_on operation (operand_bits width) x y }
{
    match operation {
        Operation::Add => sum_of(width, x, y),
        Operation::Subtract => difference_of(width, x, y),
        Operation::Multiply => product_of(width, x, y),
        Operation::Divide => quotient_of(x, y),
        Operation::Modulo => remainder_of(x, y),
        Operation::Or => Interval {
            low: x.low.max(y.low),
            high: greatest_of_length(x.high.max(y.high)),
        },
        Operation::ExclusiveOr => Interval {
            low: 0,
            high: greatest_of_length(x.high.max(y.high)),
        },
        Operation::And => Interval {
            low: 0,
            high: x.high.min(y.high),
        },
        Operation::Move => y,
        Operation::ShiftLeft => left_shift_of(width, x, y),
        Operation::ShiftRight => right_shift_of(width, x, y),
        Operation::ArithmeticShiftRight => arithmetic_shift_of(width, x, y),
        Operation::SignedDivide | Operation::SignedModulo => full(width),
    }
}

/// Returns all numbers of an operation's width.
fn full(width: Width) -> Interval
    ensures { result ≡ full (operand_bits width) }
{
    Interval::full(NumberWidth::of_operands(width))
}

/// Returns the interval of sums: from end to end if either none or all exceed the width, otherwise all numbers of the width.
fn sum_of(width: Width, x: Interval, y: Interval) -> Interval
    requires x { HasBits (operand_bits width) x }
    requires y { HasBits (operand_bits width) y }
    ensures { result ≡ sum_of (operand_bits width) x y }
{
    let greatest = NumberWidth::of_operands(width).greatest();
    if y.high <= greatest - x.high {
        Interval {
            low: x.low + y.low,
            high: x.high + y.high,
        }
    } else if greatest - x.low < y.low {
        Interval {
            low: y.low - (greatest - x.low) - 1,
            high: y.high - (greatest - x.high) - 1,
        }
    } else {
        full(width)
    }
}

/// Returns the interval of differences: from end to end if either none or all are negative, otherwise all numbers of the width.
fn difference_of(width: Width, x: Interval, y: Interval) -> Interval
    requires x { HasBits (operand_bits width) x }
    requires y { HasBits (operand_bits width) y }
    ensures { result ≡ difference_of (operand_bits width) x y }
{
    let greatest = NumberWidth::of_operands(width).greatest();
    if y.high <= x.low {
        Interval {
            low: x.low - y.high,
            high: x.high - y.low,
        }
    } else if x.high < y.low {
        Interval {
            low: greatest - (y.high - x.low) + 1,
            high: greatest - (y.low - x.high) + 1,
        }
    } else {
        full(width)
    }
}

/// Returns the interval of products: from end to end if none exceeds the width, otherwise all numbers of the width.
fn product_of(width: Width, x: Interval, y: Interval) -> Interval
    requires x { HasBits (operand_bits width) x }
    requires y { HasBits (operand_bits width) y }
    ensures { result ≡ product_of (operand_bits width) x y }
{
    let greatest = NumberWidth::of_operands(width).greatest();
    match x.high.checked_mul(y.high) {
        Some(high) if high <= greatest => Interval {
            low: x.low * y.low,
            high,
        },
        _ => full(width),
    }
}

/// Returns the interval of quotients: from end to end if no divisor is zero.
fn quotient_of(x: Interval, y: Interval) -> Interval
    requires { y.low ≤ y.high }
    ensures { result ≡ quotient_of x y }
{
    if y.low >= 1 {
        Interval {
            low: x.low / y.high,
            high: x.high / y.low,
        }
    } else {
        Interval {
            low: 0,
            high: x.high,
        }
    }
}

/// Returns the interval of remainders, which are below the greatest divisor if no divisor is zero.
fn remainder_of(x: Interval, y: Interval) -> Interval
    requires { y.low ≤ y.high }
    ensures { result ≡ remainder_of x y }
{
    if y.low >= 1 {
        Interval {
            low: 0,
            high: x.high.min(y.high - 1),
        }
    } else {
        Interval {
            low: 0,
            high: x.high,
        }
    }
}

/// Returns the interval of shifts to the left: products with a power of two if the amount is known, otherwise all numbers of the width.
fn left_shift_of(width: Width, x: Interval, y: Interval) -> Interval
    requires { HasBits (operand_bits width) x }
    ensures { result ≡ left_shift_of (operand_bits width) x y }
{
    if y.is_single() {
        product_of(width, x, Interval::single(1 << shift_amount(width, y.low)))
    } else {
        full(width)
    }
}

/// Returns the interval of shifts to the right: from end to end if the amount is known.
fn right_shift_of(width: Width, x: Interval, y: Interval) -> Interval
    ensures { result ≡ right_shift_of (operand_bits width) x y }
{
    if y.is_single() {
        let amount = shift_amount(width, y.low);
        Interval {
            low: x.low >> amount,
            high: x.high >> amount,
        }
    } else {
        Interval {
            low: 0,
            high: x.high,
        }
    }
}

/// Returns the interval of shifts to the right that fill with the sign: from end to end if the amount is known and all numbers have the same
/// sign, otherwise all numbers of the width.
fn arithmetic_shift_of(width: Width, x: Interval, y: Interval) -> Interval
    requires x { HasBits (operand_bits width) x }
    requires y { HasBits (operand_bits width) y }
    ensures { result ≡ arithmetic_shift_of (operand_bits width) x y }
{
    let greatest_positive = NumberWidth::of_operands(width).greatest_positive();
    if y.is_single() && (x.high <= greatest_positive || greatest_positive < x.low) {
        Interval {
            low: Operation::ArithmeticShiftRight.apply(width, x.low, y.low),
            high: Operation::ArithmeticShiftRight.apply(width, x.high, y.low),
        }
    } else {
        full(width)
    }
}

/// Returns the number of bits to shift by.
fn shift_amount(width: Width, y: u64) -> u32
    ensures value { result ≡ y % bits (operand_bits width) }
    ensures below { result < bits (operand_bits width) }
{
    match width {
        Width::Bits32 => (y % 32) as u32,
        Width::Bits64 => (y % 64) as u32,
    }
}

/// Returns the greatest number with the same number of binary digits.
fn greatest_of_length(n: u64) -> u64
    ensures { result ≡ greatest_of_length n }
{
    u64::MAX.unbounded_shr(n.leading_zeros())
}
