//! Comparisons of numeric expressions.
//!
//! First whether each part has a value, then one difference compared with 0. A comparison with an unknown part is NULL, so all parts are asked first,
//! the first one's before the second one's. Values are whole numbers below 2^62, which the reader of filters guarantees, so a difference fits in 64
//! bits and one jump decides. An operand that is computed first waits in register 7, 8 or 9, which survive the calls of helper functions; a level
//! says which. Three are enough: one for the first side of a comparison, two for an expression.
//!
//! Always: the value of an expression ends in register 0, and what is saved at lower levels is unchanged. Recursion follows the expression, whose
//! number of operators has its limit.
ghost use Rattle.std.specs.Prelude.{◌≡◌, ◌≤◌, ◌+◌, ◌++◌, suc, true};
ghost use Rattle.bpf_insn.specs.Code.{word_count};
ghost use Rattle.cql2.specs.Expression.{depth, saved_for};
ghost use Rattle.cql2_code.specs.Expressions.{combine_saved, combine_literal, compares_difference, compares_numbers, has_second, is_divisor, is_known};
ghost use Rattle.cql2_code.specs.Expressions.{is_not_zero, number_code, second_code};
ghost use Rattle.cql2_code.specs.Layout.{IsPrepended, Prepends};
ghost use Rattle.cql2_code.specs.Question.{Joined};

use crate::arithmetic::{negate, operate, set_literal};
use crate::fault::CompileFault;
use crate::instructions::{
    copy, from_argument_1, from_result, from_saved, into_argument_1, into_result, into_saved,
    wide_load,
};
use crate::numbers::{has_value, number_of};
use crate::question::Exits;
use crate::suffix::CodeSuffix;
use bpf_insn::Source;
use cql2::{Comparison, Expression, Literal, Operator};
use std::alloc::Allocator;

/// Writes the code that compares two expressions if both have values.
pub(crate) fn prepend_numbers<A: Allocator + Copy>(
    code: &mut CodeSuffix<A>,
    first: &Expression<A>,
    comparison: Comparison,
    second: &Expression<A>,
    exits: Exits,
) -> Result<(), CompileFault>
    requires inside { exits.skip ≤ word_count code.old }
    requires first { depth first.now ≤ 3 }
    requires second { saved_for second.now (depth second.now) ≤ 3 }
    ensures { Prepends result (compares_numbers first.now comparison second.now) exits code.old code.new }
{
    let words = code.words();
    prepend_both(code, first, comparison, second, exits)?;
    let exits = code.exits_before(words, true, exits);
    prepend_known(code, first, exits)
}

/// Writes the code that compares two expressions, of which the first one has a value, if the second one has a value too.
fn prepend_both<A: Allocator + Copy>(
    code: &mut CodeSuffix<A>,
    first: &Expression<A>,
    comparison: Comparison,
    second: &Expression<A>,
    exits: Exits,
) -> Result<(), CompileFault>
    requires inside { exits.skip ≤ word_count code.old }
    requires first { depth first.now ≤ 3 }
    requires second { saved_for second.now (depth second.now) ≤ 3 }
    ensures { Prepends result (Joined true (is_known second.now) (compares_difference first.now comparison second.now)) exits code.old code.new }
{
    let words = code.words();
    prepend_difference(code, first, comparison, second, exits)?;
    let exits = code.exits_before(words, true, exits);
    prepend_known(code, second, exits)
}

/// Writes the code that compares the difference of two expressions with 0.
fn prepend_difference<A: Allocator + Copy>(
    code: &mut CodeSuffix<A>,
    first: &Expression<A>,
    comparison: Comparison,
    second: &Expression<A>,
    exits: Exits,
) -> Result<(), CompileFault>
    requires inside { exits.skip ≤ word_count code.old }
    requires first { depth first.now ≤ 3 }
    requires second { saved_for second.now (depth second.now) ≤ 3 }
    ensures { Prepends result (compares_difference first.now comparison second.now) exits code.old code.new }
{
    code.prepend_zero_comparison(comparison, exits)?;
    // Both are below 2^62, so their difference fits in 64 bits.
    prepend_second(code, Operator::Subtract, 0, second)?;
    prepend_expression(code, first, 0)
}

/// Writes the code that computes an expression in register 0, and keeps numbers from a level on.
#[cycle(expression)]
fn prepend_expression<A: Allocator + Copy>(
    code: &mut CodeSuffix<A>,
    expression: &Expression<A>,
    level: u8,
) -> Result<(), CompileFault>
    requires { level + depth expression.now ≤ 3 }
    ensures { IsPrepended result (number_code expression.now level ++ code.old) code.new }
{
    match expression {
        Expression::Literal(literal) => code.prepend(set_literal(*literal)),
        Expression::Column(column) => code.prepend_subject(number_of(*column)),
        Expression::Negated(inner) => {
            code.prepend(negate())?;
            prepend_expression(code, inner, level)
        }
        Expression::Combined(operator, first, second) => {
            prepend_second(code, *operator, level, second)?;
            prepend_expression(code, first, level)
        }
    }
}

/// Writes the code that combines register 0 with a second operand.
#[cycle(expression)]
fn prepend_second<A: Allocator + Copy>(
    code: &mut CodeSuffix<A>,
    operator: Operator,
    level: u8,
    second: &Expression<A>,
) -> Result<(), CompileFault>
    requires { level + saved_for second.now (depth second.now) ≤ 3 }
    ensures { IsPrepended result (second_code operator level second.now (number_code second.now (suc level)) ++ code.old) code.new }
{
    // A literal needs no register.
    if let Expression::Literal(literal) = second {
        return prepend_literal(code, operator, *literal);
    }
    prepend_saved(code, operator, level)?;
    // Saved in a register that survives the calls which compute the second operand.
    prepend_expression(code, second, level + 1)?;
    code.prepend(copy(into_saved(level), from_result()))
}

/// Writes the code that combines register 0 with a literal.
fn prepend_literal<A: Allocator + Copy>(
    code: &mut CodeSuffix<A>,
    operator: Operator,
    literal: Literal,
) -> Result<(), CompileFault>
    ensures { IsPrepended result (combine_literal operator literal.number ++ code.old) code.new }
{
    // An immediate has 32 bits.
    match i32::try_from(literal.number) {
        Ok(narrow) => code.prepend(operate(operator, Source::Immediate(narrow))),
        Err(_) => {
            code.prepend(operate(operator, Source::Register(from_argument_1())))?;
            code.prepend(wide_load(into_argument_1(), literal.number.cast_unsigned()))
        }
    }
}

/// Writes the code that combines the number saved at a level with register 0.
pub(crate) fn prepend_saved<A: Allocator + Copy>(
    code: &mut CodeSuffix<A>,
    operator: Operator,
    level: u8,
) -> Result<(), CompileFault>
    ensures { IsPrepended result (combine_saved operator level ++ code.old) code.new }
{
    code.prepend(operate(operator, Source::Register(from_argument_1())))?;
    code.prepend(copy(into_result(), from_saved(level)))?;
    code.prepend(copy(into_argument_1(), from_result()))
}

/// Writes the code that asks whether an expression has a value.
#[cycle(known)]
fn prepend_known<A: Allocator + Copy>(
    code: &mut CodeSuffix<A>,
    expression: &Expression<A>,
    exits: Exits,
) -> Result<(), CompileFault>
    requires inside { exits.skip ≤ word_count code.old }
    requires shallow { depth expression.now ≤ 3 }
    ensures { Prepends result (is_known expression.now) exits code.old code.new }
{
    match expression {
        Expression::Literal(_literal) => code.prepend_constant(true, exits),
        Expression::Column(column) => code.prepend_test(has_value(*column), exits),
        Expression::Negated(inner) => prepend_known(code, inner, exits),
        Expression::Combined(operator, first, second) => {
            let words = code.words();
            prepend_second_known(code, *operator, second, exits)?;
            let exits = code.exits_before(words, true, exits);
            prepend_known(code, first, exits)
        }
    }
}

/// Writes the code that asks whether a second operand has a value with which the operator has one.
#[cycle(known)]
fn prepend_second_known<A: Allocator + Copy>(
    code: &mut CodeSuffix<A>,
    operator: Operator,
    second: &Expression<A>,
    exits: Exits,
) -> Result<(), CompileFault>
    requires inside { exits.skip ≤ word_count code.old }
    requires shallow { depth second.now ≤ 3 }
    ensures { Prepends result (has_second operator second.now (is_known second.now)) exits code.old code.new }
{
    match operator {
        Operator::Add => prepend_known(code, second, exits),
        Operator::Subtract => prepend_known(code, second, exits),
        Operator::Multiply => prepend_known(code, second, exits),
        Operator::Divide => prepend_known_divisor(code, second, exits),
        Operator::Remainder => prepend_known_divisor(code, second, exits),
    }
}

/// Writes the code that asks whether a divisor has a value other than 0.
#[cycle(known)]
fn prepend_known_divisor<A: Allocator + Copy>(
    code: &mut CodeSuffix<A>,
    divisor: &Expression<A>,
    exits: Exits,
) -> Result<(), CompileFault>
    requires inside { exits.skip ≤ word_count code.old }
    requires shallow { depth divisor.now ≤ 3 }
    ensures { Prepends result (Joined true (is_known divisor.now) (is_divisor divisor.now)) exits code.old code.new }
{
    // A division by 0 is NULL in a filter, while the instruction set has a result for it.
    let words = code.words();
    prepend_divisor(code, divisor, exits)?;
    let exits = code.exits_before(words, true, exits);
    prepend_known(code, divisor, exits)
}

/// Writes the code that asks whether a divisor isn't 0.
fn prepend_divisor<A: Allocator + Copy>(
    code: &mut CodeSuffix<A>,
    divisor: &Expression<A>,
    exits: Exits,
) -> Result<(), CompileFault>
    requires inside { exits.skip ≤ word_count code.old }
    requires shallow { depth divisor.now ≤ 3 }
    ensures { Prepends result (is_divisor divisor.now) exits code.old code.new }
{
    match divisor {
        Expression::Literal(literal) => code.prepend_constant(literal.number != 0, exits),
        Expression::Column(_column) => prepend_not_zero(code, divisor, exits),
        Expression::Negated(_inner) => prepend_not_zero(code, divisor, exits),
        Expression::Combined(_operator, _first, _second) => prepend_not_zero(code, divisor, exits),
    }
}

/// Writes the code that compares an expression with 0.
fn prepend_not_zero<A: Allocator + Copy>(
    code: &mut CodeSuffix<A>,
    expression: &Expression<A>,
    exits: Exits,
) -> Result<(), CompileFault>
    requires inside { exits.skip ≤ word_count code.old }
    requires shallow { depth expression.now ≤ 3 }
    ensures { Prepends result (is_not_zero expression.now) exits code.old code.new }
{
    code.prepend_zero_comparison(Comparison::NotEqual, exits)?;
    prepend_expression(code, expression, 0)
}
