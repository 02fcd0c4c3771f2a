//! Subexpressions of numeric expressions, with what is known of their values.
ghost use Rattle.std.specs.Prelude.{◌≡◌, ◌+◌, ◌-◌, ◌<◌, ◌≤◌, ◌^◌, IsTrue, MatchOption, MatchResult, unsigned_abs};
ghost use Rattle.cql2.specs.Column.{number_places};
ghost use Rattle.cql2.specs.Expression.{bound as bound_of, column_bound, combined_bound, depth as depth_of, is_bounded, saved_for, width_of};
ghost use Rattle.cql2.specs.declared.expression.Expression.TheVariants as expression;
ghost use Rattle.cql2_text.specs.Expression.{Fits, IsCombined, IsOpposite, operators as operators_of};
ghost use Rattle.cql2_text.specs.declared.syntax_fault.SyntaxFault.TheVariants as syntax_fault;

use crate::fault::FilterFaultKind;
use crate::syntax_fault::SyntaxFault;
use cql2::{Expression, Literal, NumberColumn, NumericColumn, Operator};
use cql2_tokens::Token;
use std::alloc::Allocator;

// So the difference of two values fits in 64 bits: nothing overflows, whatever the columns hold, and no machine computes another result.
/// The bound that each value of an expression stays below.
const BOUND: u64 = 1 << 62;
/// The maximum number of operators in an expression.
const MAX_OPERATORS: u32 = 64;

/// A subexpression.
#[derive(Drop)]
pub(crate) struct Subexpression<A: Allocator> {
    pub expression: Expression<A>,
    /// The greatest absolute value that it can have.
    pub bound: u64,
    /// How many values must be kept while the last one is computed.
    pub depth: u32,
    pub operators: u32,
    ghost bound_is: { bound ≡ bound_of expression },
    ghost depth_is: { depth ≡ depth_of expression },
    ghost operators_are: { operators ≡ operators_of expression },
    ghost is_bounded: { IsTrue (is_bounded expression) },
    ghost small: { bound < 2 ^ 62 },
    ghost few: { operators ≤ 64 },
    ghost shallow: { depth ≤ operators },
}

/// Returns the subexpression of a literal.
pub(crate) fn literal_subexpression<A: Allocator>(literal: Literal) -> Subexpression<A>
    requires { unsigned_abs literal.number < 10 ^ 18 }
    ensures { result.expression ≡ expression.Literal literal }
{
    Subexpression {
        expression: Expression::Literal(literal),
        bound: literal.number.unsigned_abs(),
        depth: 0,
        operators: 0,
    }
}

/// Returns the subexpression of a column.
pub(crate) fn column_subexpression<A: Allocator>(column: NumericColumn) -> Subexpression<A>
    ensures { result.expression ≡ expression.Column column }
{
    Subexpression {
        expression: Expression::Column(column),
        bound: column_bound(column),
        depth: 0,
        operators: 0,
    }
}

/// Returns the negation of a subexpression.
pub(crate) fn opposite<'a, A: Allocator + Copy>(
    alloc: A,
    inner: Subexpression<A>,
    words: &'a [Token<'a>],
) -> Result<Subexpression<A>, SyntaxFault>
    ensures { MatchResult result (λ made. (operators_of inner.expression < 64) × IsOpposite inner.expression made.expression)
        (λ fault. operators_of inner.expression < 64 → fault ≡ syntax_fault.Memory) }
{
    if inner.operators >= MAX_OPERATORS {
        return Err(SyntaxFault::at(words, FilterFaultKind::TooDeep));
    }
    let (bound, depth, operators) = (inner.bound, inner.depth, inner.operators + 1);
    let Ok(inner) = Box::new(alloc, inner.expression) else {
        return Err(SyntaxFault::Memory);
    };
    Ok(Subexpression {
        expression: Expression::Negated(inner),
        bound,
        depth,
        operators,
    })
}

/// Returns the combination of two subexpressions by the operator that is the first of the tokens.
pub(crate) fn combination<'a, A: Allocator + Copy>(
    alloc: A,
    operator: Operator,
    first: Subexpression<A>,
    second: Subexpression<A>,
    words: &'a [Token<'a>],
) -> Result<Subexpression<A>, SyntaxFault>
    ensures { MatchResult result
        (λ made. Fits operator first.expression second.expression × IsCombined operator first.expression second.expression made.expression)
        (λ fault. Fits operator first.expression second.expression → fault ≡ syntax_fault.Memory) }
{
    let operators = first.operators + second.operators + 1;
    if operators > MAX_OPERATORS {
        return Err(SyntaxFault::at(words, FilterFaultKind::TooDeep));
    }
    let Some(bound) = combined_bound(operator, first.bound, second.bound) else {
        return Err(SyntaxFault::at(words, FilterFaultKind::NumberRange));
    };
    let depth = first.depth.max(saved_for(&second.expression, second.depth));
    let Ok(first) = Box::new(alloc, first.expression) else {
        return Err(SyntaxFault::Memory);
    };
    let Ok(second) = Box::new(alloc, second.expression) else {
        return Err(SyntaxFault::Memory);
    };
    Ok(Subexpression {
        expression: Expression::Combined(operator, first, second),
        bound,
        depth,
        operators,
    })
}

/// Returns how many values must be kept while an operand of this depth is computed after another one.
fn saved_for<A: Allocator>(second: &Expression<A>, depth: u32) -> u32
    requires { depth ≤ 64 }
    ensures value { result ≡ saved_for second.now depth }
    ensures few { result ≤ depth + 1 }
{
    match second {
        Expression::Literal(_literal) => 0,
        _ => depth + 1,
    }
}

/// Returns the greatest absolute value of a combination, if it fits.
fn combined_bound(operator: Operator, first: u64, second: u64) -> Option<u64>
    requires first_small { first < 2 ^ 62 }
    requires second_small { second < 2 ^ 62 }
    ensures { MatchOption result (2 ^ 62 ≤ combined_bound operator first second)
        (λ bound. (bound ≡ combined_bound operator first second) × (bound < 2 ^ 62)) }
{
    let bound = match operator {
        Operator::Add => first + second,
        Operator::Subtract => first + second,
        Operator::Multiply => first.checked_mul(second)?,
        Operator::Divide => first,
        Operator::Remainder => first,
    };
    if bound < BOUND { Some(bound) } else { None }
}

/// Returns the greatest absolute value of a column, by the number of its digits.
fn column_bound(column: NumericColumn) -> u64
    ensures value { result ≡ column_bound column }
    ensures small { result < 2 ^ 62 }
{
    // By the widths of fields, since a filter is compiled before any record is read.
    match column {
        NumericColumn::Number(field) => nines(number_width(field)),
        NumericColumn::Coordinate(_place) => nines(9),
    }
}

fn number_width(field: NumberColumn) -> usize
    ensures value { result ≡ width_of (number_places field) }
    ensures few { result ≤ 11 }
{
    let places = field.places();
    places.1 + 1 - places.0
}

/// Returns the greatest number of this many digits.
fn nines(digits: usize) -> u64
    requires { digits ≤ 11 }
    ensures value { result ≡ 10 ^ digits - 1 }
    ensures small { result < 2 ^ 62 }
{
    match digits {
        0 => 0,
        1 => 9,
        2 => 99,
        3 => 999,
        4 => 9_999,
        5 => 99_999,
        6 => 999_999,
        7 => 9_999_999,
        8 => 99_999_999,
        9 => 999_999_999,
        10 => 9_999_999_999,
        _ => 99_999_999_999,
    }
}
