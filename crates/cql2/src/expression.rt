//! Numeric expressions.
ghost use Rattle.std.specs.Prelude.{IsTrue};
ghost use Rattle.cql2.specs.Expression.{is_exact};

use crate::column::NumericColumn;
use crate::number::Literal;
use std::alloc::Allocator;

/// An arithmetic operator.
#[derive(Clone, Copy)]
pub enum Operator {
    Add,
    Subtract,
    Multiply,
    /// `div`: the integer part of the quotient.
    Divide,
    /// `%`: what an integer division leaves, with the sign of the dividend.
    Remainder,
}

/// A numeric expression. Coordinates and the literals beside them are in millionths of a degree.
#[derive(Drop)]
pub enum Expression<A: Allocator> {
    Literal(Literal),
    Column(NumericColumn),
    Negated(Box<Expression<A>, A>),
    Combined(Operator, Box<Expression<A>, A>, Box<Expression<A>, A>),
}

// Below 2^62, so nothing overflows. Wrapping or NULL instead would make a filter's meaning depend on the machine.
/// A numeric expression whose value is computed exactly in 64 bits, whatever the columns hold.
#[derive(Drop)]
pub struct Number<A: Allocator> {
    pub expression: Expression<A>,
    ghost is_exact: { IsTrue (is_exact expression) },
}
