//! Filters.
use crate::column::{Column, NumericColumn, TextColumn};
use crate::expression::Number;
use crate::function::Function;
use crate::number::Literal;
use crate::pattern::Pattern;
use crate::text::Text;
use std::alloc::Allocator;

/// A comparison operator.
#[derive(Clone, Copy)]
pub enum Comparison {
    Equal,
    NotEqual,
    Less,
    LessOrEqual,
    Greater,
    GreaterOrEqual,
}

/// A filter. Chains of AND and OR nest to the left: `a OR b OR c` is `Or(Or(a, b), c)`.
pub enum Filter<A: Allocator> {
    /// `TRUE` or `FALSE`.
    Constant(bool),
    And(Box<Filter<A>, A>, Box<Filter<A>, A>),
    Or(Box<Filter<A>, A>, Box<Filter<A>, A>),
    Not(Box<Filter<A>, A>),
    IsNull(Column),
    CompareNumber(NumericColumn, Comparison, Literal),
    /// A comparison of two expressions, one of which is more than a column, or neither of which is a literal.
    CompareNumbers(Number<A>, Comparison, Number<A>),
    CompareText(TextColumn, Comparison, Text<A>),
    /// A comparison of two columns.
    CompareTexts(TextColumn, Comparison, TextColumn),
    Like(TextColumn, Pattern<A>),
    Function(Function<A>),
}

impl<A: Allocator> Drop for Filter<A> {
    // A chain of terms is as deep as it is long, so it is dropped in a loop.
    fn drop(mut self) {
        loop {
            match self {
                Filter::And(first, _second) => self = Box::into_inner(first),
                Filter::Or(first, _second) => self = Box::into_inner(first),
                Filter::Not(inner) => self = Box::into_inner(inner),
                Filter::Constant(_value) => return,
                Filter::IsNull(_column) => return,
                Filter::CompareNumber(_column, _comparison, _literal) => return,
                Filter::CompareNumbers(_first, _comparison, _second) => return,
                Filter::CompareText(_column, _comparison, _text) => return,
                Filter::CompareTexts(_first, _comparison, _second) => return,
                Filter::Like(_column, _pattern) => return,
                Filter::Function(_function) => return,
            }
        }
    }
}
