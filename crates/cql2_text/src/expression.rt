//! Numeric expressions: signs, operators and parentheses (CQL2, 21-065r2, annex B: arithmeticExpression).
//!
//! All numbers of an expression have one unit, that of its comparison, so the caller passes it. One function reads the operators
//! of each level, from the left.
//!
//! What compiled code relies on is kept in each subexpression while it is read: a bound of its values, the number of values that wait, and the
//! number of operators. So an expression that a program couldn't compute is refused at the operator that makes it so.
ghost use Rattle.std.specs.Prelude.{◌≡◌, ◌∷◌, ◌+◌, ◌-◌, ◌<◌, ◌≤◌, ◌^◌, ◌↔◌, ℕ, [], List, true, false, Some, None, IsTrue, length, IfOk, IfSome};
ghost use Rattle.std.specs.Prelude.{MatchOption, MatchResult};
ghost use Rattle.std.specs.Prelude.{unsigned_abs};
ghost use Rattle.cql2.specs.Expression.{bound as bound_of, column_bound, combined_bound, depth as depth_of, is_bounded, width_of};
ghost use Rattle.cql2.specs.Column.{coordinate_places, number_places};
ghost use Rattle.cql2.specs.declared.expression.Expression.{Expression as AnExpression};
ghost use Rattle.cql2.specs.declared.expression.Expression.TheVariants as expression;
ghost use Rattle.cql2.specs.declared.expression.Number.{Number as ANumber};
ghost use Rattle.cql2.specs.declared.expression.Operator.{Operator as AnOperator};
ghost use Rattle.cql2_text.specs.Expression.{BeginsWith, Chain, Factor, Fits, IsCombined, IsExpression, IsOpposite, SpellsNumber, begins_number};
ghost use Rattle.cql2_text.specs.Expression.{goes_on, level_of, operator_of, operators as operators_of, part_goes_on, part_of};
ghost use Rattle.cql2_text.specs.ExpressionContent.{expression_content};
ghost use Rattle.cql2_text.specs.ReadNumber.{IsReadNumber, IsNotFirst};
ghost use Rattle.cql2_text.specs.declared.syntax_fault.SyntaxFault.TheVariants as syntax_fault;
ghost use Rattle.cql2_tokens.specs.declared.token.Sign.TheVariants as sign;
ghost use Rattle.cql2_tokens.specs.declared.token.Token.{Token};
ghost use Rattle.cql2_tokens.specs.declared.token.Token.TheVariants as token;

use crate::fault::FilterFaultKind;
use crate::operand::number;
use crate::subexpression::{
    Subexpression, column_subexpression, combination, literal_subexpression, opposite,
};
use crate::syntax_fault::SyntaxFault;
use crate::terminal::{Terminal, expect, next};
use crate::unit::Unit;
use cql2::{Column, Number, Operator};
use cql2_tokens::{Keyword, Sign, Token};
use std::alloc::Allocator;

/// The maximum number of values of an expression that are kept while another one is computed.
// Three registers survive a call, and one of them is for the first side of a comparison.
const MAX_DEPTH: u32 = 2;
/// The maximum nesting of parentheses and signs.
// Reading calls itself for each, so this limits its stack.
const MAX_NESTED: u32 = 64;

/// How tightly an operator binds.
#[derive(Clone, Copy)]
pub(crate) enum Level {
    /// `+` and `-`.
    Sum,
    /// `*`, DIV and `%`.
    Product,
}

/// Returns the operator that a token is.
fn operator_of(token: Token) -> Option<Operator>
    ensures { result ≡ operator_of token.entry }
{
    match token {
        Token::Sign(Sign::Plus) => Some(Operator::Add),
        Token::Sign(Sign::Minus) => Some(Operator::Subtract),
        Token::Sign(Sign::Asterisk) => Some(Operator::Multiply),
        Token::Sign(Sign::Percent) => Some(Operator::Remainder),
        Token::Keyword(Keyword::Div) => Some(Operator::Divide),
        _ => None,
    }
}

/// Returns the operator of this level that the tokens begin with, and the tokens after it.
fn next_operator<'a>(level: Level, words: &'a [Token<'a>]) -> Option<(Operator, &'a [Token<'a>])>
    ensures { MatchOption result ((rest : List Token) (operator : AnOperator) → BeginsWith level operator words.now rest → ⊥)
        (λ read. BeginsWith level read.0 words.now read.1.now) }
{
    let (token, rest) = next(words)?;
    let operator = operator_of(token)?;
    if is_of(operator, level) {
        Some((operator, rest))
    } else {
        None
    }
}

fn is_of(operator: Operator, level: Level) -> bool
    ensures { IsTrue result ↔ (level_of operator ≡ level) }
{
    match operator {
        Operator::Add => matches!(level, Level::Sum),
        Operator::Subtract => matches!(level, Level::Sum),
        _ => matches!(level, Level::Product),
    }
}

/// Reads parts joined by the operators of a level, from the left.
#[cycle(reading)]
fn chain<'a, A: Allocator + Copy>(
    alloc: A,
    unit: Unit,
    level: Level,
    words: &'a [Token<'a>],
    depth: u32,
) -> Result<(Subexpression<A>, &'a [Token<'a>]), SyntaxFault>
    requires { depth < 1000 }
    ensures ok { IfOk result (λ read. SpellsNumber unit depth (Chain level) words.now read.1.now read.0.expression) }
    ensures ends { IfOk result (λ read. goes_on level read.1.now ≡ false) }
    ensures reads { (rest : List Token) (made : AnExpression A) → goes_on level rest ≡ false
        → SpellsNumber unit depth (Chain level) words.now rest made → IsReadNumber result rest made }
{
    let (mut first, mut rest) = term(alloc, unit, level, words, depth)?;
    while let Some((operator, after)) = next_operator(level, rest) {
        if !unit.allows(operator) {
            return Err(SyntaxFault::at(rest, FilterFaultKind::WrongType));
        }
        let (second, after) = term(alloc, unit, level, after, depth)?;
        first = combination(alloc, operator, first, second, rest)?;
        rest = after;
    }
    Ok((first, rest))
}

/// Reads what stands between the operators of a level.
#[cycle(reading)]
fn term<'a, A: Allocator + Copy>(
    alloc: A,
    unit: Unit,
    level: Level,
    words: &'a [Token<'a>],
    depth: u32,
) -> Result<(Subexpression<A>, &'a [Token<'a>]), SyntaxFault>
    requires { depth < 1000 }
    ensures ok { IfOk result (λ read. SpellsNumber unit depth (part_of level) words.now read.1.now read.0.expression) }
    ensures ends { IfOk result (λ read. part_goes_on level read.1.now ≡ false) }
    ensures reads { (rest : List Token) (made : AnExpression A) → part_goes_on level rest ≡ false
        → SpellsNumber unit depth (part_of level) words.now rest made → IsReadNumber result rest made }
{
    match level {
        Level::Sum => {
            let (part, rest) = chain(alloc, unit, Level::Product, words, depth)?;
            Ok((part, rest))
        }
        Level::Product => {
            let (part, rest) = factor(alloc, unit, words, depth)?;
            Ok((part, rest))
        }
    }
}

/// Reads a number, a column, a sign and what follows it, or an expression in parentheses.
#[cycle(reading)]
fn factor<'a, A: Allocator + Copy>(
    alloc: A,
    unit: Unit,
    words: &'a [Token<'a>],
    depth: u32,
) -> Result<(Subexpression<A>, &'a [Token<'a>]), SyntaxFault>
    requires { depth < 1000 }
    ensures ok { IfOk result (λ read. SpellsNumber unit depth Factor words.now read.1.now read.0.expression) }
    ensures reads { (rest : List Token) (made : AnExpression A) → SpellsNumber unit depth Factor words.now rest made
        → IsReadNumber result rest made }
{
    match next(words) {
        Some((Token::Open, after)) => {
            if depth == 0 {
                return Err(SyntaxFault::at(words, FilterFaultKind::TooDeep));
            }
            let (part, rest) = parenthesized_expression(alloc, unit, after, depth)?;
            Ok((part, rest))
        }
        Some((Token::Sign(Sign::Minus), after)) => {
            let (part, rest) = signed_factor(alloc, unit, after, words, depth)?;
            Ok((part, rest))
        }
        _ => {
            let (part, rest) = operand(unit, words)?;
            Ok((part, rest))
        }
    }
}

/// Reads an expression and a closing parenthesis, after the opening one.
#[cycle(reading)]
fn parenthesized_expression<'a, A: Allocator + Copy>(
    alloc: A,
    unit: Unit,
    words: &'a [Token<'a>],
    depth: u32,
) -> Result<(Subexpression<A>, &'a [Token<'a>]), SyntaxFault>
    requires some { 1 ≤ depth }
    requires fewer { depth < 1000 }
    ensures ok { IfOk result (λ read. SpellsNumber unit depth Factor (token.Open ∷ words.now) read.1.now read.0.expression) }
    ensures reads { (rest : List Token) (made : AnExpression A) → SpellsNumber unit depth Factor (token.Open ∷ words.now) rest made
        → IsReadNumber result rest made }
{
    let (part, rest) = chain(alloc, unit, Level::Sum, words, depth - 1)?;
    let rest = expect(rest, Terminal::Closing)?;
    Ok((part, rest))
}

/// Reads what follows a minus: a number, which the minus belongs to, or another factor, of which it is the operator. `signed` begins with the minus.
#[cycle(reading)]
fn signed_factor<'a, A: Allocator + Copy>(
    alloc: A,
    unit: Unit,
    words: &'a [Token<'a>],
    signed: &'a [Token<'a>],
    depth: u32,
) -> Result<(Subexpression<A>, &'a [Token<'a>]), SyntaxFault>
    requires fewer { depth < 1000 }
    requires minus { signed.now ≡ token.Sign sign.Minus ∷ words.now }
    ensures ok { IfOk result (λ read. SpellsNumber unit depth Factor signed.now read.1.now read.0.expression) }
    ensures reads { (rest : List Token) (made : AnExpression A) → SpellsNumber unit depth Factor signed.now rest made
        → IsReadNumber result rest made }
{
    if begins_number(words) {
        let (literal, rest) = number(unit, signed)?;
        return Ok((literal_subexpression(literal), rest));
    }
    if depth == 0 {
        return Err(SyntaxFault::at(signed, FilterFaultKind::TooDeep));
    }
    let (inner, rest) = factor(alloc, unit, words, depth - 1)?;
    let part = opposite(alloc, inner, signed)?;
    Ok((part, rest))
}

fn begins_number(words: &[Token]) -> bool
    ensures { result ≡ begins_number words.now }
{
    matches!(next(words), Some((Token::Number(_numeral), _rest)))
}

/// Reads a column or a number.
fn operand<'a, A: Allocator>(
    unit: Unit,
    words: &'a [Token<'a>],
) -> Result<(Subexpression<A>, &'a [Token<'a>]), SyntaxFault>
    ensures ok { (depth : ℕ) → IfOk result (λ read. SpellsNumber unit depth Factor words.now read.1.now read.0.expression) }
    ensures reads { (depth : ℕ) (rest : List Token) (made : AnExpression A) → IsNotFirst token.Open words.now
        → IsNotFirst (token.Sign sign.Minus) words.now → SpellsNumber unit depth Factor words.now rest made → IsReadNumber result rest made }
{
    match next(words) {
        Some((Token::Column(Column::Numeric(column)), rest)) => {
            if !unit.has(column) {
                return Err(SyntaxFault::at(words, FilterFaultKind::WrongType));
            }
            Ok((column_subexpression(column), rest))
        }
        Some((Token::Column(_column), _rest)) => {
            Err(SyntaxFault::at(words, FilterFaultKind::WrongType))
        }
        Some((Token::UnknownColumn, _rest)) => {
            Err(SyntaxFault::at(words, FilterFaultKind::UnknownColumn))
        }
        _ => {
            let (literal, rest) = number(unit, words)?;
            Ok((literal_subexpression(literal), rest))
        }
    }
}

/// Reads an expression in a unit.
pub(crate) fn expression<'a, A: Allocator + Copy>(
    alloc: A,
    unit: Unit,
    words: &'a [Token<'a>],
) -> Result<(Number<A>, &'a [Token<'a>]), SyntaxFault>
    ensures ok { IfOk result (λ read. IsExpression unit words.now read.1.now read.0) }
    ensures reads { (rest : List Token) (made : ANumber A) → IsExpression unit words.now rest made
        → MatchResult result (λ read. (read.1.now ≡ rest) × (expression_content read.0.expression ≡ expression_content made.expression))
        (λ fault. fault ≡ syntax_fault.Memory) }
{
    let (part, rest) = chain(alloc, unit, Level::Sum, words, MAX_NESTED)?;
    if part.depth > MAX_DEPTH {
        return Err(SyntaxFault::at(words, FilterFaultKind::TooDeep));
    }
    Ok((
        Number {
            expression: part.expression,
        },
        rest,
    ))
}
