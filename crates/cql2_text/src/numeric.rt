//! Predicates about numbers: comparisons, BETWEEN and IN (CQL2, 21-065r2, annex B).
//!
//! The unit of a comparison is that of its first column, which may be on its second side. So both sides are scanned for a column before either
//! is read. A scan only tells operands from operators and counts parentheses, so it ends where the expression does, if this is one.
//!
//! BETWEEN and IN are comparisons joined by AND and OR. The number at the start is read again for each, as each has its own unit.
ghost use Rattle.std.specs.Prelude.{◌≡◌, ◌≢◌, ◌∷◌, ◌+◌, ◌≤◌, ◌<◌, ◌^◌, ℕ, List, length, IfOk, IfSome, MatchOption};
ghost use Rattle.cql2.specs.declared.column.Column.TheVariants as column;
ghost use Rattle.cql2.specs.declared.column.NumericColumn.{NumericColumn};
ghost use Rattle.cql2.specs.declared.filter.Comparison.TheVariants.{Equal};
ghost use Rattle.cql2.specs.declared.filter.Filter.{Filter};
ghost use Rattle.cql2_text.specs.Compared.{SpellsAmong, SpellsBetween, SpellsCompared, SpellsNumbers, SpellsOfNumber, comparison_of, converse, or_else};
ghost use Rattle.cql2_text.specs.Read.{IsRead};
ghost use Rattle.cql2_text.specs.Scan.{after_number, column_ahead, column_of, scanned, step};
ghost use Rattle.cql2_tokens.specs.declared.token.Keyword.TheVariants as word;
ghost use Rattle.cql2_tokens.specs.declared.token.Token.{Token};
ghost use Rattle.cql2_tokens.specs.declared.token.Token.TheVariants as token;

use crate::connective::{both, either, negation};
use crate::expression::expression;
use crate::fault::{Construct, FilterFaultKind};
use crate::syntax_fault::SyntaxFault;
use crate::terminal::{Terminal, expect, next};
use crate::unit::Unit;
use cql2::{Column, Comparison, Expression, Filter, Number, NumericColumn};
use cql2_tokens::{Keyword, Token};
use std::alloc::Allocator;

/// Returns the first of two columns that there is.
fn or_else(first: Option<NumericColumn>, second: Option<NumericColumn>) -> Option<NumericColumn>
    ensures { result ≡ or_else first second }
{
    match first {
        Some(column) => Some(column),
        None => second,
    }
}

fn column_of(token: Token) -> Option<NumericColumn>
    ensures { result ≡ column_of token.entry }
{
    match token {
        Token::Column(Column::Numeric(column)) => Some(column),
        _ => None,
    }
}

/// Returns whether an operand comes next, and how many parentheses are open, after a token of an expression.
fn step(expects: bool, open_parentheses: usize, token: Token) -> Option<(bool, usize)>
    requires { open_parentheses < 2 ^ 63 }
    ensures value { result ≡ step expects open_parentheses token.entry }
    ensures deeper { IfSome result (λ state. state.1 ≤ open_parentheses + 1) }
{
    match (expects, token) {
        (true, Token::Open) => Some((true, open_parentheses + 1)),
        (false, Token::Close) => {
            if open_parentheses > 0 {
                Some((false, open_parentheses - 1))
            } else {
                None
            }
        }
        (_, Token::Sign(_sign)) => Some((true, open_parentheses)),
        (false, Token::Keyword(Keyword::Div)) => Some((true, open_parentheses)),
        (true, Token::Number(_numeral)) => Some((false, open_parentheses)),
        (true, Token::Column(Column::Numeric(_column))) => Some((false, open_parentheses)),
        _ => None,
    }
}

/// A scan of an expression's tokens.
#[derive(Clone, Copy)]
struct Scanned<'a> {
    /// Whether an operand comes next.
    expects: bool,
    open_parentheses: usize,
    /// The first column so far.
    column: Option<NumericColumn>,
    rest: &'a [Token<'a>],
}

/// Returns the scan after one more token of the expression, if there is one.
fn next_scan<'a>(scan: Scanned<'a>) -> Option<Scanned<'a>>
    requires { scan.open_parentheses < 2 ^ 63 }
    ensures same { MatchOption result
        (scanned scan.entry.expects scan.entry.open_parentheses scan.entry.column scan.entry.rest.now ≡ (scan.entry.column, scan.entry.rest.now))
        (λ after. scanned scan.entry.expects scan.entry.open_parentheses scan.entry.column scan.entry.rest.now
        ≡ scanned after.expects after.open_parentheses after.column after.rest.now) }
    ensures shorter { IfSome result (λ after. length after.rest.now < length scan.entry.rest.now) }
    ensures few { IfSome result (λ after. after.open_parentheses + length after.rest.now ≤ scan.entry.open_parentheses + length scan.entry.rest.now) }
{
    let (token, rest) = next(scan.rest)?;
    let (expects, open_parentheses) = step(scan.expects, scan.open_parentheses, token)?;
    Some(Scanned {
        expects,
        open_parentheses,
        column: or_else(scan.column, column_of(token)),
        rest,
    })
}

/// Returns the first column of the expression that the tokens begin with, and the tokens after it.
fn scan<'a>(words: &'a [Token<'a>]) -> (Option<NumericColumn>, &'a [Token<'a>])
    ensures column { result.0 ≡ column_ahead words.now }
    ensures rest { result.1.now ≡ after_number words.now }
{
    let mut scan = Scanned {
        expects: true,
        open_parentheses: 0,
        column: None,
        rest: words,
    };
    while let Some(after) = next_scan(scan) {
        scan = after;
    }
    (scan.column, scan.rest)
}

/// Returns the comparison with its sides exchanged.
pub(crate) fn converse(comparison: Comparison) -> Comparison
    ensures { result ≡ converse comparison }
{
    match comparison {
        Comparison::Less => Comparison::Greater,
        Comparison::LessOrEqual => Comparison::GreaterOrEqual,
        Comparison::Greater => Comparison::Less,
        Comparison::GreaterOrEqual => Comparison::LessOrEqual,
        Comparison::Equal => Comparison::Equal,
        Comparison::NotEqual => Comparison::NotEqual,
    }
}

/// Returns the comparison of two numbers, with the column first where one side is a column and the other a literal.
fn comparison_of<A: Allocator>(
    first: Number<A>,
    comparison: Comparison,
    second: Number<A>,
) -> Filter<A>
    ensures { result ≡ comparison_of first comparison second }
{
    match (&first.expression, &second.expression) {
        (Expression::Column(column), Expression::Literal(literal)) => {
            Filter::CompareNumber(*column, comparison, *literal)
        }
        (Expression::Literal(literal), Expression::Column(column)) => {
            Filter::CompareNumber(*column, converse(comparison), *literal)
        }
        _ => Filter::CompareNumbers(first, comparison, second),
    }
}

/// Compares the number at the start with the one that the tokens begin with. Their unit is that of the first column in them.
fn compare<'a, A: Allocator + Copy>(
    alloc: A,
    start: &'a [Token<'a>],
    comparison: Comparison,
    words: &'a [Token<'a>],
) -> Result<(Filter<A>, &'a [Token<'a>]), SyntaxFault>
    ensures ok { IfOk result (λ read. SpellsCompared start.now (after_number start.now) comparison words.now read.1.now read.0) }
    ensures reads { (after rest : List Token) (made : Filter A) → SpellsCompared start.now after comparison words.now rest made
        → IsRead result rest made }
{
    // Both sides, as the first column may be on the second one.
    let (first_column, _after) = scan(start);
    let (second_column, _after) = scan(words);
    let unit = Unit::of(or_else(first_column, second_column));
    // Read again for each comparison, as the unit may differ.
    let (first, _after) = expression(alloc, unit, start)?;
    let (second, rest) = expression(alloc, unit, words)?;
    Ok((comparison_of(first, comparison, second), rest))
}

/// Reads a predicate about the number that the tokens begin with.
pub(crate) fn of_number<'a, A: Allocator + Copy>(
    alloc: A,
    words: &'a [Token<'a>],
) -> Result<(Filter<A>, &'a [Token<'a>]), SyntaxFault>
    ensures ok { IfOk result (λ read. SpellsOfNumber words.now (after_number words.now) (after_number words.now) read.1.now read.0) }
    ensures reads { (after rest : List Token) (made : Filter A) → SpellsOfNumber words.now after after rest made → IsRead result rest made }
{
    let (_column, after) = scan(words);
    match next(after) {
        Some((Token::Compared(comparison), rest)) => {
            let (filter, rest) = compare(alloc, words, comparison, rest)?;
            Ok((filter, rest))
        }
        Some((Token::Keyword(Keyword::Is), rest)) => {
            Err(SyntaxFault::at(rest, FilterFaultKind::WrongType))
        }
        Some((Token::Keyword(Keyword::Not), rest)) => {
            let (inner, rest) = among(alloc, words, rest, Construct::Negatable)?;
            let filter = negation(alloc, inner)?;
            Ok((filter, rest))
        }
        _ => {
            let (filter, rest) = among(alloc, words, after, Construct::Operator)?;
            Ok((filter, rest))
        }
    }
}

/// Reads the predicates about a number that NOT may precede: BETWEEN and IN.
fn among<'a, A: Allocator + Copy>(
    alloc: A,
    start: &'a [Token<'a>],
    words: &'a [Token<'a>],
    expected: Construct,
) -> Result<(Filter<A>, &'a [Token<'a>]), SyntaxFault>
    ensures ok { IfOk result (λ read. SpellsAmong start.now (after_number start.now) words.now read.1.now read.0) }
    ensures reads { (after rest : List Token) (made : Filter A) → SpellsAmong start.now after words.now rest made → IsRead result rest made }
{
    match next(words) {
        Some((Token::Keyword(Keyword::Between), after)) => {
            let (filter, rest) = between(alloc, start, after)?;
            Ok((filter, rest))
        }
        Some((Token::Keyword(Keyword::In), after)) => {
            let inner = expect(after, Terminal::Opening)?;
            let (filter, rest) = list(alloc, start, inner)?;
            let rest = expect(rest, Terminal::Closing)?;
            Ok((filter, rest))
        }
        Some((Token::Keyword(Keyword::Like), _after)) => {
            Err(SyntaxFault::at(words, FilterFaultKind::WrongType))
        }
        _ => Err(SyntaxFault::unexpected_token(words, expected)),
    }
}

/// Reads the two numbers that the one at the start is between.
fn between<'a, A: Allocator + Copy>(
    alloc: A,
    start: &'a [Token<'a>],
    words: &'a [Token<'a>],
) -> Result<(Filter<A>, &'a [Token<'a>]), SyntaxFault>
    ensures ok { IfOk result (λ read. SpellsBetween start.now (after_number start.now) words.now read.1.now read.0) }
    ensures reads { (after rest : List Token) (made : Filter A) → SpellsBetween start.now after words.now rest made → IsRead result rest made }
{
    let (low, rest) = compare(alloc, start, Comparison::GreaterOrEqual, words)?;
    let rest = expect(rest, Terminal::And)?;
    let (high, rest) = compare(alloc, start, Comparison::LessOrEqual, rest)?;
    let filter = both(alloc, low, high)?;
    Ok((filter, rest))
}

/// Reads a list of numbers, one of which the number at the start equals.
fn list<'a, A: Allocator + Copy>(
    alloc: A,
    start: &'a [Token<'a>],
    words: &'a [Token<'a>],
) -> Result<(Filter<A>, &'a [Token<'a>]), SyntaxFault>
    ensures ok { IfOk result (λ read. SpellsNumbers start.now (after_number start.now) words.now read.1.now read.0) }
    ensures reads { (after rest : List Token) (made : Filter A) → SpellsNumbers start.now after words.now (token.Close ∷ rest) made
        → IsRead result (token.Close ∷ rest) made }
{
    let (mut filter, mut rest) = compare(alloc, start, Comparison::Equal, words)?;
    while let Some((Token::Comma, after)) = next(rest) {
        let (second, after) = compare(alloc, start, Comparison::Equal, after)?;
        filter = either(alloc, filter, second)?;
        rest = after;
    }
    Ok((filter, rest))
}
