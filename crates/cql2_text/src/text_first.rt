//! Predicates that begin with a string literal.
ghost use Rattle.std.specs.Prelude.{◌≡◌, ◌∷◌, true, false, List, IfOk, MatchResult};
ghost use Rattle.cql2.specs.declared.filter.Comparison.TheVariants.{Equal};
ghost use Rattle.cql2.specs.declared.filter.Filter.{Filter};
ghost use Rattle.cql2_text.specs.Predicate.{IsSubject, IsTextLiteral, SpellsExchangedComparison, SpellsList, SpellsOfText, SpellsRelation, SpellsTextAmong};
ghost use Rattle.cql2_text.specs.Read.{IsRead};
ghost use Rattle.cql2_text.specs.declared.predicate.CharacterExpression.{CharacterExpression};
ghost use Rattle.cql2_tokens.specs.declared.token.Token.{Token};
ghost use Rattle.cql2_tokens.specs.declared.token.Token.TheVariants as token;

use crate::clause::{MAX_NESTED_CLAUSES, closings, openings};
use crate::connective::{either, negation};
use crate::fault::{Construct, FilterFaultKind};
use crate::numeric::converse;
use crate::operand::spelling;
use crate::predicate::{is_compared, read_subject, subject_comparison};
use crate::syntax_fault::SyntaxFault;
use crate::terminal::{Terminal, expect, next};
use cql2::{Comparison, Filter};
use cql2_tokens::{Keyword, Token};
use std::alloc::Allocator;

/// Returns whether the tokens begin with a string literal, which may be in CASEI and ACCENTI.
pub(crate) fn begins_text(words: &[Token]) -> bool
    ensures text { (rest : List Token) → IsTextLiteral words.now rest → result ≡ true }
    ensures subject { (s : CharacterExpression) (rest : List Token) → IsSubject s words.now rest → result ≡ false }
{
    match openings(words, MAX_NESTED_CLAUSES) {
        Ok((_folding, _depth, inner)) => {
            matches!(next(inner), Some((Token::Text(_spelling), _rest)))
        }
        Err(_fault) => false,
    }
}

/// Reads a predicate that begins with a string literal.
pub(crate) fn text_first<'a, A: Allocator + Copy>(
    alloc: A,
    words: &'a [Token<'a>],
) -> Result<(Filter<A>, &'a [Token<'a>]), SyntaxFault>
    ensures ok { IfOk result (λ read. SpellsRelation words.now read.1.now read.0) }
    ensures reads { (after rest : List Token) (made : Filter A) → IsTextLiteral words.now after → SpellsOfText words.now after rest made
        → IsRead result rest made }
{
    let after = after_text(words)?;
    let (filter, rest) = of_text(alloc, words, after)?;
    Ok((filter, rest))
}

/// Returns the tokens after the string literal that the tokens begin with, which may be in CASEI and ACCENTI.
fn after_text<'a>(words: &'a [Token<'a>]) -> Result<&'a [Token<'a>], SyntaxFault>
    ensures ok { IfOk result (λ rest. IsTextLiteral words.now rest.now) }
    ensures reads { (after : List Token) → IsTextLiteral words.now after → MatchResult result (λ rest. rest.now ≡ after) (λ fault. ⊥) }
{
    let (_folding, depth, inner) = openings(words, MAX_NESTED_CLAUSES)?;
    let (_spelling, rest) = spelling(inner)?;
    let rest = closings(rest, depth)?;
    Ok(rest)
}

/// Reads a predicate about the string literal at the start, after the literal.
fn of_text<'a, A: Allocator + Copy>(
    alloc: A,
    start: &'a [Token<'a>],
    words: &'a [Token<'a>],
) -> Result<(Filter<A>, &'a [Token<'a>]), SyntaxFault>
    ensures ok { IfOk result (λ read. SpellsOfText start.now words.now read.1.now read.0) }
    ensures reads { (rest : List Token) (made : Filter A) → SpellsOfText start.now words.now rest made → IsRead result rest made }
{
    match next(words) {
        Some((Token::Compared(comparison), after)) => {
            let (filter, rest) = exchanged_comparison(alloc, start, words, comparison, after)?;
            Ok((filter, rest))
        }
        Some((Token::Keyword(Keyword::Not), after)) => {
            let (inner, rest) = among(alloc, start, after, Construct::Negatable)?;
            let filter = negation(alloc, inner)?;
            Ok((filter, rest))
        }
        _ => {
            let (filter, rest) = among(alloc, start, words, Construct::Operator)?;
            Ok((filter, rest))
        }
    }
}

/// Compares the string literal at the start with the column that the tokens begin with. The column comes first in the filter.
fn exchanged_comparison<'a, A: Allocator + Copy>(
    alloc: A,
    start: &'a [Token<'a>],
    operator: &'a [Token<'a>],
    comparison: Comparison,
    words: &'a [Token<'a>],
) -> Result<(Filter<A>, &'a [Token<'a>]), SyntaxFault>
    ensures ok { IfOk result (λ read. SpellsExchangedComparison start.now comparison words.now read.1.now read.0) }
    ensures reads { (rest : List Token) (made : Filter A) → SpellsExchangedComparison start.now comparison words.now rest made
        → IsRead result rest made }
{
    let (subject, rest) = read_subject(words, Construct::Column)?;
    let comparison = converse(comparison);
    if !is_compared(subject, comparison) {
        return Err(SyntaxFault::at(operator, FilterFaultKind::Folded));
    }
    let (filter, _after) = subject_comparison(alloc, subject, comparison, start)?;
    Ok((filter, rest))
}

/// Reads the columns in parentheses, one of which the string literal at the start equals.
fn among<'a, A: Allocator + Copy>(
    alloc: A,
    start: &'a [Token<'a>],
    words: &'a [Token<'a>],
    expected: Construct,
) -> Result<(Filter<A>, &'a [Token<'a>]), SyntaxFault>
    ensures ok { IfOk result (λ read. SpellsTextAmong start.now words.now read.1.now read.0) }
    ensures reads { (rest : List Token) (made : Filter A) → SpellsTextAmong start.now words.now rest made → IsRead result rest made }
{
    let Some((Token::Keyword(Keyword::In), after)) = next(words) else {
        return Err(SyntaxFault::unexpected_token(words, expected));
    };
    let inner = expect(after, Terminal::Opening)?;
    let (filter, rest) = list(alloc, start, inner)?;
    let rest = expect(rest, Terminal::Closing)?;
    Ok((filter, rest))
}

/// Reads a list of columns, one of which the string literal at the start equals.
fn list<'a, A: Allocator + Copy>(
    alloc: A,
    start: &'a [Token<'a>],
    words: &'a [Token<'a>],
) -> Result<(Filter<A>, &'a [Token<'a>]), SyntaxFault>
    ensures ok { IfOk result (λ read. SpellsList (SpellsExchangedComparison start.now Equal) words.now read.1.now read.0) }
    ensures reads { (rest : List Token) (made : Filter A) → SpellsList (SpellsExchangedComparison start.now Equal) words.now (token.Close ∷ rest) made
        → IsRead result (token.Close ∷ rest) made }
{
    let (mut filter, mut rest) = exchanged_comparison(
        alloc,
        start,
        start,
        Comparison::Equal,
        words,
    )?;
    while let Some((Token::Comma, after)) = next(rest) {
        let (second, after) = exchanged_comparison(alloc, start, start, Comparison::Equal, after)?;
        filter = either(alloc, filter, second)?;
        rest = after;
    }
    Ok((filter, rest))
}
