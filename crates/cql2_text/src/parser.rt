//! Parsing tokens into a filter.
//!
//! Chains of AND and OR lean to the left and are read by loops, so only parentheses lead deeper.
ghost use Rattle.std.specs.Prelude.{◌≡◌, ◌<◌, [], true, List, length, IfOk, Err, MatchResult};
ghost use Rattle.cql2.specs.declared.filter.Filter.{Filter};
ghost use Rattle.cql2_text.specs.Content.{content};
ghost use Rattle.cql2_text.specs.Parenthesis.{opens_filter};
ghost use Rattle.cql2_text.specs.Read.{IsRead, IsNotNext};
ghost use Rattle.cql2_tokens.specs.declared.token.Keyword.TheVariants as word;
ghost use Rattle.cql2_text.specs.Spelled.{Expression, Term, Factor, Primary, Spells, SpellsPredicate};
ghost use Rattle.cql2_text.specs.declared.syntax_fault.SyntaxFault.TheVariants as syntax_fault;
ghost use Rattle.cql2_tokens.specs.declared.token.Token.{Token};

use crate::connective::{both, either, negation};
use crate::fault::{Construct, FilterFaultKind};
use crate::function::function;
use crate::parenthesis::opens_filter;
use crate::relation::relation;
use crate::syntax_fault::SyntaxFault;
use crate::terminal::{Terminal, expect, next};
use cql2::Filter;
use cql2_tokens::{Keyword, Token};
use std::alloc::Allocator;

/// The maximum number of open parentheses.
// The parser calls itself for each, so this limits its stack.
const MAX_NESTED_PARENTHESES: u32 = 64;

/// Returns the filter that all the tokens spell.
pub(crate) fn filter<'a, A: Allocator + Copy>(
    alloc: A,
    words: &'a [Token<'a>],
) -> Result<Filter<A>, SyntaxFault>
    ensures ok { IfOk result (Spells 64 Expression words.now []) }
    ensures reads { (made : Filter A) → Spells 64 Expression words.now [] made
        → MatchResult result (λ read. content read ≡ content made) (λ fault. fault ≡ syntax_fault.Memory) }
{
    let (filter, rest) = expression(alloc, words, MAX_NESTED_PARENTHESES)?;
    if rest.is_empty() {
        return Ok(filter);
    }
    Err(SyntaxFault::unexpected_token(rest, Construct::End))
}

/// Reads terms joined by OR.
#[cycle(parsing)]
fn expression<'a, A: Allocator + Copy>(
    alloc: A,
    words: &'a [Token<'a>],
    depth: u32,
) -> Result<(Filter<A>, &'a [Token<'a>]), SyntaxFault>
    requires { depth < 1000 }
    ensures ok { IfOk result (λ read. Spells depth Expression words.now read.1.now read.0) }
    ensures reads { (rest : List Token) (made : Filter A) → IsNotNext word.And rest → IsNotNext word.Or rest
        → Spells depth Expression words.now rest made → IsRead result rest made }
{
    let (mut filter, mut rest) = term(alloc, words, depth)?;
    while let Some((Token::Keyword(Keyword::Or), after)) = next(rest) {
        let (second, after) = term(alloc, after, depth)?;
        filter = either(alloc, filter, second)?;
        rest = after;
    }
    Ok((filter, rest))
}

/// Reads factors joined by AND.
#[cycle(parsing)]
fn term<'a, A: Allocator + Copy>(
    alloc: A,
    words: &'a [Token<'a>],
    depth: u32,
) -> Result<(Filter<A>, &'a [Token<'a>]), SyntaxFault>
    requires { depth < 1000 }
    ensures ok { IfOk result (λ read. Spells depth Term words.now read.1.now read.0) }
    ensures reads { (rest : List Token) (made : Filter A) → IsNotNext word.And rest → Spells depth Term words.now rest made
        → IsRead result rest made }
{
    let (mut filter, mut rest) = factor(alloc, words, depth)?;
    while let Some((Token::Keyword(Keyword::And), after)) = next(rest) {
        let (second, after) = factor(alloc, after, depth)?;
        filter = both(alloc, filter, second)?;
        rest = after;
    }
    Ok((filter, rest))
}

/// Reads a primary, or NOT and a primary.
#[cycle(parsing)]
fn factor<'a, A: Allocator + Copy>(
    alloc: A,
    words: &'a [Token<'a>],
    depth: u32,
) -> Result<(Filter<A>, &'a [Token<'a>]), SyntaxFault>
    requires { depth < 1000 }
    ensures ok { IfOk result (λ read. Spells depth Factor words.now read.1.now read.0) }
    ensures reads { (rest : List Token) (made : Filter A) → Spells depth Factor words.now rest made → IsRead result rest made }
{
    match next(words) {
        Some((Token::Keyword(Keyword::Not), after)) => {
            let (inner, rest) = primary(alloc, after, depth)?;
            let filter = negation(alloc, inner)?;
            Ok((filter, rest))
        }
        _ => {
            let (filter, rest) = primary(alloc, words, depth)?;
            Ok((filter, rest))
        }
    }
}

/// Reads an expression in parentheses, or a predicate.
#[cycle(parsing)]
fn primary<'a, A: Allocator + Copy>(
    alloc: A,
    words: &'a [Token<'a>],
    depth: u32,
) -> Result<(Filter<A>, &'a [Token<'a>]), SyntaxFault>
    requires { depth < 1000 }
    ensures ok { IfOk result (λ read. Spells depth Primary words.now read.1.now read.0) }
    ensures reads { (rest : List Token) (made : Filter A) → Spells depth Primary words.now rest made → IsRead result rest made }

    // A filter's parenthesis is refused if the maximum number of parentheses is already open.
    ensures too_deep { depth ≡ 0 → opens_filter words.now ≡ true
        → result ≡ Err (syntax_fault.At (length words.now) 0 FilterFaultKind.TooDeep) }
{
    match next(words) {
        Some((Token::Open, after)) => {
            if !opens_filter(after) {
                return predicate(alloc, words);
            }
            if depth == 0 {
                return Err(SyntaxFault::at(words, FilterFaultKind::TooDeep));
            }
            let (filter, rest) = expression(alloc, after, depth - 1)?;
            let rest = expect(rest, Terminal::Closing)?;
            Ok((filter, rest))
        }
        _ => {
            let (filter, rest) = predicate(alloc, words)?;
            Ok((filter, rest))
        }
    }
}

/// Reads a predicate, a function, TRUE or FALSE.
fn predicate<'a, A: Allocator + Copy>(
    alloc: A,
    words: &'a [Token<'a>],
) -> Result<(Filter<A>, &'a [Token<'a>]), SyntaxFault>
    ensures ok { IfOk result (λ read. SpellsPredicate words.now read.1.now read.0) }
    ensures reads { (rest : List Token) (made : Filter A) → SpellsPredicate words.now rest made → IsRead result rest made }
{
    match next(words) {
        Some((Token::Keyword(Keyword::True), rest)) => Ok((Filter::Constant(true), rest)),
        Some((Token::Keyword(Keyword::False), rest)) => Ok((Filter::Constant(false), rest)),
        Some((Token::Keyword(Keyword::Function(name)), after)) => {
            let (filter, rest) = function(alloc, name, after)?;
            Ok((filter, rest))
        }
        _ => {
            let (filter, rest) = relation(alloc, words)?;
            Ok((filter, rest))
        }
    }
}
