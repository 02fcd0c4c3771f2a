//! Predicates about texts: comparisons, LIKE, IN and IS NULL (CQL2, 21-065r2, annex B).
//!
//! Their subject is a text column, alone or in CASEI and ACCENTI. There, `=`, `<>` and IN become LIKE with a pattern without wildcards, so a
//! filter has one way to compare texts whose case or accents don't matter.
//!
//! As everywhere in this crate, a function returns what it read with the tokens after it. The tokens in between spell what was read (`ok`), and
//! what tokens spell is read (`reads`), so a filter has one reading.
ghost use Rattle.std.specs.Prelude.{◌≡◌, ◌≢◌, ◌∷◌, ◌≤◌, List, IfOk, Err, MatchResult};
ghost use Rattle.tl_segments.specs.declared.name.TheConstants.{NAME_LENGTH};
ghost use Rattle.cql2.specs.declared.column.TextColumn.{TextColumn};
ghost use Rattle.cql2.specs.declared.filter.Comparison.TheVariants.{Equal};
ghost use Rattle.cql2.specs.declared.filter.Filter.{Filter};
ghost use Rattle.cql2.specs.declared.filter.Filter.TheVariants as filter;
ghost use Rattle.cql2.specs.declared.pattern.Folding.{Folding as AFolding};
ghost use Rattle.cql2.specs.declared.pattern.Pattern.{Pattern as APattern};
ghost use Rattle.cql2_text.specs.declared.predicate.CharacterExpression.{CharacterExpression};
ghost use Rattle.cql2_text.specs.Read.{IsRead};
ghost use Rattle.cql2_text.specs.Clause.{IsClause};
ghost use Rattle.cql2_text.specs.Predicate.{IsSubject, IsTextColumn, IsLikeColumn, is_compared, SpellsComparison, SpellsList, SpellsLike, SpellsNull};
ghost use Rattle.cql2_text.specs.Predicate.{SpellsTextComparison};
ghost use Rattle.cql2_text.specs.Predicate.{SpellsNegatable, SpellsOf, column_of, width_of};
ghost use Rattle.cql2_text.specs.declared.syntax_fault.SyntaxFault.TheVariants as syntax_fault;
ghost use Rattle.cql2_tokens.specs.declared.token.Keyword.TheVariants as word;
ghost use Rattle.cql2_tokens.specs.declared.token.Token.{Token};
ghost use Rattle.cql2_tokens.specs.declared.token.Token.TheVariants as token;
ghost use Rattle.cql2_text.specs.declared.predicate.CharacterExpression.TheVariants as subject;

use crate::clause::{MAX_NESTED_CLAUSES, NOTHING, closings, openings, same_openings};
use crate::connective::{either, negation};
use crate::fault::{Construct, FilterFaultKind};
use crate::operand::{spelling, text};
use crate::pattern::{pattern, same_but_for};
use crate::syntax_fault::SyntaxFault;
use crate::terminal::{Terminal, expect, next};
use cql2::{Column, Comparison, Filter, Folding, Pattern, TextColumn};
use cql2_tokens::{Keyword, Token};
use std::alloc::Allocator;

/// The subject of a predicate about a text.
#[derive(Clone, Copy)]
pub(crate) enum CharacterExpression {
    Text(TextColumn),
    /// A column in CASEI and ACCENTI, of which they ignore this.
    Folded(Folding, TextColumn),
}

/// Reads a text column, or one in CASEI and ACCENTI. Other tokens are refused, since this is expected there.
pub(crate) fn read_subject<'a>(
    words: &'a [Token<'a>],
    expected: Construct,
) -> Result<(CharacterExpression, &'a [Token<'a>]), SyntaxFault>
    ensures ok { IfOk result (λ read. IsSubject read.0 words.now read.1.now) }
    ensures reads { (s : CharacterExpression) (rest : List Token) → IsSubject s words.now rest
        → MatchResult result (λ read. (read.0 ≡ s) × (read.1.now ≡ rest)) (λ fault. ⊥) }
{
    match next(words) {
        Some((Token::Column(Column::Text(column)), rest)) => Ok((
            CharacterExpression::Text(column),
            rest,
        )),
        Some((Token::Column(_column), _rest)) => {
            Err(SyntaxFault::at(words, FilterFaultKind::WrongType))
        }
        Some((Token::UnknownColumn, _rest)) => {
            Err(SyntaxFault::at(words, FilterFaultKind::UnknownColumn))
        }
        _ => {
            let (folding, column, rest) = folded_column(words, expected)?;
            Ok((CharacterExpression::Folded(folding, column), rest))
        }
    }
}

/// Reads a text column in CASEI and ACCENTI. Tokens without both are refused, since something else is expected there.
fn folded_column<'a>(
    words: &'a [Token<'a>],
    expected: Construct,
) -> Result<(Folding, TextColumn, &'a [Token<'a>]), SyntaxFault>
    ensures ok { IfOk result (λ read. IsClause (IsTextColumn read.1) read.0 words.now read.2.now) }
    ensures reads { (folding : AFolding) (c : TextColumn) (rest : List Token) → IsClause (IsTextColumn c) folding words.now rest
        → MatchResult result (λ read. (read.0 ≡ folding) × (read.1 ≡ c) × (read.2.now ≡ rest)) (λ fault. ⊥) }
{
    let (folding, depth, inner) = openings(words, MAX_NESTED_CLAUSES)?;
    if depth == 0 {
        return Err(SyntaxFault::unexpected_token(words, expected));
    }
    let (column, rest) = text_column(inner)?;
    let rest = closings(rest, depth)?;
    Ok((folding, column, rest))
}

/// Takes a text column and returns it with the tokens after it.
fn text_column<'a>(words: &'a [Token<'a>]) -> Result<(TextColumn, &'a [Token<'a>]), SyntaxFault>
    ensures { MatchResult result (λ read. IsTextColumn read.0 words.now read.1.now)
        (λ fault. (c : TextColumn) (rest : List Token) → IsTextColumn c words.now rest → ⊥) }
{
    match next(words) {
        Some((Token::Column(Column::Text(column)), rest)) => Ok((column, rest)),
        Some((Token::Column(_column), _rest)) => {
            Err(SyntaxFault::at(words, FilterFaultKind::WrongType))
        }
        Some((Token::UnknownColumn, _rest)) => {
            Err(SyntaxFault::at(words, FilterFaultKind::UnknownColumn))
        }
        _ => Err(SyntaxFault::unexpected_token(words, Construct::Column)),
    }
}

/// Reads a predicate about a subject, after the subject.
pub(crate) fn of_subject<'a, A: Allocator + Copy>(
    alloc: A,
    subject: CharacterExpression,
    words: &'a [Token<'a>],
) -> Result<(Filter<A>, &'a [Token<'a>]), SyntaxFault>
    ensures ok { IfOk result (λ read. SpellsOf subject words.now read.1.now read.0) }
    ensures reads { (rest : List Token) (made : Filter A) → SpellsOf subject words.now rest made → IsRead result rest made }
{
    match next(words) {
        Some((Token::Compared(comparison), after)) => {
            if !is_compared(subject, comparison) {
                return Err(SyntaxFault::at(words, FilterFaultKind::Folded));
            }
            let (filter, rest) = subject_comparison(alloc, subject, comparison, after)?;
            Ok((filter, rest))
        }
        Some((Token::Keyword(Keyword::Is), after)) => {
            let Some(column) = column_of(subject) else {
                return Err(SyntaxFault::at(after, FilterFaultKind::Folded));
            };
            let (filter, rest) = null(alloc, column, after)?;
            Ok((filter, rest))
        }
        Some((Token::Keyword(Keyword::Not), after)) => {
            let (inner, rest) = negatable(alloc, subject, after, Construct::Negatable)?;
            let filter = negation(alloc, inner)?;
            Ok((filter, rest))
        }
        _ => {
            let (filter, rest) = negatable(alloc, subject, words, Construct::Operator)?;
            Ok((filter, rest))
        }
    }
}

/// Returns whether a subject allows this comparison. CASEI and ACCENTI allow only `=` and `<>`.
pub(crate) fn is_compared(subject: CharacterExpression, comparison: Comparison) -> bool
    ensures { result ≡ is_compared subject comparison }
{
    match (subject, comparison) {
        (CharacterExpression::Folded(_folding, _column), Comparison::Equal) => true,
        (CharacterExpression::Folded(_folding, _column), Comparison::NotEqual) => true,
        (CharacterExpression::Folded(_folding, _column), _) => false,
        _ => true,
    }
}

/// Reads NULL or NOT NULL, after IS.
pub(crate) fn null<'a, A: Allocator + Copy>(
    alloc: A,
    column: Column,
    words: &'a [Token<'a>],
) -> Result<(Filter<A>, &'a [Token<'a>]), SyntaxFault>
    ensures ok { IfOk result (λ read. SpellsNull column words.now read.1.now read.0) }
    ensures reads { (rest : List Token) (made : Filter A) → SpellsNull column words.now rest made → IsRead result rest made }
{
    match next(words) {
        Some((Token::Keyword(Keyword::Null), rest)) => Ok((Filter::IsNull(column), rest)),
        Some((Token::Keyword(Keyword::Not), after)) => {
            let rest = expect(after, Terminal::Null)?;
            let filter = negation(alloc, Filter::IsNull(column))?;
            Ok((filter, rest))
        }
        _ => Err(SyntaxFault::unexpected_token(words, Construct::Null)),
    }
}

/// Returns the column of a subject that isn't in CASEI or ACCENTI.
fn column_of(subject: CharacterExpression) -> Option<Column>
    ensures { result ≡ column_of subject }
{
    match subject {
        CharacterExpression::Text(column) => Some(Column::Text(column)),
        CharacterExpression::Folded(_folding, _column) => None,
    }
}

/// Reads the predicates about a text that NOT may precede: LIKE and IN.
fn negatable<'a, A: Allocator + Copy>(
    alloc: A,
    subject: CharacterExpression,
    words: &'a [Token<'a>],
    expected: Construct,
) -> Result<(Filter<A>, &'a [Token<'a>]), SyntaxFault>
    ensures ok { IfOk result (λ read. SpellsNegatable subject words.now read.1.now read.0) }
    ensures reads { (rest : List Token) (made : Filter A) → SpellsNegatable subject words.now rest made → IsRead result rest made }
{
    match next(words) {
        Some((Token::Keyword(Keyword::Like), after)) => match subject {
            CharacterExpression::Text(column) => {
                let (filter, rest) = like(alloc, column, after)?;
                Ok((filter, rest))
            }
            CharacterExpression::Folded(folding, column) => {
                let (filter, rest) = folded_like(alloc, folding, column, after)?;
                Ok((filter, rest))
            }
        },
        Some((Token::Keyword(Keyword::Between), _after)) => match subject {
            CharacterExpression::Text(_column) => Err(SyntaxFault::at(
                words,
                FilterFaultKind::WrongType,
            )),
            CharacterExpression::Folded(_folding, _column) => {
                Err(SyntaxFault::at(words, FilterFaultKind::Folded))
            }
        },
        Some((Token::Keyword(Keyword::In), after)) => {
            let (filter, rest) = among(alloc, subject, after)?;
            Ok((filter, rest))
        }
        _ => Err(SyntaxFault::unexpected_token(words, expected)),
    }
}

/// Compares a subject with the text that the tokens begin with.
pub(crate) fn subject_comparison<'a, A: Allocator + Copy>(
    alloc: A,
    subject: CharacterExpression,
    comparison: Comparison,
    words: &'a [Token<'a>],
) -> Result<(Filter<A>, &'a [Token<'a>]), SyntaxFault>
    ensures ok { IfOk result (λ read. SpellsComparison subject comparison words.now read.1.now read.0) }
    ensures reads { (rest : List Token) (made : Filter A) → SpellsComparison subject comparison words.now rest made
        → IsRead result rest made }
{
    match subject {
        CharacterExpression::Text(column) => {
            let (filter, rest) = compared_text(alloc, column, comparison, words)?;
            Ok((filter, rest))
        }
        CharacterExpression::Folded(folding, column) => {
            let (filter, rest) = folded_same(alloc, folding, column, words)?;
            match comparison {
                Comparison::Equal => Ok((filter, rest)),
                Comparison::NotEqual => {
                    let filter = negation(alloc, filter)?;
                    Ok((filter, rest))
                }
                _ => Err(SyntaxFault::at(words, FilterFaultKind::Folded)),
            }
        }
    }
}

/// Compares a text column with the literal or text column that the tokens begin with.
fn compared_text<'a, A: Allocator + Copy>(
    alloc: A,
    column: TextColumn,
    comparison: Comparison,
    words: &'a [Token<'a>],
) -> Result<(Filter<A>, &'a [Token<'a>]), SyntaxFault>
    ensures ok { IfOk result (λ read. SpellsTextComparison column comparison words.now read.1.now read.0) }
    ensures reads { (rest : List Token) (made : Filter A) → SpellsTextComparison column comparison words.now rest made
        → IsRead result rest made }
{
    match next(words) {
        Some((Token::Column(Column::Text(other)), rest)) => {
            Ok((Filter::CompareTexts(column, comparison, other), rest))
        }
        _ => {
            let (text, rest) = text(alloc, width(column), words)?;
            Ok((Filter::CompareText(column, comparison, text), rest))
        }
    }
}

/// Returns the number of bytes in a column.
pub(crate) fn width(column: TextColumn) -> usize
    ensures value { result ≡ width_of column }
    ensures small { result ≤ NAME_LENGTH }
{
    let places = column.places();
    places.1 + 1 - places.0
}

/// Reads a text in CASEI and ACCENTI, which the column equals but for what they ignore.
fn folded_same<'a, A: Allocator + Copy>(
    alloc: A,
    folding: Folding,
    column: TextColumn,
    words: &'a [Token<'a>],
) -> Result<(Filter<A>, &'a [Token<'a>]), SyntaxFault>
    ensures ok { IfOk result (λ read. SpellsComparison (subject.Folded folding column) Equal words.now read.1.now read.0) }
    ensures reads { (rest : List Token) (made : Filter A) → SpellsComparison (subject.Folded folding column) Equal words.now rest made
        → IsRead result rest made }
{
    let (depth, words) = same_openings(folding, words)?;
    let (text, rest) = text(alloc, width(column), words)?;
    let rest = closings(rest, depth)?;
    match same_but_for(alloc, folding, &text.bytes) {
        Ok(pattern) => Ok((Filter::Like(column, pattern), rest)),
        Err(flaw) => Err(SyntaxFault::in_text(words, flaw)),
    }
}

/// Reads a pattern for a column.
fn column_pattern<'a, A: Allocator + Copy>(
    alloc: A,
    column: TextColumn,
    folding: Folding,
    words: &'a [Token<'a>],
) -> Result<(Pattern<A>, &'a [Token<'a>]), SyntaxFault>
    ensures ok { IfOk result (λ read. IsLikeColumn column folding words.now read.1.now read.0) }
    ensures reads { (rest : List Token) (pattern : APattern A) → IsLikeColumn column folding words.now rest pattern
        → MatchResult result (λ read. (read.1.now ≡ rest) × (read.0.parts.items ≡ pattern.parts.items)) (λ fault. fault ≡ syntax_fault.Memory) }
{
    let (spelling, rest) = spelling(words)?;
    match pattern(alloc, spelling, folding, width(column)) {
        Ok(pattern) => Ok((pattern, rest)),
        Err(flaw) => Err(SyntaxFault::in_text(words, flaw)),
    }
}

/// Reads a pattern that the column matches.
fn like<'a, A: Allocator + Copy>(
    alloc: A,
    column: TextColumn,
    words: &'a [Token<'a>],
) -> Result<(Filter<A>, &'a [Token<'a>]), SyntaxFault>
    ensures ok { IfOk result (λ read. SpellsLike (subject.Text column) words.now read.1.now read.0) }
    ensures reads { (rest : List Token) (made : Filter A) → SpellsLike (subject.Text column) words.now rest made → IsRead result rest made }
{
    let (pattern, rest) = column_pattern(alloc, column, NOTHING, words)?;
    Ok((Filter::Like(column, pattern), rest))
}

/// Reads a pattern in CASEI and ACCENTI, which the column matches but for what they ignore.
fn folded_like<'a, A: Allocator + Copy>(
    alloc: A,
    folding: Folding,
    column: TextColumn,
    words: &'a [Token<'a>],
) -> Result<(Filter<A>, &'a [Token<'a>]), SyntaxFault>
    ensures ok { IfOk result (λ read. SpellsLike (subject.Folded folding column) words.now read.1.now read.0) }
    ensures reads { (rest : List Token) (made : Filter A) → SpellsLike (subject.Folded folding column) words.now rest made
        → IsRead result rest made }
{
    let (depth, words) = same_openings(folding, words)?;
    let (pattern, rest) = column_pattern(alloc, column, folding, words)?;
    let rest = closings(rest, depth)?;
    Ok((Filter::Like(column, pattern), rest))
}

/// Reads the texts in parentheses, one of which the subject equals.
fn among<'a, A: Allocator + Copy>(
    alloc: A,
    subject: CharacterExpression,
    words: &'a [Token<'a>],
) -> Result<(Filter<A>, &'a [Token<'a>]), SyntaxFault>
    ensures ok { IfOk result (λ read. SpellsNegatable subject (token.Keyword word.In ∷ words.now) read.1.now read.0) }
    ensures reads { (rest : List Token) (made : Filter A) → SpellsNegatable subject (token.Keyword word.In ∷ words.now) rest made
        → IsRead result rest made }
{
    let inner = expect(words, Terminal::Opening)?;
    let (filter, rest) = list(alloc, subject, inner)?;
    let rest = expect(rest, Terminal::Closing)?;
    Ok((filter, rest))
}

/// Reads a list of texts, one of which the subject equals.
fn list<'a, A: Allocator + Copy>(
    alloc: A,
    subject: CharacterExpression,
    words: &'a [Token<'a>],
) -> Result<(Filter<A>, &'a [Token<'a>]), SyntaxFault>
    ensures ok { IfOk result (λ read. SpellsList (SpellsComparison subject Equal) words.now read.1.now read.0) }
    ensures reads { (rest : List Token) (made : Filter A) → SpellsList (SpellsComparison subject Equal) words.now (token.Close ∷ rest) made
        → IsRead result (token.Close ∷ rest) made }
{
    let (mut filter, mut rest) = subject_comparison(alloc, subject, Comparison::Equal, words)?;
    while let Some((Token::Comma, after)) = next(rest) {
        let (second, after) = subject_comparison(alloc, subject, Comparison::Equal, after)?;
        filter = either(alloc, filter, second)?;
        rest = after;
    }
    Ok((filter, rest))
}
