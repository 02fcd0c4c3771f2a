//! Predicates about a text or a number.
ghost use Rattle.std.specs.Prelude.{◌≡◌, ◌≢◌, ◌∷◌, true, List, IfOk, MatchOption};
ghost use Rattle.cql2.specs.declared.column.Column.TheVariants as column;
ghost use Rattle.cql2.specs.declared.column.NumericColumn.{NumericColumn};
ghost use Rattle.cql2.specs.declared.filter.Filter.{Filter};
ghost use Rattle.cql2_text.specs.Predicate.{SpellsRelation};
ghost use Rattle.cql2_text.specs.Read.{IsRead};
ghost use Rattle.cql2_text.specs.Scan.{begins_operand};
ghost use Rattle.cql2_tokens.specs.declared.token.Keyword.TheVariants as word;
ghost use Rattle.cql2_tokens.specs.declared.token.Token.{Token};
ghost use Rattle.cql2_tokens.specs.declared.token.Token.TheVariants as token;

use crate::fault::Construct;
use crate::numeric::of_number;
use crate::predicate::{null, of_subject, read_subject};
use crate::syntax_fault::SyntaxFault;
use crate::terminal::next;
use crate::text_first::{begins_text, text_first};
use cql2::{Column, Filter, NumericColumn};
use cql2_tokens::{Keyword, Token};
use std::alloc::Allocator;

/// Reads a predicate that begins with a column, a literal or an expression.
pub(crate) fn relation<'a, A: Allocator + Copy>(
    alloc: A,
    words: &'a [Token<'a>],
) -> Result<(Filter<A>, &'a [Token<'a>]), SyntaxFault>
    ensures ok { IfOk result (λ read. SpellsRelation words.now read.1.now read.0) }
    ensures reads { (rest : List Token) (made : Filter A) → SpellsRelation words.now rest made → IsRead result rest made }
{
    if begins_operand(words) {
        return number_first(alloc, words);
    }
    if begins_text(words) {
        return text_first(alloc, words);
    }
    let (subject, after) = read_subject(words, Construct::Predicate)?;
    let (filter, rest) = of_subject(alloc, subject, after)?;
    Ok((filter, rest))
}

/// Returns whether the tokens begin like a numeric expression.
fn begins_operand(words: &[Token]) -> bool
    ensures { result ≡ begins_operand words.now }
{
    match next(words) {
        Some((Token::Number(_numeral), _rest)) => true,
        Some((Token::Sign(_sign), _rest)) => true,
        Some((Token::Open, _rest)) => true,
        Some((Token::Column(Column::Numeric(_column)), _rest)) => true,
        _ => false,
    }
}

/// Reads a predicate that begins with a numeric expression.
fn number_first<'a, A: Allocator + Copy>(
    alloc: A,
    words: &'a [Token<'a>],
) -> Result<(Filter<A>, &'a [Token<'a>]), SyntaxFault>
    requires { begins_operand words.now ≡ true }
    ensures ok { IfOk result (λ read. SpellsRelation words.now read.1.now read.0) }
    ensures reads { (rest : List Token) (made : Filter A) → SpellsRelation words.now rest made → IsRead result rest made }
{
    match column_before_is(words) {
        Some((column, after)) => {
            let (filter, rest) = null(alloc, Column::Numeric(column), after)?;
            Ok((filter, rest))
        }
        None => {
            let (filter, rest) = of_number(alloc, words)?;
            Ok((filter, rest))
        }
    }
}

/// Returns the numeric column that the tokens begin with and the tokens after IS, if IS follows the column.
fn column_before_is<'a>(words: &'a [Token<'a>]) -> Option<(NumericColumn, &'a [Token<'a>])>
    ensures { MatchOption result
        ((c : NumericColumn) (rest : List Token) → words.now ≢ token.Column (column.Numeric c) ∷ token.Keyword word.Is ∷ rest)
        (λ read. words.now ≡ token.Column (column.Numeric read.0) ∷ token.Keyword word.Is ∷ read.1.now) }
{
    match next(words) {
        Some((Token::Column(Column::Numeric(column)), after)) => match next(after) {
            Some((Token::Keyword(Keyword::Is), rest)) => Some((column, rest)),
            _ => None,
        },
        _ => None,
    }
}
