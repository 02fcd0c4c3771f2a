//! Functions.
ghost use Rattle.std.specs.Prelude.{◌≡◌, ◌∷◌, List, IfOk, MatchResult};
ghost use Rattle.cql2.specs.declared.filter.Filter.{Filter};
ghost use Rattle.cql2.specs.declared.number.NameLimit.{NameLimit as ALimit};
ghost use Rattle.cql2_text.specs.Function.{SpellsDisjoint, SpellsFunction, SpellsHasName, SpellsHasNumber, SpellsIntersects, SpellsLimit};
ghost use Rattle.cql2_text.specs.Function.{SpellsOperands, SpellsStartsIn, SpellsWithin};
ghost use Rattle.cql2_text.specs.Geometry.{ShapeContent, shape_content};
ghost use Rattle.cql2_text.specs.Read.{IsNotNext, IsRead, IsReadAs};
ghost use Rattle.cql2_text.specs.declared.syntax_fault.SyntaxFault.TheVariants as syntax_fault;
ghost use Rattle.cql2_tokens.specs.declared.token.Keyword.TheVariants as word;
ghost use Rattle.cql2_tokens.specs.declared.token.ShapeTag.TheVariants as tag;
ghost use Rattle.cql2_tokens.specs.declared.token.Token.{Token};
ghost use Rattle.cql2_tokens.specs.declared.token.Token.TheVariants as token;

use crate::connective::negation;
use crate::fault::Construct;
use crate::literal::{house_number, name_limit};
use crate::operand::{numeral, text};
use crate::shape::{bounds, shape};
use crate::syntax_fault::SyntaxFault;
use crate::terminal::{Terminal, expect, next};
use cql2::{Filter, Function, NameLimit, Shape};
use cql2_tokens::{FunctionName, Keyword, Token};
use std::alloc::Allocator;
use tl_segments::NAME_LENGTH;

/// The default number of alternate names to check.
const NAMES: u16 = 63;

/// Reads a function after its name.
pub(crate) fn function<'a, A: Allocator + Copy>(
    alloc: A,
    name: FunctionName,
    words: &'a [Token<'a>],
) -> Result<(Filter<A>, &'a [Token<'a>]), SyntaxFault>
    ensures ok { IfOk result (λ read. SpellsFunction name words.now read.1.now read.0) }
    ensures reads { (rest : List Token) (made : Filter A) → SpellsFunction name words.now rest made → IsRead result rest made }
{
    match name {
        FunctionName::HasNumber => has_number(words),
        FunctionName::HasName => has_name(alloc, words),
        FunctionName::StartsIn => starts_in(alloc, words),
        FunctionName::Intersects => intersects(alloc, words),
        FunctionName::Disjoint => disjoint(alloc, words),
        FunctionName::Within => lies_within(alloc, words),
    }
}

/// Reads a house number in parentheses, after HAS_NUMBER.
fn has_number<'a, A: Allocator + Copy>(
    words: &'a [Token<'a>],
) -> Result<(Filter<A>, &'a [Token<'a>]), SyntaxFault>
    ensures ok { IfOk result (λ read. SpellsHasNumber words.now read.1.now read.0) }
    ensures reads { (rest : List Token) (made : Filter A) → SpellsHasNumber words.now rest made → IsRead result rest made }
{
    let words = expect(words, Terminal::Opening)?;
    let (numeral, rest) = numeral(words)?;
    let rest = expect(rest, Terminal::Closing)?;
    match house_number(numeral) {
        Ok(number) => Ok((Filter::Function(Function::HasNumber(number)), rest)),
        Err(flaw) => Err(SyntaxFault::at(words, flaw)),
    }
}

/// Reads a name in parentheses, and the number of alternate names to check, after HAS_NAME.
fn has_name<'a, A: Allocator + Copy>(
    alloc: A,
    words: &'a [Token<'a>],
) -> Result<(Filter<A>, &'a [Token<'a>]), SyntaxFault>
    ensures ok { IfOk result (λ read. SpellsHasName words.now read.1.now read.0) }
    ensures reads { (rest : List Token) (made : Filter A) → SpellsHasName words.now rest made → IsRead result rest made }
{
    let words = expect(words, Terminal::Opening)?;
    // A name, not a pattern: each of a segment's names would need a grid of tests of its own.
    let (name, rest) = text(alloc, NAME_LENGTH, words)?;
    let (limit, rest) = names(rest)?;
    let rest = expect(rest, Terminal::Closing)?;
    Ok((Filter::Function(Function::HasName(name, limit)), rest))
}

/// Reads the number of alternate names to check, if a comma follows. Otherwise returns the default.
fn names<'a>(words: &'a [Token<'a>]) -> Result<(NameLimit, &'a [Token<'a>]), SyntaxFault>
    ensures ok { IfOk result (λ read. SpellsLimit words.now read.1.now read.0) }
    ensures reads { (rest : List Token) (limit : ALimit) → SpellsLimit words.now (token.Close ∷ rest) limit
        → MatchResult result (λ read. (read.1.now ≡ token.Close ∷ rest) × (read.0.number ≡ limit.number)) (λ fault. ⊥) }
{
    match next(words) {
        Some((Token::Comma, words)) => {
            let (numeral, rest) = numeral(words)?;
            match name_limit(numeral) {
                Ok(limit) => Ok((limit, rest)),
                Err(flaw) => Err(SyntaxFault::at(words, flaw)),
            }
        }
        _ => Ok((NameLimit { number: NAMES }, words)),
    }
}

/// Reads a box or polygons in parentheses, after STARTS_IN.
fn starts_in<'a, A: Allocator + Copy>(
    alloc: A,
    words: &'a [Token<'a>],
) -> Result<(Filter<A>, &'a [Token<'a>]), SyntaxFault>
    ensures ok { IfOk result (λ read. SpellsStartsIn words.now read.1.now read.0) }
    ensures reads { (rest : List Token) (made : Filter A) → SpellsStartsIn words.now rest made → IsRead result rest made }
{
    let inner = expect(words, Terminal::Opening)?;
    let (shape, rest) = shape(alloc, inner, Construct::Area)?;
    match shape {
        Shape::Bounds(bounds) => {
            let rest = expect(rest, Terminal::Closing)?;
            Ok((Filter::Function(Function::StartsInBounds(bounds)), rest))
        }
        Shape::Polygons(several) => {
            let rest = expect(rest, Terminal::Closing)?;
            Ok((Filter::Function(Function::StartsIn(several)), rest))
        }
        _ => Err(SyntaxFault::unexpected_token(inner, Construct::Area)),
    }
}

/// Reads the property `geometry` and a shape, in either order, in parentheses.
fn operands<'a, A: Allocator + Copy>(
    alloc: A,
    words: &'a [Token<'a>],
) -> Result<(Shape<A>, &'a [Token<'a>]), SyntaxFault>
    ensures ok { IfOk result (λ read. SpellsOperands words.now read.1.now (shape_content read.0)) }
    ensures reads { (rest : List Token) (content : ShapeContent) → SpellsOperands words.now rest content
        → IsReadAs shape_content result rest content }
{
    let inner = expect(words, Terminal::Opening)?;
    match next(inner) {
        Some((Token::Keyword(Keyword::Geometry), after)) => {
            let (shape, rest) = shape_after_property(alloc, after)?;
            Ok((shape, rest))
        }
        _ => {
            let (shape, rest) = shape_before_property(alloc, inner)?;
            Ok((shape, rest))
        }
    }
}

/// Reads a comma and a shape, after the property `geometry`.
fn shape_after_property<'a, A: Allocator + Copy>(
    alloc: A,
    words: &'a [Token<'a>],
) -> Result<(Shape<A>, &'a [Token<'a>]), SyntaxFault>
    ensures ok { IfOk result (λ read. SpellsOperands (token.Open ∷ token.Keyword word.Geometry ∷ words.now) read.1.now (shape_content read.0)) }
    ensures reads { (rest : List Token) (content : ShapeContent)
        → SpellsOperands (token.Open ∷ token.Keyword word.Geometry ∷ words.now) rest content → IsReadAs shape_content result rest content }
{
    let words = expect(words, Terminal::Comma)?;
    let (shape, rest) = shape(alloc, words, Construct::Shape)?;
    let rest = expect(rest, Terminal::Closing)?;
    Ok((shape, rest))
}

/// Reads a shape, a comma and the property `geometry`.
fn shape_before_property<'a, A: Allocator + Copy>(
    alloc: A,
    words: &'a [Token<'a>],
) -> Result<(Shape<A>, &'a [Token<'a>]), SyntaxFault>
    ensures ok { IfOk result (λ read. SpellsOperands (token.Open ∷ words.now) read.1.now (shape_content read.0)) }
    ensures reads { (rest : List Token) (content : ShapeContent) → IsNotNext word.Geometry words.now
        → SpellsOperands (token.Open ∷ words.now) rest content → IsReadAs shape_content result rest content }
{
    let (shape, rest) = shape(alloc, words, Construct::Operand)?;
    let rest = expect(rest, Terminal::Comma)?;
    let rest = expect(rest, Terminal::Geometry)?;
    let rest = expect(rest, Terminal::Closing)?;
    Ok((shape, rest))
}

/// Reads the operands of S_INTERSECTS.
fn intersects<'a, A: Allocator + Copy>(
    alloc: A,
    words: &'a [Token<'a>],
) -> Result<(Filter<A>, &'a [Token<'a>]), SyntaxFault>
    ensures ok { IfOk result (λ read. SpellsIntersects words.now read.1.now read.0) }
    ensures reads { (rest : List Token) (made : Filter A) → SpellsIntersects words.now rest made → IsRead result rest made }
{
    let (shape, rest) = operands(alloc, words)?;
    Ok((Filter::Function(Function::Intersects(shape)), rest))
}

/// Reads the operands of S_DISJOINT.
fn disjoint<'a, A: Allocator + Copy>(
    alloc: A,
    words: &'a [Token<'a>],
) -> Result<(Filter<A>, &'a [Token<'a>]), SyntaxFault>
    ensures ok { IfOk result (λ read. SpellsDisjoint words.now read.1.now read.0) }
    ensures reads { (rest : List Token) (made : Filter A) → SpellsDisjoint words.now rest made → IsRead result rest made }
{
    let (meets, rest) = intersects(alloc, words)?;
    let filter = negation(alloc, meets)?;
    Ok((filter, rest))
}

/// Reads the operands of S_WITHIN, of which the second one is a box.
fn lies_within<'a, A: Allocator + Copy>(
    alloc: A,
    words: &'a [Token<'a>],
) -> Result<(Filter<A>, &'a [Token<'a>]), SyntaxFault>
    ensures ok { IfOk result (λ read. SpellsWithin words.now read.1.now read.0) }
    ensures reads { (rest : List Token) (made : Filter A) → SpellsWithin words.now rest made → IsRead result rest made }
{
    let rest = expect(words, Terminal::Opening)?;
    let rest = expect(rest, Terminal::Geometry)?;
    let rest = expect(rest, Terminal::Comma)?;
    // Only a box: the point where a line leaves a polygon has fractions of a millionth of a degree.
    let rest = expect(rest, Terminal::Bbox)?;
    let (bounds, rest) = bounds(rest)?;
    let rest = expect(rest, Terminal::Closing)?;
    Ok((Filter::Function(Function::Within(bounds)), rest))
}
