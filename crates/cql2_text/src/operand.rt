//! Literals that a column is compared with or that a function takes.
ghost use Rattle.std.specs.Prelude.{◌≡◌, ◌≢◌, ◌∷◌, ◌≤◌, ◌<◌, ◌^◌, unsigned_abs, ℕ, ℤ, List, length, IfOk, Err, MatchResult, false};
ghost use Rattle.tl_segments.specs.declared.name.TheConstants.{NAME_LENGTH};
ghost use denote.Ref.{Bor};
ghost use Rattle.cql2.specs.declared.text.Text.{Text as AText};
ghost use Rattle.cql2_text.specs.Number.{number_of};
ghost use Rattle.cql2_text.specs.Numeral.{IsNumber, IsNumeral, below_zero};
ghost use Rattle.cql2_text.specs.Predicate.{IsText};
ghost use Rattle.cql2_text.specs.declared.syntax_fault.SyntaxFault.TheVariants as syntax_fault;
ghost use Rattle.cql2_tokens.specs.declared.token.Numeral.{Numeral as ANumeral};
ghost use Rattle.cql2_tokens.specs.declared.token.Token.{Token};
ghost use Rattle.cql2_tokens.specs.declared.token.Token.TheVariants as token;

use crate::fault::{Construct, FilterFaultKind};
use crate::literal::literal_of;
use crate::syntax_fault::SyntaxFault;
use crate::terminal::next;
use crate::text::compared_text;
use crate::unit::Unit;
use cql2::{Literal, Text};
use cql2_tokens::{Keyword, Numeral, Sign, Token};
use std::alloc::Allocator;

/// Takes a number with or without a sign and returns it with the tokens after it.
pub(crate) fn numeral<'a>(
    words: &'a [Token<'a>],
) -> Result<(Numeral<'a>, &'a [Token<'a>]), SyntaxFault>
    ensures ok { IfOk result (λ read. IsNumeral words.now read.1.now read.0) }
    ensures reads { (rest : List Token) (numeral : ANumeral) → IsNumeral words.now rest numeral
        → MatchResult result (λ read. (read.1.now ≡ rest) × (read.0 ≡ numeral)) (λ fault. ⊥) }
{
    match next(words) {
        Some((Token::Sign(Sign::Plus), after)) => {
            let (numeral, rest) = unsigned_numeral(after)?;
            Ok((numeral, rest))
        }
        Some((Token::Sign(Sign::Minus), after)) => {
            let (numeral, rest) = unsigned_numeral(after)?;
            Ok((below_zero(numeral), rest))
        }
        _ => {
            let (numeral, rest) = unsigned_numeral(words)?;
            Ok((numeral, rest))
        }
    }
}

fn below_zero<'a>(numeral: Numeral<'a>) -> Numeral<'a>
    ensures { result ≡ below_zero numeral.entry }
{
    Numeral {
        is_negative: true,
        whole: numeral.whole,
        decimals: numeral.decimals,
    }
}

/// Takes a number without a sign and returns it with the tokens after it.
fn unsigned_numeral<'a>(
    words: &'a [Token<'a>],
) -> Result<(Numeral<'a>, &'a [Token<'a>]), SyntaxFault>
    ensures { MatchResult result (λ read. words.now ≡ token.Number read.0 ∷ read.1.now)
        (λ fault. (numeral : ANumeral) (rest : List Token) → words.now ≢ token.Number numeral ∷ rest) }
{
    match next(words) {
        Some((Token::Number(numeral), rest)) => Ok((numeral, rest)),
        Some((Token::Text(_spelling), _rest)) => {
            Err(SyntaxFault::at(words, FilterFaultKind::WrongType))
        }
        _ => Err(SyntaxFault::unexpected_token(words, Construct::Number)),
    }
}

/// Reads a number, which may have a sign.
pub(crate) fn number<'a>(
    unit: Unit,
    words: &'a [Token<'a>],
) -> Result<(Literal, &'a [Token<'a>]), SyntaxFault>
    ensures ok { IfOk result (λ read. IsNumber unit words.now read.1.now read.0.number) }

    // A number that isn't one of the unit is refused for its flaw.
    ensures refused { (numeral : ANumeral) (rest : List Token) (flaw : FilterFaultKind) → IsNumeral words.now rest numeral
        → number_of unit numeral ≡ Err flaw → result ≡ Err (syntax_fault.At (length words.now) 0 flaw) }
    ensures small { IfOk result (λ read. unsigned_abs read.0.number < 10 ^ 18) }
    ensures reads { (rest : List Token) (number : ℤ) → IsNumber unit words.now rest number
        → MatchResult result (λ read. (read.1.now ≡ rest) × (read.0.number ≡ number)) (λ fault. ⊥) }
{
    if begins_clause(words) {
        return Err(SyntaxFault::at(words, FilterFaultKind::WrongType));
    }
    let (numeral, rest) = numeral(words)?;
    match literal_of(unit, numeral) {
        Ok(literal) => Ok((literal, rest)),
        Err(flaw) => Err(SyntaxFault::at(words, flaw)),
    }
}

/// Returns whether the first token is CASEI or ACCENTI.
fn begins_clause(words: &[Token]) -> bool
    ensures { (rest : List Token) (numeral : ANumeral) → IsNumeral words.now rest numeral → result ≡ false }
{
    matches!(
        next(words),
        Some((Token::Keyword(Keyword::Casei | Keyword::Accenti), _rest))
    )
}

/// Takes a string literal and returns its inside with the tokens after it.
pub(crate) fn spelling<'a>(
    words: &'a [Token<'a>],
) -> Result<(&'a [u8], &'a [Token<'a>]), SyntaxFault>
    ensures { MatchResult result (λ read. words.now ≡ token.Text read.0 ∷ read.1.now)
        (λ fault. (spelling : Bor (List ℕ)) (rest : List Token) → words.now ≢ token.Text spelling ∷ rest) }
{
    match next(words) {
        Some((Token::Text(spelling), rest)) => Ok((spelling, rest)),
        Some((Token::Number(_numeral), _rest)) => {
            Err(SyntaxFault::at(words, FilterFaultKind::WrongType))
        }
        Some((Token::Keyword(Keyword::Casei | Keyword::Accenti), _rest)) => {
            Err(SyntaxFault::at(words, FilterFaultKind::Folded))
        }
        _ => Err(SyntaxFault::unexpected_token(words, Construct::Text)),
    }
}

/// Reads a text that is compared with a column of this width.
pub(crate) fn text<'a, A: Allocator + Copy>(
    alloc: A,
    width: usize,
    words: &'a [Token<'a>],
) -> Result<(Text<A>, &'a [Token<'a>]), SyntaxFault>
    requires { width ≤ NAME_LENGTH }
    ensures ok { IfOk result (λ read. IsText width words.now read.1.now read.0) }
    ensures reads { (rest : List Token) (text : AText A) → IsText width words.now rest text
        → MatchResult result (λ read. (read.1.now ≡ rest) × (read.0.bytes.items ≡ text.bytes.items))
        (λ fault. fault ≡ syntax_fault.Memory) }
{
    let (spelling, rest) = spelling(words)?;
    match compared_text(alloc, spelling, width) {
        Ok(text) => Ok((text, rest)),
        Err(flaw) => Err(SyntaxFault::in_text(words, flaw)),
    }
}
