//! CASEI and ACCENTI.
ghost use Rattle.std.specs.Prelude.{◌≡◌, ◌≢◌, ◌≤◌, ◌<◌, ◌∷◌, ℕ, List, length, IsTrue, ◌↔◌, IfOk, Err, MatchResult};
ghost use denote.Ref.{Bor};
ghost use Rattle.cql2.specs.declared.pattern.Folding.{Folding as AFolding};
ghost use Rattle.cql2_text.specs.Clause.{BeginsNoClause, IsOpened, Opens, closed, with_accents, with_case};
ghost use Rattle.cql2_text.specs.declared.syntax_fault.SyntaxFault.TheVariants as syntax_fault;
ghost use Rattle.cql2_tokens.specs.declared.token.Numeral.{Numeral};
ghost use Rattle.cql2_tokens.specs.declared.token.Token.{Token};
ghost use Rattle.cql2_tokens.specs.declared.token.Token.TheVariants as token;

use crate::fault::{Construct, FilterFaultKind};
use crate::syntax_fault::SyntaxFault;
use crate::terminal::{Terminal, expect, next};
use cql2::Folding;
use cql2_tokens::{Keyword, Token};

/// The maximum number of CASEI and ACCENTI in one another.
pub(crate) const MAX_NESTED_CLAUSES: u32 = 64;

/// What is ignored outside CASEI and ACCENTI.
pub(crate) const NOTHING: Folding = Folding {
    case: false,
    accents: false,
};

fn with_case(folding: Folding) -> Folding
    ensures { result ≡ with_case folding }
{
    Folding {
        case: true,
        accents: folding.accents,
    }
}

fn with_accents(folding: Folding) -> Folding
    ensures { result ≡ with_accents folding }
{
    Folding {
        case: folding.case,
        accents: true,
    }
}

fn is_same(folding: Folding, other: Folding) -> bool
    ensures { IsTrue result ↔ (folding ≡ other) }
{
    folding.case == other.case && folding.accents == other.accents
}

/// Reads at most `most` CASEI and ACCENTI, each with its opening parenthesis. Returns what they ignore together, their number and the tokens after
/// them.
pub(crate) fn openings<'a>(
    words: &'a [Token<'a>],
    most: u32,
) -> Result<(Folding, u32, &'a [Token<'a>]), SyntaxFault>
    requires { most < 1000 }
    ensures ok { IfOk result (λ read. Opens read.1 read.0 words.now read.2.now) }
    ensures few { IfOk result (λ read. read.1 ≤ most) }
    ensures reads { (depth : ℕ) (folding : AFolding) (inner : List Token) → Opens depth folding words.now inner → depth ≤ most
        → BeginsNoClause inner
        → MatchResult result (λ read. (read.0 ≡ folding) × (read.1 ≡ depth) × (read.2.now ≡ inner)) (λ fault. ⊥) }

    // One more is refused.
    ensures too_deep { most ≡ 0 → ¬ (BeginsNoClause words.now)
        → result ≡ Err (syntax_fault.At (length words.now) 0 FilterFaultKind.TooDeep) }
{
    match next(words) {
        Some((Token::Keyword(Keyword::Casei), after)) => {
            if most == 0 {
                return Err(SyntaxFault::at(words, FilterFaultKind::TooDeep));
            }
            let inner = expect(after, Terminal::Opening)?;
            let (folding, depth, inner) = openings(inner, most - 1)?;
            Ok((with_case(folding), depth + 1, inner))
        }
        Some((Token::Keyword(Keyword::Accenti), after)) => {
            if most == 0 {
                return Err(SyntaxFault::at(words, FilterFaultKind::TooDeep));
            }
            let inner = expect(after, Terminal::Opening)?;
            let (folding, depth, inner) = openings(inner, most - 1)?;
            Ok((with_accents(folding), depth + 1, inner))
        }
        _ => Ok((NOTHING, 0, words)),
    }
}

/// Takes this many closing parentheses and returns the tokens after them.
pub(crate) fn closings<'a>(
    words: &'a [Token<'a>],
    count: u32,
) -> Result<&'a [Token<'a>], SyntaxFault>
    ensures { MatchResult result (λ rest. words.now ≡ closed count rest.now)
        (λ fault. (rest : List Token) → words.now ≢ closed count rest) }
{
    if count == 0 {
        return Ok(words);
    }
    let inner = expect(words, Terminal::Closing)?;
    let rest = closings(inner, count - 1)?;
    Ok(rest)
}

/// Reads CASEI and ACCENTI on the right of a predicate, which have to ignore the same as those on its left. Returns their number and the tokens
/// after them.
pub(crate) fn same_openings<'a>(
    folding: Folding,
    words: &'a [Token<'a>],
) -> Result<(u32, &'a [Token<'a>]), SyntaxFault>
    ensures ok { IfOk result (λ read. IsOpened read.0 folding words.now read.1.now) }
    ensures reads { (depth : ℕ) (inner : List Token) → IsOpened depth folding words.now inner → BeginsNoClause inner
        → MatchResult result (λ read. (read.0 ≡ depth) × (read.1.now ≡ inner)) (λ fault. ⊥) }

    // What is ignored has to be the same on both sides.
    ensures refused { (depth : ℕ) (other : AFolding) (inner : List Token) → IsOpened depth other words.now inner → BeginsNoClause inner
        → other ≢ folding → result ≡ Err (syntax_fault.At (length words.now) 0 FilterFaultKind.Folded) }
{
    let (found, depth, inner) = openings(words, MAX_NESTED_CLAUSES)?;
    if depth == 0 {
        return Err(missing(folding, words));
    }
    if !is_same(found, folding) {
        return Err(SyntaxFault::at(words, FilterFaultKind::Folded));
    }
    Ok((depth, inner))
}

/// Returns the fault for tokens that are not in CASEI or ACCENTI, and have to be.
fn missing(folding: Folding, words: &[Token]) -> SyntaxFault
    ensures text { (spelling : Bor (List ℕ)) (rest : List Token) → words.now ≡ token.Text spelling ∷ rest
        → result ≡ syntax_fault.At (length words.now) 0 FilterFaultKind.Folded }
    ensures number { (numeral : Numeral) (rest : List Token) → words.now ≡ token.Number numeral ∷ rest
        → result ≡ syntax_fault.At (length words.now) 0 FilterFaultKind.Folded }
{
    match next(words) {
        Some((Token::Text(_spelling), _rest)) => SyntaxFault::at(words, FilterFaultKind::Folded),
        Some((Token::Number(_numeral), _rest)) => {
            SyntaxFault::at(words, FilterFaultKind::Folded)
        }
        _ if folding.case => SyntaxFault::unexpected_token(words, Construct::Casei),
        _ => SyntaxFault::unexpected_token(words, Construct::Accenti),
    }
}
