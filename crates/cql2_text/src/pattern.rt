//! Patterns of LIKE.
ghost use Rattle.std.specs.Prelude.{◌≡◌, ◌<◌, ◌≤◌, ℕ, List, true, map, length, IfOk, IfErr, MatchResult};
ghost use Rattle.cql2.specs.Pattern.{is_byte};
ghost use Rattle.cql2.specs.declared.pattern.Pattern.{Pattern as APattern};
ghost use Rattle.cql2.specs.declared.pattern.PatternPart.{PatternPart as APatternPart};
ghost use Rattle.cql2_text.specs.declared.syntax_fault.LiteralFault.TheVariants as literal_fault;
ghost use Rattle.cql2_text.specs.Pattern.{IsLikePattern, IsPatternPart, after_percents, character_pattern, least_length, takes_one};

use crate::fault::Construct;
use crate::syntax_fault::LiteralFault;
use cql2::{Folding, Pattern, PatternPart};
use cql2_tokens::character;
use std::alloc::Allocator;

/// Returns the part of a pattern that a character is.
fn character_pattern(byte: u8, folding: Folding) -> PatternPart
    ensures wanted { result ≡ character_pattern folding byte }
    ensures is_byte { is_byte result ≡ true }
{
    if folding.case || folding.accents {
        PatternPart::Alike(folding, byte)
    } else {
        PatternPart::Exactly(byte)
    }
}

/// Returns the part at the start of a literal's inside, and the text after it. `%` is any number of characters, as `%%` is, `_` is any character,
/// and `\` makes the next character an ordinary one.
fn pattern_part<'a>(
    spelling: &[u8],
    text: &'a [u8],
    folding: Folding,
) -> Result<(PatternPart, &'a [u8]), LiteralFault>
    ensures part { IfOk result (λ read. IsPatternPart folding text.now read.0 read.1.now) }
    ensures is_byte { IfOk result (λ read. is_byte read.0 ≡ true) }
    ensures shorter { IfOk result (λ read. length read.1.now < length text.now) }
    ensures only { (part : APatternPart) (rest : List ℕ) → IsPatternPart folding text.now part rest
        → MatchResult result (λ read. (read.0 ≡ part) × (read.1.now ≡ rest)) (λ fault. ⊥) }
{
    let Some((byte, rest)) = character(text) else {
        return Err(LiteralFault::unexpected_character(spelling, text, Construct::Character));
    };
    match byte {
        b'%' => Ok((PatternPart::Many, after_percents(rest))),
        b'_' => Ok((PatternPart::One, rest)),
        b'\\' => match character(rest) {
            Some((next, rest)) => Ok((character_pattern(next, folding), rest)),
            None => Err(LiteralFault::unexpected_character(spelling, rest, Construct::Escaped)),
        },
        _ => Ok((character_pattern(byte, folding), rest)),
    }
}

/// Returns the text after each `%` at its start.
fn after_percents(text: &[u8]) -> &[u8]
    ensures value { result.now ≡ after_percents text.now }
    ensures no_longer { length result.now ≤ length text.now }
{
    let mut rest = text;
    while let [b'%', after @ ..] = rest {
        rest = after;
    }
    rest
}

/// Returns whether a part takes one byte.
fn takes_one(part: PatternPart) -> bool
    ensures { result ≡ takes_one part }
{
    match part {
        PatternPart::Many => false,
        _ => true,
    }
}

/// Returns the number of bytes in the shortest text that matches.
fn least_length(parts: &[PatternPart]) -> usize
    ensures { result ≡ least_length parts.now }
{
    let mut least = 0;
    for part in parts {
        if takes_one(*part) {
            least += 1;
        }
    }
    least
}

/// Returns the pattern inside a literal, provided a text of this width can match it.
pub(crate) fn pattern<A: Allocator + Copy>(
    alloc: A,
    spelling: &[u8],
    folding: Folding,
    width: usize,
) -> Result<Pattern<A>, LiteralFault>
    ensures ok { IfOk result (λ pattern. IsLikePattern width folding spelling.now pattern) }
    ensures reads { (pattern : APattern A) → IsLikePattern width folding spelling.now pattern
        → MatchResult result (λ read. read.parts.items ≡ pattern.parts.items) (λ fault. fault ≡ literal_fault.Memory) }
{
    let mut parts = Vec::new(alloc);
    let mut rest = spelling;
    while !rest.is_empty() {
        let (part, after) = pattern_part(spelling, rest, folding)?;
        parts.push(part)?;
        rest = after;
    }
    if least_length(&parts) > width {
        return Err(LiteralFault::Long);
    }
    Ok(Pattern { parts })
}

/// Returns the pattern that matches a text and each that is the same but for what is ignored.
pub(crate) fn same_but_for<A: Allocator + Copy>(
    alloc: A,
    folding: Folding,
    bytes: &[u8],
) -> Result<Pattern<A>, LiteralFault>
    ensures letters { IfOk result (λ pattern. pattern.parts.items ≡ map (character_pattern folding) bytes.now) }
    ensures memory { IfErr result (λ fault. fault ≡ literal_fault.Memory) }
{
    let mut parts = Vec::new(alloc);
    for byte in bytes {
        parts.push(character_pattern(*byte, folding))?;
    }
    Ok(Pattern { parts })
}
