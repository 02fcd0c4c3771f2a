//! The texts of string literals.
ghost use Rattle.std.specs.Prelude.{◌≡◌, ◌≤◌, ℕ, List, IfOk, MatchResult};
ghost use Rattle.tl_segments.specs.declared.name.TheConstants.{NAME_LENGTH};
ghost use Rattle.cql2.specs.Column.{trim_end};
ghost use Rattle.cql2_text.specs.Text.{IsComparedText};
ghost use Rattle.cql2_text.specs.declared.syntax_fault.LiteralFault.TheVariants as literal_fault;
ghost use Rattle.cql2_tokens.specs.Character.{HasCharacters};

use crate::fault::Construct;
use crate::syntax_fault::LiteralFault;
use cql2::Text;
use cql2_tokens::character;
use std::alloc::Allocator;

/// Returns the characters inside a literal, one byte each.
fn bytes_of<A: Allocator + Copy>(alloc: A, spelling: &[u8]) -> Result<Vec<u8, A>, LiteralFault>
    ensures ok { IfOk result (λ bytes. HasCharacters spelling.now bytes.items) }
    ensures reads { (bytes : List ℕ) → HasCharacters spelling.now bytes
        → MatchResult result (λ read. read.items ≡ bytes) (λ fault. fault ≡ literal_fault.Memory) }
{
    let mut bytes = Vec::new(alloc);
    let mut rest = spelling;
    while !rest.is_empty() {
        let Some((byte, after)) = character(rest) else {
            return Err(LiteralFault::unexpected_character(spelling, rest, Construct::Character));
        };
        bytes.push(byte)?;
        rest = after;
    }
    Ok(bytes)
}

fn without_trailing_blanks(bytes: &[u8]) -> &[u8]
    ensures { result.now ≡ trim_end bytes.now }
{
    let mut rest = bytes;
    while let [before @ .., b' '] = rest {
        rest = before;
    }
    rest
}

/// Returns the text that is compared with a column of this width.
pub(crate) fn compared_text<A: Allocator + Copy>(
    alloc: A,
    spelling: &[u8],
    width: usize,
) -> Result<Text<A>, LiteralFault>
    requires { width ≤ NAME_LENGTH }
    ensures ok { IfOk result (λ text. IsComparedText width spelling.now text.bytes.items) }
    ensures reads { (text : List ℕ) → IsComparedText width spelling.now text
        → MatchResult result (λ read. read.bytes.items ≡ text) (λ fault. fault ≡ literal_fault.Memory) }
{
    let bytes = bytes_of(alloc, spelling)?;
    // Blanks pad the columns, so a comparison ignores trailing ones.
    let trimmed = without_trailing_blanks(&bytes);
    if trimmed.is_empty() || trimmed.len() > width {
        return Err(LiteralFault::Long);
    }
    let bytes = Vec::from_slice(alloc, trimmed)?;
    Ok(Text { bytes })
}
