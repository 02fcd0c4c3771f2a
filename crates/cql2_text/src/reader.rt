//! Reading texts as filters.
ghost use Rattle.std.specs.Prelude.{◌≡◌, ◌<◌, ◌≤◌, ◌+◌, length, take, IfErr, IfOk, Err, MatchResult};
ghost use Rattle.std.specs.Str.{IsUtf8};
ghost use Rattle.std.specs.Str.Lossy.{utf8_valid_len};
ghost use Rattle.cql2_text.specs.Position.{IsPlacedIn, column_after, fault_after, is_continuation, line_after, next_column};
ghost use Rattle.cql2.specs.declared.filter.Filter.{Filter as AFilter};
ghost use Rattle.cql2_text.specs.Content.{content};
ghost use Rattle.cql2_text.specs.Spelled.{IsFilterText};
ghost use Rattle.cql2_text.specs.declared.reader.TheConstants.{MAX_TEXT_LENGTH};

use crate::fault::{Construct, FilterFault, FilterFaultKind};
use crate::parser::filter;
use crate::syntax_fault::SyntaxFault;
use cql2::Filter;
use cql2_tokens::Tokens;
use std::alloc::Allocator;

// More than the longest filters whose programs fit. So 32 bits suffice for lines and columns.
/// The maximum number of bytes in a filter's text.
pub const MAX_TEXT_LENGTH: usize = 1_048_576;

/// Reads a text as a filter.
pub fn read<A: Allocator + Copy>(alloc: A, text: &[u8]) -> Result<Filter<A>, FilterFault>
    ensures ok { IfOk result (IsFilterText text.now) }
    ensures err { IfErr result (IsPlacedIn text.now) }

    // A text that spells a filter is read as that filter, unless it is too long or an allocation fails.
    ensures reads { length text.now ≤ MAX_TEXT_LENGTH → IsUtf8 text.now → (filter : AFilter A) → IsFilterText text.now filter
        → MatchResult result (λ read. content read ≡ content filter) (λ fault. fault ≡ FilterFault.Memory) }

    // A text that is too long is refused at its first byte over the limit.
    ensures too_long { MAX_TEXT_LENGTH < length text.now → result ≡ Err (fault_after (take MAX_TEXT_LENGTH text.now) FilterFaultKind.TooLong) }

    // Any other text that isn't UTF-8 is refused at its first invalid byte.
    ensures not_utf8 { length text.now ≤ MAX_TEXT_LENGTH → ¬ (IsUtf8 text.now)
        → result ≡ Err (fault_after (take (utf8_valid_len text.now) text.now) (FilterFaultKind.Syntax Construct.Utf8)) }
{
    if text.len() > MAX_TEXT_LENGTH {
        return Err(fault_after(&text[..MAX_TEXT_LENGTH], FilterFaultKind::TooLong));
    }
    match std::str::from_utf8(text) {
        Ok(_) => read_utf8(alloc, text),
        Err(error) => {
            let flaw = FilterFaultKind::Syntax(Construct::Utf8);
            Err(fault_after(&text[..error.valid_up_to()], flaw))
        }
    }
}

/// Reads a text that is UTF-8.
fn read_utf8<A: Allocator + Copy>(alloc: A, text: &[u8]) -> Result<Filter<A>, FilterFault>
    requires { length text.now ≤ MAX_TEXT_LENGTH }
    ensures ok { IfOk result (IsFilterText text.now) }
    ensures err { IfErr result (IsPlacedIn text.now) }
    ensures reads { (filter : AFilter A) → IsFilterText text.now filter
        → MatchResult result (λ read. content read ≡ content filter) (λ fault. fault ≡ FilterFault.Memory) }
{
    let tokens = Tokens::of(alloc, text)?;
    match filter(alloc, &tokens.tokens) {
        Ok(filter) => {
            // A fault in the tokens comes first: what begins no token is at fault only after a filter.
            if tokens.rest.is_empty() {
                return Ok(filter);
            }
            let flaw = FilterFaultKind::Syntax(Construct::End);
            Err(fault_after(front(text, tokens.start(text, 0)), flaw))
        }
        Err(SyntaxFault::At { left, offset, flaw }) => {
            let start = tokens.start(text, left).saturating_add(offset);
            Err(fault_after(front(text, start), flaw))
        }
        Err(SyntaxFault::Memory) => Err(FilterFault::Memory),
    }
}

/// Returns the first `count` bytes of a text, or all of them if it is shorter.
fn front(text: &[u8], count: usize) -> &[u8]
    ensures { result.now ≡ take count text.now }
{
    if count < text.len() {
        &text[..count]
    } else {
        text
    }
}

/// Returns the fault for a flaw after this prefix of a text.
fn fault_after(front: &[u8], flaw: FilterFaultKind) -> FilterFault
    requires { length front.now ≤ MAX_TEXT_LENGTH }
    ensures { result ≡ fault_after front.now flaw }
{
    FilterFault::At {
        line: line_after(front),
        column: column_after(front),
        flaw,
    }
}

/// Returns the line, counted from 1, of the byte after this prefix of a text.
fn line_after(front: &[u8]) -> u32
    requires { length front.now ≤ MAX_TEXT_LENGTH }
    ensures { result ≡ line_after front.now }
{
    let mut line = 1;
    for byte in front {
        if *byte == b'\n' {
            line += 1;
        }
    }
    line
}

/// Returns the character in its line, counted from 1, after this prefix of a text.
fn column_after(front: &[u8]) -> u32
    requires { length front.now ≤ MAX_TEXT_LENGTH }
    ensures { result ≡ column_after front.now }
{
    let mut column = 1;
    for byte in front {
        column = next_column(column, *byte);
    }
    column
}

/// Returns the column after a byte.
fn next_column(column: u32, byte: u8) -> u32
    requires { column ≤ MAX_TEXT_LENGTH }
    ensures value { result ≡ next_column column byte }
    ensures small { result ≤ column + 1 }
{
    if byte == b'\n' {
        1
    } else if is_continuation(byte) {
        column
    } else {
        column + 1
    }
}

/// Returns whether a byte continues a character.
pub(crate) fn is_continuation(byte: u8) -> bool
    ensures { result ≡ is_continuation byte }
{
    byte >= 0x80 && byte < 0xc0
}
