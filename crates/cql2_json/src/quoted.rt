//! Names and texts in quotes.
ghost use Rattle.std.specs.Prelude.{◌≡◌, IfOk};
ghost use Rattle.cql2_json.specs.Quoted.{is_name, is_name_byte, is_control, is_printable, quoted_text};

use std::alloc::{AllocError, Allocator};

/// Returns a text between two of these quotes. Each quote in the text is doubled.
pub(crate) fn quoted_text<A: Allocator + Copy>(
    alloc: A,
    quote: u8,
    text: &str,
) -> Result<Vec<u8, A>, AllocError>
    ensures { IfOk result (λ literal. literal.items ≡ quoted_text quote text.now) }
{
    let mut literal = Vec::new(alloc);
    literal.push(quote)?;
    for byte in text.as_bytes() {
        if *byte == quote {
            literal.push(quote)?;
        }
        literal.push(*byte)?;
    }
    literal.push(quote)?;
    Ok(literal)
}

/// Returns whether a text is a name: letters, digits and underscores.
pub(crate) fn is_name(text: &str) -> bool
    ensures { result ≡ is_name text.now }
{
    if text.is_empty() {
        return false;
    }
    for byte in text.as_bytes() {
        if !is_name_byte(*byte) {
            return false;
        }
    }
    true
}

fn is_name_byte(byte: u8) -> bool
    ensures { result ≡ is_name_byte byte }
{
    byte.is_ascii_alphanumeric() || byte == b'_'
}

/// Returns whether a text has no control character.
pub(crate) fn is_printable(text: &str) -> bool
    ensures { result ≡ is_printable text.now }
{
    for byte in text.as_bytes() {
        if is_control(*byte) {
            return false;
        }
    }
    true
}

fn is_control(byte: u8) -> bool
    ensures { result ≡ is_control byte }
{
    byte < 0x20 || byte == 0x7f
}
