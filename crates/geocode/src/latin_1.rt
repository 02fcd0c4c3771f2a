//! Latin-1 (ISO/IEC 8859-1), the encoding of the files.
ghost use Rattle.std.specs.Prelude.{◌≡◌, ◌≤◌, ◌++◌, OnOk, chars, length, option_map, string_bytes};
ghost use Rattle.tl_segments.specs.declared.name.TheConstants.{NAME_LENGTH};
ghost use Rattle.geocode.specs.Latin1.{latin_1, utf8_of};

use arrayvec::ArrayVec;
use std::alloc::{AllocError, Allocator};
use tl_segments::NAME_LENGTH;

/// Returns the number of characters in a text.
pub(crate) fn characters(text: &str) -> usize
    ensures { result ≡ length (chars text.now) }
{
    text.chars().count()
}

/// Encodes a text. Returns `None` if one of its characters isn't in Latin-1.
pub(crate) fn latin_1(text: &str) -> Option<ArrayVec<u8, NAME_LENGTH>>
    requires { length (chars text.now) ≤ NAME_LENGTH }
    ensures { option_map (λ bytes. bytes.items) result ≡ latin_1 text.now }
{
    let mut bytes = ArrayVec::new();
    for character in text.chars() {
        match u8::try_from(character) {
            Ok(byte) => bytes.push(byte),
            Err(_) => return None,
        }
    }
    Some(bytes)
}

/// Appends the text that bytes are in Latin-1, in UTF-8.
pub fn push_utf8<A: Allocator>(bytes: &[u8], text: &mut String<A>) -> Result<(), AllocError>
    ensures { OnOk result (string_bytes text.new ≡ string_bytes text.old ++ utf8_of bytes.now) }
{
    for byte in bytes {
        text.push(char::from(*byte))?;
    }
    Ok(())
}
