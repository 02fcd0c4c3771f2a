//! Strings of JSON (RFC 8259, section 7).
ghost use Rattle.std.specs.Prelude.{◌≡◌, ◌+◌, ◌*◌, ◌<◌, ◌≤◌, ◌++◌, length, unwrap_or, IfSome};
ghost use Rattle.std.specs.Char.{digit_char};
ghost use Rattle.json.specs.Print.{escape_byte, escape_letter, quoted};

use crate::text::{MAX_PIECE_LENGTH, RowPiece, push};

/// Appends a text as a string.
#[tactic(auto, using(crate::proofs::StringLemmas::escape_next))]
pub(crate) fn push_string(text: &[u8], piece: &mut RowPiece)
    requires { length piece.old.items + 6 * length text.now + 2 ≤ MAX_PIECE_LENGTH }
    ensures text { piece.new.items ≡ piece.old.items ++ quoted text.now }
    ensures short { length piece.new.items ≤ length piece.old.items + 6 * length text.now + 2 }
{
    push(b"\"", piece);
    for byte in text {
        push_escaped(*byte, piece);
    }
    push(b"\"", piece);
}

/// Appends a byte of a string, escaped if it is a quotation mark, a backslash or a control character.
#[inline(always)]
#[tactic(auto, unfolding(json::specs::Print::escape_byte))]
fn push_escaped(byte: u8, piece: &mut RowPiece)
    requires { length piece.old.items + 6 ≤ MAX_PIECE_LENGTH }
    ensures text { piece.new.items ≡ piece.old.items ++ escape_byte byte }
    ensures short { length piece.new.items ≤ length piece.old.items + 6 }
{
    if byte >= b' ' && byte != b'"' && byte != b'\\' {
        piece.push(byte);
        return;
    }
    piece.push(b'\\');
    match escape_letter(byte) {
        Some(letter) => piece.push(letter),
        None => {
            push(b"u00", piece);
            piece.push(hex_digit(byte / 16));
            piece.push(hex_digit(byte % 16));
        }
    }
}

/// Returns the letter of a byte's two-character escape, if it has one.
fn escape_letter(byte: u8) -> Option<u8>
    ensures value { unwrap_or result 0 ≡ escape_letter byte }
    ensures some { IfSome result (λ letter. 0 < letter) }
{
    match byte {
        b'"' => Some(b'"'),
        b'\\' => Some(b'\\'),
        0x08 => Some(b'b'),
        b'\t' => Some(b't'),
        b'\n' => Some(b'n'),
        0x0C => Some(b'f'),
        b'\r' => Some(b'r'),
        _ => None,
    }
}

/// Returns a hexadecimal digit.
fn hex_digit(value: u8) -> u8
    requires { value < 16 }
    ensures { result ≡ digit_char value }
{
    if value < 10 {
        b'0' + value
    } else {
        b'a' + (value - 10)
    }
}
