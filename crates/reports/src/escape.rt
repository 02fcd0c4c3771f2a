//! Echoes of what a user gave: names of files, values of options.
ghost use Rattle.std.specs.Prelude.{◌≡◌, ◌<◌, length, true, IfSome};
ghost use Rattle.std.specs.Char.{digit_char, is_ascii_control};
ghost use Rattle.std.specs.List.{position};
ghost use Rattle.counted_io.specs.Writing.{WritesText};
ghost use Rattle.reports.specs.Escape.{escaped, escaped_byte};

use counted_io::{CountedWrite, WriteFault, write_text};

/// Writes a text with its control characters escaped, or up to the fault of the writer. Nothing is tried again.
pub fn write_escaped<W: CountedWrite>(out: &mut W, text: &str) -> Result<(), WriteFault>
    ensures { WritesText (escaped text.now) result (W.writer out.old) (W.writer out.new) }
{
    // A name from the user can neither add a line nor control a terminal.
    let mut rest = text.as_bytes();
    while let Some(place) = find_control(rest) {
        match write_text(out, &rest[..place]) {
            Ok(()) => {}
            Err(fault) => return Err(fault),
        }
        match write_escape(out, rest[place]) {
            Ok(()) => {}
            Err(fault) => return Err(fault),
        }
        rest = &rest[place + 1..];
    }
    write_text(out, rest)
}

/// Returns the index of the first control character.
fn find_control(text: &[u8]) -> Option<usize>
    ensures value { result ≡ position is_ascii_control text.now }
    ensures within { IfSome result (λ index. index < length text.now) }
{
    text.iter().position(|byte| byte.is_ascii_control())
}

/// Writes a control character as Rust's `char::escape_default` does.
fn write_escape<W: CountedWrite>(out: &mut W, control: u8) -> Result<(), WriteFault>
    requires { is_ascii_control control ≡ true }
    ensures { WritesText (escaped_byte control) result (W.writer out.old) (W.writer out.new) }
{
    let (high, low) = (hex_digit(control / 16), hex_digit(control % 16));
    match control {
        b'\t' => write_text(out, b"\\t"),
        b'\n' => write_text(out, b"\\n"),
        b'\r' => write_text(out, b"\\r"),
        0..=15 => write_text(out, &[b'\\', b'u', b'{', low, b'}']),
        _ => write_text(out, &[b'\\', b'u', b'{', high, low, b'}']),
    }
}

/// Returns the hexadecimal digit of a number below 16.
fn hex_digit(number: u8) -> u8
    requires { number < 16 }
    ensures { result ≡ digit_char number }
{
    if number < 10 {
        b'0' + number
    } else {
        b'a' - 10 + number
    }
}
