//! Positions in texts.
ghost use Rattle.std.specs.Prelude.{◌≡◌, ◌<◌, ◌≤◌, ◌+◌, ◌^◌, length};
ghost use Rattle.cql2_json.specs.Position.{column_after, is_continuation, line_after, next_column, offset_of};

/// Returns the line, counted from 1, of the byte after this prefix of a text.
pub(crate) fn line_after(front: &[u8]) -> u32
    requires { length front.now < 2 ^ 31 }
    ensures { result ≡ line_after front.now }
{
    let mut line = 1;
    for byte in front {
        if *byte == b'\n' {
            line += 1;
        }
    }
    line
}

/// Returns the character in its line, counted from 1, after this prefix of a text.
pub(crate) fn column_after(front: &[u8]) -> u32
    requires { length front.now < 2 ^ 31 }
    ensures { result ≡ column_after front.now }
{
    let mut column = 1;
    for byte in front {
        column = next_column(column, *byte);
    }
    column
}

/// Returns the column after a byte.
fn next_column(column: u32, byte: u8) -> u32
    requires { column < 2 ^ 31 }
    ensures value { result ≡ next_column column byte }
    ensures small { result ≤ column + 1 }
{
    if byte == b'\n' {
        1
    } else if is_continuation(byte) {
        column
    } else {
        column + 1
    }
}

/// Returns whether a byte continues a character.
fn is_continuation(byte: u8) -> bool
    ensures { result ≡ is_continuation byte }
{
    byte >= 0x80 && byte < 0xc0
}

/// Returns the offset of the character at a column of a text of one line, or the text's length past its end.
pub(crate) fn offset_of(text: &[u8], column: u32) -> usize
    ensures { result ≡ offset_of column text.now }
{
    let mut left = column;
    for (offset, byte) in text.iter().enumerate() {
        if !is_continuation(*byte) {
            if left <= 1 {
                return offset;
            }
            left -= 1;
        }
    }
    text.len()
}
