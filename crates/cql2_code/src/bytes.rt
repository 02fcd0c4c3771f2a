//! Bytes as little-endian numbers.
ghost use Rattle.std.specs.Prelude.{◌≡◌, length};
ghost use Rattle.std.specs.Int.{w32, w64, cast_signed};
ghost use Rattle.cql2_code.specs.Question.{bytes_value};

use byteorder::{ByteOrder, LittleEndian};

/// Reads four bytes as a signed number.
pub(crate) fn signed_word(bytes: &[u8]) -> i32
    requires { length bytes.now ≡ 4 }
    ensures { result ≡ cast_signed w32 (bytes_value bytes.now) }
{
    LittleEndian::read_i32(bytes)
}

/// Reads four bytes as an unsigned number.
pub(crate) fn word(bytes: &[u8]) -> i64
    requires { length bytes.now ≡ 4 }
    ensures { result ≡ cast_signed w64 (bytes_value bytes.now) }
{
    i64::from(LittleEndian::read_u32(bytes))
}

/// Reads eight bytes as a signed number.
pub(crate) fn double_word(bytes: &[u8]) -> i64
    requires { length bytes.now ≡ 8 }
    ensures { result ≡ cast_signed w64 (bytes_value bytes.now) }
{
    LittleEndian::read_i64(bytes)
}
