//! Values of columns.
ghost use Rattle.std.specs.Prelude.{◌≡◌, ◌≤◌, ◌+◌, ◌++◌, length, encode_utf8, encode_utf8_all, reverse};
ghost use Rattle.std.specs.Prelude.{decimal, option_map};
ghost use Rattle.numerals.specs.Degrees.{degrees};
ghost use Rattle.layers.specs.Value.{number_value, parts_of, text_value, value_of};
ghost use Rattle.tl_fields.specs.Coordinate.{coordinate_of};
ghost use Rattle.tl_fields.specs.Number.{number_of, trim, without_blanks_before};

use crate::columns::{MAX_FIELD_LENGTH, places_of};
use arrayvec::ArrayVec;
use cql2::{Column, NumberColumn, NumericColumn};
use itoa::Buffer;
use numerals::{DEGREES_LENGTH, degrees};
use tl_fields::{coordinate, number};
use tl_records::RECORD_LENGTH;

const BLANK: u8 = b' ';

/// The greatest number of bytes of a value: a character of Latin-1 takes at most two in UTF-8.
pub(crate) const MAX_VALUE_LENGTH: usize = 60;

/// The value of a column in a record, as text.
#[derive(Drop)]
pub(crate) enum CellValue {
    Missing,
    Text(ArrayVec<u8, MAX_VALUE_LENGTH>),
    Number(ArrayVec<u8, DEGREES_LENGTH>),
}

/// Returns the value of a column in a type 1 record.
pub(crate) fn value_of(column: Column, line: &[u8]) -> CellValue
    requires { length line.now ≡ RECORD_LENGTH }
    ensures { parts_of result ≡ value_of column line.now }
{
    let field = places_of(column).of(line);
    match column {
        Column::Numeric(NumericColumn::Number(NumberColumn::Tlid)) => integer(field),
        Column::Numeric(NumericColumn::Coordinate(_)) => coordinate_value(field),
        // These stay texts: codes keep their zeros, and house numbers may have letters.
        Column::Numeric(NumericColumn::Number(_)) | Column::Text(_) => text_value(field),
    }
}

/// Returns the number of a field.
fn integer(field: &[u8]) -> CellValue
    ensures { parts_of result ≡ number_value (option_map decimal (number_of field.now)) }
{
    let Some(number) = number(field) else {
        return CellValue::Missing;
    };
    let mut digits = ArrayVec::new();
    digits
        .try_extend_from_slice(Buffer::new().format(number).as_bytes())
        .unwrap();
    CellValue::Number(digits)
}

/// Returns the coordinate of a field in degrees.
fn coordinate_value(field: &[u8]) -> CellValue
    ensures { parts_of result ≡ number_value (option_map degrees (coordinate_of field.now)) }
{
    match coordinate(field) {
        Some(millionths) => CellValue::Number(degrees(millionths)),
        None => CellValue::Missing,
    }
}

/// Returns the text of a field.
fn text_value(field: &[u8]) -> CellValue
    requires { length field.now ≤ MAX_FIELD_LENGTH }
    ensures { parts_of result ≡ text_value (trim field.now) }
{
    let text = trim(field);
    if text.is_empty() {
        return CellValue::Missing;
    }
    CellValue::Text(utf8_of(text))
}

/// Removes leading and trailing blanks.
fn trim(field: &[u8]) -> &[u8]
    ensures value { result.now ≡ trim field.now }
    ensures shorter { length result.now ≤ length field.now }
{
    without_trailing_blanks(without_leading_blanks(field))
}

fn without_leading_blanks(field: &[u8]) -> &[u8]
    ensures value { result.now ≡ without_blanks_before field.now }
    ensures shorter { length result.now ≤ length field.now }
{
    let mut rest = field;
    while let [BLANK, after @ ..] = rest {
        rest = after;
    }
    rest
}

fn without_trailing_blanks(field: &[u8]) -> &[u8]
    ensures value { result.now ≡ reverse (without_blanks_before (reverse field.now)) }
    ensures shorter { length result.now ≤ length field.now }
{
    let mut rest = field;
    while let [before @ .., BLANK] = rest {
        rest = before;
    }
    rest
}

/// Returns the text that bytes are in Latin-1, in UTF-8.
#[tactic(auto, using(crate::proofs::Utf8Lemmas::utf8_next))]
fn utf8_of(bytes: &[u8]) -> ArrayVec<u8, MAX_VALUE_LENGTH>
    requires { length bytes.now ≤ MAX_FIELD_LENGTH }
    ensures { result.items ≡ encode_utf8_all bytes.now }
{
    let mut text = ArrayVec::new();
    for byte in bytes {
        push_character(*byte, &mut text);
    }
    text
}

/// Appends a character of Latin-1 in UTF-8.
#[inline(always)]
#[tactic(auto, using(crate::proofs::Utf8Lemmas::encode_ascii, crate::proofs::Utf8Lemmas::encode_latin_1))]
fn push_character(byte: u8, text: &mut ArrayVec<u8, MAX_VALUE_LENGTH>)
    requires { length text.old.items + 2 ≤ MAX_VALUE_LENGTH }
    ensures value { text.new.items ≡ text.old.items ++ encode_utf8 byte }
    ensures short { length text.new.items ≤ length text.old.items + 2 }
{
    if byte < 0x80 {
        text.push(byte);
    } else {
        text.push(0xC0 + byte / 64);
        text.push(0x80 + byte % 64);
    }
}
