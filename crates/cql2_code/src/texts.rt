//! Questions about the texts in fields.
//!
//! Equality is asked in chunks of eight and four bytes, since a load and a jump compare as many at once. Order is asked byte by byte: a little-endian
//! number isn't ordered as its bytes are. Blanks at the end don't count, as in SQL's CHAR, so a text ends where nothing but blanks follows, and
//! blanks pad the shorter of two texts.
//!
//! Always: no question reads past its field, and each is asked of the field's own bytes, without the frame. Greater isn't the opposite of less with
//! the sides exchanged, as only one side is known when the code is written; so both have a function. The functions recurse over at most 30 bytes.
ghost use Rattle.std.specs.Prelude.{◌≡◌, ◌≤◌, ◌<◌, ◌+◌, ◌-◌, length, map, false, IfOk};
ghost use Rattle.bpf_insn.specs.Code.{word_count};
ghost use Rattle.cql2.specs.declared.pattern.PatternPart.TheVariants.{Exactly};
ghost use Rattle.cql2_code.specs.Layout.{Prepends};
ghost use Rattle.cql2_code.specs.Lowering as lowering;
ghost use Rattle.cql2_code.specs.Lowering.{IsTextField, PrependsBefore, byte_test, compares_bytes, ends_so, has_bytes, has_each, has_few, is_blank};
ghost use Rattle.cql2_code.specs.Lowering.{is_blank_field, is_greater, is_less, is_piece};
ghost use Rattle.cql2_code.specs.Question.{Holds};
ghost use Rattle.tl_records.specs.declared.layout.TheConstants.{RECORD_LENGTH};

use crate::bytes::{double_word, word};
use crate::fault::CompileFault;
use crate::field::Field;
use crate::question::{Chunk, Exits, Subject, Test};
use crate::suffix::CodeSuffix;
use cql2::Comparison;
use std::alloc::Allocator;
use tl_segments::NAME_LENGTH;

/// Blanks for the widest text column.
const BLANKS: [u8; NAME_LENGTH] = [b' '; NAME_LENGTH];

/// Writes the code that compares the text in a field that isn't blank with a text.
pub(crate) fn prepend_compared<A: Allocator + Copy>(
    code: &mut CodeSuffix<A>,
    field: Field,
    comparison: Comparison,
    text: &[u8],
    exits: Exits,
) -> Result<(), CompileFault>
    requires inside { exits.skip ≤ word_count code.old }
    requires is_field { IsTextField field }
    ensures { Prepends result (compares_bytes field comparison text.now) exits code.old code.new }
{
    let (at, left) = (field.offset, field.width);
    match comparison {
        Comparison::Equal => prepend_equal(code, field, text, exits),
        Comparison::NotEqual => prepend_equal(code, field, text, exits.if_asked(false)),
        Comparison::Less => prepend_less(code, at, left, text, exits),
        Comparison::GreaterOrEqual => prepend_less(code, at, left, text, exits.if_asked(false)),
        Comparison::Greater => prepend_greater(code, at, left, text, exits),
        Comparison::LessOrEqual => prepend_greater(code, at, left, text, exits.if_asked(false)),
    }
}

/// Writes the code that asks whether a field has these bytes and then no more.
fn prepend_equal<A: Allocator + Copy>(
    code: &mut CodeSuffix<A>,
    field: Field,
    bytes: &[u8],
    exits: Exits,
) -> Result<(), CompileFault>
    requires inside { exits.skip ≤ word_count code.old }
    requires is_field { IsTextField field }
    ensures { Prepends result (is_piece field (map Exactly bytes.now) false) exits code.old code.new }
{
    if bytes.len() > usize::from(field.width) {
        return code.prepend_constant(false, exits);
    }
    let ends = Ending {
        count: bytes.len() as u8,
        is_open: false,
        is_filled: is_filled(bytes),
    };
    let exits = prepend_ending(code, field, ends, exits)?;
    prepend_bytes(code, field.offset, bytes, exits)
}

/// Returns whether the last byte is not a blank.
fn is_filled(bytes: &[u8]) -> bool
    ensures { result ≡ lowering.ends_filled (map Exactly bytes.now) }
{
    match bytes.last() {
        Some(byte) => *byte != b' ',
        None => false,
    }
}

/// The end of a pattern.
#[derive(Clone, Copy)]
pub(crate) struct Ending {
    /// The number of bytes of the field before it.
    pub count: u8,
    /// Whether more bytes may follow.
    pub is_open: bool,
    /// Whether the last of these is not a blank.
    pub is_filled: bool,
}

/// Writes the code that checks the bytes after the required ones, and returns the exits for the code that checks the required ones.
pub(crate) fn prepend_ending<A: Allocator + Copy>(
    code: &mut CodeSuffix<A>,
    field: Field,
    ends: Ending,
    exits: Exits,
) -> Result<Exits, CompileFault>
    requires inside { exits.skip ≤ word_count code.old }
    requires is_field { IsTextField field }
    requires fits { ends.count ≤ field.width }
    ensures before { PrependsBefore result (ends_so ends.is_open ends.is_filled field ends.count) exits code.old code.new }
    ensures inside { IfOk result (λ first. first.skip ≤ word_count code.new) }
{
    let words = code.words();
    match (ends.is_open, ends.is_filled) {
        (true, true) => Ok(exits),
        (true, false) => {
            let from = ends.count.saturating_sub(1);
            prepend_blank(code, field, from, exits.if_asked(false))?;
            Ok(code.exits_before(words, true, exits))
        }
        (false, true) => {
            if ends.count == field.width {
                return Ok(exits);
            }
            prepend_blank(code, field, ends.count, exits)?;
            Ok(code.exits_before(words, true, exits))
        }
        (false, false) => {
            let from = ends.count.saturating_sub(1);
            prepend_blank(code, field, from, exits.if_asked(false))?;
            let inner = code.exits_before(words, true, exits);
            prepend_blank(code, field, ends.count, inner)?;
            Ok(code.exits_before(words, true, exits))
        }
    }
}

/// Writes the code that asks whether a field is blank.
pub(crate) fn prepend_blank_field<A: Allocator + Copy>(
    code: &mut CodeSuffix<A>,
    field: Field,
    exits: Exits,
) -> Result<(), CompileFault>
    requires inside { exits.skip ≤ word_count code.old }
    requires is_field { IsTextField field }
    ensures { Prepends result (is_blank_field field) exits code.old code.new }
{
    prepend_blank(code, field, 0, exits)
}

/// Writes the code that asks whether a field is blank from a byte, counted from 0, to its end.
fn prepend_blank<A: Allocator + Copy>(
    code: &mut CodeSuffix<A>,
    field: Field,
    from: u8,
    exits: Exits,
) -> Result<(), CompileFault>
    requires inside { exits.skip ≤ word_count code.old }
    requires is_field { IsTextField field }
    requires fits { from ≤ field.width }
    ensures { Prepends result (is_blank (field.offset + from) (field.width - from)) exits code.old code.new }
{
    let left = usize::from(field.width - from);
    prepend_bytes(code, field.offset + from, &BLANKS[..left], exits)
}

/// Writes the code that asks whether bytes of the record are blank.
pub(crate) fn prepend_blanks<A: Allocator + Copy>(
    code: &mut CodeSuffix<A>,
    at: u8,
    count: u8,
    exits: Exits,
) -> Result<(), CompileFault>
    requires inside { exits.skip ≤ word_count code.old }
    requires fits { at + count ≤ RECORD_LENGTH }
    requires short { count ≤ NAME_LENGTH }
    ensures { Prepends result (is_blank at count) exits code.old code.new }
{
    prepend_bytes(code, at, &BLANKS[..usize::from(count)], exits)
}

/// Writes the code that asks whether the record has these bytes at an offset.
pub(crate) fn prepend_bytes<A: Allocator + Copy>(
    code: &mut CodeSuffix<A>,
    at: u8,
    bytes: &[u8],
    exits: Exits,
) -> Result<(), CompileFault>
    requires inside { exits.skip ≤ word_count code.old }
    requires fits { at + length bytes.now ≤ RECORD_LENGTH }
    ensures { Prepends result (has_bytes at bytes.now) exits code.old code.new }
{
    // A load and a comparison take up to eight bytes at once.
    let Some((first, rest)) = bytes.split_at_checked(8) else {
        return prepend_few(code, at, bytes, exits);
    };
    let test = Test {
        subject: Subject::Load(Chunk::DoubleWord, at),
        comparison: Comparison::Equal,
        operand: double_word(first),
    };
    if rest.is_empty() {
        return code.prepend_test(test, exits);
    }
    let words = code.words();
    prepend_bytes(code, at + 8, rest, exits)?;
    let exits = code.exits_before(words, true, exits);
    code.prepend_test(test, exits)
}

/// Writes the code that asks whether the record has these bytes, fewer than eight, at an offset.
fn prepend_few<A: Allocator + Copy>(
    code: &mut CodeSuffix<A>,
    at: u8,
    bytes: &[u8],
    exits: Exits,
) -> Result<(), CompileFault>
    requires inside { exits.skip ≤ word_count code.old }
    requires fits { at + length bytes.now ≤ RECORD_LENGTH }
    ensures { Prepends result (has_few at bytes.now) exits code.old code.new }
{
    let Some((first, rest)) = bytes.split_at_checked(4) else {
        return prepend_each(code, at, bytes, exits);
    };
    let test = Test {
        subject: Subject::Load(Chunk::Word, at),
        comparison: Comparison::Equal,
        // A load of four bytes fills with zeros.
        operand: word(first),
    };
    if rest.is_empty() {
        return code.prepend_test(test, exits);
    }
    let words = code.words();
    prepend_each(code, at + 4, rest, exits)?;
    let exits = code.exits_before(words, true, exits);
    code.prepend_test(test, exits)
}

/// Writes the code that asks whether the record has these bytes at an offset, one by one.
fn prepend_each<A: Allocator + Copy>(
    code: &mut CodeSuffix<A>,
    at: u8,
    bytes: &[u8],
    exits: Exits,
) -> Result<(), CompileFault>
    requires inside { exits.skip ≤ word_count code.old }
    requires fits { at + length bytes.now ≤ RECORD_LENGTH }
    ensures { Prepends result (has_each at bytes.now) exits code.old code.new }
{
    let Some((byte, rest)) = bytes.split_first() else {
        return code.prepend_constant(true, exits);
    };
    let test = byte_test(at, Comparison::Equal, *byte);
    if rest.is_empty() {
        return code.prepend_test(test, exits);
    }
    let words = code.words();
    prepend_each(code, at + 1, rest, exits)?;
    let exits = code.exits_before(words, true, exits);
    code.prepend_test(test, exits)
}

/// Writes the code that asks whether the rest of a field is less than a text.
fn prepend_less<A: Allocator + Copy>(
    code: &mut CodeSuffix<A>,
    at: u8,
    left: u8,
    text: &[u8],
    exits: Exits,
) -> Result<(), CompileFault>
    requires inside { exits.skip ≤ word_count code.old }
    requires fits { at + left ≤ RECORD_LENGTH }
    ensures { Prepends result (is_less at left text.now) exits code.old code.new }
{
    let Some((byte, rest)) = text.split_first() else {
        return code.prepend_constant(false, exits);
    };
    if left == 0 {
        return code.prepend_constant(true, exits);
    }
    let words = code.words();
    prepend_less(code, at + 1, left - 1, rest, exits)?;
    let same = code.exits_before(words, true, exits);
    code.prepend_test(byte_test(at, Comparison::Equal, *byte), same)?;
    let less = code.exits_before(words, false, exits);
    code.prepend_test(byte_test(at, Comparison::Less, *byte), less)
}

/// Writes the code that asks whether the rest of a field is greater than a text.
fn prepend_greater<A: Allocator + Copy>(
    code: &mut CodeSuffix<A>,
    at: u8,
    left: u8,
    text: &[u8],
    exits: Exits,
) -> Result<(), CompileFault>
    requires inside { exits.skip ≤ word_count code.old }
    requires fits { at + left ≤ RECORD_LENGTH }
    requires short { left ≤ NAME_LENGTH }
    ensures { Prepends result (is_greater at left text.now) exits code.old code.new }
{
    if left == 0 {
        return code.prepend_constant(false, exits);
    }
    let Some((byte, rest)) = text.split_first() else {
        return prepend_bytes(
            code,
            at,
            &BLANKS[..usize::from(left)],
            exits.if_asked(false),
        );
    };
    let words = code.words();
    prepend_greater(code, at + 1, left - 1, rest, exits)?;
    let same = code.exits_before(words, true, exits);
    code.prepend_test(byte_test(at, Comparison::Equal, *byte), same)?;
    let greater = code.exits_before(words, false, exits);
    code.prepend_test(byte_test(at, Comparison::Greater, *byte), greater)
}

/// Returns the test that compares a byte of the record.
pub(crate) fn byte_test(at: u8, comparison: Comparison, byte: u8) -> Test
    ensures { Holds result ≡ byte_test at comparison byte }
{
    Test {
        subject: Subject::Load(Chunk::Byte, at),
        comparison,
        operand: i64::from(byte),
    }
}
