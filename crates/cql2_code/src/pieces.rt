//! Pieces of patterns, which have no `%`.
ghost use Rattle.std.specs.Prelude.{◌≡◌, ◌≤◌, ◌<◌, ◌+◌, ◌++◌, length, IfNone, IfSome, None, Some};
ghost use Rattle.bpf_insn.specs.Code.{word_count};
ghost use Rattle.cql2_code.specs.Among.{comparisons};
ghost use Rattle.cql2_code.specs.Layout.{IsPrepended, Prepends};
ghost use Rattle.cql2_code.specs.Lowering.{are_required, bytes_alike, ends_filled, exact_bytes, is_among, is_each_required, is_required};
ghost use Rattle.cql2_code.specs.Pieces.{least_length, pieces_of};
ghost use Rattle.tl_records.specs.declared.layout.TheConstants.{RECORD_LENGTH};

use crate::fault::CompileFault;
use crate::folding::is_alike;
use crate::question::{Chunk, Exits, Subject};
use crate::suffix::CodeSuffix;
use crate::texts::{byte_test, prepend_bytes};
use arrayvec::ArrayVec;
use bpf_insn::Source;
use cql2::{Comparison, Folding, PatternPart};
use std::alloc::Allocator;
use tl_segments::NAME_LENGTH;

/// Returns the number of parts before a pattern's first `%`.
pub(crate) fn first_length(pattern: &[PatternPart]) -> usize
    ensures value { result ≡ length (pieces_of pattern.now).first }
    ensures inside { result ≤ length pattern.now }
{
    let mut count = 0;
    for part in pattern {
        if let PatternPart::Many = *part {
            return count;
        }
        count += 1;
    }
    count
}

/// Returns the number of bytes that a pattern takes at least.
pub(crate) fn least_length(pattern: &[PatternPart]) -> usize
    ensures value { result ≡ least_length pattern.now }
    ensures inside { result ≤ length pattern.now }
{
    let mut count = 0;
    for part in pattern {
        match *part {
            PatternPart::Many => (),
            _ => count += 1,
        }
    }
    count
}

/// Returns the bytes of a piece that wants each of them exactly.
fn exact_bytes(piece: &[PatternPart]) -> Option<ArrayVec<u8, NAME_LENGTH>>
    requires { length piece.now ≤ NAME_LENGTH }
    ensures some { IfSome result (λ bytes. exact_bytes piece.now ≡ Some bytes.items) }
    ensures none { IfNone result (exact_bytes piece.now ≡ None) }
{
    let mut bytes = ArrayVec::new();
    for byte in piece {
        match *byte {
            PatternPart::Exactly(byte) => bytes.push(byte),
            _ => return None,
        }
    }
    Some(bytes)
}

/// Returns whether a piece's last byte is not a blank.
pub(crate) fn ends_filled(piece: &[PatternPart]) -> bool
    ensures { result ≡ ends_filled piece.now }
{
    match piece.last() {
        Some(PatternPart::Exactly(byte)) => *byte != b' ',
        Some(PatternPart::Alike(folding, byte)) => !is_alike(*folding, b' ', *byte),
        Some(PatternPart::One) => false,
        Some(PatternPart::Many) => false,
        None => false,
    }
}

/// Writes the code that asks whether the bytes at an offset match a piece.
pub(crate) fn prepend_are_required<A: Allocator + Copy>(
    code: &mut CodeSuffix<A>,
    at: u8,
    piece: &[PatternPart],
    exits: Exits,
) -> Result<(), CompileFault>
    requires inside { exits.skip ≤ word_count code.old }
    requires fits { at + length piece.now ≤ RECORD_LENGTH }
    requires short { length piece.now ≤ NAME_LENGTH }
    ensures { Prepends result (are_required at piece.now) exits code.old code.new }
{
    // Bytes that are known exactly are compared up to eight at a time.
    if let Some(bytes) = exact_bytes(piece) {
        return prepend_bytes(code, at, bytes.as_slice(), exits);
    }
    prepend_each_required(code, at, piece, exits)
}

fn prepend_each_required<A: Allocator + Copy>(
    code: &mut CodeSuffix<A>,
    at: u8,
    piece: &[PatternPart],
    exits: Exits,
) -> Result<(), CompileFault>
    requires inside { exits.skip ≤ word_count code.old }
    requires fits { at + length piece.now ≤ RECORD_LENGTH }
    ensures { Prepends result (is_each_required at piece.now) exits code.old code.new }
{
    let Some((first, rest)) = piece.split_first() else {
        return code.prepend_constant(true, exits);
    };
    if rest.is_empty() {
        return prepend_required(code, at, *first, exits);
    }
    let words = code.words();
    prepend_each_required(code, at + 1, rest, exits)?;
    let exits = code.exits_before(words, true, exits);
    prepend_required(code, at, *first, exits)
}

fn prepend_required<A: Allocator + Copy>(
    code: &mut CodeSuffix<A>,
    at: u8,
    required: PatternPart,
    exits: Exits,
) -> Result<(), CompileFault>
    requires { exits.skip ≤ word_count code.old }
    ensures { Prepends result (is_required at required) exits code.old code.new }
{
    match required {
        PatternPart::Exactly(byte) => code.prepend_test(
            byte_test(at, Comparison::Equal, byte),
            exits,
        ),
        PatternPart::Alike(folding, byte) => {
            // A test for each byte that is alike, since no helper function folds letters.
            let bytes = bytes_alike(folding, byte);
            prepend_among(code, at, bytes.as_slice(), exits)
        }
        PatternPart::One => code.prepend_constant(true, exits),
        PatternPart::Many => code.prepend_constant(true, exits),
    }
}

/// Returns the bytes that are the same as this one but for what is ignored, in descending order.
fn bytes_alike(folding: Folding, required: u8) -> ArrayVec<u8, 256>
    ensures { result.items ≡ bytes_alike folding required }
{
    let mut bytes = ArrayVec::new();
    for above in 0..256_u16 {
        let byte = (255 - above) as u8;
        if is_alike(folding, byte, required) {
            bytes.push(byte);
        }
    }
    bytes
}

/// Writes the code that asks whether a byte of the record is one of several.
fn prepend_among<A: Allocator + Copy>(
    code: &mut CodeSuffix<A>,
    at: u8,
    bytes: &[u8],
    exits: Exits,
) -> Result<(), CompileFault>
    requires { exits.skip ≤ word_count code.old }
    ensures { Prepends result (is_among at bytes.now) exits code.old code.new }
{
    let Some((byte, rest)) = bytes.split_first() else {
        return code.prepend_constant(false, exits);
    };
    // The test of one byte has its own load. Several bytes share one.
    if rest.is_empty() {
        return code.prepend_test(byte_test(at, Comparison::Equal, *byte), exits);
    }
    prepend_comparisons(code, *byte, rest, exits)?;
    code.prepend_subject(Subject::Load(Chunk::Byte, at))
}

/// Writes the code that compares the byte in register 0 with a byte and others.
fn prepend_comparisons<A: Allocator + Copy>(
    code: &mut CodeSuffix<A>,
    byte: u8,
    others: &[u8],
    exits: Exits,
) -> Result<(), CompileFault>
    requires { exits.skip ≤ word_count code.old }
    ensures { IsPrepended result (comparisons byte others.now exits.falls exits.skip ++ code.old) code.new }
{
    let Some((next, rest)) = others.split_first() else {
        let comparison = if exits.falls {
            Comparison::NotEqual
        } else {
            Comparison::Equal
        };
        return code.prepend_skip_if(comparison, Source::Immediate(i32::from(byte)), exits);
    };
    let words = code.words();
    prepend_comparisons(code, *next, rest, exits)?;
    let exits = code.exits_before(words, false, exits);
    code.prepend_skip_if(Comparison::Equal, Source::Immediate(i32::from(byte)), exits)
}
