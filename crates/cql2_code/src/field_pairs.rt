//! Comparisons of the texts in two fields.
ghost use Rattle.std.specs.Prelude.{◌≡◌, ◌≤◌, ◌+◌, ◌++◌, ◌<◌};
ghost use Rattle.bpf_insn.specs.Code.{word_count};
ghost use Rattle.cql2_code.specs.BytePairs.{compares_pair, pair_code};
ghost use Rattle.cql2_code.specs.Layout.{IsPrepended, Prepends};
ghost use Rattle.cql2_code.specs.Lowering.{IsTextField, compares_fields, is_less_field, is_same_field};
ghost use Rattle.tl_records.specs.declared.layout.TheConstants.{RECORD_LENGTH};
ghost use Rattle.tl_segments.specs.declared.name.TheConstants.{NAME_LENGTH};

use crate::expressions::prepend_saved;
use crate::fault::CompileFault;
use crate::field::Field;
use crate::instructions::{copy, from_result, into_saved, load};
use crate::question::{Chunk, Exits};
use crate::suffix::CodeSuffix;
use crate::texts::prepend_blanks;
use cql2::{Comparison, Operator};
use std::alloc::Allocator;

/// Writes the code that compares the texts in two fields, neither of which is blank.
pub(crate) fn prepend_fields<A: Allocator + Copy>(
    code: &mut CodeSuffix<A>,
    first: Field,
    comparison: Comparison,
    second: Field,
    exits: Exits,
) -> Result<(), CompileFault>
    requires inside { exits.skip ≤ word_count code.old }
    requires first { IsTextField first }
    requires second { IsTextField second }
    ensures { Prepends result (compares_fields first comparison second) exits code.old code.new }
{
    match comparison {
        Comparison::Equal => prepend_same_field(code, first, second, exits),
        Comparison::NotEqual => prepend_same_field(code, first, second, exits.if_asked(false)),
        Comparison::Less => prepend_less_field(code, first, second, exits),
        Comparison::GreaterOrEqual => prepend_less_field(
            code,
            first,
            second,
            exits.if_asked(false),
        ),
        Comparison::Greater => prepend_less_field(code, second, first, exits),
        Comparison::LessOrEqual => prepend_less_field(code, second, first, exits.if_asked(false)),
    }
}

/// Writes the code that asks whether two fields hold the same text.
fn prepend_same_field<A: Allocator + Copy>(
    code: &mut CodeSuffix<A>,
    first: Field,
    second: Field,
    exits: Exits,
) -> Result<(), CompileFault>
    requires inside { exits.skip ≤ word_count code.old }
    requires first { IsTextField first }
    requires second { IsTextField second }
    ensures { Prepends result (is_same_field first.offset first.width second.offset second.width) exits code.old code.new }
{
    prepend_same(
        code,
        first.offset,
        first.width,
        second.offset,
        second.width,
        exits,
    )
}

/// Writes the code that asks whether the text in one field is less than that in another.
fn prepend_less_field<A: Allocator + Copy>(
    code: &mut CodeSuffix<A>,
    first: Field,
    second: Field,
    exits: Exits,
) -> Result<(), CompileFault>
    requires inside { exits.skip ≤ word_count code.old }
    requires first { IsTextField first }
    requires second { IsTextField second }
    ensures { Prepends result (is_less_field first.offset first.width second.offset second.width) exits code.old code.new }
{
    prepend_less(
        code,
        first.offset,
        first.width,
        second.offset,
        second.width,
        exits,
    )
}

/// Writes the code that asks whether two fields hold the same text.
fn prepend_same<A: Allocator + Copy>(
    code: &mut CodeSuffix<A>,
    at: u8,
    left: u8,
    other: u8,
    more: u8,
    exits: Exits,
) -> Result<(), CompileFault>
    requires inside { exits.skip ≤ word_count code.old }
    requires first { at + left ≤ RECORD_LENGTH }
    requires second { other + more ≤ RECORD_LENGTH }
    requires short { left ≤ NAME_LENGTH }
    requires short_too { more ≤ NAME_LENGTH }
    ensures { Prepends result (is_same_field at left other more) exits code.old code.new }
{
    // Blanks pad the shorter field.
    if left == 0 {
        return prepend_blanks(code, other, more, exits);
    }
    if more == 0 {
        return prepend_blanks(code, at, left, exits);
    }
    let words = code.words();
    prepend_same(code, at + 1, left - 1, other + 1, more - 1, exits)?;
    let exits = code.exits_before(words, true, exits);
    prepend_pair(code, at, Comparison::Equal, other, exits)
}

/// Writes the code that asks whether the text in one field is less than that in another.
fn prepend_less<A: Allocator + Copy>(
    code: &mut CodeSuffix<A>,
    at: u8,
    left: u8,
    other: u8,
    more: u8,
    exits: Exits,
) -> Result<(), CompileFault>
    requires inside { exits.skip ≤ word_count code.old }
    requires first { at + left ≤ RECORD_LENGTH }
    requires second { other + more ≤ RECORD_LENGTH }
    requires short { left ≤ NAME_LENGTH }
    requires short_too { more ≤ NAME_LENGTH }
    ensures { Prepends result (is_less_field at left other more) exits code.old code.new }
{
    if more == 0 {
        return code.prepend_constant(false, exits);
    }
    if left == 0 {
        return prepend_blanks(code, other, more, exits.if_asked(false));
    }
    let words = code.words();
    prepend_less(code, at + 1, left - 1, other + 1, more - 1, exits)?;
    let same = code.exits_before(words, true, exits);
    prepend_pair(code, at, Comparison::Equal, other, same)?;
    let less = code.exits_before(words, false, exits);
    prepend_pair(code, at, Comparison::Less, other, less)?;
    let blank = code.exits_before(words, false, exits);
    prepend_blanks(code, at, left, blank)?;
    let filled = code.exits_before(words, true, exits);
    prepend_blanks(code, other, more, filled.if_asked(false))
}

/// Writes the code that compares two bytes.
fn prepend_pair<A: Allocator + Copy>(
    code: &mut CodeSuffix<A>,
    at: u8,
    comparison: Comparison,
    other: u8,
    exits: Exits,
) -> Result<(), CompileFault>
    requires inside { exits.skip ≤ word_count code.old }
    ensures { Prepends result (compares_pair at comparison other) exits code.old code.new }
{
    code.prepend_zero_comparison(comparison, exits)?;
    prepend_pair_code(code, at, other)
}

/// Writes the code that subtracts a byte from another.
fn prepend_pair_code<A: Allocator + Copy>(
    code: &mut CodeSuffix<A>,
    at: u8,
    other: u8,
) -> Result<(), CompileFault>
    ensures { IsPrepended result (pair_code at other ++ code.old) code.new }
{
    prepend_saved(code, Operator::Subtract, 0)?;
    code.prepend(load(Chunk::Byte, other))?;
    code.prepend(copy(into_saved(0), from_result()))?;
    code.prepend(load(Chunk::Byte, at))
}
