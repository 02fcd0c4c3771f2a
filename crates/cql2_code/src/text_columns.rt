//! Questions about the texts in columns.
//!
//! A blank field is NULL, and the four columns of house numbers are right-justified, so the text of a column may begin at any byte of its field or be
//! missing. Both are settled here, once for all questions: `TextQuestion` is asked only of a field that begins with its text. A comparison of two
//! columns is a question about the first whose own question is about the second, so a right-justified pair is a square of cases.
//!
//! Always: whether a field is blank is asked only of a question that a blank field would answer with yes, as the others say no anyway. The code of a
//! right-justified column has a copy of the question for each byte where the text may begin.
ghost use Rattle.std.specs.Prelude.{◌≡◌, ◌≤◌, ◌<◌, true};
ghost use Rattle.bpf_insn.specs.Code.{word_count};
ghost use Rattle.cql2_code.specs.Layout.{Prepends};
ghost use Rattle.cql2_code.specs.Lowering as lowering;
ghost use Rattle.cql2_code.specs.Lowering.{IsTextField, asks_about, asks_if_filled, asks_like, asks_without_blanks_before};
ghost use Rattle.cql2_code.specs.Lowering.{compares_bytes, compares_columns, compares_fields, compares_text, if_asked, is_like};
ghost use Rattle.cql2_code.specs.Question.{Question};
ghost use Rattle.cql2_code.specs.declared.field.Field.{Field};

use crate::fault::CompileFault;
use crate::field::{Field, field_of};
use crate::field_pairs::prepend_fields;
use crate::patterns::prepend_pattern;
use crate::question::Exits;
use crate::suffix::CodeSuffix;
use crate::texts::{byte_test, prepend_blank_field, prepend_compared};
use cql2::{Comparison, Pattern, PatternPart, TextColumn};
use std::alloc::Allocator;

/// A question about a text.
pub(crate) trait TextQuestion {
    // The question about the field that begins with the text.
    ghost asks: { Self → Field → Question };

    /// Writes the code that asks the question about a field.
    fn prepend<A: Allocator + Copy>(
        &self,
        code: &mut CodeSuffix<A>,
        field: Field,
        exits: Exits,
    ) -> Result<(), CompileFault>
        requires inside { exits.skip ≤ word_count code.old }
        requires is_field { IsTextField field }
        ensures { Prepends result (asks self.now field) exits code.old code.new };
}

/// Writes the code that asks a question about a column's text, which might have the answer yes also for a blank field.
fn prepend_asks_about<A: Allocator + Copy, Q: TextQuestion>(
    code: &mut CodeSuffix<A>,
    column: TextColumn,
    question: &Q,
    of_blanks: bool,
    exits: Exits,
) -> Result<(), CompileFault>
    requires { exits.skip ≤ word_count code.old }
    ensures { Prepends result (asks_about of_blanks (Q.asks question.now) column) exits code.old code.new }
{
    let field = field_of(column);
    if column.is_right_justified() {
        // Blanks before a house number aren't part of it, so the text may begin at any byte.
        return prepend_without_blanks_before(code, field, question, exits);
    }
    let words = code.words();
    question.prepend(code, field, exits)?;
    // A blank field answers the question with no anyway.
    if !of_blanks {
        return Ok(());
    }
    let exits = code.exits_before(words, true, exits);
    prepend_blank_field(code, field, exits.if_asked(false))
}

/// Writes the code that asks a question about a field without the blanks before its text.
fn prepend_without_blanks_before<A: Allocator + Copy, Q: TextQuestion>(
    code: &mut CodeSuffix<A>,
    field: Field,
    question: &Q,
    exits: Exits,
) -> Result<(), CompileFault>
    requires inside { exits.skip ≤ word_count code.old }
    requires is_field { IsTextField field }
    ensures { Prepends result (asks_without_blanks_before (Q.asks question.now) field.offset field.width) exits code.old code.new }
{
    if field.width == 0 {
        return code.prepend_constant(false, exits);
    }
    let rest = Field {
        offset: field.offset + 1,
        width: field.width - 1,
    };
    let words = code.words();
    prepend_without_blanks_before(code, rest, question, exits)?;
    let blank = code.exits_before(words, true, exits);
    code.prepend_test(byte_test(field.offset, Comparison::Equal, b' '), blank)?;
    let filled = code.exits_before(words, false, exits);
    prepend_if_filled(code, field, question, filled)
}

/// Writes the code that asks a question about a field that begins with its text.
fn prepend_if_filled<A: Allocator + Copy, Q: TextQuestion>(
    code: &mut CodeSuffix<A>,
    field: Field,
    question: &Q,
    exits: Exits,
) -> Result<(), CompileFault>
    requires inside { exits.skip ≤ word_count code.old }
    requires is_field { IsTextField field }
    requires some { 0 < field.width }
    ensures { Prepends result (asks_if_filled (Q.asks question.now) field) exits code.old code.new }
{
    let words = code.words();
    question.prepend(code, field, exits)?;
    let filled = code.exits_before(words, true, exits);
    code.prepend_test(byte_test(field.offset, Comparison::NotEqual, b' '), filled)
}

/// A comparison with a text.
#[derive(Clone, Copy)]
struct ComparedText<'a> {
    comparison: Comparison,
    text: &'a [u8],
}

impl<'a> TextQuestion for ComparedText<'a> {
    ghost asks = { λ question field. compares_bytes field question.comparison question.text.now };

    fn prepend<A: Allocator + Copy>(
        &self,
        code: &mut CodeSuffix<A>,
        field: Field,
        exits: Exits,
    ) -> Result<(), CompileFault> {
        prepend_compared(code, field, self.comparison, self.text, exits)
    }
}

/// Writes the code that compares a column with a text.
pub(crate) fn prepend_text<A: Allocator + Copy>(
    code: &mut CodeSuffix<A>,
    column: TextColumn,
    comparison: Comparison,
    text: &[u8],
    exits: Exits,
) -> Result<(), CompileFault>
    requires { exits.skip ≤ word_count code.old }
    ensures { Prepends result (compares_text column comparison text.now) exits code.old code.new }
{
    let question = ComparedText { comparison, text };
    prepend_asks_about(code, column, &question, holds_of_blanks(comparison), exits)
}

/// Returns whether a comparison with a text holds for a blank field.
fn holds_of_blanks(comparison: Comparison) -> bool
    ensures { result ≡ lowering.holds_of_blanks comparison }
{
    match comparison {
        Comparison::NotEqual | Comparison::Less | Comparison::LessOrEqual => true,
        Comparison::Equal | Comparison::Greater | Comparison::GreaterOrEqual => false,
    }
}

/// LIKE, or its opposite if `asked` is false.
#[derive(Clone, Copy)]
struct Matched<'a> {
    pattern: &'a [PatternPart],
    asked: bool,
}

impl<'a> TextQuestion for Matched<'a> {
    ghost asks = { λ question field. if_asked (is_like field question.pattern.now) question.asked };

    fn prepend<A: Allocator + Copy>(
        &self,
        code: &mut CodeSuffix<A>,
        field: Field,
        exits: Exits,
    ) -> Result<(), CompileFault> {
        prepend_pattern(code, field, self.pattern, exits.if_asked(self.asked))
    }
}

/// Writes the code that asks whether a column matches a pattern, or whether it doesn't.
pub(crate) fn prepend_like<A: Allocator + Copy>(
    code: &mut CodeSuffix<A>,
    column: TextColumn,
    pattern: &Pattern<A>,
    asked: bool,
    exits: Exits,
) -> Result<(), CompileFault>
    requires { exits.skip ≤ word_count code.old }
    ensures { Prepends result (asks_like column pattern.now.parts.items asked) exits code.old code.new }
{
    let question = Matched {
        pattern: pattern.parts.as_slice(),
        asked,
    };
    prepend_asks_about(code, column, &question, !asked, exits)
}

/// A comparison of a field's text, on the left, with another text.
#[derive(Clone, Copy)]
struct ComparedField {
    left: Field,
    comparison: Comparison,
    ghost is_field: { IsTextField left },
}

impl TextQuestion for ComparedField {
    ghost asks = { λ question field. compares_fields question.left question.comparison field };

    fn prepend<A: Allocator + Copy>(
        &self,
        code: &mut CodeSuffix<A>,
        field: Field,
        exits: Exits,
    ) -> Result<(), CompileFault> {
        prepend_fields(code, self.left, self.comparison, field, exits)
    }
}

/// A comparison of a text, on the left, with that in a column.
#[derive(Clone, Copy)]
struct ComparedColumn {
    comparison: Comparison,
    right: TextColumn,
}

impl TextQuestion for ComparedColumn {
    ghost asks = { λ question field. asks_about true (compares_fields field question.comparison) question.right };

    fn prepend<A: Allocator + Copy>(
        &self,
        code: &mut CodeSuffix<A>,
        field: Field,
        exits: Exits,
    ) -> Result<(), CompileFault> {
        let question = ComparedField {
            left: field,
            comparison: self.comparison,
        };
        prepend_asks_about(code, self.right, &question, true, exits)
    }
}

/// Writes the code that compares two columns if neither is NULL.
pub(crate) fn prepend_columns<A: Allocator + Copy>(
    code: &mut CodeSuffix<A>,
    left: TextColumn,
    comparison: Comparison,
    right: TextColumn,
    exits: Exits,
) -> Result<(), CompileFault>
    requires { exits.skip ≤ word_count code.old }
    ensures { Prepends result (compares_columns left comparison right) exits code.old code.new }
{
    let question = ComparedColumn { comparison, right };
    prepend_asks_about(code, left, &question, true, exits)
}
