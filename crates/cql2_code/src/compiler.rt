//! Compiling a filter to a program.
//!
//! A filter is compiled from its end to its front, so every jump's distance is known when it is written, and nothing is patched. Each part is asked
//! whether it is true, or whether it is false, and has two exits. NOT swaps the question, NULL answers no to both, and no register holds a truth
//! value.
ghost use Rattle.std.specs.Prelude.{◌≡◌, ◌≤◌, ◌++◌, IfErr, IfOk, IsErr, true, if◌then◌else◌};
ghost use Rattle.bpf_flow.specs.Flow.{IsForward};
ghost use Rattle.bpf_insn.specs.Code.{word_count};
ghost use Rattle.bpf_verify.specs.Annotation.{HasGoodAnnotation};
ghost use Rattle.cql2_code.specs.Chosen.{Chooses};
ghost use Rattle.cql2_code.specs.Layout as layout;
ghost use Rattle.cql2_code.specs.Layout.{IsPrepended, IsTooLong, Prepends, answer_code, begun, score_code};
ghost use Rattle.cql2_code.specs.Lowering.{asks_whether, if_asked, is_leaf, is_null, program_of};
ghost use Rattle.cql2_code.specs.declared.fault.CompileFault.TheVariants.{TooLong};

use crate::expressions::prepend_numbers;
use crate::fault::CompileFault;
use crate::field::field_of;
use crate::function::prepend_function;
use crate::instructions::{
    call, copy, from_argument_1, from_result, into_argument_1, into_record, into_result,
    into_saved, move_number,
};
use crate::numbers::{has_value, number_of, prepend_number};
use crate::question::{Exits, opposite};
use crate::suffix::CodeSuffix;
use crate::text_columns::{prepend_columns, prepend_like, prepend_text};
use crate::texts::prepend_blank_field;
use bpf_helpers::Helper;
use bpf_insn::{Code, Insn};
use cql2::{Column, Comparison, Filter, NumericColumn};
use std::alloc::Allocator;

/// Returns a filter's program. On each segment it answers 1 if the filter is true, and 0 otherwise. The score of a selected segment is the number
/// of a column, or a coordinate in two's complement. A filter is refused as too long only if its program would be.
pub fn compile<A: Allocator + Copy>(
    alloc: A,
    filter: &Filter<A>,
    score: Option<NumericColumn>,
) -> Result<Code<A>, CompileFault>
    ensures chooses { IfOk result (λ code. Chooses code filter.now score) }
    ensures forward { IfOk result IsForward }
    ensures accepted { IfOk result HasGoodAnnotation }
    ensures ok { IfOk result (λ code. code ≡ program_of filter.now score) }
    ensures err { IfErr result (λ fault. fault ≡ TooLong → IsTooLong (program_of filter.now score)) }
    ensures too_long { IsTooLong (program_of filter.now score) → IsErr result }
{
    let mut code = CodeSuffix::new(alloc);
    prepend_answer(&mut code, 0)?;
    let words = code.words();
    prepend_answer(&mut code, 1)?;
    prepend_score(&mut code, score)?;
    let skip = code.words() - words;
    let exits = Exits { falls: true, skip };
    prepend_filter(&mut code, filter, true, exits)?;
    prepend_beginning(&mut code)?;
    code.into_code(alloc)
}

/// Writes the beginning of a program, which keeps the record's pointer, and sets the registers that keep numbers if the rest writes one of them.
fn prepend_beginning<A: Allocator + Copy>(code: &mut CodeSuffix<A>) -> Result<(), CompileFault>
    ensures { IsPrepended result (begun code.old) code.new }
{
    // Set at the start, so that these registers hold numbers everywhere and the proof of acceptance can look at one instruction at a time.
    if code.writes_saved() {
        code.prepend(move_number(into_saved(2), 0))?;
        code.prepend(move_number(into_saved(1), 0))?;
        code.prepend(move_number(into_saved(0), 0))?;
    }
    code.prepend(copy(into_record(), from_argument_1()))
}

/// Writes the end of a program, with its answer.
fn prepend_answer<A: Allocator + Copy>(
    code: &mut CodeSuffix<A>,
    answer: u8,
) -> Result<(), CompileFault>
    ensures { IsPrepended result (answer_code answer ++ code.old) code.new }
{
    code.prepend(Insn::Exit)?;
    code.prepend(move_number(into_result(), i32::from(answer)))
}

/// Writes the code that emits a column as the score.
fn prepend_score<A: Allocator + Copy>(
    code: &mut CodeSuffix<A>,
    score: Option<NumericColumn>,
) -> Result<(), CompileFault>
    ensures { IsPrepended result (score_code score ++ code.old) code.new }
{
    let Some(column) = score else {
        return Ok(());
    };
    code.prepend(call(Helper::Emit))?;
    code.prepend(copy(into_argument_1(), from_result()))?;
    code.prepend_subject(number_of(column))
}

/// Writes the code that asks whether a filter is true, or whether it is false.
fn prepend_filter<A: Allocator + Copy>(
    code: &mut CodeSuffix<A>,
    filter: &Filter<A>,
    asked: bool,
    exits: Exits,
) -> Result<(), CompileFault>
    requires { exits.skip ≤ word_count code.old }
    ensures { Prepends result (asks_whether filter.now asked) exits code.old code.new }
{
    let mut filter = filter;
    let mut asked = asked;
    let mut exits = exits;
    // Chains of AND and OR nest to the left and may be long, so only their second parts take stack.
    loop {
        match filter {
            Filter::And(first, second) => {
                let words = code.words();
                prepend_filter(code, second, asked, exits)?;
                exits = code.exits_before(words, asked, exits);
                filter = first;
            }
            Filter::Or(first, second) => {
                let words = code.words();
                prepend_filter(code, second, asked, exits)?;
                exits = code.exits_before(words, !asked, exits);
                filter = first;
            }
            Filter::Not(inner) => {
                // The other question with the same exits: no register holds a truth value.
                asked = !asked;
                filter = inner;
            }
            _ => return prepend_leaf(code, filter, asked, exits),
        }
    }
}

/// Writes the code that asks whether a filter with no others in it is true, or whether it is false.
fn prepend_leaf<A: Allocator + Copy>(
    code: &mut CodeSuffix<A>,
    filter: &Filter<A>,
    asked: bool,
    exits: Exits,
) -> Result<(), CompileFault>
    requires inside { exits.skip ≤ word_count code.old }
    requires leaf { is_leaf filter.now ≡ true }
    ensures { Prepends result (asks_whether filter.now asked) exits code.old code.new }
{
    match filter {
        Filter::And(_first, _second) => unreachable!(),
        Filter::Or(_first, _second) => unreachable!(),
        Filter::Not(_inner) => unreachable!(),
        Filter::Constant(value) => code.prepend_constant(*value == asked, exits),
        Filter::IsNull(column) => prepend_is_null(code, *column, asked, exits),
        Filter::CompareNumber(column, comparison, literal) => {
            let comparison = asked_for(*comparison, asked);
            prepend_number(code, *column, comparison, literal.number, exits)
        }
        Filter::CompareNumbers(first, comparison, second) => {
            let comparison = asked_for(*comparison, asked);
            prepend_numbers(
                code,
                &first.expression,
                comparison,
                &second.expression,
                exits,
            )
        }
        Filter::CompareTexts(first, comparison, second) => {
            let comparison = asked_for(*comparison, asked);
            prepend_columns(code, *first, comparison, *second, exits)
        }
        Filter::CompareText(column, comparison, text) => {
            let comparison = asked_for(*comparison, asked);
            prepend_text(code, *column, comparison, text.bytes.as_slice(), exits)
        }
        Filter::Like(column, pattern) => prepend_like(code, *column, pattern, asked, exits),
        Filter::Function(function) => prepend_function(code, function, asked, exits),
    }
}

/// Returns a comparison, or its opposite if `asked` is false.
fn asked_for(comparison: Comparison, asked: bool) -> Comparison
    ensures { result ≡ (if asked then comparison else layout.opposite comparison) }
{
    if asked {
        comparison
    } else {
        opposite(comparison)
    }
}

/// Writes the code that asks whether a column is NULL, or whether it isn't.
fn prepend_is_null<A: Allocator + Copy>(
    code: &mut CodeSuffix<A>,
    column: Column,
    asked: bool,
    exits: Exits,
) -> Result<(), CompileFault>
    requires { exits.skip ≤ word_count code.old }
    ensures { Prepends result (if_asked (is_null column) asked) exits code.old code.new }
{
    match column {
        Column::Numeric(column) => code.prepend_test(has_value(column), exits.if_asked(!asked)),
        Column::Text(column) => prepend_blank_field(code, field_of(column), exits.if_asked(asked)),
    }
}
