//! Questions about numeric columns.
ghost use Rattle.std.specs.Prelude.{◌≡◌, ◌≤◌};
ghost use Rattle.bpf_insn.specs.Code.{word_count};
ghost use Rattle.cql2_code.specs.Layout.{Prepends};
ghost use Rattle.cql2_code.specs.Lowering as lowering;
ghost use Rattle.cql2_code.specs.Lowering.{compares_number, holds_of_zero};
ghost use Rattle.cql2_code.specs.Question.{Holds};

use crate::fault::CompileFault;
use crate::question::{Exits, Subject, Test};
use crate::suffix::CodeSuffix;
use cql2::{Comparison, NumericColumn};
use std::alloc::Allocator;

/// Returns the subject for a column's number, which is 0 if the column has none.
pub(crate) fn number_of(column: NumericColumn) -> Subject
    ensures { result ≡ lowering.number_of column }
{
    match column {
        NumericColumn::Number(field) => Subject::Number(field),
        NumericColumn::Coordinate(place) => Subject::Coordinate(place),
    }
}

/// Returns the test whether a column has a number.
pub(crate) fn has_value(column: NumericColumn) -> Test
    ensures { Holds result ≡ lowering.has_value column }
{
    Test {
        subject: match column {
            NumericColumn::Number(field) => Subject::HasNumber(field),
            // A coordinate of 0 is NULL, as its helper function returns 0 for a missing one.
            NumericColumn::Coordinate(place) => Subject::Coordinate(place),
        },
        comparison: Comparison::NotEqual,
        operand: 0,
    }
}

/// Writes the code that compares a column's number with another.
pub(crate) fn prepend_number<A: Allocator + Copy>(
    code: &mut CodeSuffix<A>,
    column: NumericColumn,
    comparison: Comparison,
    literal: i64,
    exits: Exits,
) -> Result<(), CompileFault>
    requires { exits.skip ≤ word_count code.old }
    ensures { Prepends result (compares_number column comparison literal) exits code.old code.new }
{
    let test = Test {
        subject: number_of(column),
        comparison,
        operand: literal,
    };
    let words = code.words();
    code.prepend_test(test, exits)?;
    // A missing number is read as 0, so only a comparison that holds for 0 has to ask whether there is one.
    if !holds_of_zero(comparison, literal) {
        return Ok(());
    }
    let exits = code.exits_before(words, true, exits);
    code.prepend_test(has_value(column), exits)
}

/// Returns whether a comparison holds for 0 and a number.
fn holds_of_zero(comparison: Comparison, literal: i64) -> bool
    ensures { result ≡ holds_of_zero comparison literal }
{
    match comparison {
        Comparison::Equal => literal == 0,
        Comparison::NotEqual => literal != 0,
        Comparison::Less => 0 < literal,
        Comparison::LessOrEqual => 0 <= literal,
        Comparison::Greater => literal < 0,
        Comparison::GreaterOrEqual => literal <= 0,
    }
}
