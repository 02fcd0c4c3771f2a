//! Questions about functions of filters.
ghost use Rattle.std.specs.Prelude.{◌≤◌};
ghost use Rattle.bpf_insn.specs.Code.{word_count};
ghost use Rattle.cql2_code.specs.Function.{asks_function};
ghost use Rattle.cql2_code.specs.Layout.{Prepends};

use crate::fault::CompileFault;
use crate::line::Extent;
use crate::names::{prepend_has_name, prepend_has_number};
use crate::question::Exits;
use crate::shapes::{prepend_intersects, prepend_starts_in};
use crate::suffix::CodeSuffix;
use crate::within::prepend_within;
use cql2::Function;
use std::alloc::Allocator;

/// Writes the code that asks whether a function is true, or whether it is false.
pub(crate) fn prepend_function<A: Allocator + Copy>(
    code: &mut CodeSuffix<A>,
    function: &Function<A>,
    asked: bool,
    exits: Exits,
) -> Result<(), CompileFault>
    requires { exits.skip ≤ word_count code.old }
    ensures { Prepends result (asks_function function.now asked) exits code.old code.new }
{
    match function {
        Function::HasNumber(house) => prepend_has_number(code, house.number, asked, exits),
        Function::HasName(text, limit) => {
            prepend_has_name(code, text.bytes.as_slice(), limit.number, asked, exits)
        }
        Function::Intersects(shape) => prepend_intersects(code, shape, asked, exits),
        Function::StartsIn(several) => prepend_starts_in(code, several, asked, exits),
        Function::StartsInBounds(bounds) => {
            prepend_within(code, *bounds, Extent::Start, asked, exits)
        }
        Function::Within(bounds) => prepend_within(code, *bounds, Extent::Whole, asked, exits),
    }
}
