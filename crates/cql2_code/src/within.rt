//! Questions whether a segment's line lies in a box.
ghost use Rattle.std.specs.Prelude.{◌≤◌, ◌++◌};
ghost use Rattle.bpf_insn.specs.Code.{word_count};
ghost use Rattle.cql2_code.specs.Function.{asks_within};
ghost use Rattle.cql2_code.specs.Layout.{IsPrepended, Prepends};
ghost use Rattle.cql2_code.specs.Question.{Coded};
ghost use Rattle.cql2_code.specs.WithinCode.{within_bounds, within_code};
ghost use Rattle.cql2_code.specs.declared.line.Extent.TheVariants.{Whole};

use crate::bounds::{outside, prepend_end_in};
use crate::fault::CompileFault;
use crate::instructions::from_saved;
use crate::line::{Extent, prepend_coordinates, prepend_known_line};
use crate::question::Exits;
use crate::shape_instructions::from_end_latitude;
use crate::shapes::prepend_marks;
use crate::suffix::CodeSuffix;
use cql2::Bounds;
use std::alloc::Allocator;

/// Writes the code that asks whether what is read of a segment's line lies in a box, or whether it doesn't.
pub(crate) fn prepend_within<A: Allocator + Copy>(
    code: &mut CodeSuffix<A>,
    bounds: Bounds,
    extent: Extent,
    asked: bool,
    exits: Exits,
) -> Result<(), CompileFault>
    requires { exits.skip ≤ word_count code.old }
    ensures { Prepends result (asks_within extent bounds asked) exits code.old code.new }
{
    let words = code.words();
    prepend_lies_within(code, bounds, extent, exits.if_asked(asked))?;
    let exits = code.exits_before(words, true, exits);
    prepend_known_line(code, extent, exits)
}

/// Writes the code that decides whether what is read of a line lies in a box.
fn prepend_lies_within<A: Allocator + Copy>(
    code: &mut CodeSuffix<A>,
    bounds: Bounds,
    extent: Extent,
    exits: Exits,
) -> Result<(), CompileFault>
    requires { exits.skip ≤ word_count code.old }
    ensures { Prepends result (Coded (within_bounds extent bounds)) exits code.old code.new }
{
    prepend_marks(code, exits)?;
    prepend_ends(code, bounds, extent)?;
    prepend_coordinates(code, extent)
}

/// Writes the code that marks that what is read of a line lies in a box.
fn prepend_ends<A: Allocator + Copy>(
    code: &mut CodeSuffix<A>,
    bounds: Bounds,
    extent: Extent,
) -> Result<(), CompileFault>
    ensures { IsPrepended result (within_code extent bounds ++ code.old) code.new }
{
    match extent {
        Extent::Whole => prepend_both_ends(code, bounds),
        Extent::Start => prepend_end_in(code, bounds, from_saved(0), from_saved(1)),
    }
}

/// Writes the code that marks that both ends of the line lie in a box.
fn prepend_both_ends<A: Allocator + Copy>(
    code: &mut CodeSuffix<A>,
    bounds: Bounds,
) -> Result<(), CompileFault>
    ensures { IsPrepended result (within_code Whole bounds ++ code.old) code.new }
{
    prepend_end_in(code, bounds, from_saved(2), from_end_latitude())?;
    // Past the tests of the other end (4 words) and the mark.
    code.prepend_all(&outside(bounds, from_saved(0), from_saved(1), 5))
}
