//! Reading a segment's line.
ghost use Rattle.std.specs.Prelude.{◌≡◌, ◌≤◌, ◌++◌};
ghost use Rattle.bpf_insn.specs.Code.{word_count};
ghost use Rattle.bpf_insn.specs.declared.instruction.Insn.TheVariants as insn;
ghost use Rattle.bpf_insn.specs.declared.instruction.SignExtension.TheVariants as sign;
ghost use Rattle.cql2_code.specs.Function.{knows_line, knows_point};
ghost use Rattle.cql2_code.specs.declared.line.Extent.TheVariants.{Whole};
ghost use Rattle.cql2_code.specs.Layout as layout;
ghost use Rattle.cql2_code.specs.Layout.{IsPrepended, Prepends};
ghost use Rattle.cql2_code.specs.ShapeCode as shape_code;
ghost use Rattle.cql2_code.specs.ShapeCode.{keep_coordinate, lead_code, line_code, set_registers};

use crate::fault::CompileFault;
use crate::instructions::{
    copy, from_result, from_saved, into_argument_1, into_result, into_saved, move_number, wide_load,
};
use crate::numbers::has_value;
use crate::question::{Exits, Subject};
use crate::shape_instructions::{
    combine, from_end_latitude, from_first, from_second, into_end_latitude, into_first,
    into_second, into_side,
};
use crate::suffix::CodeSuffix;
use bpf_insn::{Insn, Operation, SignExtension};
use cql2::{CoordinateColumn, NumericColumn};
use std::alloc::Allocator;

/// How much of a segment's line is read.
#[derive(Clone, Copy)]
pub(crate) enum Extent {
    Whole,
    /// The start alone, as a line from the start to the start.
    Start,
}

/// Returns the column of the longitude where the line ends.
fn end_longitude(extent: Extent) -> CoordinateColumn
    ensures { result ≡ shape_code.end_longitude extent }
{
    match extent {
        Extent::Whole => CoordinateColumn::Tolong,
        Extent::Start => CoordinateColumn::Frlong,
    }
}

/// Returns the column of the latitude where the line ends.
fn end_latitude(extent: Extent) -> CoordinateColumn
    ensures { result ≡ shape_code.end_latitude extent }
{
    match extent {
        Extent::Whole => CoordinateColumn::Tolat,
        Extent::Start => CoordinateColumn::Frlat,
    }
}

/// Returns the code that sets the registers other than those of the line's first three coordinates.
fn set_registers() -> [Insn; 5]
    ensures { result ≡ set_registers }
{
    // The order and the choice of instructions leave no doubt which registers are set before each: the proof of acceptance looks at one instruction
    // at a time.
    [
        wide_load(into_argument_1(), 0),
        copy(into_end_latitude(), from_result()),
        wide_load(into_first(), 0),
        move_number(into_second(), 0),
        extend_side(),
    ]
}

/// Copies the low half of register 0 into the register for a side.
fn extend_side() -> Insn
    ensures { result ≡ insn.MoveSignExtended sign.Bits32To64 shape_code.into_side layout.from_result }
{
    Insn::MoveSignExtended {
        extension: SignExtension::Bits32To64,
        destination: into_side(),
        source: from_result(),
    }
}

/// Writes the code that reads a coordinate of the line and saves it at a level.
fn prepend_coordinate<A: Allocator + Copy>(
    code: &mut CodeSuffix<A>,
    level: u8,
    column: CoordinateColumn,
) -> Result<(), CompileFault>
    ensures { IsPrepended result (keep_coordinate level column ++ code.old) code.new }
{
    code.prepend(copy(into_saved(level), from_result()))?;
    code.prepend_subject(Subject::Coordinate(column))
}

/// Writes the code that reads the line.
pub(crate) fn prepend_coordinates<A: Allocator + Copy>(
    code: &mut CodeSuffix<A>,
    extent: Extent,
) -> Result<(), CompileFault>
    ensures { IsPrepended result (line_code extent ++ code.old) code.new }
{
    code.prepend_all(&set_registers())?;
    code.prepend_subject(Subject::Coordinate(end_latitude(extent)))?;
    prepend_coordinate(code, 2, end_longitude(extent))?;
    prepend_coordinate(code, 1, CoordinateColumn::Frlat)?;
    prepend_coordinate(code, 0, CoordinateColumn::Frlong)
}

/// Returns the code that leaves how far the line's start lies across it in register 0.
fn lead() -> [Insn; 8]
    ensures { result ≡ lead_code }
{
    [
        copy(into_first(), from_saved(2)),
        combine(Operation::Subtract, into_first(), from_saved(0)),
        combine(Operation::Multiply, into_first(), from_saved(1)),
        copy(into_second(), from_end_latitude()),
        combine(Operation::Subtract, into_second(), from_saved(1)),
        combine(Operation::Multiply, into_second(), from_saved(0)),
        combine(Operation::Subtract, into_first(), from_second()),
        copy(into_result(), from_first()),
    ]
}

/// Writes the code that reads the line and leaves how far its start lies across it in register 0.
pub(crate) fn prepend_line<A: Allocator + Copy>(
    code: &mut CodeSuffix<A>,
    extent: Extent,
) -> Result<(), CompileFault>
    ensures { IsPrepended result (line_code extent ++ (lead_code ++ code.old)) code.new }
{
    code.prepend_all(&lead())?;
    prepend_coordinates(code, extent)
}

/// Writes the code that asks whether two coordinates aren't NULL.
fn prepend_known_point<A: Allocator + Copy>(
    code: &mut CodeSuffix<A>,
    longitude: CoordinateColumn,
    latitude: CoordinateColumn,
    exits: Exits,
) -> Result<(), CompileFault>
    requires { exits.skip ≤ word_count code.old }
    ensures { Prepends result (knows_point longitude latitude) exits code.old code.new }
{
    let words = code.words();
    code.prepend_test(has_value(NumericColumn::Coordinate(latitude)), exits)?;
    let exits = code.exits_before(words, true, exits);
    code.prepend_test(has_value(NumericColumn::Coordinate(longitude)), exits)
}

/// Writes the code that asks whether none of the coordinates that are read is NULL.
pub(crate) fn prepend_known_line<A: Allocator + Copy>(
    code: &mut CodeSuffix<A>,
    extent: Extent,
    exits: Exits,
) -> Result<(), CompileFault>
    requires { exits.skip ≤ word_count code.old }
    ensures { Prepends result (knows_line extent) exits code.old code.new }
{
    match extent {
        Extent::Whole => prepend_known_ends(code, exits),
        Extent::Start => prepend_known_point(
            code,
            CoordinateColumn::Frlong,
            CoordinateColumn::Frlat,
            exits,
        ),
    }
}

/// Writes the code that asks whether none of the coordinates where a segment starts and ends is NULL.
fn prepend_known_ends<A: Allocator + Copy>(
    code: &mut CodeSuffix<A>,
    exits: Exits,
) -> Result<(), CompileFault>
    requires { exits.skip ≤ word_count code.old }
    ensures { Prepends result (knows_line Whole) exits code.old code.new }
{
    let words = code.words();
    prepend_known_point(
        code,
        CoordinateColumn::Tolong,
        CoordinateColumn::Tolat,
        exits,
    )?;
    let exits = code.exits_before(words, true, exits);
    prepend_known_point(
        code,
        CoordinateColumn::Frlong,
        CoordinateColumn::Frlat,
        exits,
    )
}
