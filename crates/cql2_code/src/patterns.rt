//! Questions whether the text in a field matches a pattern.
//!
//! A pattern with several `%` is matched greedily, each piece at its first place after the piece before it, by a grid of tests: a row for each piece,
//! a cell for each place. A tree of the choices would multiply with each `%`. Rows share the code below them, so the grid grows with the number of
//! pieces, and greed is exact because whatever follows a `%` loses no place where it may begin if the piece before it ends earlier.
ghost use Rattle.std.specs.Prelude.{◌≡◌, ◌≤◌, ◌+◌, ◌==◌, [], length, suc, true};
ghost use Rattle.bpf_insn.specs.Code.{word_count};
ghost use Rattle.cql2_code.specs.Grid.{IsLaid, grid, lay_row, lay_rows};
ghost use Rattle.cql2_code.specs.Layout.{Prepends};
ghost use Rattle.cql2_code.specs.Lowering.{IsTextField, cell, ends_at, is_like, is_piece, rows_of};
ghost use Rattle.cql2_code.specs.Pieces.{least_length, pieces_of};
ghost use Rattle.cql2_code.specs.Question.{Coded};

use crate::fault::CompileFault;
use crate::field::Field;
use crate::pieces::{ends_filled, first_length, least_length, prepend_are_required};
use crate::question::Exits;
use crate::suffix::CodeSuffix;
use crate::texts::{Ending, prepend_ending};
use cql2::PatternPart;
use std::alloc::Allocator;
use tl_segments::NAME_LENGTH;

/// The greatest number of places where a piece can begin in a field.
const MAX_COLUMNS: usize = NAME_LENGTH + 1;

/// Writes the code that asks whether the text in a field that isn't blank matches a pattern.
pub(crate) fn prepend_pattern<A: Allocator + Copy>(
    code: &mut CodeSuffix<A>,
    field: Field,
    pattern: &[PatternPart],
    exits: Exits,
) -> Result<(), CompileFault>
    requires inside { exits.skip ≤ word_count code.old }
    requires is_field { IsTextField field }
    ensures { Prepends result (is_like field pattern.now) exits code.old code.new }
{
    let (first, others) = pattern.split_at(first_length(pattern));
    if least_length(others) == 0 {
        return prepend_piece(code, field, first, !others.is_empty(), exits);
    }
    let total = least_length(pattern);
    let width = usize::from(field.width);
    if total > width {
        return code.prepend_constant(false, exits);
    }
    let words = code.words();
    let search = PatternSearch {
        field,
        words,
        exits,
    };
    prepend_search(code, search, first.len() as u8, others, width - total + 1)?;
    let exits = code.exits_before(words, true, exits);
    prepend_are_required(code, field.offset, first, exits)
}

/// Writes the code that asks whether a field isn't blank and matches a pattern of one piece.
fn prepend_piece<A: Allocator + Copy>(
    code: &mut CodeSuffix<A>,
    field: Field,
    piece: &[PatternPart],
    is_open: bool,
    exits: Exits,
) -> Result<(), CompileFault>
    requires inside { exits.skip ≤ word_count code.old }
    requires is_field { IsTextField field }
    ensures { Prepends result (is_piece field piece.now is_open) exits code.old code.new }
{
    if piece.len() > usize::from(field.width) {
        return code.prepend_constant(false, exits);
    }
    prepend_ends_at(code, field, piece, is_open, 0, exits)
}

/// Writes the code that asks whether a pattern's last piece is in a field from a byte on.
fn prepend_ends_at<A: Allocator + Copy>(
    code: &mut CodeSuffix<A>,
    field: Field,
    piece: &[PatternPart],
    is_open: bool,
    from: u8,
    exits: Exits,
) -> Result<(), CompileFault>
    requires inside { exits.skip ≤ word_count code.old }
    requires is_field { IsTextField field }
    requires fits { from + length piece.now ≤ field.width }
    ensures { Prepends result (ends_at field piece.now is_open from) exits code.old code.new }
{
    let ends = Ending {
        count: from + piece.len() as u8,
        is_open,
        is_filled: ends_filled(piece),
    };
    let exits = prepend_ending(code, field, ends, exits)?;
    prepend_are_required(code, field.offset + from, piece, exits)
}

/// A search for pieces in a field, with the exits of its code and the number of words after it.
#[derive(Clone, Copy)]
struct PatternSearch {
    field: Field,
    words: usize,
    exits: Exits,
    ghost is_field: { IsTextField field },
}

/// Writes the code that searches a field, from a byte on, for the pieces of a pattern that begins with `%`.
fn prepend_search<A: Allocator + Copy>(
    code: &mut CodeSuffix<A>,
    search: PatternSearch,
    from: u8,
    pattern: &[PatternPart],
    columns: usize,
) -> Result<(), CompileFault>
    requires begins { (pieces_of pattern.now).first ≡ [] }
    requires fits { from + least_length pattern.now + columns ≤ search.field.width + 1 }
    requires words { search.words ≡ word_count code.old }
    requires inside { search.exits.skip ≤ word_count code.old }
    ensures { Prepends result (Coded (grid (rows_of search.field (pieces_of pattern.now).is_open from (pieces_of pattern.now).others) columns))
        search.exits code.old code.new }
{
    code.prepend_constant(true, search.exits)?;
    let mut starts = [code.words(); MAX_COLUMNS];
    prepend_rows(code, search, from, pattern, &mut starts[..columns])
}

/// Writes the rows of a search for the pieces of a pattern, before the end of its code. The starts are the numbers of words from each cell of the
/// first row to the end of all code; before a row is written, they are those of the row below.
fn prepend_rows<A: Allocator + Copy>(
    code: &mut CodeSuffix<A>,
    search: PatternSearch,
    from: u8,
    pattern: &[PatternPart],
    starts: &mut [usize],
) -> Result<(), CompileFault>
    requires begins { (pieces_of pattern.now).first ≡ [] }
    requires fits { from + least_length pattern.now + length starts.old ≤ search.field.width + 1 }
    requires words { search.words ≤ word_count code.old }
    requires inside { search.exits.skip ≤ search.words }
    ensures { IsLaid result (lay_rows (rows_of search.field (pieces_of pattern.now).is_open from (pieces_of pattern.now).others)
        search.exits.falls search.exits.skip search.words (record { code = code.old; starts = starts.old })) code.new starts.new }
{
    let Some((_many, following)) = pattern.split_first() else {
        return Ok(());
    };
    let (piece, others) = following.split_at(first_length(following));
    if piece.is_empty() {
        return prepend_rows(code, search, from, others, starts);
    }
    prepend_rows(code, search, from + piece.len() as u8, others, starts)?;
    let past = code.exits_before(search.words, true, search.exits);
    let row = PatternRow {
        field: search.field,
        from,
        is_last: least_length(others) == 0,
        is_open: !others.is_empty(),
    };
    prepend_cells(code, row, piece, 0, starts, past)
}

/// A piece's row: the first place where it can be in a field, and what follows it.
#[derive(Clone, Copy)]
struct PatternRow {
    field: Field,
    from: u8,
    is_last: bool,
    is_open: bool,
    ghost is_field: { IsTextField field },
}

/// Writes the cells of a row, before the rows below, and replaces the starts of the cells below by those of these cells.
fn prepend_cells<A: Allocator + Copy>(
    code: &mut CodeSuffix<A>,
    row: PatternRow,
    piece: &[PatternPart],
    shift: u8,
    starts: &mut [usize],
    past: Exits,
) -> Result<(), CompileFault>
    requires past { past.falls ≡ true }
    requires inside { past.skip ≤ word_count code.old }
    requires fits { row.from + shift + length piece.now + length starts.old ≤ row.field.width + 1 }
    ensures { IsLaid result (lay_row (λ shift. cell row.field piece.now row.is_last row.is_open (row.from + shift)) shift starts.old past.skip code.old)
        code.new starts.new }
{
    let Some((start, others)) = starts.split_first_mut() else {
        return code.prepend_constant(false, past);
    };
    prepend_cells(code, row, piece, shift + 1, others, past)?;
    let skip = code.words().saturating_sub(*start);
    let exits = Exits { falls: false, skip };
    prepend_cell(code, row, piece, shift, exits)?;
    *start = code.words();
    Ok(())
}

fn prepend_cell<A: Allocator + Copy>(
    code: &mut CodeSuffix<A>,
    row: PatternRow,
    piece: &[PatternPart],
    shift: u8,
    exits: Exits,
) -> Result<(), CompileFault>
    requires inside { exits.skip ≤ word_count code.old }
    requires fits { row.from + shift + length piece.now ≤ row.field.width }
    ensures { Prepends result (cell row.field piece.now row.is_last row.is_open (row.from + shift)) exits code.old code.new }
{
    let at = row.from + shift;
    if row.is_last {
        prepend_ends_at(code, row.field, piece, row.is_open, at, exits)
    } else {
        prepend_are_required(code, row.field.offset + at, piece, exits)
    }
}
