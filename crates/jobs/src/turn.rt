//! Turns, which advance an extract by a limited number of segments.
ghost use Rattle.std.specs.Prelude.{◌≡◌, ◌≤◌, length, take, IfOk, OnErr};
ghost use Rattle.jobs.specs.Inside.{IsCursorIn};
ghost use Rattle.jobs.specs.Segments.{Advances, NeedsRow, segments_of};

use crate::cursor::{Cursor, MAX_COUNTIES, count_segments};
use bpf_verify::Verified;
use counted_io::{Counting, WriteFault};
use extract::{RowBuffer, write_segments};
use std::alloc::{AllocError, Allocator};
use std::mem;
use tl_segments::County;

/// The number of segments of a turn, unless fewer are left.
pub const SEGMENTS_PER_TURN: usize = 256;

/// Appends the rows that a code selects from the next 256 segments after the first `done`, or from all that are left, and returns the number of
/// segments done then. If an allocation fails, the rows are unchanged.
///
/// Visits the counties twice, to count all segments and to find the cursor; a turn in a table needs neither. Only rows are allocated.
pub fn advance<A: Allocator + Copy>(
    verified: &Verified<A>,
    counties: &[County<A>],
    done: u64,
    rows: &mut Vec<u8, A>,
) -> Result<u64, AllocError>
    requires within { done ≤ length (segments_of counties.now) }
    requires few { length counties.now ≤ MAX_COUNTIES }
    ensures ok { IfOk result (λ now. Advances verified.now.code (segments_of counties.now) done rows.old.items now rows.new.items) }
    ensures err { OnErr result (rows.new.items ≡ rows.old.items) }
    ensures needs_row { OnErr result (NeedsRow verified.now.code (segments_of counties.now) done) }
{
    // Counting shows that the number of segments fits in 64 bits, which a cursor requires.
    let _total = count_segments(counties);
    let from = Cursor::after(done, counties);
    let cursor = advance_from(verified, counties, from, rows)?;
    Ok(cursor.done)
}

/// [`advance`] from a known cursor, without a visit to the counties before it. Returns the cursor after the turn.
pub(crate) fn advance_from<A: Allocator + Copy>(
    verified: &Verified<A>,
    counties: &[County<A>],
    from: Cursor,
    rows: &mut Vec<u8, A>,
) -> Result<Cursor, AllocError>
    requires { IsCursorIn counties.now from }
    ensures cursor { IfOk result (IsCursorIn counties.now) }
    ensures ok { IfOk result (λ now. Advances verified.now.code (segments_of counties.now) from.done rows.old.items now.done rows.new.items) }
    ensures err { OnErr result (rows.new.items ≡ rows.old.items) }
    ensures needs_row { OnErr result (NeedsRow verified.now.code (segments_of counties.now) from.done) }
{
    let before = rows.len();
    let alloc = *rows.allocator();
    // Moved and not borrowed, as `Counting` owns what it writes to.
    let mut out = Counting::new(mem::replace(rows, Vec::new(alloc)));
    let written = write_turn(verified, counties, from, &mut out);
    *rows = out.into_inner();
    match written {
        Ok(cursor) => Ok(cursor),
        // A write to memory fails only if an allocation does.
        Err(_fault) => {
            rows.truncate(before);
            Err(AllocError)
        }
    }
}

/// Writes the rows that a code selects from the segments of a turn, and returns the cursor after them.
fn write_turn<A: Allocator>(
    verified: &Verified<A>,
    counties: &[County<A>],
    from: Cursor,
    out: &mut Counting<Vec<u8, A>>,
) -> Result<Cursor, WriteFault>
    requires { IsCursorIn counties.now from }
    ensures cursor { IfOk result (IsCursorIn counties.now) }
    ensures ok { IfOk result (λ now. Advances verified.now.code (segments_of counties.now) from.done
        out.old.inner.items now.done out.new.inner.items) }
    ensures err { OnErr result (take (length out.old.inner.items) out.new.inner.items ≡ out.old.inner.items) }
    ensures needs_row { OnErr result (NeedsRow verified.now.code (segments_of counties.now) from.done) }
{
    let mut format = RowBuffer::new();
    let mut cursor = from;
    let mut left = SEGMENTS_PER_TURN;
    while left > 0 {
        let segments = cursor.next(counties, left);
        if segments.is_empty() {
            return Ok(cursor);
        }
        write_segments(verified, segments, &mut format, out)?;
        left -= segments.len();
    }
    Ok(cursor)
}
