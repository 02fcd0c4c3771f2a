//! The lines of output: one for each match, or one that says why there is none.
ghost use Rattle.std.specs.Prelude.{◌≡◌, ◌++◌, map, OnOk};
ghost use Rattle.std.specs.List.{flat_map};
ghost use Rattle.address_batch.specs.LookupResult as looked_up;
ghost use Rattle.address_batch.specs.Lines.{header, latitude_cell, code_at, line, lines_with, longitude_cell, match_cells, none_cells, reason_text, status_text};
ghost use Rattle.geocode.specs.Matches.{match_of};

use crate::lines::Lines;
use crate::lookup::{LookupResult, MatchStatus, status_of};
use crate::reason::Reason;
use crate::row::Cells;
use arrayvec::ArrayVec;
use geocode::{Match, Place};
use itoa::Buffer;
use numerals::{DEGREES_LENGTH, degrees};
use std::alloc::{AllocError, Allocator, Global};

/// The number of cells after the reason, which are empty for an address that wasn't found.
const EMPTY_CELLS: usize = 12;

/// Returns the first line of output: the names of the columns.
pub fn header() -> &'static str
    ensures { result.now ≡ header }
{
    "id,status,reason,longitude,latitude,tlid,side,fedirp,fename,fetype,fedirs,zip,county,from,to\n"
}

/// Appends the lines of an address with this id and this answer.
pub(crate) fn push_lines<A: Allocator>(
    alloc: Global,
    id: &[u8],
    codes: &[&str],
    lookup: &LookupResult<'_, A>,
    lines: &mut Lines,
) -> Result<(), AllocError>
    ensures { OnOk result (lines.new ≡ lines.old ++ lines_with id.now (map (λ code. code.now) codes.now) (looked_up.parts_of lookup.now)) }
{
    match lookup {
        LookupResult::Found(found) => push_matches(alloc, id, codes, found.as_slice(), lines),
        LookupResult::NotFound(reason) => push_none(alloc, id, *reason, lines),
    }
}

/// Appends a line for each match.
fn push_matches(
    alloc: Global,
    id: &[u8],
    codes: &[&str],
    found: &[Match<'_>],
    lines: &mut Lines,
) -> Result<(), AllocError>
    ensures { OnOk result (lines.new ≡ lines.old
        ++ flat_map (λ found_one. line (match_cells id.now (looked_up.status_of (map match_of found.now)) (map (λ code. code.now) codes.now) found_one))
        (map match_of found.now)) }
{
    let status = status_of(found);
    // A line for each candidate, as the number of columns would otherwise depend on ties.
    for one in found {
        push_match(alloc, id, status, codes, one, lines)?;
    }
    Ok(())
}

/// Appends the line of a match.
fn push_match(
    alloc: Global,
    id: &[u8],
    status: MatchStatus,
    codes: &[&str],
    found: &Match<'_>,
    lines: &mut Lines,
) -> Result<(), AllocError>
    ensures { OnOk result (lines.new ≡ lines.old
        ++ line (match_cells id.now status (map (λ code. code.now) codes.now) (match_of found.now))) }
{
    let cells = Cells::new(alloc)
        .with(id)?
        .with(status.text().as_bytes())?
        .with(b"")?
        .with(longitude_cell(found.hit.place).as_slice())?
        .with(latitude_cell(found.hit.place).as_slice())?
        .with(Buffer::new().format(found.hit.tlid).as_bytes())?
        .with(found.hit.side.letter().as_bytes())?
        .with_field(found.name.fedirp)?
        .with_field(found.name.fename)?
        .with_field(found.name.fetype)?
        .with_field(found.name.fedirs)?
        .with_field(found.zip)?
        .with(code_at(codes, found.county).as_bytes())?
        .with_field(found.from)?
        .with_field(found.to)?;
    lines.push(&cells)
}

/// Appends the line of an address that wasn't found.
fn push_none(alloc: Global, id: &[u8], reason: Reason, lines: &mut Lines) -> Result<(), AllocError>
    ensures { OnOk result (lines.new ≡ lines.old ++ line (none_cells id.now reason)) }
{
    let mut cells = Cells::new(alloc)
        .with(id)?
        .with(MatchStatus::NoMatch.text().as_bytes())?
        .with(reason.text().as_bytes())?;
    for _empty in 0..EMPTY_CELLS {
        cells = cells.with(b"")?;
    }
    lines.push(&cells)
}

/// Returns the code of the county with this index in the list.
fn code_at<'c>(codes: &[&'c str], county: usize) -> &'c str
    ensures { result.now ≡ code_at (map (λ code. code.now) codes.now) county }
{
    codes.get(county).copied().unwrap_or("")
}

fn longitude_cell(place: Option<Place>) -> ArrayVec<u8, DEGREES_LENGTH>
    ensures { result.items ≡ longitude_cell place }
{
    match place {
        Some(place) => degrees(place.longitude),
        None => ArrayVec::new(),
    }
}

fn latitude_cell(place: Option<Place>) -> ArrayVec<u8, DEGREES_LENGTH>
    ensures { result.items ≡ latitude_cell place }
{
    match place {
        Some(place) => degrees(place.latitude),
        None => ArrayVec::new(),
    }
}

impl MatchStatus {
    /// Returns the status's word in the output.
    fn text(self) -> &'static str
        ensures { result.now ≡ status_text self }
    {
        match self {
            MatchStatus::Match => "match",
            MatchStatus::Tie => "tie",
            MatchStatus::NoMatch => "no_match",
        }
    }
}

impl Reason {
    /// Returns the reason's word in the output.
    fn text(self) -> &'static str
        ensures { result.now ≡ reason_text self }
    {
        match self {
            Reason::NoSuchStreet => "no_such_street",
            Reason::NoSuchNumber => "no_such_number",
            Reason::OtherZip => "other_zip",
            Reason::NotANumber => "not_a_number",
            Reason::NameTooLong => "name_too_long",
            Reason::Missing => "missing",
        }
    }
}
