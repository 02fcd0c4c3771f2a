//! Counties of numbered segments, and the rows that programs select from them.
use counted_io::Buffered;
use fixtures::{TableFault, bytes, size};
use std::alloc::{AllocError, Allocator, Global};
use tl_segments::County;

// The length of a type 1 record with its line feed.
pub const LINE_LENGTH: usize = 229;

/// What a program selects, and with which scores.
#[derive(Clone, Copy)]
pub enum Selection {
    Nothing,
    All,
    Roads,
    /// All, with their numbers as scores.
    Numbered,
    /// All, and the roads with their numbers as scores.
    NumberedRoads,
}

impl Selection {
    /// Returns what a program selects, by its name.
    pub fn of(program: &str) -> Result<Self, TableFault> {
        match program {
            "never" => Ok(Selection::Nothing),
            "every" | "two" | "longest" => Ok(Selection::All),
            "roads" => Ok(Selection::Roads),
            "tlids" => Ok(Selection::Numbered),
            "scored_roads" => Ok(Selection::NumberedRoads),
            _ => Err(TableFault::Word),
        }
    }

    /// Returns the score of the segment with this number if it is selected.
    fn score(self, number: usize) -> Option<usize> {
        let is_road = number % 3 != 0;
        match self {
            Selection::Nothing => None,
            Selection::All => Some(0),
            Selection::Roads => is_road.then_some(0),
            Selection::Numbered => Some(number),
            Selection::NumberedRoads => Some(if is_road { number } else { 0 }),
        }
    }
}

/// Reads the sizes of counties: numbers, or `none` if there are no counties.
pub fn sizes_of(alloc: Global, cell: &str) -> Result<Vec<usize>, TableFault> {
    let mut sizes = Vec::new(alloc);
    if cell == "none" {
        return Ok(sizes);
    }
    for word in cell.split(' ') {
        sizes.push(size(word)?)?;
    }
    Ok(sizes)
}

/// Makes the lines of segments numbered from 1, the sum of these sizes in all. A segment's TLID is its number, and every third isn't a road.
pub fn lines_of(alloc: Global, sizes: &[usize]) -> Result<Vec<u8>, TableFault> {
    let mut total: usize = 0;
    for size in sizes {
        total = total.wrapping_add(*size);
    }
    let mut lines = bytes(alloc, &format!(in alloc; "{{rt1\\n#1..{total}}}")?)?;
    for (place, line) in lines.chunks_mut(LINE_LENGTH).enumerate() {
        if place % 3 == 2
            && let Some(letter) = line.get_mut(55)
        {
            *letter = b'H';
        }
    }
    Ok(lines)
}

/// Loads a county from the first `count` lines, and removes them from `lines`.
fn county_of<A: Allocator + Copy>(alloc: A, lines: &mut &[u8], count: usize) -> Option<County<A>> {
    let length = count.saturating_mul(LINE_LENGTH);
    let rt1 = lines.get(..length)?;
    *lines = lines.get(length..).unwrap_or(&[]);
    let none: &[u8] = &[];
    County::load(
        alloc,
        &mut Buffered::new(rt1),
        &mut Buffered::new(none),
        &mut Buffered::new(none),
        &mut Buffered::new(none),
    )
    .ok()
}

/// Loads counties of these sizes from the lines.
pub fn counties_of<A: Allocator + Copy>(
    alloc: A,
    lines: &[u8],
    sizes: &[usize],
) -> Option<Vec<County<A>, A>> {
    let mut counties = Vec::new(alloc);
    let mut lines = lines;
    for size in sizes {
        counties.push(county_of(alloc, &mut lines, *size)?).ok()?;
    }
    Some(counties)
}

/// Makes the rows of a selection from the first `done` lines, without running a program and without counties.
pub fn rows_of(
    alloc: Global,
    lines: &[u8],
    selection: Selection,
    done: u64,
) -> Result<Vec<u8>, AllocError> {
    let mut rows = Vec::new(alloc);
    for (place, line) in lines.chunks(LINE_LENGTH).enumerate() {
        if (place as u64) < done
            && let Some(score) = selection.score(place.wrapping_add(1))
        {
            rows.extend_from_slice(format!(in alloc; "{score}\t")?.as_bytes())?;
            rows.extend_from_slice(line)?;
        }
    }
    Ok(rows)
}
