//! The segments of four files, computed by plain filters over complete lists of lines.
use crate::seen::Seen;
use fixtures::Files;
use std::alloc::{AllocError, Allocator};
use tl_fields::{blank, field, number};
use tl_segments::{FullName, MAX_NAMES, MAX_RANGES, RECORD_LENGTH, Range, Segment};

/// Shows the segments of files of good lines, each terminated by LF, in the order of the type 1 lines.
pub fn show_segments<A: Allocator + Copy>(
    alloc: A,
    files: &Files,
    seen: &mut Seen<'_>,
) -> Result<(), AllocError> {
    for line in files.rt1.chunks(RECORD_LENGTH + 1) {
        if line.len() >= RECORD_LENGTH {
            let mut segment = Segment::of(alloc, &line[..RECORD_LENGTH]);
            push_parts(files, &mut segment)?;
            seen.see(&segment);
        }
    }
    Ok(())
}

/// Returns the number in a line from the column after `before` to column `last`.
fn number_in(line: &[u8], before: usize, last: usize) -> Option<u64> {
    if before > last || last > line.len() {
        return None;
    }
    number(&line[before..last])
}

/// Adds to a segment what the type 4 and type 6 lines with its TLID have for it.
fn push_parts<A: Allocator>(files: &Files, segment: &mut Segment<A>) -> Result<(), AllocError> {
    let tlid = number_in(segment.bytes(), 5, 15);
    for line in files.rt4.chunks(59) {
        if number_in(line, 5, 15) == tlid {
            push_names(line, &files.rt5, segment)?;
        }
    }
    for line in files.rt6.chunks(77) {
        if number_in(line, 5, 15) == tlid {
            push_range(line, segment)?;
        }
    }
    Ok(())
}

/// Adds the names of FEAT1 to FEAT5 of a type 4 line.
fn push_names<A: Allocator>(
    line: &[u8],
    rt5: &[u8],
    segment: &mut Segment<A>,
) -> Result<(), AllocError> {
    for place in [18, 26, 34, 42, 50usize] {
        if let Some(feat) = number_in(line, place, place.saturating_add(8)) {
            push_name(feat, rt5, segment)?;
        }
    }
    Ok(())
}

/// Adds the name of the first type 5 line with this number, if there is one.
fn push_name<A: Allocator>(
    feat: u64,
    rt5: &[u8],
    segment: &mut Segment<A>,
) -> Result<(), AllocError> {
    for line in rt5.chunks(57) {
        let is_found = number_in(line, 10, 18) == Some(feat);
        if is_found && line.len() > 55 && segment.names() < MAX_NAMES as u64 {
            let name = FullName {
                fedirp: field(line, 19, 20),
                fename: field(line, 21, 50),
                fetype: field(line, 51, 54),
                fedirs: field(line, 55, 56),
            };
            if blank(name.fedirp) && blank(name.fetype) && blank(name.fedirs) {
                return segment.push_name(name.fename);
            }
            return segment.push_full_name(name);
        }
    }
    Ok(())
}

/// Adds the range of a type 6 line.
fn push_range<A: Allocator>(line: &[u8], segment: &mut Segment<A>) -> Result<(), AllocError> {
    if line.len() < 76 || segment.ranges() > MAX_RANGES as u64 {
        return Ok(());
    }
    segment.push_range(Range {
        fraddl: field(line, 19, 29),
        toaddl: field(line, 30, 40),
        fraddr: field(line, 41, 51),
        toaddr: field(line, 52, 62),
        zipl: field(line, 67, 71),
        zipr: field(line, 72, 76),
    })
}
