//! How often a reader is called, with and without a buffer: not after the end that it reported, and not again after a failure.
use arrayvec::ArrayVec;
use counted_io::{Buffered, CountedRead, Counting, Stop};
use fixtures::{FaultPlan, Table, TableFault, cells, number, reader, size};
use std::alloc::Global;
use std::io::{BufReader, Read};
use tl_records::{Line, read_line, read_line_into};

// Two lines, the last one without a terminator, and the number of bytes read for each, and at the end.
const FILE: &[u8] = b"ab\ncde";

const LENGTHS: [usize; 3] = [2, 3, 0];

// How a line is read; the size of the buffer, 0 for none; how the reader fails; and how many lines are read if its first read fails, its second, and
// so on up to the first that isn't made. In that last case both lines are read, and the end.
const READS: Table = Table(
    "\
content; 0; interrupted; 0 0 0 1 1 1 1 2 3
content; 1; blocked; 0 0 0 1 1 1 1 2 3
content; 2; late; 0 0 1 1 2 3
content; 3; denied; 0 1 1 2 3
content; 5; memory; 0 1 1 2 3
content; 6; full; 0 1 2 3
content; 300; by 1 interrupted; 0 0 0 1 1 1 1 2 3
content; 4; by 3 pipe; 0 1 1 2 3
line; 0; pipe; 0 0 0 1 1 1 1 2 3
line; 1; interrupted; 0 0 0 1 1 1 1 2 3
line; 4; blocked; 0 1 1 2 3
line; 7; memory; 0 1 2 3
line; 300; by 2 late; 0 0 1 1 2 3
line into; 0; blocked; 0 0 0 1 1 1 1 2 3
line into; 2; denied; 0 0 1 1 2 3
line into; 300; interrupted; 0 1 2 3
counted; 0; late; 0 0 0 1 1 1 1 2 3
counted; 1; pipe; 0 0 0 1 1 1 1 2 3
counted; 3; interrupted; 0 1 1 2 3
counted; 300; blocked; 0 1 2 3
counted; 2; by 1 memory; 0 0 0 1 1 1 1 2 3
read; 0; interrupted; 0 0 0 1 1 1 1 2 3
read; 2; blocked; 0 0 1 1 2 3
read; 6; pipe; 0 1 2 3
read; 300; by 2 interrupted; 0 0 1 1 2 3",
);

/// How a line is read: three calls that read it whole, and two that read it byte by byte.
#[derive(Clone, Copy)]
enum Method {
    Content,
    Line,
    LineInto,
    Counted,
    Read,
}

impl Method {
    fn named(name: &str) -> Result<Self, TableFault> {
        match name {
            "content" => Ok(Method::Content),
            "line" => Ok(Method::Line),
            "line into" => Ok(Method::LineInto),
            "counted" => Ok(Method::Counted),
            "read" => Ok(Method::Read),
            _ => Err(TableFault::Word),
        }
    }
}

/// The first three cells of a row.
#[derive(Clone, Copy)]
struct Reading {
    method: Method,
    size: usize,
    plan: FaultPlan,
}

/// Returns the length of the next line, read in one of the ways, or `None` if a read fails.
fn length_read<R: CountedRead>(reader: &mut R, method: Method) -> Option<usize> {
    let mut content = ArrayVec::new();
    match method {
        Method::Content => {
            let stop = reader.read_content(&mut content);
            (stop != Stop::ReadFailed).then_some(content.len())
        }
        Method::Line => {
            let mut line = Line::new();
            read_line(reader, &mut line).ok()?;
            Some(line.bytes().len())
        }
        Method::LineInto => {
            read_line_into(reader, &mut 0, &mut content).ok()?;
            Some(content.len())
        }
        Method::Counted => byte_count(reader, true),
        Method::Read => byte_count(reader, false),
    }
}

/// Returns the same for bytes read one by one, up to a line feed or the end.
fn byte_count<R: CountedRead>(reader: &mut R, is_counted: bool) -> Option<usize> {
    for count in 0..=FILE.len() {
        let mut byte = [0];
        let read = if is_counted {
            reader.read_counted(&mut byte)
        } else {
            reader.read(&mut byte)
        };
        if read.ok()? == 0 || byte == *b"\n" {
            return Some(count);
        }
    }
    None
}

/// Counts the lines that are read in one of the ways, and the end as one more.
fn lines_read<R: CountedRead>(reader: &mut R, method: Method) -> u64 {
    let mut count = 0;
    for length in LENGTHS {
        if length_read(reader, method) != Some(length) {
            return count;
        }
        count = count.wrapping_add(1);
    }
    count
}

/// Counts the same through a buffer of this size, or without one if it is 0.
fn lines_through<R: Read>(alloc: Global, size: usize, plan: &mut R, method: Method) -> Option<u64> {
    if size == 0 {
        return Some(lines_read(&mut Counting::new(plan), method));
    }
    let buffer = BufReader::with_capacity(alloc, size, plan).ok()?;
    Some(lines_read(&mut Buffered::new(buffer), method))
}

/// Returns whether this many lines are read if this call of the reader fails, and whether it is then the last call.
fn is_read(alloc: Global, reading: Reading, failing: u64, lines: u64) -> bool {
    let mut plan = reader(FILE, reading.plan.at_call(failing));
    let read = lines_through(alloc, reading.size, &mut plan, reading.method);
    let unmade = u64::from(lines == 3);
    let calls = plan.get_ref().calls.wrapping_add(unmade);
    read == Some(lines) && calls == failing && plan.failed_reads().wrapping_add(unmade) == 1
}

/// Returns whether a row's lines are read as expected for each failing call.
fn are_read(alloc: Global, row: &str) -> Result<bool, TableFault> {
    let (method, buffer, plan, counts) = cells(row)?.four()?;
    let reading = Reading {
        method: Method::named(method)?,
        size: size(buffer)?,
        plan: FaultPlan::new(plan)?,
    };
    if !counts.ends_with(" 3") {
        return Err(TableFault::Cells);
    }
    are_lines_read(alloc, reading, counts)
}

/// Returns whether this many lines are read if the first call fails, the second, and so on.
fn are_lines_read(alloc: Global, reading: Reading, counts: &str) -> Result<bool, TableFault> {
    let mut failing: u64 = 0;
    for lines in counts.split(' ') {
        failing = failing.wrapping_add(1);
        if !is_read(alloc, reading, failing, number(lines)?) {
            return Ok(false);
        }
    }
    Ok(true)
}

#[test]
fn each_read(rt: HostRuntime) {
    for row in READS.joined(rt.alloc()).expect(&rt, "reads").lines() {
        assert_eq!(rt; are_read(rt.alloc(), row), Ok(true), "{row}");
    }
}
