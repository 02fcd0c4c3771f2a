//! The lines of files, worked out by hand.
use counted_io::{Buffered, CountedRead, Counting};
use fixtures::{Table, TableFault, bytes, cells};
use std::alloc::Global;
use std::io::BufReader;
use tl_records::{Line, read_line};

// A file, and the results of reading it, each followed by LF: a line, or a fault, after which reading continues where it stopped.
const FILES: Table = Table(
    r"
;
ab\ncd\n; ab\ncd\n
ab\r\ncd\r\n; ab\ncd\n
ab\r\ncd; ab\ncd\n
ab\n\r\ncd; ab\n\ncd\n
\n\r\n\n; \n\n\n
\n\na; \n\na\n
a\rb\r\r\nc\r\n; a\rb\r\nc\n
\r; \r\n
\xe9\xff\x80\x00\n; \xe9\xff\x80\x00\n
\x0b\x0c\x85\n\x20; \x0b\x0c\x85\n\x20\n
{rt1}\r\n{rt1}\n{rt1}; {rt1}\n{rt1}\n{rt1}\n
{text x*228}\r\n{text y*229}\r\n{text x*230}\n{text y*230}; {text x*228}\n{text y*229}\n{text x*230}\n{text y*230}\n
{text x*229}\r; {text x*229}\r\n
{text x*230}\r\nab; WrongLength\n\nab\n
{text x*231}\nab; WrongLength\n\nab\n
{text x*231}; WrongLength\n
a\n{text x*233}\nab\n; a\nWrongLength\nxx\nab\n
{text x*462}ab\n{text x*231}; WrongLength\nWrongLength\nab\nWrongLength\n",
);

// The buffer sizes, with 0 for none: from one byte to more than a line has.
const SIZES: [usize; 8] = [0, 1, 3, 100, 230, 231, 232, 8192];

/// Returns the name in a refusal's line that has no position.
fn name_of(line: &str) -> &str {
    line.rsplit(' ').next().unwrap_or("")
}

/// Returns whether exactly these lines and faults are read one after the other, each with the next number.
fn are_lines<R: CountedRead>(reader: &mut R, expected: &[u8]) -> bool {
    let mut line = Line::new();
    let mut rest = expected;
    for _ in 0..=expected.len() {
        let next = line.number().wrapping_add(1);
        let after = match read_line(reader, &mut line) {
            Ok(Some(())) if line.number() == next => rest.strip_prefix(line.bytes()),
            Ok(Some(())) => None,
            Ok(None) => return rest.is_empty() && line.bytes().is_empty(),
            Err(fault) if fault.line == u64::from(next) => rest.strip_prefix(name_of(
                &fault.flaw.refusal().line(),
            ).as_bytes()),
            Err(_) => None,
        };
        let Some([b'\n', after @ ..]) = after else {
            return false;
        };
        rest = after;
    }
    false
}

/// Returns whether a file has these lines through a buffer of this size.
fn are_lines_through(alloc: Global, file: &[u8], lines: &[u8], size: usize) -> bool {
    if size == 0 {
        return are_lines(&mut Counting::new(file), lines);
    }
    match BufReader::with_capacity(alloc, size, file) {
        Ok(buffer) => are_lines(&mut Buffered::new(buffer), lines),
        Err(_) => false,
    }
}

/// Returns whether the file of a row has its lines through a buffer of each size.
fn is_file(alloc: Global, row: &str) -> Result<bool, TableFault> {
    let (file, lines) = cells(row)?.two()?;
    let (file, lines) = (bytes(alloc, file)?, bytes(alloc, lines)?);
    for size in SIZES {
        if !are_lines_through(alloc, &file, &lines, size) {
            return Ok(false);
        }
    }
    Ok(true)
}

#[test]
fn files(rt: HostRuntime) {
    for row in FILES.joined(rt.alloc()).expect(&rt, "files").lines() {
        assert_eq!(rt; is_file(rt.alloc(), row), Ok(true), "{row}");
    }
}
