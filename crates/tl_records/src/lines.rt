//! The lines of a file of records.
//!
//! An iterator over lines couldn't lend one buffer for all of them, so a function reads each into a `Line` that the caller keeps.
ghost use Rattle.std.specs.Prelude.{◌≡◌, ◌-◌, ◌^◌, ◌≤◌, [], length};
ghost use Rattle.tl_records.specs.Lines.{IsLineRead, IsWithoutCarriageReturn};

use crate::fault::{LineFault, LineFaultKind};
use arrayvec::ArrayVec;
use counted_io::{CountedRead, MAX_CONTENT_LENGTH, Stop};
use std::marker::Model;

const CARRIAGE_RETURN: u8 = b'\r';

// The first line number that doesn't fit in 32 bits.
const FIRST_REFUSED_LINE: u64 = 4_294_967_296;

/// A line of at most 230 bytes without its terminator, and its number, counted from 1; the number is 0 before the first line.
#[derive(Drop)]
pub struct Line {
    content: ArrayVec<u8, MAX_CONTENT_LENGTH>,
    number: u32,
}

impl Model for Line {
    ghost use Rattle.tl_records.specs.Lines.{LineParts};

    ghost Value = { LineParts };

    ghost view = { λ line. record { number = line.number; bytes = line.content.items } };
}

impl Line {
    /// Creates the state before the first line: no bytes, and the number 0.
    pub fn new() -> Self
        ensures { result ≡ record { number = 0; bytes = [] } }
    {
        Line {
            content: ArrayVec::new(),
            number: 0,
        }
    }

    /// Returns the line without its terminator.
    #[inline]
    pub fn bytes(&self) -> &[u8]
        ensures value { result.now ≡ self.now.bytes }
        ensures short { length result.now ≤ MAX_CONTENT_LENGTH }
    {
        self.content.as_slice()
    }

    /// Counts from 1; 0 before the first line.
    #[inline]
    pub fn number(&self) -> u32
        ensures { result ≡ self.now.number }
    {
        self.number
    }
}

/// Reads the next line, without its terminator, as if byte by byte.
///
/// A line ends with CR LF or LF; the last one may end without a terminator. No read is retried. After `None`, which marks the end of the input, and
/// after a fault, the line is empty, its number is unchanged, and the input is left where reading stopped. A line of more than 230 bytes is abandoned
/// after its 231st byte.
#[inline(always)]
pub fn read_line<R: CountedRead>(input: &mut R, line: &mut Line) -> Result<Option<()>, LineFault>
    ensures { IsLineRead line.old line.new (R.reader input.old) (R.reader input.new) result }
{
    read_line_into(input, &mut line.number, &mut line.content)
}

/// Reads the next line like [`read_line`], into a number and bytes outside a [`Line`].
#[inline(always)]
pub fn read_line_into<R: CountedRead>(
    input: &mut R,
    number: &mut u32,
    content: &mut ArrayVec<u8, MAX_CONTENT_LENGTH>,
) -> Result<Option<()>, LineFault>
    ensures { IsLineRead (record { number = number.old; bytes = content.old.items }) (record { number = number.new; bytes = content.new.items })
        (R.reader input.old) (R.reader input.new) result }
{
    // Into the caller's buffer, so that the record of a segment is checked where it stays.
    if *number == u32::MAX {
        content.clear();
        return expect_end(input);
    }
    let next = *number + 1;
    match input.read_content(content) {
        Stop::LineFeed => {
            strip_carriage_return(content);
            *number = next;
            Ok(Some(()))
        }
        Stop::EndOfInput => {
            if content.is_empty() {
                return Ok(None);
            }
            *number = next;
            Ok(Some(()))
        }
        Stop::TooLong => {
            content.clear();
            Err(LineFault {
                line: u64::from(next),
                flaw: LineFaultKind::WrongLength,
            })
        }
        Stop::ReadFailed => {
            content.clear();
            Err(LineFault {
                line: u64::from(next),
                flaw: LineFaultKind::Read,
            })
        }
    }
}

// After the line with the last 32-bit number, the input must end.
#[cold]
fn expect_end<R: CountedRead>(input: &mut R) -> Result<Option<()>, LineFault>
    ensures { IsLineRead (record { number = 2 ^ 32 - 1; bytes = [] }) (record { number = 2 ^ 32 - 1; bytes = [] })
        (R.reader input.old) (R.reader input.new) result }
{
    let line = FIRST_REFUSED_LINE;
    match input.read_counted(&mut [0]) {
        Ok(0) => Ok(None),
        Ok(_) => Err(LineFault {
            line,
            flaw: LineFaultKind::TooManyLines,
        }),
        Err(_) => Err(LineFault {
            line,
            flaw: LineFaultKind::Read,
        }),
    }
}

// The LF was already left out.
#[inline]
fn strip_carriage_return(content: &mut ArrayVec<u8, MAX_CONTENT_LENGTH>)
    ensures { IsWithoutCarriageReturn content.old.items content.new.items }
{
    if let [.., CARRIAGE_RETURN] = content.as_slice() {
        content.pop();
    }
}
