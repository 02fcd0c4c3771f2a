//! A counting reader over a buffered one.
//!
//! Finding lines in the buffer takes a tenth of the time of reading single bytes. The usual line has a path of its own: one as long as the line
//! before it, which is copied over that one and searched for a line feed in one go, 32 bytes at a time. Every other line takes the slower path.
//! Lending the line instead of copying it would save 4 % of a small filter's instructions, and make a segment borrow from its reader.
//!
//! Always: reads of the source happen exactly where reads of single bytes would make them, so a failed read comes after the same lines, is counted
//! once, and isn't repeated. The reader stops right after a line feed or at the 231st byte of a line, where its owner can go on. It promises no bytes
//! of its own as a `Read`, because std's contract doesn't say what a buffer yields at the end of an input that isn't known.
ghost use Rattle.std.specs.Prelude.{◌≡◌, ◌≤◌, ◌+◌, ◌++◌, ◌∷◌, [], None, IfSome, IsTrue, OnSome, length, refl, take};
ghost use Rattle.std.specs.Io.{ReadsAtMost};
ghost use Rattle.std.specs.Io.KnownBytes.{ReadConsumes};
ghost use Rattle.memchr.specs.Find.{IsFirstByte, is_byte};
ghost use Rattle.counted_io.specs.Buffered.{IsBufferRead, IsLineInBuffer};
ghost use Rattle.counted_io.specs.Content.{AddsStop, IsContentRead};
ghost use Rattle.counted_io.specs.Counting.{AddsFailure, CountsFailure};

use crate::content::{CARRIAGE_RETURN, LINE_FEED, MAX_CONTENT_LENGTH, Stop};
use crate::counting::{CountedRead, count_one};
use crate::line_copy::{LANES, copy_if_no_line_feed};
use arrayvec::ArrayVec;
use memchr::memchr;
use std::io;
use std::io::{BufRead, Read};

/// A reader that counts the failures of the buffered reader that it wraps.
///
/// The end of a line is searched for in the buffer, and a one-byte read avoids copying a slice. The source is read when the buffer is empty, just as
/// with one-byte reads.
///
/// As a [`Read`], it exposes no known bytes: its `remaining` is `None`, like a file's, because std's contract for a buffer says nothing about unknown
/// bytes at the end of the input. Code that is generic over readers therefore promises nothing about the bytes of this one, but its promises about
/// failed reads, order and lengths hold. If the inner reader's bytes are known, rely on the clauses `taken` and `known` of this type's own methods.
/// [`Counting`](crate::Counting) exposes the bytes of its inner reader.
#[derive(Drop)]
pub struct Buffered<B> {
    reader: B,
    failed_reads: u64,
}

impl<B: BufRead> Buffered<B> {
    /// Wraps the reader, with the count at 0.
    pub fn new(reader: B) -> Self
        ensures reader { result.reader ≡ reader }
        ensures failed_reads { result.failed_reads ≡ 0 }
    {
        Buffered {
            reader,
            failed_reads: 0,
        }
    }

    /// Returns the inner reader. Calls made through it aren't counted.
    pub fn get_ref(&self) -> &B
        ensures { result.now ≡ self.now.reader }
    {
        &self.reader
    }

    /// Returns the number of failed reads, modulo 2^64.
    pub fn failed_reads(&self) -> u64
        ensures { result ≡ self.now.failed_reads }
    {
        self.failed_reads
    }

    // Consumes the buffered part of a line, and returns why the line stops there, or `None` if it continues. The first `length_so_far` bytes of the content
    // belong to this line; the others are left from an earlier one.
    #[inline(always)]
    fn read_from_buffer(
        &mut self,
        content: &mut ArrayVec<u8, MAX_CONTENT_LENGTH>,
        length_so_far: usize,
    ) -> Option<Stop>
        requires within { length_so_far ≤ length content.old.items }
        requires short { length_so_far ≤ MAX_CONTENT_LENGTH }
        ensures buffer { IsBufferRead (take length_so_far content.old.items) content.new.items
            (record { left = B.remaining self.old.reader; failed = self.old.failed_reads })
            (record { left = B.remaining self.new.reader; failed = self.new.failed_reads }) result }
        ensures exact { IfSome result (λ stop. AddsStop stop self.old.failed_reads self.new.failed_reads) }
    {
        let buffer = match self.reader.fill_buf() {
            Ok(buffer) => buffer,
            Err(_) => {
                count_one(&mut self.failed_reads);
                content.truncate(length_so_far);
                return Some(Stop::ReadFailed);
            }
        };
        if copy_if_same_length(buffer, content, length_so_far) {
            self.reader.consume(content.len() + 1);
            return Some(Stop::LineFeed);
        }
        // One byte more than fits shows that the line is too long.
        let room = MAX_CONTENT_LENGTH - length_so_far;
        let shown = &buffer[..buffer.len().min(room + 1)];
        let Some(length) = first_line_feed(shown) else {
            if shown.is_empty() {
                content.truncate(length_so_far);
                return Some(Stop::EndOfInput);
            }
            let count = shown.len();
            if count > room {
                self.reader.consume(count);
                return Some(Stop::TooLong);
            }
            replace_tail(content, length_so_far, shown);
            self.reader.consume(count);
            return None;
        };
        replace_tail(content, length_so_far, &shown[..length]);
        self.reader.consume(length + 1);
        Some(Stop::LineFeed)
    }

    #[inline]
    fn read_byte(&mut self, byte: &mut u8) -> io::Result<usize>
        ensures bound { ReadsAtMost result (byte.new ∷ []) }
        ensures bytes { OnSome (B.remaining self.old.reader)
            (ReadConsumes (B.remaining self.old.reader) (B.remaining self.new.reader) result (byte.new ∷ [])) }
        ensures failures { AddsFailure result self.old.failed_reads self.new.failed_reads }
    {
        let buffer = match self.reader.fill_buf() {
            Ok(buffer) => buffer,
            Err(error) => {
                count_one(&mut self.failed_reads);
                return Err(error);
            }
        };
        let Some(first) = buffer.first().copied() else {
            return Ok(0);
        };
        self.reader.consume(1);
        *byte = first;
        Ok(1)
    }

    #[cold]
    fn read_slice(&mut self, buf: &mut [u8]) -> io::Result<usize>
        ensures bound { ReadsAtMost result buf.new }
        ensures bytes { ReadConsumes (B.remaining self.old.reader) (B.remaining self.new.reader) result buf.new }
        ensures failures { AddsFailure result self.old.failed_reads self.new.failed_reads }
    {
        let result = self.reader.read(buf);
        if result.is_err() {
            count_one(&mut self.failed_reads);
        }
        result
    }
}

impl<B: BufRead> Read for Buffered<B> {
    #[inline]
    fn read(&mut self, buf: &mut [u8]) -> io::Result<usize>
        ensures bound { ReadsAtMost result buf.new }
        ensures taken { OnSome (B.remaining self.old.reader)
            (ReadConsumes (B.remaining self.old.reader) (B.remaining self.new.reader) result buf.new) }
        ensures failures { AddsFailure result self.old.failed_reads self.new.failed_reads }
    {
        match buf {
            [byte] => self.read_byte(byte),
            _ => self.read_slice(buf),
        }
    }
}

impl<B: BufRead> CountedRead for Buffered<B> {
    ghost reader = { λ r. record { left = None; failed = r.failed_reads } };

    ghost same = { λ r. refl };

    #[inline]
    fn read_counted(&mut self, buf: &mut [u8]) -> io::Result<usize>
        ensures bound { ReadsAtMost result buf.new }
        ensures taken { OnSome (B.remaining self.old.reader)
            (ReadConsumes (B.remaining self.old.reader) (B.remaining self.new.reader) result buf.new) }
        ensures failures { CountsFailure result self.old.failed_reads self.new.failed_reads }
        ensures failed_reads { AddsFailure result self.old.failed_reads self.new.failed_reads }
    {
        self.read(buf)
    }

    #[inline(always)]
    fn read_content(&mut self, content: &mut ArrayVec<u8, MAX_CONTENT_LENGTH>) -> Stop
        ensures content { IsContentRead content.new.items
            (record { left = None; failed = self.old.failed_reads })
            (record { left = None; failed = self.new.failed_reads }) result }
        // The same for a buffered reader whose bytes are known.
        ensures known { OnSome (B.remaining self.old.reader) (IsContentRead content.new.items
            (record { left = B.remaining self.old.reader; failed = self.old.failed_reads })
            (record { left = B.remaining self.new.reader; failed = self.new.failed_reads }) result) }
        ensures exact { AddsStop result self.old.failed_reads self.new.failed_reads }
    {
        let mut length_so_far = 0;
        loop {
            if let Some(stop) = self.read_from_buffer(content, length_so_far) {
                return stop;
            }
            length_so_far = content.len();
        }
    }
}

/// Returns the index of the first line feed. This is a separate function because most lines are read without it.
#[cold]
#[inline(never)]
fn first_line_feed(bytes: &[u8]) -> Option<usize>
    ensures { IsFirstByte (is_byte LINE_FEED) bytes.now result }
{
    memchr(LINE_FEED, bytes)
}

/// Replaces the content with the first line of the buffer, if the buffer has all of it and it is as long as the content, as most records are. A CR
/// before the line feed isn't part of this length. Otherwise returns false, and the content from byte `length_so_far` on is then unspecified.
#[inline(always)]
fn copy_if_same_length(
    buffer: &[u8],
    content: &mut ArrayVec<u8, MAX_CONTENT_LENGTH>,
    length_so_far: usize,
) -> bool
    requires { length_so_far ≤ length content.old.items }
    ensures line { IsTrue result → IsLineInBuffer buffer.now content.new.items × (length_so_far ≡ 0) }
    ensures length_so_far { take length_so_far content.new.items ≡ take length_so_far content.old.items }
    ensures within { length_so_far ≤ length content.new.items }
{
    let length = content.len();
    // A vector needs 32 bytes, and a part of this line may be in the content already.
    if length_so_far != 0 || length < LANES || length >= buffer.len() {
        return false;
    }
    if buffer[length] == LINE_FEED {
        return copy_if_no_line_feed(&buffer[..length], content.as_mut_slice());
    }
    if length == MAX_CONTENT_LENGTH || length + 1 == buffer.len() {
        return false;
    }
    if buffer[length] != CARRIAGE_RETURN || buffer[length + 1] != LINE_FEED {
        return false;
    }
    let copied = copy_if_no_line_feed(&buffer[..length], content.as_mut_slice());
    content.push(CARRIAGE_RETURN);
    copied
}

/// Replaces everything after the first `length_so_far` bytes. If the length stays the same, as it does for records, nothing is cleared.
#[inline(never)]
fn replace_tail(content: &mut ArrayVec<u8, MAX_CONTENT_LENGTH>, length_so_far: usize, bytes: &[u8])
    requires within { length_so_far ≤ length content.old.items }
    requires room { length_so_far + length bytes.now ≤ MAX_CONTENT_LENGTH }
    ensures { content.new.items ≡ take length_so_far content.old.items ++ bytes.now }
{
    if length_so_far == 0 && content.len() == bytes.len() {
        content.as_mut_slice().copy_from_slice(bytes);
        return;
    }
    content.truncate(length_so_far);
    content.try_extend_from_slice(bytes).unwrap();
}
