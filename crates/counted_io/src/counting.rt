//! Readers and writers that count failed calls.
//!
//! A contract can't say what a real file or socket holds, so "a failure is reported only if one happened" is said by counts: what a caller reports as
//! a failed read is backed by a count that grew.
//!
//! Counts wrap at 2^64 and don't saturate, so each failure changes its count. `read_content` has no default body: a wrapper that forgot to pass it on
//! would compile, and be slow.
//!
//! Always: one call here is one call of the inner reader or writer. Nothing is buffered and no failed call is repeated, not even an interrupted one;
//! what to do about a failure is for the caller.
ghost use Rattle.std.specs.Prelude.{◌≡◌, refl};
ghost use Rattle.std.specs.Io.{ReadsAtMost, WritesAtMost};
ghost use Rattle.std.specs.Io.KnownBytes.{Keeps, ReadConsumes, WriteAppends};
ghost use Rattle.counted_io.specs.Content.{AddsStop, IsByteRead, IsContentRead};
ghost use Rattle.counted_io.specs.Counting.{AddsFailure, AddsFlush, AddsWrite, CountsFailure, CountsFlush, CountsWrite, next_count};
ghost use Rattle.counted_io.specs.ReaderWriter.{Reader, Writer};

use crate::content::{LINE_FEED, MAX_CONTENT_LENGTH, Stop};
use arrayvec::ArrayVec;
use std::io;
use std::io::{Read, Write};
use std::marker::Model;

/// A reader that counts its failures.
///
/// The count lets a caller prove that it reports a failed read only if a read failed. This also works for a file or a socket, about whose bytes no
/// contract says anything.
pub trait CountedRead: Read {
    // The reader as contracts see it. Its count of failed reads is modulo 2^64.
    ghost reader: { Self → Reader };

    /// Reads once. Treats the bytes as [`Read`]'s `read` does.
    fn read_counted(&mut self, buf: &mut [u8]) -> io::Result<usize>
        ensures bound { ReadsAtMost result buf.new }
        ensures bytes { ReadConsumes (reader self.old).left (reader self.new).left result buf.new }
        ensures failures { CountsFailure result (reader self.old).failed (reader self.new).failed };

    /// Reads a line's bytes up to its LF into `content`, replacing its previous contents, as if byte by byte. The LF is consumed but left out of the
    /// content. Nothing is read after a failure, and a line of more than 230 bytes is abandoned after its 231st.
    ///
    /// There is no default body: a wrapper forwards the call, so that a buffered reader can search its buffer.
    fn read_content(&mut self, content: &mut ArrayVec<u8, MAX_CONTENT_LENGTH>) -> Stop
        ensures { IsContentRead content.new.items (reader self.old) (reader self.new) result };

    // These are the bytes that the contracts of `Read` speak of.
    ghost same: { (of : Self) → (reader of).left ≡ Self.remaining of };
}

/// A writer that counts its failures, its flushes, and its nonempty writes that wrote 0 bytes.
///
/// It is the counterpart of [`CountedRead`] for writing.
pub trait CountedWrite: Write {
    // The writer as contracts see it. Each of its counts is modulo 2^64.
    ghost writer: { Self → Writer };

    /// Writes once. Treats the bytes as [`Write`]'s `write` does.
    fn write_counted(&mut self, buf: &[u8]) -> io::Result<usize>
        ensures bound { WritesAtMost result buf.now }
        ensures bytes { WriteAppends (writer self.old).held (writer self.new).held result buf.now }
        ensures counts { CountsWrite result buf.now (writer self.old).counts (writer self.new).counts };

    /// Flushes once. Treats the bytes as [`Write`]'s `flush` does.
    fn flush_counted(&mut self) -> io::Result<()>
        ensures bytes { Keeps (writer self.old).held (writer self.new).held }
        ensures counts { CountsFlush result (writer self.old).counts (writer self.new).counts };

    // These are the bytes that the contracts of `Write` speak of.
    ghost same: { (of : Self) → (writer of).held ≡ Self.contents of };
}

/// Any reader or writer, with its counts.
///
/// It adds no buffer: each call makes one call of the inner reader or writer, and a failed call isn't retried. The counts start at 0 and wrap at
/// 2^64.
#[derive(Drop)]
pub struct Counting<T> {
    inner: T,
    failed_reads: u64,
    failed_writes: u64,
    empty_writes: u64,
    flushes: u64,
}

impl<T> Model for Counting<T> {
    ghost use Rattle.counted_io.specs.Counting.{CountingParts, counting_code};

    ghost Value = { CountingParts T };

    ghost coded = { counting_code T.code };

    ghost view = { λ c. record {
      inner = c.inner;
      failed_reads = c.failed_reads;
      counts = record { failed = c.failed_writes; empty = c.empty_writes; flushes = c.flushes };
    } };
}

impl<T> Counting<T> {
    /// Wraps the reader or writer, with every count at 0.
    pub fn new(inner: T) -> Self
        ensures { result ≡ record { inner = inner; failed_reads = 0; counts = record { failed = 0; empty = 0; flushes = 0 } } }
    {
        Counting {
            inner,
            failed_reads: 0,
            failed_writes: 0,
            empty_writes: 0,
            flushes: 0,
        }
    }

    /// Returns the inner reader or writer. Calls made through it aren't counted.
    pub fn get_ref(&self) -> &T
        ensures { result.now ≡ self.now.inner }
    {
        &self.inner
    }

    /// Returns the inner reader or writer and drops the counts.
    pub fn into_inner(self) -> T
        ensures { result ≡ self.inner }
    {
        self.inner
    }

    /// Returns the number of failed reads, modulo 2^64.
    pub fn failed_reads(&self) -> u64
        ensures { result ≡ self.now.failed_reads }
    {
        self.failed_reads
    }

    /// Returns the number of failed writes and flushes, modulo 2^64.
    pub fn failed_writes(&self) -> u64
        ensures { result ≡ self.now.counts.failed }
    {
        self.failed_writes
    }

    /// Returns the number of nonempty writes that wrote 0 bytes, modulo 2^64.
    pub fn empty_writes(&self) -> u64
        ensures { result ≡ self.now.counts.empty }
    {
        self.empty_writes
    }

    /// Returns the number of flushes, including failed ones, modulo 2^64.
    pub fn flushes(&self) -> u64
        ensures { result ≡ self.now.counts.flushes }
    {
        self.flushes
    }
}

impl<T: Read> Counting<T> {
    #[inline]
    fn read_byte(&mut self) -> io::Result<Option<u8>>
        ensures read { IsByteRead
            (record { left = T.remaining self.old.inner; failed = self.old.failed_reads })
            (record { left = T.remaining self.new.inner; failed = self.new.failed_reads }) result }
        ensures exact { AddsFailure result self.old.failed_reads self.new.failed_reads }
        ensures counts { self.new.counts ≡ self.old.counts }
    {
        let mut byte = [0];
        let count = self.read(&mut byte)?;
        if count == 0 {
            return Ok(None);
        }
        Ok(Some(byte[0]))
    }
}

/// Adds one to a count. A full count wraps to 0.
#[cold]
pub fn count_one(count: &mut u64)
    ensures { count.new ≡ next_count count.old }
{
    *count = count.wrapping_add(1);
}

impl<T: Read> Read for Counting<T> {
    ghost remaining = { λ c. T.remaining c.inner };

    #[inline]
    fn read(&mut self, buf: &mut [u8]) -> io::Result<usize>
        ensures bound { ReadsAtMost result buf.new }
        ensures bytes { ReadConsumes (T.remaining self.old.inner) (T.remaining self.new.inner) result buf.new }
        ensures exact { AddsFailure result self.old.failed_reads self.new.failed_reads }
        ensures counts { self.new.counts ≡ self.old.counts }
    {
        let result = self.inner.read(buf);
        if result.is_err() {
            count_one(&mut self.failed_reads);
        }
        result
    }
}

impl<T: Write> Write for Counting<T> {
    ghost contents = { λ c. T.contents c.inner };

    #[inline]
    fn write(&mut self, buf: &[u8]) -> io::Result<usize>
        ensures bound { WritesAtMost result buf.now }
        ensures bytes { WriteAppends (T.contents self.old.inner) (T.contents self.new.inner) result buf.now }
        ensures failed_reads { self.new.failed_reads ≡ self.old.failed_reads }
        ensures exact { AddsWrite result buf.now self.old.counts self.new.counts }
    {
        let result = self.inner.write(buf);
        match result {
            Ok(0) if !buf.is_empty() => count_one(&mut self.empty_writes),
            Ok(_) => {}
            Err(_) => count_one(&mut self.failed_writes),
        }
        result
    }

    fn flush(&mut self) -> io::Result<()>
        ensures bytes { Keeps (T.contents self.old.inner) (T.contents self.new.inner) }
        ensures failed_reads { self.new.failed_reads ≡ self.old.failed_reads }
        ensures exact { AddsFlush result self.old.counts self.new.counts }
    {
        count_one(&mut self.flushes);
        let result = self.inner.flush();
        if result.is_err() {
            count_one(&mut self.failed_writes);
        }
        result
    }
}

impl<T: Read> CountedRead for Counting<T> {
    ghost reader = { λ c. record { left = T.remaining c.inner; failed = c.failed_reads } };

    ghost same = { λ c. refl };

    #[inline]
    fn read_counted(&mut self, buf: &mut [u8]) -> io::Result<usize>
        ensures bound { ReadsAtMost result buf.new }
        ensures bytes { ReadConsumes (T.remaining self.old.inner) (T.remaining self.new.inner) result buf.new }
        ensures failures { CountsFailure result self.old.failed_reads self.new.failed_reads }
        ensures exact { AddsFailure result self.old.failed_reads self.new.failed_reads }
        ensures counts { self.new.counts ≡ self.old.counts }
    {
        self.read(buf)
    }

    #[inline]
    #[tactic(auto, using(crate::proofs::ContentLemmas::none_so_far, crate::proofs::ContentLemmas::one_more, crate::proofs::ContentLemmas::no_more))]
    fn read_content(&mut self, content: &mut ArrayVec<u8, MAX_CONTENT_LENGTH>) -> Stop
        ensures content { IsContentRead content.new.items
            (record { left = T.remaining self.old.inner; failed = self.old.failed_reads })
            (record { left = T.remaining self.new.inner; failed = self.new.failed_reads }) result }
        ensures exact { AddsStop result self.old.failed_reads self.new.failed_reads }
        ensures counts { self.new.counts ≡ self.old.counts }
    {
        content.clear();
        loop {
            match self.read_byte() {
                Ok(Some(LINE_FEED)) => return Stop::LineFeed,
                Ok(Some(byte)) => {
                    if content.is_full() {
                        return Stop::TooLong;
                    }
                    content.push(byte);
                }
                Ok(None) => return Stop::EndOfInput,
                Err(_) => return Stop::ReadFailed,
            }
        }
    }
}

impl<T: Write> CountedWrite for Counting<T> {
    ghost writer = { λ c. record { held = T.contents c.inner; counts = c.counts } };

    ghost same = { λ c. refl };

    #[inline]
    fn write_counted(&mut self, buf: &[u8]) -> io::Result<usize>
        ensures bound { WritesAtMost result buf.now }
        ensures bytes { WriteAppends (T.contents self.old.inner) (T.contents self.new.inner) result buf.now }
        ensures counts { CountsWrite result buf.now self.old.counts self.new.counts }
        ensures failed_reads { self.new.failed_reads ≡ self.old.failed_reads }
        ensures exact { AddsWrite result buf.now self.old.counts self.new.counts }
    {
        self.write(buf)
    }

    fn flush_counted(&mut self) -> io::Result<()>
        ensures bytes { Keeps (T.contents self.old.inner) (T.contents self.new.inner) }
        ensures counts { CountsFlush result self.old.counts self.new.counts }
        ensures failed_reads { self.new.failed_reads ≡ self.old.failed_reads }
        ensures exact { AddsFlush result self.old.counts self.new.counts }
    {
        self.flush()
    }
}
