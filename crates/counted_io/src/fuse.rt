//! Readers and writers that fail once, for testing the code that uses them.
ghost use Rattle.std.specs.Prelude.{◌≡◌, ◌≤◌, take, true, false, length, IsErr, IfOk};
ghost use Rattle.std.specs.Io.{ReadsAtMost, WritesAtMost};
ghost use Rattle.std.specs.Io.KnownBytes.{Keeps, ReadConsumes, WriteAppends};
ghost use Rattle.counted_io.specs.Counting.{CountsFailure, CountsFlush, CountsWrite};

use crate::counting::{CountedRead, CountedWrite, count_one};
use std::io;
use std::io::{ErrorKind, Read, Write};

/// How the failing call fails.
#[derive(Clone, Copy, PartialEq, Eq)]
pub enum InjectedFailure {
    /// The call returns an error.
    Fails(ErrorKind),
    /// The write returns 0. A read or a flush returns a `WriteZero` error instead.
    TakesNothing,
}

/// A reader or writer that forwards a number of calls, or writes a number of bytes, then fails one call and forwards every call after it.
///
/// The failing call doesn't reach the inner reader or writer. The fuse counts all calls, which exposes a caller that retries a failed one.
#[derive(Drop)]
pub struct Fuse<T> {
    pub inner: T,
    /// Calls left before one fails.
    pub calls_left: u64,
    /// Bytes left to write before a call fails.
    pub bytes_left: usize,
    pub failure: InjectedFailure,
    pub is_blown: bool,
    /// The number of calls, modulo 2^64.
    pub calls: u64,
}

impl<T> Fuse<T> {
    ghost use Rattle.counted_io.specs.Fuse.{after_call, is_due, room};

    /// Creates a fuse that forwards `calls` calls and then fails one.
    pub fn after_calls(inner: T, calls: u64, failure: InjectedFailure) -> Self
        ensures { result ≡ record { inner = inner; calls_left = calls; bytes_left = usize.MAX; failure = failure; is_blown = false; calls = 0 } }
    {
        Fuse {
            inner,
            calls_left: calls,
            bytes_left: usize::MAX,
            failure,
            is_blown: false,
            calls: 0,
        }
    }

    /// Creates a fuse that writes `bytes` bytes and then fails a call.
    pub fn after_bytes(inner: T, bytes: usize, failure: InjectedFailure) -> Self
        ensures { result ≡ record { inner = inner; calls_left = u64.MAX; bytes_left = bytes; failure = failure; is_blown = false; calls = 0 } }
    {
        Fuse {
            inner,
            calls_left: u64::MAX,
            bytes_left: bytes,
            failure,
            is_blown: false,
            calls: 0,
        }
    }

    /// Counts a call with `bytes` bytes, and returns whether it must fail.
    fn blows(&mut self, bytes: usize) -> bool
        ensures value { result ≡ is_due self.old bytes }
        ensures counted { self.new ≡ after_call self.old bytes }
    {
        let is_spent = self.calls_left == 0 || (self.bytes_left == 0 && bytes > 0);
        let is_due = !self.is_blown && is_spent;
        self.is_blown = self.is_blown || is_due;
        self.calls_left = self.calls_left.saturating_sub(1);
        count_one(&mut self.calls);
        is_due
    }

    /// Returns how many of `bytes` bytes the next write forwards.
    fn room(&self, bytes: usize) -> usize
        ensures { result ≡ room self.now bytes }
    {
        if self.is_blown {
            bytes
        } else {
            bytes.min(self.bytes_left)
        }
    }

    fn error(&self) -> io::Error {
        match self.failure {
            InjectedFailure::Fails(kind) => io::Error::from(kind),
            InjectedFailure::TakesNothing => io::Error::from(ErrorKind::WriteZero),
        }
    }
}

impl<T: CountedRead> Read for Fuse<T> {
    ghost use Rattle.counted_io.specs.Fuse.{after_call, is_due};

    ghost remaining = { λ fuse. (T.reader fuse.inner).left };

    fn read(&mut self, buf: &mut [u8]) -> io::Result<usize>
        ensures bound { ReadsAtMost result buf.new }
        ensures bytes { ReadConsumes (T.reader self.old.inner).left (T.reader self.new.inner).left result buf.new }
        ensures due { is_due self.old 0 ≡ true → IsErr result × (self.new ≡ after_call self.old 0) }
        ensures passed { is_due self.old 0 ≡ false
            → CountsFailure result (T.reader self.old.inner).failed (T.reader self.new.inner).failed }
        ensures counted { self.new ≡ record (after_call self.old 0) { inner = self.new.inner } }
    {
        if self.blows(0) {
            return Err(self.error());
        }
        self.inner.read_counted(buf)
    }
}

impl<T: CountedWrite> Write for Fuse<T> {
    ghost use Rattle.counted_io.specs.Fuse.{IsInjectedFailure, after_call, is_due, bytes_left_after, room};

    ghost contents = { λ fuse. (T.writer fuse.inner).held };

    fn write(&mut self, buf: &[u8]) -> io::Result<usize>
        ensures bound { WritesAtMost result buf.now }
        ensures bytes { WriteAppends (T.writer self.old.inner).held (T.writer self.new.inner).held result buf.now }
        ensures due { is_due self.old (length buf.now) ≡ true
            → IsInjectedFailure self.old.failure result × (self.new ≡ after_call self.old (length buf.now)) }
        ensures passed { is_due self.old (length buf.now) ≡ false
            → CountsWrite result (take (room self.old (length buf.now)) buf.now) (T.writer self.old.inner).counts (T.writer self.new.inner).counts }
        ensures counted { self.new
            ≡ record (after_call self.old (length buf.now)) { inner = self.new.inner; bytes_left = bytes_left_after self.old result } }
        ensures room { self.old.is_blown ≡ false → IfOk result (λ taken. taken ≤ self.old.bytes_left) }
    {
        if self.blows(buf.len()) {
            return match self.failure {
                InjectedFailure::TakesNothing => Ok(0),
                InjectedFailure::Fails(_) => Err(self.error()),
            };
        }
        let room = self.room(buf.len());
        let taken = self.inner.write_counted(&buf[..room])?;
        self.bytes_left = self.bytes_left.saturating_sub(taken);
        Ok(taken)
    }

    fn flush(&mut self) -> io::Result<()>
        ensures bytes { Keeps (T.writer self.old.inner).held (T.writer self.new.inner).held }
        ensures due { is_due self.old 0 ≡ true → IsErr result × (self.new ≡ after_call self.old 0) }
        ensures passed { is_due self.old 0 ≡ false → CountsFlush result (T.writer self.old.inner).counts (T.writer self.new.inner).counts }
        ensures counted { self.new ≡ record (after_call self.old 0) { inner = self.new.inner } }
    {
        if self.blows(0) {
            return Err(self.error());
        }
        self.inner.flush_counted()
    }
}
