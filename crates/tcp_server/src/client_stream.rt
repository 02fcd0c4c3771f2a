//! The reader and the writer of a client's connection. No call waits longer than the limits allow.
ghost use Rattle.std.specs.Prelude.{◌≡◌, ◌+◌, ◌-◌, ◌^◌, None, length, min, IfOk, OnErr};
ghost use Rattle.std.specs.Duration.{as_nanos};
ghost use Rattle.std.specs.Io.{ReadsAtMost, WritesAtMost};
ghost use Rattle.std.specs.Io.KnownBytes.{ReadConsumes, WriteAppends};
ghost use Rattle.tcp_server.specs.ClientStream.{write_limit};
ghost use Rattle.tcp_server.specs.Timed.{Waits, within};

use crate::limits::Limits;
use crate::service::{ClientInput, ClientOutput};
use crate::socket::Socket;
use crate::stopwatch::Timer;
use crate::timed::Timed;
use counted_io::Counting;
use std::io;
use std::io::{Read, Write};
use std::net::SocketAddr;
use std::time::Duration;

/// A reader of what a client sends. A read fails once its time is up; if the time was up before the read, the socket isn't touched.
#[derive(Drop)]
pub struct ClientReader<H, T> {
    timed: Timed<H, T>,
    idle: Duration,
    limit: Duration,
    received: u64,
}

impl<H: Socket, T: Timer> ClientReader<H, T> {
    /// Returns a reader that waits at most `idle` in one read, and at most `limit` in all reads, counted from the first.
    pub fn new(socket: H, timer: T, idle: Duration, limit: Duration) -> Self
        ensures { result ≡ record {
          timed = record { socket = socket; stopwatch = record { timer = timer; start = None } };
          idle = idle;
          limit = limit;
          received = 0;
        } }
    {
        ClientReader {
            timed: Timed::new(socket, timer),
            idle,
            limit,
            received: 0,
        }
    }
}

impl<H: Socket, T: Timer> Read for ClientReader<H, T> {
    ghost remaining = { λ r. H.remaining r.timed.socket };

    fn read(&mut self, buf: &mut [u8]) -> io::Result<usize>
        ensures bound { ReadsAtMost result buf.new }
        ensures bytes { ReadConsumes (H.remaining self.old.timed.socket) (H.remaining self.new.timed.socket) result buf.new }
        ensures waits { Waits
            (record { calls = H.reads; timing = record { shows = T.shows; idle = as_nanos self.old.idle; limit = as_nanos self.old.limit } })
            buf.new result self.old.timed self.new.timed }
        ensures idle { self.new.idle ≡ self.old.idle }
        ensures counted { IfOk result (λ count. self.new.received ≡ min (self.old.received + count) (2 ^ 64 - 1)) }
        ensures uncounted { OnErr result (self.new.received ≡ self.old.received) }
        ensures limit { self.new.limit ≡ self.old.limit }
    {
        match self.timed.read(self.idle, self.limit, buf) {
            Ok(count) => {
                self.received = self.received.saturating_add(count as u64);
                Ok(count)
            }
            Err(error) => Err(error),
        }
    }
}

impl<H: Socket, T: Timer> ClientInput for Counting<ClientReader<H, T>> {
    ghost input_terms = { λ c. record {
      connection = H.number c.inner.timed.socket;
      peer = H.address c.inner.timed.socket;
      idle = as_nanos c.inner.idle;
      limit = as_nanos c.inner.limit;
      received = c.inner.received;
      start = c.inner.timed.stopwatch.start;
    } };

    fn peer(&self) -> SocketAddr {
        self.get_ref().timed.peer()
    }

    fn received(&self) -> u64 {
        self.get_ref().received
    }
}

/// A writer of what a client receives. A write fails once its time is up; if the time was up before the write, the socket isn't touched.
#[derive(Drop)]
pub struct ClientWriter<H, T> {
    timed: Timed<H, T>,
    limits: Limits,
    written: u64,
}

impl<H: Socket, T: Timer> ClientWriter<H, T> {
    /// Returns a writer within the limits of a reply, whose time is counted from the first write.
    pub fn new(socket: H, timer: T, limits: Limits) -> Self
        ensures { result ≡ record { timed = record { socket = socket; stopwatch = record { timer = timer; start = None } }; limits = limits; written = 0 } }
    {
        ClientWriter {
            timed: Timed::new(socket, timer),
            limits,
            written: 0,
        }
    }

    // The limit grows with the reply, of which only the bytes written and those to be written now are known.
    fn limit(&self, unwritten: usize) -> Duration
        ensures { as_nanos result ≡ write_limit self.now unwritten }
    {
        self.limits
            .reply_limit(self.written.saturating_add(unwritten as u64))
    }
}

impl<H: Socket, T: Timer> Write for ClientWriter<H, T> {
    ghost contents = { λ w. H.contents w.timed.socket };

    fn write(&mut self, buf: &[u8]) -> io::Result<usize>
        ensures bound { WritesAtMost result buf.now }
        ensures bytes { WriteAppends (H.contents self.old.timed.socket) (H.contents self.new.timed.socket) result buf.now }
        ensures waits { Waits (within H.writes T.shows (write_limit self.old (length buf.now))) buf.now result self.old.timed self.new.timed }
        ensures counted { IfOk result (λ count. self.new.written ≡ min (self.old.written + count) (2 ^ 64 - 1)) }
        ensures uncounted { OnErr result (self.new.written ≡ self.old.written) }
        ensures limits { self.new.limits ≡ self.old.limits }
    {
        let limit = self.limit(buf.len());
        match self.timed.write(limit, buf) {
            Ok(count) => {
                self.written = self.written.saturating_add(count as u64);
                Ok(count)
            }
            Err(error) => Err(error),
        }
    }

    /// Does nothing: a socket has no buffer to flush.
    fn flush(&mut self) -> io::Result<()> {
        Ok(())
    }
}

impl<H: Socket, T: Timer> ClientOutput for Counting<ClientWriter<H, T>> {
    ghost output_terms = { λ c. record {
      connection = H.number c.inner.timed.socket;
      limit = as_nanos c.inner.limits.reply;
      written = c.inner.written;
      start = c.inner.timed.stopwatch.start;
    } };
}
