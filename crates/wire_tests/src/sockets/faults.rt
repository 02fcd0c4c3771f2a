//! A failure injected into each read and write of a connection.
use crate::sockets::exchange::{
    Exchange, Exchanges, Then, client_that, close_of, receive, short_limits,
};
use fixtures::{Table, TableFault, cells, size};
use std::cell::Cell;
use std::io;
use std::io::ErrorKind;
use std::net::{TcpListener, TcpStream};
use std::time::{Clock, Duration};
use tcp_server::{Acceptor, serve_next};

/// A clock that shows the same time at each reading, and fails once.
///
/// Each read and each write of a connection first reads the clock, and fails if the clock does.
#[derive(Drop)]
pub struct FailingClock {
    readings: Cell<usize>,
    failing: usize,
    kind: ErrorKind,
}

impl FailingClock {
    /// Returns a clock whose reading with this number, counted from 1, fails.
    pub fn new(failing: usize, kind: ErrorKind) -> Self {
        FailingClock {
            readings: Cell::new(0),
            failing,
            kind,
        }
    }

    /// Returns whether the failing reading was reached.
    pub fn has_failed(&self) -> bool {
        self.readings.get() >= self.failing
    }
}

impl Clock for FailingClock {
    fn monotonic(&self) -> io::Result<Duration> {
        let reading = self.readings.get().wrapping_add(1);
        self.readings.set(reading);
        if reading == self.failing {
            return Err(io::Error::from(self.kind));
        }
        Ok(Duration::ZERO)
    }

    fn since_1970(&self) -> io::Result<Duration> {
        Err(io::Error::from(ErrorKind::Unsupported))
    }
}

/// The ways in which the clock fails. A read or a write that the system interrupts is retried, but not if the clock can't be read before it.
pub const KINDS: [ErrorKind; 4] = [
    ErrorKind::TimedOut,
    ErrorKind::BrokenPipe,
    ErrorKind::Interrupted,
    ErrorKind::TooManyLinks,
];

// The number of bytes that a client sends before it ends its side; the numbers of bytes of the request and the reply, each with the number that a
// call moves; how the service wants the connection closed; the numbers of reads and writes, and of reads of bytes after the request, the last of
// which finds the end.
const EXCHANGES: Table = Table(
    "\
10; 10; 1; 50; 7; at once; 10; 8; 0
10; 10; 10; 50; 50; at once; 1; 1; 0
10; 10; 4; 50; 1; at once; 3; 50; 0
10; 10; 1; 50; 7; lingering; 10; 8; 1
15; 10; 3; 50; 20; at once; 4; 3; 2
15; 10; 10; 50; 50; lingering; 1; 1; 2",
);

/// A client's exchange with the service, and the numbers of calls.
#[derive(Clone, Copy)]
struct Calls {
    sent: usize,
    exchange: Exchange,
    reads: usize,
    writes: usize,
    later_reads: usize,
}

impl Calls {
    fn new(row: &str) -> Result<Self, TableFault> {
        let row = cells(row)?;
        let (sent, request, per_read, reply, per_write, close, reads, writes, later_reads) =
            row.nine()?;
        Ok(Calls {
            sent: size(sent)?,
            exchange: Exchange {
                close: close_of(close)?,
                ..Exchange::new([request, per_read, reply, per_write])?
            },
            reads: size(reads)?,
            writes: size(writes)?,
            later_reads: size(later_reads)?,
        })
    }

    /// Returns the number of all calls.
    fn count(self) -> usize {
        self.reads
            .saturating_add(self.writes)
            .saturating_add(self.later_reads)
    }

    /// Returns the numbers of bytes that are read and written before the call with this number, and whether the call is part of the exchange.
    fn done_before(self, call: usize) -> (usize, usize, bool) {
        let exchange = self.exchange;
        let before = call.saturating_sub(1);
        if before < self.reads {
            return (before.saturating_mul(exchange.per_read), 0, true);
        }
        let writes = before.saturating_sub(self.reads);
        if writes < self.writes {
            let written = writes.saturating_mul(exchange.per_write);
            return (exchange.request, written, true);
        }
        (exchange.request, exchange.reply, false)
    }
}

/// Serves a client that sends this number of bytes over a connection of its own. Returns the number of bytes that it got, or `None` if it had a
/// fault.
fn received<C: Clock>(
    rt: &HostRuntime,
    listener: &TcpListener,
    clock: &C,
    service: &mut Exchanges<'_>,
    sent: usize,
) -> io::Result<Option<usize>> {
    let client = TcpStream::connect(rt, listener.local_addr()?)?;
    let client = client_that(client, sent, Then::Ends)?;
    serve_next(
        &mut Acceptor::new(listener),
        clock,
        &short_limits(),
        service,
    )?;
    let received = client.map(|client| receive(&client));
    Ok(received.and_then(|(count, fault)| fault.is_none().then_some(count)))
}

/// Returns whether the call with this number was reached, and failed. Returns `None` if the result is wrong, or the next client isn't served
/// completely.
fn is_failed(
    rt: &HostRuntime,
    listener: &TcpListener,
    calls: Calls,
    call: usize,
    kind: ErrorKind,
) -> Option<bool> {
    let clock = FailingClock::new(call, kind);
    let mut service = Exchanges::new(calls.exchange, &[b'r'; 50]);
    let (read, written, is_fault) = calls.done_before(call);
    let count = received(rt, listener, &clock, &mut service, calls.sent).ok()?;
    let is_right = count == Some(written)
        && (service.read, service.written) == (read, written)
        && service.fault == is_fault.then_some(kind)
        && (service.served, service.turns) == (1, 1);
    let next = received(rt, listener, rt, &mut service, calls.sent).ok()?;
    let is_next_right = next == Some(calls.exchange.reply)
        && service.fault.is_none()
        && (service.served, service.turns) == (2, 2);
    (is_right && is_next_right).then_some(clock.has_failed())
}

/// Returns the number of calls that failed, one at a time, up to the first that isn't reached.
fn failures(rt: &HostRuntime, calls: Calls, kind: ErrorKind) -> Option<usize> {
    let listener = TcpListener::bind(rt, "127.0.0.1:0").ok()?;
    for call in 1..=usize::MAX {
        if !is_failed(rt, &listener, calls, call, kind)? {
            return call.checked_sub(1);
        }
    }
    None
}

#[test]
fn each_read_and_each_write(rt: HostRuntime) {
    let rows = EXCHANGES.joined(rt.alloc()).expect(&rt, "exchanges");
    for row in rows.lines() {
        let calls = Calls::new(row).expect(&rt, row);
        for kind in KINDS {
            let failed = failures(&rt, calls, kind);
            assert_eq!(rt; failed, Some(calls.count()), "{kind:?}: {row}");
        }
    }
}
