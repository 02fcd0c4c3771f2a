//! Closing connections. All limits are an hour, except the one that a row is about: a test that waits for another limit doesn't end.
use crate::sockets::exchange::{
    Exchange, Exchanges, SteppingClock, Then, client_that, close_of, receive,
};
use fixtures::{Table, TableFault, cells, number, size};
use std::io;
use std::net::{TcpListener, TcpStream};
use std::test::Fail;
use std::time::{Clock, Duration, Instant};
use tcp_server::{Acceptor, Close, Limits, serve_next};

// The number of bytes that a client sends before it waits, and the number of bytes of the request; how the service wants the connection closed; the
// limit on bytes after the request and the step of the clock, in milliseconds; and the time on the clock at the end, which is one step per call.
const CLOSES: Table = Table(
    "\
10; 10; at once; 3600000; 100; 200
5; 5; lingering; 200; 0; 0
300000; 5; lingering; 200; 100; 500
300000; 5; lingering; 200; 199; 995
300000; 5; lingering; 200; 200; 800
300000; 5; at once; 200; 100; 500",
);

/// A client that sends bytes and stays, the length of the request, and how the connection is closed.
#[derive(Clone, Copy)]
struct Closing {
    sent: usize,
    request: usize,
    close: Close,
    linger: Duration,
}

/// Returns a row's connection, the step of the clock and the time at the end.
fn cells_of(row: &str) -> Result<(Closing, u64, u64), TableFault> {
    let (sent, request, close, linger, step, elapsed) = cells(row)?.six()?;
    let closing = Closing {
        sent: size(sent)?,
        request: size(request)?,
        close: close_of(close)?,
        linger: Duration::from_millis(number(linger)?),
    };
    Ok((closing, number(step)?, number(elapsed)?))
}

/// Serves a client with a service that replies with 50 bytes. Returns the number of bytes that the client got, or `None` if it has left.
fn received<C: Clock>(rt: &HostRuntime, clock: &C, closing: Closing) -> io::Result<Option<usize>> {
    let listener = TcpListener::bind(rt, "127.0.0.1:0")?;
    let client = TcpStream::connect(rt, listener.local_addr()?)?;
    let client = client_that(client, closing.sent, Then::Stays)?;
    let exchange = Exchange {
        request: closing.request,
        per_read: 4096,
        reply: 50,
        per_write: 50,
        close: closing.close,
    };
    let hour = Duration::from_secs(3600);
    let limits = Limits {
        idle: hour,
        request: hour,
        reply: hour,
        linger: closing.linger,
    };
    let mut service = Exchanges::new(exchange, &[b'r'; 50]);
    serve_next(&mut Acceptor::new(&listener), clock, &limits, &mut service)?;
    let received = client.map(|client| receive(&client));
    Ok(received.map(|(count, _fault)| count))
}

/// Checks that the server doesn't wait for a client that has sent its complete request, and waits for one that may still be sending only until its
/// own limit.
#[test]
fn closes(rt: HostRuntime) -> Result<(), Fail> {
    for row in CLOSES.joined(rt.alloc())?.lines() {
        let (closing, step, elapsed) = cells_of(row).expect(&rt, row);
        let clock = SteppingClock::new(step);
        let received = received(&rt, &clock, closing)?;
        assert_eq!(rt; received, Some(50), "{row}");
        assert_eq!(rt; clock.elapsed(), elapsed, "{row}");
    }
    Ok(())
}

/// Returns whether the server waits for a client that may still be sending, up to a limit of 200 milliseconds. The system may wake up a little
/// before its timeout.
fn waits(rt: &HostRuntime, sent: usize, close: Close) -> io::Result<bool> {
    let closing = Closing {
        sent,
        request: 5,
        close,
        linger: Duration::from_millis(200),
    };
    let start = Instant::now(rt)?;
    let received = received(rt, rt, closing)?;
    Ok(received == Some(50) && start.elapsed(rt)? >= Duration::from_millis(150))
}

/// Checks that bytes that a client may still be sending are read until the limit, and not refused before.
#[test]
fn lingers(rt: HostRuntime) -> Result<(), Fail> {
    assert!(rt; waits(&rt, 5, Close::Lingering)?);
    Ok(())
}

/// Checks the same after a look for unread bytes, which doesn't wait.
#[test]
fn lingers_after_unread_bytes(rt: HostRuntime) -> Result<(), Fail> {
    assert!(rt; waits(&rt, 8, Close::AtOnce)?);
    Ok(())
}
