//! The timeouts of a connection's socket, seen through a second handle of it.
use crate::sockets::exchange::{Exchange, Exchanges, SteppingClock, Then, client_that, close_of};
use fixtures::{Table, TableFault, cells, number, size};
use std::io;
use std::net::{OpenListener, SocketAddr, TcpListener, TcpStream};
use std::test::Fail;
use std::time::Duration;
use tcp_server::{Acceptor, Limits, serve_next};

// The limits for silence, for a request, for a reply and for bytes after the request, in seconds; the number of bytes that a read of the request of
// 10 bytes takes; how the service wants the connection closed; and the timeouts of the last read and the last write, in seconds. The clock advances
// by a second between two calls.
const TIMEOUTS: Table = Table(
    "\
7; 9; 8; 5; 10; at once; 7; 8
9; 7; 8; 5; 10; at once; 7; 8
7; 9; 8; 5; 4; at once; 7; 8
7; 9; 8; 5; 2; at once; 5; 8
7; 9; 8; 5; 10; lingering; 5; 8",
);

/// A listener that returns a further handle of one connection at each accept.
#[derive(Drop)]
struct Accepted {
    stream: TcpStream,
}

impl OpenListener for Accepted {
    type Stream = TcpStream;

    fn accept(&self) -> io::Result<(TcpStream, SocketAddr)> {
        Ok((self.stream.try_clone()?, self.stream.peer_addr()?))
    }
}

/// The timeouts of the last read and the last write.
type Timeouts = (Option<Duration>, Option<Duration>);

fn seconds(cell: &str) -> Result<Duration, TableFault> {
    Ok(Duration::from_secs(number(cell)?))
}

fn cells_of(row: &str) -> Result<(Limits, Exchange, Timeouts), TableFault> {
    let (idle, request, reply, linger, per_read, close, read, write) = cells(row)?.eight()?;
    let limits = Limits {
        idle: seconds(idle)?,
        request: seconds(request)?,
        reply: seconds(reply)?,
        linger: seconds(linger)?,
    };
    let exchange = Exchange {
        request: 10,
        per_read: size(per_read)?,
        reply: 50,
        per_write: 50,
        close: close_of(close)?,
    };
    Ok((
        limits,
        exchange,
        (Some(seconds(read)?), Some(seconds(write)?)),
    ))
}

/// Serves a client that sends its request and ends its side. Returns the timeouts that its socket has then.
fn timeouts_of(rt: &HostRuntime, limits: &Limits, exchange: Exchange) -> io::Result<Timeouts> {
    let listener = TcpListener::bind(rt, "127.0.0.1:0")?;
    let client = TcpStream::connect(rt, listener.local_addr()?)?;
    let (stream, _) = listener.accept()?;
    let accepted = Accepted { stream };
    let _client = client_that(client, exchange.request, Then::Ends)?;
    let mut service = Exchanges::new(exchange, &[b'r'; 50]);
    serve_next(
        &mut Acceptor::new(&accepted),
        &SteppingClock::new(1000),
        limits,
        &mut service,
    )?;
    let socket = accepted.stream;
    Ok((socket.read_timeout()?, socket.write_timeout()?))
}

/// Checks that no read and no write waits for longer than its limits allow.
#[test]
fn timeouts(rt: HostRuntime) -> Result<(), Fail> {
    for row in TIMEOUTS.joined(rt.alloc())?.lines() {
        let (limits, exchange, timeouts) = cells_of(row).expect(&rt, row);
        assert_eq!(rt; timeouts_of(&rt, &limits, exchange)?, timeouts, "{row}");
    }
    Ok(())
}
