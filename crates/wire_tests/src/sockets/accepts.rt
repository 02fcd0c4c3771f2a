//! Accepts that fail, and consecutive connections.
use crate::sockets::exchange::{Exchange, Exchanges, Then, client_that, receive, short_limits};
use crate::sockets::faults::FailingClock;
use std::cell::Cell;
use std::io;
use std::io::ErrorKind;
use std::net::{OpenListener, SocketAddr, TcpListener, TcpStream};
use std::test::Fail;
use std::time::Clock;
use tcp_server::{Acceptor, Close, Tally, serve_all, serve_next};

const EXCHANGE: Exchange = Exchange {
    request: 10,
    per_read: 10,
    reply: 50,
    per_write: 50,
    close: Close::AtOnce,
};

/// A listener whose accepts fail at first, alternately because the connection was aborted and because of a signal.
#[derive(Drop)]
pub struct Aborting {
    listener: TcpListener,
    failing: Cell<u64>,
}

impl Aborting {
    pub fn new(listener: TcpListener, failing: u64) -> Self {
        Aborting {
            listener,
            failing: Cell::new(failing),
        }
    }
}

impl OpenListener for Aborting {
    type Stream = TcpStream;

    fn accept(&self) -> io::Result<(TcpStream, SocketAddr)> {
        let left = self.failing.get();
        if left > 0 {
            self.failing.set(left.wrapping_sub(1));
            let kinds = [ErrorKind::ConnectionAborted, ErrorKind::Interrupted];
            return Err(io::Error::from(kinds[usize::from(left % 2 == 0)]));
        }
        self.listener.accept()
    }
}

/// Checks that a client is served after accepts that failed for a single connection or because of a signal.
#[test]
fn aborted(rt: HostRuntime) -> Result<(), Fail> {
    let listener = Aborting::new(TcpListener::bind(&rt, "127.0.0.1:0")?, 3);
    let address = listener.listener.local_addr()?;
    let mut service = Exchanges::new(EXCHANGE, &[b'r'; 50]);
    let mut acceptor = Acceptor::new(&listener);
    for count in 1..=2 {
        let client = client_that(TcpStream::connect(&rt, address)?, 10, Then::Ends)?;
        serve_next(&mut acceptor, &rt, &short_limits(), &mut service)?;
        let received = client.map(|client| receive(&client));
        assert_eq!(rt; received, Some((50, None)));
        assert_eq!(rt; (service.served, service.turns), (count, count));
    }
    Ok(())
}

/// Checks that a failed accept is propagated, and nothing is served. At this listener, an accept that would wait fails.
#[test]
fn failed(rt: HostRuntime) -> Result<(), Fail> {
    let listener = TcpListener::bind(&rt, "127.0.0.1:0")?;
    listener.set_nonblocking(true)?;
    let mut service = Exchanges::new(EXCHANGE, &[b'r'; 50]);
    let mut acceptor = Acceptor::new(&listener);
    let fault = serve_next(&mut acceptor, &rt, &short_limits(), &mut service).err();
    assert_eq!(rt;
        fault.map(|error| error.kind()),
        Some(ErrorKind::WouldBlock)
    );
    assert_eq!(rt; (service.served, service.turns), (0, 0));
    Ok(())
}

/// Returns whether two clients are served, each once with a turn after it, until an accept fails. At this listener, an accept that would wait
/// fails.
fn serves_two<C: Clock>(rt: &HostRuntime, clock: &C) -> io::Result<bool> {
    let listener = TcpListener::bind(rt, "127.0.0.1:0")?;
    listener.set_nonblocking(true)?;
    let address = listener.local_addr()?;
    let _first = client_that(TcpStream::connect(rt, address)?, 10, Then::Ends)?;
    let _second = client_that(TcpStream::connect(rt, address)?, 10, Then::Ends)?;
    let mut service = Tally::new(Exchanges::new(EXCHANGE, &[b'r'; 50]));
    let error = serve_all(
        &mut Acceptor::new(&listener),
        clock,
        &short_limits(),
        &mut service,
    );
    Ok(error.kind() == ErrorKind::WouldBlock && (service.served(), service.turns()) == (2, 2))
}

/// Checks that the loop continues after a read or a write of a connection fails.
#[test]
fn until_failure(rt: HostRuntime) -> Result<(), Fail> {
    for call in 1..=usize::MAX {
        let clock = FailingClock::new(call, ErrorKind::TimedOut);
        assert!(rt; serves_two(&rt, &clock)?, "{call}");
        if !clock.has_failed() {
            break;
        }
    }
    Ok(())
}
