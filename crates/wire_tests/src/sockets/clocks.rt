//! Slow clients, with a clock that advances in steps.
use crate::sockets::exchange::{
    Exchange, Exchanges, SteppingClock, Then, client_that, fault_in, short_limits,
};
use fixtures::{Table, TableFault, cells, number, size};
use std::io;
use std::io::ErrorKind;
use std::net::{TcpListener, TcpStream};
use std::test::Fail;
use tcp_server::{Acceptor, Close, Limits, serve_next};

// The milliseconds by which the clock advances between two calls; the number of bytes of a request, all of which have arrived, and the number that
// a read takes; the same for the reply and its writes, of which the client reads nothing; the numbers of bytes that the service read and wrote, and
// its fault. The program's limits apply.
const CLOCKS: Table = Table(
    "\
0; 10; 1; 50; 10; 10; 50; none
9000; 10; 1; 50; 10; 4; 0; late
7499; 5; 1; 50; 50; 5; 50; none
7500; 5; 1; 50; 50; 4; 0; late
10000; 10; 10; 50; 10; 10; 30; late
9999; 10; 10; 40; 10; 10; 40; none",
);

/// A client that sends a complete request and stays, and the limits and the clock of the server.
#[derive(Clone, Copy)]
struct Slow {
    limits: Limits,
    step: u64,
    exchange: Exchange,
}

/// The numbers of bytes that a service reads and writes, and its fault.
#[derive(Clone, Copy)]
struct Served {
    read: usize,
    written: usize,
    fault: Option<ErrorKind>,
}

fn cells_of(row: &str) -> Result<(Slow, Served), TableFault> {
    let (step, request, per_read, reply, per_write, read, written, fault) = cells(row)?.eight()?;
    let slow = Slow {
        limits: Limits::standard(),
        step: number(step)?,
        exchange: Exchange::new([request, per_read, reply, per_write])?,
    };
    let served = Served {
        read: size(read)?,
        written: size(written)?,
        fault: fault_in(fault)?,
    };
    Ok((slow, served))
}

/// Serves a client, with replies made of a text.
fn serve<'a>(rt: &HostRuntime, slow: Slow, text: &'a [u8]) -> io::Result<Exchanges<'a>> {
    let listener = TcpListener::bind(rt, "127.0.0.1:0")?;
    let client = TcpStream::connect(rt, listener.local_addr()?)?;
    let _client = client_that(client, slow.exchange.request, Then::Stays)?;
    let mut service = Exchanges::new(slow.exchange, text);
    let clock = SteppingClock::new(slow.step);
    serve_next(
        &mut Acceptor::new(&listener),
        &clock,
        &slow.limits,
        &mut service,
    )?;
    Ok(service)
}

fn is_right(rt: &HostRuntime, slow: Slow, expected: Served) -> io::Result<bool> {
    let service = serve(rt, slow, &[b'r'; 4096])?;
    Ok(
        (service.read, service.written) == (expected.read, expected.written)
            && service.fault == expected.fault
            && service.turns == 1,
    )
}

#[test]
fn clocks(rt: HostRuntime) -> Result<(), Fail> {
    for row in CLOCKS.joined(rt.alloc())?.lines() {
        let (slow, expected) = cells_of(row).expect(&rt, row);
        assert!(rt; is_right(&rt, slow, expected)?, "{row}");
    }
    Ok(())
}

/// Returns a client with a reply of 64 mebibytes, and just less than a mebibyte in each write. With a second between two writes, 0.2 seconds are
/// left at each of them, until one of them waits.
fn endless() -> Slow {
    Slow {
        limits: short_limits(),
        step: 1000,
        exchange: Exchange {
            request: 10,
            per_read: 10,
            reply: 67_108_864,
            per_write: 1_048_575,
            close: Close::AtOnce,
        },
    }
}

/// Checks that a client that reads no byte of a reply doesn't hold the server, once the system has no more room for the reply.
#[test]
fn untaken_reply(rt: HostRuntime) -> Result<(), Fail> {
    let text = vec![in rt.alloc(); b'r'; 1_048_575]?;
    let service = serve(&rt, endless(), text.as_slice())?;
    assert_eq!(rt; service.fault, Some(ErrorKind::TimedOut));
    assert!(rt; service.written < 67_108_864);
    assert_eq!(rt; service.turns, 1);
    Ok(())
}
