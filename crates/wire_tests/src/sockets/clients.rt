//! What happens to clients, with the system's clock.
use crate::sockets::exchange::{
    Exchange, Exchanges, Then, client_that, close_of, fault_in, receive, short_limits,
};
use fixtures::{Table, TableFault, cells, size};
use std::io;
use std::io::ErrorKind;
use std::net::{TcpListener, TcpStream};
use std::test::Fail;
use tcp_server::{Acceptor, Close, serve_next};

// The number of bytes that a client sends, and what it does then; the numbers of bytes of the request and the reply, and how the service wants the
// connection closed; the numbers of bytes that the service read and wrote, and its fault; the number of bytes that the client got, and its fault.
const CLIENTS: Table = Table(
    "\
10; stays; 10; 50; at once; 10; 50; none; 50; none
10; ends; 10; 50; at once; 10; 50; none; 50; none
0; leaves; 10; 50; at once; 0; 0; end; 0; none
0; ends; 10; 50; at once; 0; 0; end; 0; none
5; ends; 10; 50; at once; 5; 0; end; 0; none
0; stays; 10; 50; at once; 0; 0; late; 0; none
5; stays; 10; 50; at once; 5; 0; late; 0; none
11; stays; 10; 50; at once; 10; 50; none; 50; none
300000; stays; 10; 50; at once; 10; 50; none; 50; none
300000; ends; 10; 50; at once; 10; 50; none; 50; none
300000; ends; 10; 50000; at once; 10; 50000; none; 50000; none
10; stays; 5; 50; lingering; 5; 50; none; 50; none
5; stays; 5; 50; lingering; 5; 50; none; 50; none
5; ends; 5; 50; lingering; 5; 50; none; 50; none
300000; leaves; 10; 50; at once; 10; 50; none; 0; none",
);

/// A client, its exchange with the service, and the results of both.
#[derive(Clone, Copy)]
struct Client {
    sent: usize,
    then: Then,
    exchange: Exchange,
    read: usize,
    written: usize,
    fault: Option<ErrorKind>,
    /// The number of bytes that the client got, and its fault.
    received: (usize, Option<ErrorKind>),
}

impl Client {
    fn new(row: &str) -> Result<Self, TableFault> {
        let (sent, then, request, reply, close, read, written, fault, received, client_fault) =
            cells(row)?.ten()?;
        Ok(Client {
            sent: size(sent)?,
            then: Then::new(then)?,
            exchange: exchange(size(request)?, size(reply)?, close_of(close)?),
            read: size(read)?,
            written: size(written)?,
            fault: fault_in(fault)?,
            received: (size(received)?, fault_in(client_fault)?),
        })
    }
}

fn exchange(request: usize, reply: usize, close: Close) -> Exchange {
    Exchange {
        request,
        per_read: 4096,
        reply,
        per_write: 4096,
        close,
    }
}

/// Returns whether a client and the service get the results that the client should have.
fn is_right(rt: &HostRuntime, client: Client) -> io::Result<bool> {
    let listener = TcpListener::bind(rt, "127.0.0.1:0")?;
    let stream = TcpStream::connect(rt, listener.local_addr()?)?;
    let stream = client_that(stream, client.sent, client.then)?;
    let mut service = Exchanges::new(client.exchange, &[b'r'; 4096]);
    serve_next(
        &mut Acceptor::new(&listener),
        rt,
        &short_limits(),
        &mut service,
    )?;
    let received = match stream {
        Some(stream) => receive(&stream),
        None => (0, None),
    };
    Ok(
        (service.read, service.written) == (client.read, client.written)
            && service.fault == client.fault
            && received == client.received
            && (service.served, service.turns) == (1, 1),
    )
}

#[test]
fn clients(rt: HostRuntime) -> Result<(), Fail> {
    for row in CLIENTS.joined(rt.alloc())?.lines() {
        let client = Client::new(row).expect(&rt, row);
        assert!(rt; is_right(&rt, client)?, "{row}");
    }
    Ok(())
}

/// Checks that a client that leaves before its reply causes a fault of the write, and nothing else, not even a signal: the next client is served.
#[test]
fn left(rt: HostRuntime) -> Result<(), Fail> {
    let listener = TcpListener::bind(&rt, "127.0.0.1:0")?;
    let address = listener.local_addr()?;
    let exchange = exchange(10, 1_000_000, Close::AtOnce);
    let mut service = Exchanges::new(exchange, &[b'r'; 4096]);
    let mut acceptor = Acceptor::new(&listener);
    let _none = client_that(TcpStream::connect(&rt, address)?, 10, Then::Leaves)?;
    serve_next(&mut acceptor, &rt, &short_limits(), &mut service)?;
    // The system reports a client that is gone in either of two ways.
    assert!(rt;
        matches!(
            service.fault,
            Some(ErrorKind::BrokenPipe | ErrorKind::ConnectionReset)
        )
    );
    let client = client_that(TcpStream::connect(&rt, address)?, 9, Then::Ends)?;
    serve_next(&mut acceptor, &rt, &short_limits(), &mut service)?;
    assert_eq!(rt; client.map(|client| receive(&client)), Some((0, None)));
    assert_eq!(rt; service.fault, Some(ErrorKind::UnexpectedEof));
    assert_eq!(rt; (service.served, service.turns), (2, 2));
    Ok(())
}
