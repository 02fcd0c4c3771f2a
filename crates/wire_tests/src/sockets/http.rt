//! The program's service over sockets: requests over HTTP, and the turns of its jobs.
use crate::notation::{counties_of, files_of};
use crate::sockets::exchange::{Then, client_that, short_limits};
use counted_io::Counting;
use fixtures::{Table, TableFault, bytes, cells, size};
use http_service::Logged;
use jobs::MAX_COUNTIES;
use std::alloc::{AllocError, Global};
use std::io;
use std::io::{Read, Sink, Write};
use std::net::{TcpListener, TcpStream};
use std::test::Fail;
use std::time::Clock;
use tcp_server::{Acceptor, Service, serve_next};
use wire::{State, serve_one};

// What a client does after its request, or `asks` if there is no connection; the request; the number of bytes of the reply, and its start. The
// 20,000 bytes are more than the reads of a head take, so unread input is left when the connection is closed.
const REQUESTS: Table = Table(
    r"ends; POST /jobs HTTP/1.1\r\nContent-Length: 16\r\n\r\n{every}; 85; HTTP/1.1 200
  OK\r\nContent-Type: text/plain\r\nContent-Length: 2\r\nConnection: close\r\n\r\n1\n
asks; GET /jobs/1 HTTP/1.1\r\n\r\n; 59245; HTTP/1.1 200
  OK\r\nContent-Type: application/octet-stream\r\nContent-Length: 59144\r\nConnection: close\r\n\r\n256 600\n
leaves; ; 0;
asks; GET /jobs/1 HTTP/1.1\r\n\r\n; 118382; HTTP/1.1 200
  OK\r\nContent-Type: application/octet-stream\r\nContent-Length: 118280\r\nConnection: close\r\n\r\n512 600\n
stays; POST /verify HTTP/1.1\r\nContent-Length: 16\r\n\r\n{every}; 92; HTTP/1.1 200
  OK\r\nContent-Type: text/plain\r\nContent-Length: 9\r\nConnection: close\r\n\r\naccepted\n
asks; GET /jobs/1 HTTP/1.1\r\n\r\n; 138710; HTTP/1.1 200
  OK\r\nContent-Type: application/octet-stream\r\nContent-Length: 138608\r\nConnection: close\r\n\r\n600 600\n
stays; POST /verify HTTP/1.1\r\nContent-Length: 1048577\r\n\r\n{text q*20000}; 109; HTTP/1.1 413
  Payload Too Large\r\nContent-Type: text/plain\r\nContent-Length: 10\r\nConnection: close\r\n\r\ntoo large\n
stays; POST /verify HTTP/1.1\r\nContent-Length: 16\r\n\r\n{every}; 92; HTTP/1.1 200
  OK\r\nContent-Type: text/plain\r\nContent-Length: 9\r\nConnection: close\r\n\r\naccepted\n
stays; ; 0;
stays; POST /verify HTTP/1.1\r\nContent-Length: 16\r\n\r\n; 0;
ends; POST /verify HTTP/1.1\r\nContent-Length: 16\r\n\r\n{every}; 92; HTTP/1.1 200
  OK\r\nContent-Type: text/plain\r\nContent-Length: 9\r\nConnection: close\r\n\r\naccepted\n",
);

/// A request, and what its reply begins with.
#[derive(Drop)]
struct Case {
    /// What the client does after its request, if there is a connection.
    then: Option<Then>,
    request: Vec<u8>,
    length: usize,
    start: Vec<u8>,
}

impl Case {
    fn new(alloc: Global, row: &str) -> Result<Self, TableFault> {
        let (word, request, length, start) = cells(row)?.four()?;
        let then = match word {
            "asks" => None,
            _ => Some(Then::new(word)?),
        };
        if start.is_empty() && length != "0" {
            return Err(TableFault::Word);
        }
        Ok(Case {
            then,
            request: bytes(alloc, request)?,
            length: size(length)?,
            start: bytes(alloc, start)?,
        })
    }
}

/// Returns a state over the county with this file of type 1.
pub fn state_of(alloc: Global, county: &str) -> Option<State<Global>> {
    let files = files_of(alloc, county).ok()?;
    let counties = counties_of(alloc, &files)?;
    if counties.len() > MAX_COUNTIES {
        return None;
    }
    State::new(alloc, alloc, counties).ok()
}

/// The program's service without a log.
pub type Unlogged<'a> = Logged<Global, Counting<Sink>, &'a HostRuntime>;

/// Returns the program's service over a state, without a log.
pub fn unlogged(rt: &HostRuntime, state: State<Global>) -> Unlogged<'_> {
    Logged::new(state, Counting::new(io::sink()), rt)
}

/// Returns the reply that a client gets over a connection of its own.
pub fn serve<C: Clock, S: Service>(
    rt: &HostRuntime,
    listener: &TcpListener,
    clock: &C,
    service: &mut S,
    then: Then,
    request: &[u8],
) -> io::Result<Vec<u8>> {
    let mut client = TcpStream::connect(rt, listener.local_addr()?)?;
    client.write_all(request)?;
    let client = client_that(client, 0, then)?;
    serve_next(
        &mut Acceptor::new(listener),
        clock,
        &short_limits(),
        service,
    )?;
    let mut reply = Vec::new(rt.alloc());
    if let Some(mut client) = client {
        client.read_to_end(&mut reply)?;
    }
    Ok(reply)
}

/// Returns the reply of the state, without a connection.
fn reply_of(alloc: Global, state: &mut State<Global>, request: &[u8]) -> Vec<u8> {
    let mut out = Counting::new(Vec::new(alloc));
    let _fault = serve_one(state, &mut Counting::new(request), &mut out);
    out.into_inner()
}

/// Checks the rows in order, with one server and one service: a row's reply shows the turns after the connections before it.
#[test]
fn requests(rt: HostRuntime) -> Result<(), Fail> {
    let listener = TcpListener::bind(&rt, "127.0.0.1:0")?;
    let state = state_of(rt.alloc(), r"{rt1\n*600}").ok_or(AllocError)?;
    let mut service = unlogged(&rt, state);
    for row in REQUESTS.joined(rt.alloc())?.lines() {
        let case = Case::new(rt.alloc(), row).expect(&rt, row);
        let reply = match case.then {
            None => reply_of(rt.alloc(), &mut service.state, &case.request),
            Some(then) => serve(&rt, &listener, &rt, &mut service, then, &case.request)?,
        };
        assert_eq!(rt; reply.len(), case.length, "{row}");
        assert!(rt; reply.as_slice().starts_with(&case.start), "{row}");
    }
    Ok(())
}
