//! The lines of a log.
use crate::sockets::accepts::Aborting;
use crate::sockets::exchange::{Then, client_that, short_limits};
use crate::sockets::http::state_of;
use counted_io::Counting;
use fixtures::{FaultPlan, Table, TableFault, bytes, cells, taken, writer};
use http_service::{Logged, LoggedListener};
use std::alloc::{AllocError, Global};
use std::cell::Cell;
use std::io;
use std::io::Write;
use std::net::{TcpListener, TcpStream};
use std::test::Fail;
use std::time::{Clock, Duration};
use tcp_server::{Acceptor, Listener, serve_next};

// What a client sends before it ends, and the end of the line after the date.
const LINES: Table = Table(
    r#"GET /health HTTP/1.1\r\n\r\n; "GET /health HTTP/1.1" 200 3 24 1500
GET / HTTP/1.0\r\n\r\n; "GET / HTTP/1.1" 200 232 18 1500
GET /jobs/1?%0A HTTP/1.1\r\n\r\n; "GET /jobs/{id} HTTP/1.1" 404 10 28 1500
DELETE /jobs/no HTTP/1.1\r\n\r\n; "DELETE /jobs/{id} HTTP/1.1" 404 10 28 1500
GET /x HTTP/1.1\r\nA: "GET / HTTP/1.1" 200\r\n\r\n; "GET - HTTP/1.1" 404 10 44 1500
HEAD /health HTTP/1.1\r\n\r\n; "- /health HTTP/1.1" 405 19 25 1500
HEAD /x HTTP/1.1\r\n\r\n; "-" 404 10 20 1500
POST /verify HTTP/1.1\r\nContent-Length: 16\r\n\r\n{every}; "POST /verify HTTP/1.1" 200 9 61 1500
POST /verify HTTP/1.1\r\nContent-Length: 9\r\n\r\nzero; "POST /verify HTTP/1.1" 400 12 48 1500
POST /verify HTTP/1.1\r\n\r\n; "POST /verify HTTP/1.1" 411 16 25 1500
\n127.0.0.1 - - [30/Nov/2026:11:39:00 +0000] "GET / HTTP/1.1" 200 1 1 1\n; "-" 400 12 71 1500
; "-" - - 0 1500"#,
);

/// A clock that shows a fixed date, and advances by 1.5 milliseconds with each reading of the time.
#[derive(Drop)]
struct FixedDate {
    readings: Cell<u64>,
}

impl FixedDate {
    fn new() -> Self {
        FixedDate {
            readings: Cell::new(0),
        }
    }
}

impl Clock for FixedDate {
    fn monotonic(&self) -> io::Result<Duration> {
        let readings = self.readings.get();
        self.readings.set(readings.wrapping_add(1));
        Ok(Duration::from_micros(readings.wrapping_mul(1500)))
    }

    fn since_1970(&self) -> io::Result<Duration> {
        // Mon Nov 30 11:39:00 UTC 2026
        Ok(Duration::from_secs(1_796_038_740))
    }
}

fn cells_of(alloc: Global, row: &str) -> Result<(Vec<u8>, &str), TableFault> {
    let (request, end) = cells(row)?.two()?;
    Ok((bytes(alloc, request)?, end))
}

/// Returns what a log that fails by this plan has after a client was served.
fn line_of(rt: &HostRuntime, request: &[u8], plan: FaultPlan) -> io::Result<Vec<u8>> {
    let listener = TcpListener::bind(rt, "127.0.0.1:0")?;
    let mut client = TcpStream::connect(rt, listener.local_addr()?)?;
    client.write_all(request)?;
    let _client = client_that(client, 0, Then::Ends)?;
    let state = state_of(rt.alloc(), r"{rt1\n}").ok_or(AllocError)?;
    let clock = FixedDate::new();
    let mut service = Logged::new(state, writer(rt.alloc(), plan), &clock);
    serve_next(
        &mut Acceptor::new(&listener),
        rt,
        &short_limits(),
        &mut service,
    )?;
    Ok(Vec::from_slice(rt.alloc(), taken(&service.log))?)
}

#[test]
fn lines(rt: HostRuntime) -> Result<(), Fail> {
    for row in LINES.joined(rt.alloc())?.lines() {
        let (request, end) = cells_of(rt.alloc(), row).expect(&rt, row);
        let line = line_of(&rt, request.as_slice(), FaultPlan::sound())?;
        let expected = format!(in rt.alloc();
            "127.0.0.1 - - [30/Nov/2026:11:39:00 +0000] {end}\n"
        )?;
        assert_eq!(rt; line.as_slice(), expected.as_bytes(), "{row}");
    }
    Ok(())
}

/// Checks that a client is served though its line fails after some bytes, which the log then has.
#[test]
fn each_write(rt: HostRuntime) -> Result<(), Fail> {
    let request = b"GET /health HTTP/1.1\r\n\r\n".as_slice();
    let line = line_of(&rt, request, FaultPlan::sound())?;
    for bytes in 0..line.len() {
        let written = line_of(&rt, request, FaultPlan::sound().after(bytes))?;
        assert_eq!(rt; written.as_slice(), &line[..bytes]);
    }
    Ok(())
}

/// Checks that the log has a line for the start, and one for a failed accept.
#[test]
fn events(rt: HostRuntime) -> Result<(), Fail> {
    let failing = Aborting::new(TcpListener::bind(&rt, "127.0.0.1:0")?, 1);
    let clock = FixedDate::new();
    let log = Counting::new(Vec::new(rt.alloc()));
    let mut listener = LoggedListener::new(&failing, log, &clock);
    assert!(rt; Listener::accept(&mut listener).is_err());
    assert_eq!(rt;
        listener.log.get_ref().as_slice(),
        b"- - - [30/Nov/2026:11:39:00 +0000] \"start\" - - - -
- - - [30/Nov/2026:11:39:00 +0000] \"accept failed\" - - - -
"
            .as_slice()
    );
    Ok(())
}
