//! The counts after some connections.
use crate::notation::{counties_of, files_of};
use crate::sockets::exchange::Then;
use crate::sockets::http::{serve, unlogged};
use counted_io::Counting;
use fixtures::{Refusing, Table, bytes};
use jobs::MAX_COUNTIES;
use std::alloc::{AllocError, Allocator, Global};
use std::net::TcpListener;
use std::test::Fail;
use wire::{State, serve_request};

// Requests to a server of 600 segments, which makes a turn after each.
const REQUESTS: Table = Table(
    r"GET /metrics HTTP/1.1\r\n\r\n
GET /health HTTP/1.1\r\n\r\n
GET /x HTTP/1.1\r\n\r\n
\r\n\r\n
POST /extract HTTP/1.1\r\nContent-Length: 16\r\n\r\n{every}
POST /extract HTTP/1.1\r\nContent-Length: 8\r\n\r\n{stuck}
POST /select HTTP/1.1\r\nContent-Length: 4\r\n\r\nTRUE
POST /select?format=csv HTTP/1.1\r\nContent-Length: 4\r\n\r\nTRUE
POST /select?format=geojsonseq HTTP/1.1\r\nContent-Length: 4\r\n\r\nTRUE
POST /jobs HTTP/1.1\r\nContent-Length: 16\r\n\r\n{every}
GET /jobs/1 HTTP/1.1\r\n\r\n
POST /jobs HTTP/1.1\r\nContent-Length: 16\r\n\r\n{every}
GET /jobs/1 HTTP/1.1\r\n\r\n",
);

// The reply then. Four requests judged 600 segments each, and four turns 256 each. The jobs were fetched after one turn and after two.
const COUNTS: &str =
    r#"# HELP extractd_requests_total Requests that got a reply, by route and status.
# TYPE extractd_requests_total counter
extractd_requests_total{route="/extract",status="200"} 1
extractd_requests_total{route="/extract",status="422"} 1
extractd_requests_total{route="/health",status="200"} 1
extractd_requests_total{route="/jobs",status="200"} 2
extractd_requests_total{route="/metrics",status="200"} 1
extractd_requests_total{route="/select",status="200"} 3
extractd_requests_total{route="/jobs/{id}",status="200"} 2
extractd_requests_total{route="",status="400"} 1
extractd_requests_total{route="",status="404"} 1
# HELP extractd_jobs Open jobs, by progress.
# TYPE extractd_jobs gauge
extractd_jobs{progress="running"} 2
extractd_jobs{progress="finished"} 0
# HELP extractd_segments_judged_total Segments on which a program or filter was run, for jobs, /extract and /select.
# TYPE extractd_segments_judged_total counter
extractd_segments_judged_total 3424
# HELP extractd_rows_written_total Rows in replies of /extract, /select and /jobs/{id}.
# TYPE extractd_rows_written_total counter
extractd_rows_written_total 3168
# HELP process_start_time_seconds Start time of the process since the Unix epoch, in seconds.
# TYPE process_start_time_seconds gauge
process_start_time_seconds 1796038740
"#;

const METRICS: &[u8] = b"GET /metrics HTTP/1.1\r\n\r\n";

/// Returns a state over the county with this file of type 1, in a process that started at this second.
fn state_of<A: Allocator + Copy>(
    global: Global,
    alloc: A,
    county: &str,
    start: Option<u64>,
) -> Option<State<A>> {
    let files = files_of(global, county).ok()?;
    let counties = counties_of(alloc, &files)?;
    if counties.len() > MAX_COUNTIES {
        return None;
    }
    State::with_codes(global, alloc, counties, &[], start).ok()
}

#[test]
fn counts(rt: HostRuntime) -> Result<(), Fail> {
    let listener = TcpListener::bind(&rt, "127.0.0.1:0")?;
    let state = state_of(rt.alloc(), rt.alloc(), r"{rt1\n*600}", Some(1_796_038_740));
    let mut service = unlogged(&rt, state.ok_or(AllocError)?);
    for row in REQUESTS.joined(rt.alloc())?.lines() {
        let request = bytes(rt.alloc(), row).expect(&rt, row);
        let _reply = serve(&rt, &listener, &rt, &mut service, Then::Ends, &request)?;
    }
    let reply = serve(&rt, &listener, &rt, &mut service, Then::Ends, METRICS)?;
    let expected = format!(in rt.alloc();
        "HTTP/1.1 200 OK\r\nContent-Type: text/plain; version=0.0.4\r\nContent-Length: {}\r\nConnection: close\r\n\r\n{COUNTS}",
        COUNTS.len()
    )?;
    assert_eq!(rt; reply.as_slice(), expected.as_bytes());
    Ok(())
}

/// Returns a reply with the counts, after which the request is counted.
fn counted_reply<A: Allocator + Copy>(alloc: Global, state: &mut State<A>) -> Vec<u8> {
    let mut out = Counting::new(Vec::new(alloc));
    let served = serve_request(state, &mut Counting::new(METRICS), &mut out);
    state.count(&served.summary);
    out.into_inner()
}

/// Checks that each allocation that fails gives the out-of-memory reply, which counts as such.
#[test]
fn each_allocation(rt: HostRuntime) -> Result<(), Fail> {
    let heap = Refusing::new(rt.alloc());
    let mut state = state_of(rt.alloc(), &heap, r"{rt1}\n", None).ok_or(AllocError)?;
    for nth in 1..=u64::MAX {
        heap.refuse(nth);
        let reply = counted_reply(rt.alloc(), &mut state);
        if !heap.was_refused() {
            let line = format!(in rt.alloc();
                "counter\nextractd_requests_total{{route=\"/metrics\",status=\"503\"}} {}\n# HELP extractd_jobs ",
                nth - 1
            )?;
            let text = str::from_utf8(reply.as_slice()).expect(&rt, "UTF-8");
            assert!(rt; nth > 1 && text.contains(line.as_str()), "{text}");
            return Ok(());
        }
        assert!(rt; reply.as_slice().starts_with(b"HTTP/1.1 503 "));
        assert!(rt; reply.as_slice().ends_with(b"\r\n\r\nrefused memory\n"));
    }
    Ok(())
}
