//! Submissions of a job, with a failure injected into each read and write.
use crate::sockets::exchange::Then;
use crate::sockets::faults::{FailingClock, KINDS};
use crate::sockets::http::{Unlogged, serve, state_of, unlogged};
use fixtures::{Table, TableFault, bytes, cells};
use std::alloc::Global;
use std::io::ErrorKind;
use std::net::TcpListener;
use std::time::Clock;

// The requests, one connection each, over a county of one segment; the replies if each read of the first succeeds, and if a read of it fails. A
// turn follows each connection.
const SCRIPT: Table = Table(
    r"POST /jobs HTTP/1.1\r\nContent-Length: 16\r\n\r\n{every}; HTTP/1.1 200
  OK\r\nContent-Type: text/plain\r\nContent-Length: 2\r\nConnection: close\r\n\r\n1\n;
GET /jobs/1 HTTP/1.1\r\n\r\n; HTTP/1.1 200
  OK\r\nContent-Type: application/octet-stream\r\nContent-Length: 235\r\nConnection: close\r\n\r\n1 1\n{0\trt1\n};
  HTTP/1.1 404 Not Found\r\nContent-Type: text/plain\r\nContent-Length: 10\r\nConnection: close\r\n\r\nnot found\n
POST /jobs HTTP/1.1\r\nContent-Length: 16\r\n\r\n{every}; HTTP/1.1 200
  OK\r\nContent-Type: text/plain\r\nContent-Length: 2\r\nConnection: close\r\n\r\n2\n; HTTP/1.1 200
  OK\r\nContent-Type: text/plain\r\nContent-Length: 2\r\nConnection: close\r\n\r\n1\n",
);

// The submission arrives in one read, and its reply is sent in one write. The tests over memory have both byte by byte.
const CALLS: usize = 2;

/// A request of the script, with its replies.
#[derive(Drop)]
struct Step {
    request: Vec<u8>,
    reply: Vec<u8>,
    /// The reply if a read of the submission fails.
    reply_without_job: Vec<u8>,
}

impl Step {
    fn new(alloc: Global, row: &str) -> Result<Self, TableFault> {
        let (request, reply, reply_without_job) = cells(row)?.three()?;
        Ok(Step {
            request: bytes(alloc, request)?,
            reply: bytes(alloc, reply)?,
            reply_without_job: bytes(alloc, reply_without_job)?,
        })
    }

    /// Returns the reply if the submission's call with this number fails.
    fn reply_if(&self, call: usize) -> &[u8] {
        match call {
            1 => &self.reply_without_job,
            _ => &self.reply,
        }
    }
}

fn script(alloc: Global) -> Result<Vec<Step>, TableFault> {
    let mut script = Vec::new(alloc);
    for row in SCRIPT.joined(alloc)?.lines() {
        script.push(Step::new(alloc, row)?)?;
    }
    Ok(script)
}

/// Returns whether a request gets this reply.
fn is_replied<C: Clock>(
    rt: &HostRuntime,
    listener: &TcpListener,
    clock: &C,
    service: &mut Unlogged<'_>,
    request: &[u8],
    reply: &[u8],
) -> Option<bool> {
    let received = serve(rt, listener, clock, service, Then::Ends, request).ok()?;
    Some(received.as_slice() == reply)
}

/// Returns whether the call with this number of a submission was reached, and failed. Returns `None` if its result is wrong, or that of a later
/// request.
fn is_failed(
    rt: &HostRuntime,
    listener: &TcpListener,
    script: &[Step],
    call: usize,
    kind: ErrorKind,
) -> Option<bool> {
    let mut service = unlogged(rt, state_of(rt.alloc(), r"{rt1}\n")?);
    let clock = FailingClock::new(call, kind);
    let (submission, later) = script.split_first()?;
    let reply = match call {
        CALLS => &[],
        _ => submission.reply_if(call),
    };
    let mut is_right = is_replied(
        rt,
        listener,
        &clock,
        &mut service,
        &submission.request,
        reply,
    )?;
    for step in later {
        let reply = step.reply_if(call);
        is_right = is_replied(rt, listener, rt, &mut service, &step.request, reply)? && is_right;
    }
    is_right.then_some(clock.has_failed())
}

/// Returns the number of calls of a submission that failed, one at a time, up to the first that isn't reached.
fn failures(rt: &HostRuntime, script: &[Step], kind: ErrorKind) -> Option<usize> {
    let listener = TcpListener::bind(rt, "127.0.0.1:0").ok()?;
    for call in 1..=usize::MAX {
        if !is_failed(rt, &listener, script, call, kind)? {
            return call.checked_sub(1);
        }
    }
    None
}

#[test]
fn each_read_and_each_write(rt: HostRuntime) {
    let script = script(rt.alloc()).expect(&rt, "the script");
    for kind in KINDS {
        let failed = failures(&rt, &script, kind);
        assert_eq!(rt; failed, Some(CALLS), "{kind:?}");
    }
}
