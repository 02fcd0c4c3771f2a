//! The answers to requests.
ghost use Rattle.std.specs.Prelude.{◌≡◌, ◌≤◌, ◌++◌, ◌∷◌, [], codes, decimal, length};
ghost use Rattle.http_message.specs.Reply.{parts_of};
ghost use Rattle.http_message.specs.declared.status.Status.TheVariants as status;
ghost use Rattle.wire.specs.Answer.{class_status, plain};
ghost use Rattle.wire.specs.Counting.{line_feeds};
ghost use Rattle.wire.specs.Reading.{Sends};
ghost use Rattle.wire.specs.Reply.{reply_of};

use crate::summary::Sent;
use arrayvec::{ArrayString, ArrayVec};
use counted_io::CountedWrite;
use http_message::{MAX_LEAD_LENGTH, MediaType, Reply, Route, Status};
use itoa::Buffer;
use refusals::{Class, Refusal};
use std::alloc::{AllocError, Allocator};

/// The answer to a request, before it's laid out as a reply.
#[derive(Drop)]
pub(crate) enum Response<'a, A: Allocator> {
    /// A status with its own text.
    Status(Status),
    /// The route doesn't have the method.
    Disallowed(Route),
    /// A 200 with a constant text.
    Text(&'static str),
    /// A 200 with a body made for the request.
    Made {
        media: MediaType,
        body: Vec<u8, A>,
    },
    Refused(Refusal),
    /// A 422 with lines made for the request.
    RefusedLines(Vec<u8, A>),
    /// A 400 with a line made for the request.
    BadLine(Vec<u8, A>),
    /// A status with a line.
    Line {
        status: Status,
        line: ArrayString<64>,
    },
    /// A 200 with a job's progress, followed by its rows.
    Rows {
        done: u64,
        total: u64,
        rows: &'a [u8],
    },
}

impl<'a, A: Allocator> Response<'a, A> {
    /// Returns the reply, which borrows the large parts of the answer.
    fn reply(&self) -> Reply<'_>
        ensures { parts_of result ≡ reply_of self.now }
    {
        match self {
            Response::Status(status) => Reply::of_status(*status),
            Response::Disallowed(route) => Reply {
                allow: Some(route.allow()),
                ..Reply::of_status(Status::MethodNotAllowed)
            },
            Response::Text(text) => plain(ArrayVec::new(), text.as_bytes()),
            Response::Made { media, body } => Reply {
                media: *media,
                ..plain(ArrayVec::new(), body.as_slice())
            },
            Response::Refused(refusal) => Reply {
                status: class_status(refusal.class()),
                ..plain(with_line_end(refusal.line()), &[])
            },
            Response::RefusedLines(lines) => Reply {
                status: Status::UnprocessableEntity,
                ..plain(ArrayVec::new(), lines.as_slice())
            },
            Response::BadLine(line) => Reply {
                status: Status::BadRequest,
                ..plain(ArrayVec::new(), line.as_slice())
            },
            Response::Line { status, line } => Reply {
                status: *status,
                ..plain(with_line_end(*line), &[])
            },
            Response::Rows { done, total, rows } => Reply {
                media: MediaType::Octets,
                ..plain(with_line_end(counts(*done, *total)), rows)
            },
        }
    }

    /// Writes the reply, in as few writes as its parts allow. It doesn't allocate.
    pub fn write<W: CountedWrite>(self, out: &mut W) -> Sent
        ensures { Sends (reply_of self.entry) result (W.writer out.old) (W.writer out.new) }
    {
        let reply = self.reply();
        Sent {
            status: reply.status,
            media: reply.media,
            length: reply.body_length(),
            lines: body_lines(&reply),
            written: reply.write(out),
        }
    }
}

impl<A: Allocator> From<AllocError> for Response<'_, A> {
    ghost use Rattle.wire.specs.Answer.{memory_reply};

    ghost from_gives = { λ _ answer. reply_of answer ≡ memory_reply };

    fn from(_error: AllocError) -> Self {
        Response::Refused(Refusal::memory())
    }
}

/// Returns the number of line feeds in the body.
#[tactic(auto, using(crate::proofs::CountingLemmas::line_feeds_append))]
fn body_lines(reply: &Reply<'_>) -> u64
    ensures { result ≡ line_feeds (parts_of reply.now).body }
{
    line_feeds(reply.lead.as_slice()) + line_feeds(reply.rest)
}

fn line_feeds(text: &[u8]) -> u64
    ensures value { result ≡ line_feeds text.now }
    ensures bound { result ≤ length text.now }
{
    let mut count = 0;
    for byte in text {
        if *byte == b'\n' {
            count += 1;
        }
    }
    count
}

fn class_status(class: Class) -> Status
    ensures { result ≡ class_status class }
{
    match class {
        Class::Refused => Status::UnprocessableEntity,
        // No request reads or writes a file, so `Io` doesn't occur.
        Class::Io | Class::Memory => Status::ServiceUnavailable,
    }
}

/// Returns a 200 with this body, as plain text.
fn plain(lead: ArrayVec<u8, MAX_LEAD_LENGTH>, rest: &[u8]) -> Reply<'_>
    ensures { parts_of result ≡ plain status.Ok (lead.items ++ rest.now) }
{
    Reply {
        status: Status::Ok,
        media: MediaType::Plain,
        allow: None,
        lead,
        rest,
    }
}

fn with_line_end(line: ArrayString<64>) -> ArrayVec<u8, MAX_LEAD_LENGTH>
    ensures { result.items ≡ line.bytes ++ 10 ∷ [] }
{
    let mut text = ArrayVec::new();
    text.try_extend_from_slice(line.as_bytes()).unwrap();
    text.push(b'\n');
    text
}

/// Returns the number of segments done and their total, as text.
fn counts(done: u64, total: u64) -> ArrayString<64>
    ensures { result.bytes ≡ decimal done ++ codes " " ++ decimal total }
{
    let mut text = ArrayString::new();
    text.push_str(Buffer::new().format(done));
    text.push_str(" ");
    text.push_str(Buffer::new().format(total));
    text
}
