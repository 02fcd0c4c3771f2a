//! The requests to the table of jobs, and its replies as answers.
ghost use Rattle.std.specs.Prelude.{◌≡◌, ◌⊎◌, decimal, false};
ghost use Rattle.http_message.specs.declared.status.Status.TheVariants as status;
ghost use Rattle.http_message.specs.declared.status.Status.TheVariants.{NotFound};
ghost use Rattle.http_message.specs.Target.{job_id};
ghost use Rattle.jobs.specs.Listing.{listing};
ghost use Rattle.wire.specs.Answer.{IsJobReply, IsTableReply, job_fault_reply, job_reply, memory_reply, plain, status_reply};
ghost use Rattle.wire.specs.Reading.{Sends, WritesReply};
ghost use Rattle.wire.specs.Turn.{IsTurn, judged_in, lends_rows};
ghost use Rattle.wire.specs.Reply.{reply_of};

use crate::answer::Response;
use crate::summary::Sent;
use arrayvec::ArrayString;
use counted_io::CountedWrite;
use http_message::{MediaType, Status, job_id};
use itoa::Buffer;
use jobs::{Event, JobFault, Jobs, Reply as JobReply};
use refusals::{Fault, Refusal};
use std::alloc::Allocator;

/// Applies an event to the table, and writes its reply.
pub(crate) fn write_job_reply<A: Allocator + Copy, W: CountedWrite>(
    jobs: &mut Jobs<A>,
    event: Event<'_>,
    out: &mut W,
) -> Sent
    ensures { WritesReply (λ reply. IsTableReply (λ made. made ≡ event.entry) jobs.old reply jobs.new) result (W.writer out.old) (W.writer out.new) }
{
    let reply = jobs.apply(event);
    job_answer::<A>(reply).write(out)
}

/// Returns a line for each open job.
pub(crate) fn list<A: Allocator + Copy>(jobs: &Jobs<A>) -> Response<'static, A>
    ensures { (reply_of result ≡ plain status.Ok (listing jobs.now)) ⊎ (reply_of result ≡ memory_reply) }
{
    match jobs.listing() {
        Ok(body) => Response::Made {
            media: MediaType::Plain,
            body,
        },
        Err(_error) => Response::Refused(Refusal::memory()),
    }
}

/// Writes the progress and the rows of the job that a path names.
pub(crate) fn fetch<A: Allocator + Copy, W: CountedWrite>(
    jobs: &mut Jobs<A>,
    path: &str,
    out: &mut W,
) -> Sent
    ensures { WritesReply (λ reply. IsJobReply Event.Fetch (job_id path.now) jobs.old reply jobs.new) result (W.writer out.old) (W.writer out.new) }
{
    match job_id(path) {
        Some(id) => write_job_reply(jobs, Event::Fetch(id), out),
        None => no_job::<A, W>(out),
    }
}

/// Removes the job that a path names, and writes the reply.
pub(crate) fn remove<A: Allocator + Copy, W: CountedWrite>(
    jobs: &mut Jobs<A>,
    path: &str,
    out: &mut W,
) -> Sent
    ensures { WritesReply (λ reply. IsJobReply Event.Drop (job_id path.now) jobs.old reply jobs.new) result (W.writer out.old) (W.writer out.new) }
{
    match job_id(path) {
        Some(id) => write_job_reply(jobs, Event::Drop(id), out),
        None => no_job::<A, W>(out),
    }
}

/// Writes the reply for an invalid id, which belongs to no job.
fn no_job<A: Allocator, W: CountedWrite>(out: &mut W) -> Sent
    ensures { Sends (status_reply NotFound) result (W.writer out.old) (W.writer out.new) }
{
    Response::<A>::Status(Status::NotFound).write(out)
}

/// A turn of a job.
#[derive(Clone, Copy)]
pub(crate) struct JobTurn {
    pub reply: JobReply<'static>,
    /// The number of segments on which the job's program ran.
    pub judged: u64,
}

/// Advances the next job by a turn.
pub(crate) fn next_turn<A: Allocator + Copy>(jobs: &mut Jobs<A>) -> Option<JobTurn>
    ensures { IsTurn jobs.old result jobs.new }
{
    let id = jobs.next_turn()?;
    let before = jobs.done(id);
    let reply = jobs.apply(Event::Turn(id));
    let reply = without_rows(reply);
    let judged = judged_in(before, reply);
    Some(JobTurn { reply, judged })
}

/// Returns the number of segments that a turn added to those done before it.
fn judged_in(before: u64, reply: JobReply<'static>) -> u64
    ensures { result ≡ judged_in before reply.entry }
{
    match reply {
        JobReply::Turned { done, .. } => done.saturating_sub(before),
        _ => 0,
    }
}

/// Returns the reply to a turn with a lifetime of its own. Only `Rows` borrows from the table, and no turn has that reply, but all cases share the
/// type's lifetime. The language can't change it, so each case is built anew.
fn without_rows(reply: JobReply<'_>) -> JobReply<'static>
    ensures { lends_rows reply.entry ≡ false → result ≡ reply.entry }
{
    match reply {
        JobReply::Submitted(id) => JobReply::Submitted(id),
        JobReply::Turned { done, total } => JobReply::Turned { done, total },
        JobReply::Rows { done, total, .. } => JobReply::Rows {
            done,
            total,
            rows: &[],
        },
        JobReply::Dropped => JobReply::Dropped,
        JobReply::Refused(fault) => JobReply::Refused(fault),
    }
}

fn job_answer<'a, A: Allocator>(reply: JobReply<'a>) -> Response<'a, A>
    ensures { reply_of result ≡ job_reply reply.entry }
{
    match reply {
        JobReply::Submitted(id) => Response::Line {
            status: Status::Ok,
            line: id_line(id),
        },
        JobReply::Rows { done, total, rows } => Response::Rows { done, total, rows },
        JobReply::Turned { done, total } => Response::Rows {
            done,
            total,
            rows: &[],
        },
        JobReply::Dropped => Response::Text("dropped\n"),
        JobReply::Refused(fault) => job_fault_answer(fault),
    }
}

fn job_fault_answer<A: Allocator>(fault: JobFault) -> Response<'static, A>
    ensures { reply_of result ≡ job_fault_reply fault }
{
    match fault {
        JobFault::NoJob => Response::Status(Status::NotFound),
        JobFault::Full => Response::Line {
            status: Status::ServiceUnavailable,
            line: fault.line(),
        },
        JobFault::Program(fault) => Response::Refused(fault.refusal()),
        JobFault::Memory => Response::Refused(Refusal::memory()),
    }
}

fn id_line(id: u64) -> ArrayString<64>
    ensures { result.bytes ≡ decimal id }
{
    let mut line = ArrayString::new();
    line.push_str(Buffer::new().format(id));
    line
}
