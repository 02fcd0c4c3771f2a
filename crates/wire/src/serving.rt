//! Reading and answering one request.
ghost use Rattle.std.specs.Prelude.{◌≡◌};
ghost use Rattle.wire.specs.Answer.{Answers, AnswersAction, memory_reply};
ghost use Rattle.wire.specs.Counting.{rows_among};
ghost use Rattle.wire.specs.Reading.{Sends, WritesReply, decision_of, after_reply, result_of, routed_of, without_reply};
ghost use Rattle.wire.specs.Serving.{IsServed, IsSummarized, ReturnsRequestRead, written_length, written_rows};

use crate::answer::Response;
use crate::counting::rows_among;
use crate::decision::{Decision, ReadFault, RequestRead, RoutedRequest, read_decision};
use crate::explanation::explain_program;
use crate::fault::WireFault;
use crate::filter::{compile_filter, select, submit_filter};
use crate::geocoder::geocode;
use crate::job::{fetch, list, remove, write_job_reply};
use crate::programs::{assemble, disassemble, extract, verify};
use crate::state::State;
use crate::summary::{Named, Sent, Summary};
use counted_io::{CountedRead, CountedWrite, WriteFault};
use http_message::{Action, HeadBuffer, Route, index};
use jobs::Event;
use refusals::Refusal;
use std::alloc::Allocator;

/// The result of serving a connection.
#[derive(Clone, Copy)]
pub struct Served {
    /// How much of the request was read, or why there is no reply or only a part of one.
    pub result: Result<RequestRead, WireFault>,
    pub summary: Summary,
}

impl Served {
    /// Returns the result for a reply, written completely or in part.
    fn after_reply(named: Named, request_read: RequestRead, sent: Sent) -> Served
        ensures { result ≡ after_reply named request_read sent }
    {
        Served {
            result: to_result(request_read, sent.written),
            summary: Summary {
                named,
                status: Some(sent.status),
                length: written_length(sent.written, sent.length),
                rows: written_rows(named.route, sent),
            },
        }
    }

    /// Returns the result without a reply.
    fn without_reply(fault: WireFault) -> Served
        ensures { result ≡ without_reply fault }
    {
        Served {
            result: Err(fault),
            summary: Summary {
                named: Named {
                    verb: None,
                    route: None,
                },
                status: None,
                length: None,
                rows: 0,
            },
        }
    }
}

/// Reads one request, writes one reply, and returns how much of the request was read, with a summary of both.
///
/// Nothing more is read once the bytes read decide the reply. Reads of the head may also take bytes after it, at most 8,192 bytes with the head. No
/// read or write is retried, and nothing is flushed. The out-of-memory reply itself doesn't allocate.
pub fn serve_request<A: Allocator + Copy, R: CountedRead, W: CountedWrite>(
    state: &mut State<A>,
    input: &mut R,
    out: &mut W,
) -> Served
    ensures served { IsServed result.result
        (record { state = state.old; reader = R.reader input.old; writer = W.writer out.old })
        (record { state = state.new; reader = R.reader input.new; writer = W.writer out.new }) }
    ensures request_read { ReturnsRequestRead result.result
        (record { state = state.old; reader = R.reader input.old; writer = W.writer out.old })
        (record { state = state.new; reader = R.reader input.new; writer = W.writer out.new }) }
    ensures summarized { IsSummarized result.summary result.result
        (record { state = state.old; reader = R.reader input.old; writer = W.writer out.old })
        (record { state = state.new; reader = R.reader input.new; writer = W.writer out.new }) }
{
    // On the stack: a head takes no memory.
    let mut buffer = HeadBuffer::new();
    let decided = match read_decision(state.alloc, &state.routes, &mut buffer, input) {
        Ok(decided) => decided,
        Err(ReadFault::Closed) => return Served::without_reply(WireFault::Closed),
        Err(ReadFault::Read) => return Served::without_reply(WireFault::Read),
        Err(ReadFault::Memory(named)) => {
            let sent = write_out_of_memory::<A, W>(out);
            return Served::after_reply(named, RequestRead::Partial, sent);
        }
    };
    let request_read = decided.decision.request_read();
    let sent = state.answer(&decided.decision, out);
    Served::after_reply(decided.named, request_read, sent)
}

/// Serves like [`serve_request`], but doesn't return how much of the request was read.
/// No caller in this program: part of the library's fixed interface.
pub fn serve_one<A: Allocator + Copy, R: CountedRead, W: CountedWrite>(
    state: &mut State<A>,
    input: &mut R,
    out: &mut W,
) -> Result<(), WireFault>
    ensures { IsServed result
        (record { state = state.old; reader = R.reader input.old; writer = W.writer out.old })
        (record { state = state.new; reader = R.reader input.new; writer = W.writer out.new }) }
{
    match serve_request(state, input, out).result {
        Ok(_request_read) => Ok(()),
        Err(fault) => Err(fault),
    }
}

fn to_result(
    request_read: RequestRead,
    written: Result<(), WriteFault>,
) -> Result<RequestRead, WireFault>
    ensures { result ≡ result_of request_read written }
{
    match written {
        Ok(()) => Ok(request_read),
        Err(fault) => Err(WireFault::from(fault)),
    }
}

fn written_length(written: Result<(), WriteFault>, length: usize) -> Option<u64>
    ensures { result ≡ written_length written length }
{
    match written {
        Ok(()) => Some(length as u64),
        Err(_fault) => None,
    }
}

/// Returns the number of rows in a reply to a request for this route, or 0 if the reply wasn't written completely.
fn written_rows(route: Option<Route>, sent: Sent) -> u64
    ensures { result ≡ written_rows sent.written (rows_among route sent.status sent.media sent.lines) }
{
    match sent.written {
        Ok(()) => rows_among(route, sent.status, sent.media, sent.lines),
        Err(_fault) => 0,
    }
}

/// Writes the reply for a failed allocation of the body.
fn write_out_of_memory<A: Allocator, W: CountedWrite>(out: &mut W) -> Sent
    ensures { Sends memory_reply result (W.writer out.old) (W.writer out.new) }
{
    Response::<A>::Refused(Refusal::memory()).write(out)
}

impl<A: Allocator + Copy> State<A> {
    /// Writes the reply to a decision.
    fn answer<W: CountedWrite>(&mut self, decision: &Decision<'_, A>, out: &mut W) -> Sent
        ensures { WritesReply (λ reply. Answers self.old (decision_of decision.now) reply self.new) result (W.writer out.old) (W.writer out.new) }
    {
        match decision {
            Decision::Refuses(status) => Response::<A>::Status(*status).write(out),
            Decision::Disallows(route) => Response::<A>::Disallowed(*route).write(out),
            Decision::Accepts(request) => self.answer_request(request, out),
        }
    }

    /// Writes the reply to an accepted request.
    fn answer_request<W: CountedWrite>(
        &mut self,
        request: &RoutedRequest<'_, A>,
        out: &mut W,
    ) -> Sent
        ensures { WritesReply (λ reply. AnswersAction request.now.action self.old (routed_of request.now) reply self.new) result
            (W.writer out.old) (W.writer out.new) }
    {
        let query = request.target.query;
        let body = request.body.as_slice();
        match request.action {
            Action::Index => Response::<A>::Text(index()).write(out),
            Action::Health => Response::<A>::Text("ok\n").write(out),
            Action::Verify => verify(self.alloc, body).write(out),
            Action::Assemble => assemble(self.alloc, body).write(out),
            Action::Disassemble => disassemble(self.alloc, body).write(out),
            Action::Explain => explain_program(self.alloc, body).write(out),
            Action::Extract => extract(self.alloc, self.jobs.counties(), body).write(out),
            Action::Select => {
                let counties = self.jobs.counties();
                select(self.global, self.alloc, counties, query, body).write(out)
            }
            Action::Compile => compile_filter(self.global, self.alloc, query, body).write(out),
            Action::Geocode => {
                let counties = self.jobs.counties();
                geocode(self.alloc, &self.gazetteer, counties, query).write(out)
            }
            Action::GeocodeBatch => self.geocode_batch(body).write(out),
            Action::Submit => write_job_reply(&mut self.jobs, Event::Submit(body), out),
            Action::SubmitFilter => {
                submit_filter(self.global, self.alloc, &mut self.jobs, query, body, out)
            }
            Action::Metrics => self.counts_answer().write(out),
            Action::List => list(&self.jobs).write(out),
            Action::Fetch => fetch(&mut self.jobs, request.target.path, out),
            Action::Drop => remove(&mut self.jobs, request.target.path, out),
        }
    }
}
