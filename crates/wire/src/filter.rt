//! The answers to filters.
ghost use Rattle.std.specs.Prelude.{◌≡◌, ◌⊎◌, IfErr, IfOk};
ghost use Rattle.layers.specs.LayerParts.{parts_of};
ghost use Rattle.wire.specs.Answer.{CompilesTo, IsFilterProgram, IsFilterRefused, IsSelected, IsTextRefused, SelectsTo, SubmitsTo};
ghost use Rattle.wire.specs.Answer.{failure_reply, media_of, memory_reply};
ghost use Rattle.wire.specs.Reading.{WritesReply};
ghost use Rattle.wire.specs.Reply.{reply_of};
ghost use Rattle.wire.specs.declared.query.Parameters.TheVariants as Parameters;

use crate::answer::Response;
use crate::job::write_job_reply;
use crate::query::{Parameters, filter_options, select_options};
use crate::summary::Sent;
use counted_io::CountedWrite;
use filters::{FilterFailure, FilterOptions};
use http_message::{MediaType, Status};
use jobs::{Event, Jobs};
use layers::{Layer, lay_out};
use refusals::Refusal;
use std::alloc::{Allocator, Global};
use tl_segments::County;

/// Returns the requested layer of the segments for which a filter is true.
pub(crate) fn select<A: Allocator + Copy>(
    global: Global,
    alloc: A,
    counties: &[County<A>],
    query: &str,
    filter: &[u8],
) -> Response<'static, A>
    ensures { SelectsTo counties.now query.now filter.now (reply_of result) }
{
    let (options, layer) = match select_options(global, alloc, query.as_bytes()) {
        Ok(read) => read,
        Err(answer) => return answer,
    };
    match selected_layer(alloc, counties, &layer, options, filter) {
        Ok(body) => Response::Made {
            media: media_of(&layer),
            body,
        },
        Err(answer) => answer,
    }
}

/// Returns the layer of the segments for which a filter is true, or the answer that refuses it.
fn selected_layer<A: Allocator + Copy>(
    alloc: A,
    counties: &[County<A>],
    layer: &Layer,
    options: FilterOptions,
    filter: &[u8],
) -> Result<Vec<u8, A>, Response<'static, A>>
    ensures ok { IfOk result (λ text. IsSelected counties.now (parts_of layer.now) options filter.now text.items) }
    ensures err { IfErr result (λ answer. IsTextRefused options filter.now (reply_of answer)) }
{
    let Ok(_text) = str::from_utf8(filter) else {
        return Err(Response::Status(Status::BadRequest));
    };
    let program = match options.verified(filter) {
        Ok(program) => program,
        Err(failure) => return Err(failure_answer(alloc, failure)),
    };
    match lay_out(alloc, &program, counties, layer) {
        Ok(text) => Ok(text),
        Err(_error) => Err(Response::Refused(Refusal::memory())),
    }
}

fn media_of(layer: &Layer) -> MediaType
    ensures { result ≡ media_of (parts_of layer.now) }
{
    match layer {
        Layer::Rows => MediaType::Octets,
        Layer::Table(_) => MediaType::Csv,
        Layer::Features(_) => MediaType::Features,
    }
}

/// Returns the words of a filter's program.
pub(crate) fn compile_filter<A: Allocator + Copy>(
    global: Global,
    alloc: A,
    query: &str,
    filter: &[u8],
) -> Response<'static, A>
    ensures { CompilesTo query.now filter.now (reply_of result) }
{
    match filter_program(global, alloc, query.as_bytes(), filter) {
        Ok(body) => Response::Made {
            media: MediaType::Octets,
            body,
        },
        Err(answer) => answer,
    }
}

/// Submits a filter's program as a job, and writes the reply.
pub(crate) fn submit_filter<A: Allocator + Copy, W: CountedWrite>(
    global: Global,
    alloc: A,
    jobs: &mut Jobs<A>,
    query: &str,
    filter: &[u8],
    out: &mut W,
) -> Sent
    ensures { WritesReply (λ reply. SubmitsTo query.now filter.now jobs.old reply jobs.new) result (W.writer out.old) (W.writer out.new) }
{
    match filter_program(global, alloc, query.as_bytes(), filter) {
        Ok(program) => write_job_reply(jobs, Event::Submit(program.as_slice()), out),
        Err(answer) => answer.write(out),
    }
}

/// Returns the words of a filter's program, or the answer that refuses the query or the filter.
fn filter_program<A: Allocator + Copy>(
    global: Global,
    alloc: A,
    query: &[u8],
    filter: &[u8],
) -> Result<Vec<u8, A>, Response<'static, A>>
    ensures ok { IfOk result (λ program. IsFilterProgram query.now filter.now program.items) }
    ensures err { IfErr result (λ answer. IsFilterRefused Parameters.OfFilter query.now filter.now (reply_of answer)) }
{
    let options = match filter_options(global, alloc, Parameters::OfFilter, query) {
        Ok(options) => options,
        Err(answer) => return Err(answer),
    };
    let Ok(_text) = str::from_utf8(filter) else {
        return Err(Response::Status(Status::BadRequest));
    };
    match options.program(alloc, filter) {
        Ok(program) => Ok(program),
        Err(failure) => Err(failure_answer(alloc, failure)),
    }
}

/// Returns the answer that reports why a filter has no program.
fn failure_answer<A: Allocator>(alloc: A, failure: FilterFailure) -> Response<'static, A>
    ensures { (reply_of result ≡ failure_reply failure) ⊎ (reply_of result ≡ memory_reply) }
{
    match failure.number() {
        Some(_number) => match failure.text(alloc) {
            Ok(lines) => Response::RefusedLines(lines),
            Err(_error) => Response::Refused(Refusal::memory()),
        },
        // An allocation failed.
        None => Response::Refused(Refusal::memory()),
    }
}
