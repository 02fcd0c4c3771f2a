//! The answers about programs and program texts.
ghost use Rattle.wire.specs.Answer.{AssemblesTo, DisassemblesTo, ExtractsTo, IsVerified};
ghost use Rattle.wire.specs.Reply.{reply_of};

use crate::answer::Response;
use bpf_program::{accept, check_program};
use bpf_text::{SourceFault, assemble_source, disassemble_program};
use http_message::{MediaType, Status};
use layers::{Layer, lay_out};
use refusals::{Fault, Refusal};
use std::alloc::Allocator;
use tl_segments::County;

pub(crate) fn verify<A: Allocator + Copy>(alloc: A, program: &[u8]) -> Response<'static, A>
    ensures { IsVerified program.now (reply_of result) }
{
    match check_program(alloc, program) {
        Ok(()) => Response::Text("accepted\n"),
        Err(fault) => Response::Refused(fault.refusal()),
    }
}

/// Returns the program's words.
pub(crate) fn assemble<A: Allocator + Copy>(alloc: A, source: &[u8]) -> Response<'static, A>
    ensures { AssemblesTo source.now (reply_of result) }
{
    match assemble_source(alloc, source) {
        Ok(words) => Response::Made {
            media: MediaType::Octets,
            body: words,
        },
        Err(SourceFault::NotUtf8) => Response::Status(Status::BadRequest),
        Err(SourceFault::Text(fault)) => Response::Refused(fault.refusal()),
    }
}

/// Returns the program as text.
pub(crate) fn disassemble<A: Allocator + Copy>(alloc: A, program: &[u8]) -> Response<'static, A>
    ensures { DisassemblesTo program.now (reply_of result) }
{
    match disassemble_program(alloc, program) {
        Ok(text) => Response::Made {
            media: MediaType::Plain,
            body: text.into_bytes(),
        },
        Err(fault) => Response::Refused(fault.refusal()),
    }
}

/// Returns the rows that a program selects over all counties, in order.
pub(crate) fn extract<A: Allocator + Copy>(
    alloc: A,
    counties: &[County<A>],
    program: &[u8],
) -> Response<'static, A>
    ensures { ExtractsTo counties.now program.now (reply_of result) }
{
    let verified = match accept(alloc, program) {
        Ok(verified) => verified,
        Err(fault) => return Response::Refused(fault.refusal()),
    };
    // The layer of rows, so that `/extract` has no second path through the segments.
    match lay_out(alloc, &verified, counties, &Layer::Rows) {
        Ok(rows) => Response::Made {
            media: MediaType::Octets,
            body: rows,
        },
        Err(_error) => Response::Refused(Refusal::memory()),
    }
}
