//! The answer that explains a program's verdict.
ghost use Rattle.std.specs.Prelude.{◌≡◌, ◌++◌, ◌∷◌, [], IfOk};
ghost use Rattle.refusals.specs.Refusal.{line};
ghost use Rattle.bpf_program.specs.ProgramFault.{refusal};
ghost use Rattle.wire.specs.Answer.{ExplainsTo, IsExplanation};
ghost use Rattle.wire.specs.Reply.{reply_of};

use crate::answer::Response;
use bpf_explain::{ExplainFault, Explanation, explain};
use bpf_program::ProgramFault;
use http_message::MediaType;
use refusals::{Fault, Refusal};
use std::alloc::{AllocError, Allocator};

/// Returns the text that explains the verdict on a program, and then the refusal's line if it is refused.
pub(crate) fn explain_program<A: Allocator + Copy>(alloc: A, program: &[u8]) -> Response<'static, A>
    ensures { ExplainsTo program.now (reply_of result) }
{
    match explanation(alloc, program) {
        Ok(answer) => answer,
        // Without source lines, nothing fails but an allocation.
        Err(_fault) => Response::Refused(Refusal::memory()),
    }
}

fn explanation<A: Allocator + Copy>(
    alloc: A,
    program: &[u8],
) -> Result<Response<'static, A>, ExplainFault>
    ensures { IfOk result (λ answer. IsExplanation program.now (reply_of answer)) }
{
    let Explanation { text, verdict } = explain(alloc, program, &[])?;
    match verdict {
        Ok(()) => Ok(Response::Made {
            media: MediaType::Plain,
            body: text,
        }),
        Err(fault) => Ok(Response::RefusedLines(with_line(text, fault)?)),
    }
}

/// Appends the refusal's line.
fn with_line<A: Allocator>(
    mut text: Vec<u8, A>,
    fault: ProgramFault,
) -> Result<Vec<u8, A>, AllocError>
    ensures { IfOk result (λ lines. lines.items ≡ text.items ++ line (refusal fault) ++ 10 ∷ []) }
{
    text.extend_from_slice(fault.line().as_bytes())?;
    text.push(b'\n')?;
    Ok(text)
}
