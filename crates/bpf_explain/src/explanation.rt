//! The verdict on a program, with a text that explains it.
ghost use Rattle.std.specs.Prelude.{◌≡◌, List, IfErr, IfOk};
ghost use Rattle.bpf_explain.specs.Explanation.{Explains, IsEarlyFault, IsExplainFault, IsExplained, ListsFault};
ghost use Rattle.bpf_explain.specs.declared.explanation.ExplainFault.TheVariants.{Lines, Memory};
ghost use Rattle.bpf_flow.specs.Flow.{IsForward};
ghost use Rattle.bpf_insn.specs.Code.{IsCodeOf};
ghost use Rattle.bpf_insn.specs.declared.instruction.Insn.{Insn};
ghost use Rattle.bpf_program.specs.Program.{IsSafeProgram};
ghost use Rattle.listing_lines.specs.SourceLines.{parts_of};

use crate::listing::Listing;
use bpf_flow::Flow;
use bpf_insn::decode;
use bpf_program::ProgramFault;
use bpf_verify::{VerifyFault, verify_with};
use listing_excerpt::{list_code_fault, list_flow_fault};
use listing_lines::{LinesFault, SourceLines};
use refusals::{Fault, Refusal};
use std::alloc::{AllocError, Allocator};
use thiserror::Error;

/// A verdict on a program, and the text that explains it.
#[derive(Drop)]
pub struct Explanation<A: Allocator> {
    pub text: Vec<u8, A>,
    pub verdict: Result<(), ProgramFault>,
}

/// Why there is no explanation.
#[derive(Clone, Copy, Debug, PartialEq, Eq, Error)]
pub enum ExplainFault {
    /// The file of source lines has a fault.
    #[error("{0}")]
    Lines(LinesFault),
    #[error("out of memory")]
    Memory,
}

impl From<LinesFault> for ExplainFault {
    ghost from_gives = { λ fault given. given ≡ Lines fault };

    fn from(fault: LinesFault) -> ExplainFault {
        ExplainFault::Lines(fault)
    }
}

impl From<AllocError> for ExplainFault {
    ghost from_gives = { λ _ fault. fault ≡ Memory };

    fn from(_error: AllocError) -> ExplainFault {
        ExplainFault::Memory
    }
}

impl Fault for ExplainFault {
    ghost use Rattle.bpf_explain.specs.Explanation.{refusal};

    ghost refusal_of = { refusal };

    fn refusal(&self) -> Refusal {
        match self {
            ExplainFault::Lines(fault) => fault.refusal(),
            ExplainFault::Memory => Refusal::memory(),
        }
    }
}

/// Explains the verdict on a program. The text lists its instructions, each with what is known before it: all of them if the program is accepted,
/// otherwise those up to the refused one. Of a program whose bytes or jumps are refused, it shows the words around the fault. `places` is the file of
/// source lines, which come before the instructions that they belong to. Its faults are reported after those of the program's bytes and jumps.
pub fn explain<A: Allocator + Copy>(
    alloc: A,
    program: &[u8],
    places: &[u8],
) -> Result<Explanation<A>, ExplainFault>
    ensures explained { IfOk result (λ explanation. Explains program.now places.now explanation.text.items explanation.verdict) }
    // A safe program is accepted.
    ensures only { (code : List Insn) → IsSafeProgram program.now code → IfOk result (λ explanation. IfErr explanation.verdict (λ fault. ⊥)) }
    ensures err { IfErr result (IsExplainFault places.now) }
{
    match flow_of(alloc, program) {
        Ok(flow) => {
            let lines = SourceLines::of(places)?;
            let explanation = explain_flow(alloc, flow, lines)?;
            Ok(explanation)
        }
        Err(fault) => {
            // The program's fault is what is reported, so a faulty file of source lines counts as none.
            let text = list_fault(alloc, program, fault, SourceLines::or_none(places))?;
            Ok(Explanation {
                text,
                verdict: Err(fault),
            })
        }
    }
}

/// Decodes a program and follows its jumps.
fn flow_of<A: Allocator + Copy>(alloc: A, program: &[u8]) -> Result<Flow<A>, ProgramFault>
    ensures ok { IfOk result (λ flow. IsCodeOf program.now flow.code) }
    ensures forward { IfOk result (λ flow. IsForward flow.code) }
    ensures err { IfErr result (IsEarlyFault program.now) }
{
    let code = decode(alloc, program)?;
    Ok(Flow::of(code)?)
}

/// Returns the words around the one that a program is refused for. If memory ran out before, it is missing here too.
fn list_fault<A: Allocator + Copy>(
    alloc: A,
    program: &[u8],
    fault: ProgramFault,
    lines: SourceLines<'_>,
) -> Result<Vec<u8, A>, AllocError>
    requires { IsEarlyFault program.now fault }
    ensures { IfOk result (λ text. ListsFault program.now (parts_of lines.entry) fault text.items) }
{
    match fault {
        ProgramFault::Code(fault) => list_code_fault(alloc, program, fault, lines),
        ProgramFault::Flow(fault) => list_flow_fault(alloc, program, fault, lines),
        // Bytes and jumps alone were checked, so this is a failed allocation.
        ProgramFault::Verify(_) | ProgramFault::Memory => Err(AllocError),
    }
}

/// Verifies a code as `verify` does, and lists its instructions.
fn explain_flow<A: Allocator + Copy>(
    alloc: A,
    flow: Flow<A>,
    lines: SourceLines<'_>,
) -> Result<Explanation<A>, AllocError>
    ensures { IfOk result (λ explanation. IsExplained flow.code (parts_of lines.entry) explanation.text.items explanation.verdict) }
{
    let lines = lines.read(alloc)?;
    let mut listing = Listing::new(alloc, lines.as_slice());
    match verify_with(alloc, flow, &mut listing) {
        Ok(_) => {
            let text = listing.into_accepted()?;
            let verdict = Ok(());
            Ok(Explanation { text, verdict })
        }
        Err(VerifyFault::Refused { place, cause }) => {
            let text = listing.into_refused(cause)?;
            let verdict = Err(ProgramFault::Verify(VerifyFault::Refused { place, cause }));
            Ok(Explanation { text, verdict })
        }
        Err(VerifyFault::Memory) => Err(AllocError),
    }
}
