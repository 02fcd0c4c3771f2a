//! Accepted programs: their bytes encode code that is safe to run.
//!
//! First the bytes, then the jumps, then what instructions do: each check relies on those before it, and reports the first fault of its own.
ghost use Rattle.std.specs.Prelude.{◌≡◌, List, IfOk, IfErr, OnOk};
ghost use Rattle.bpf_insn.specs.declared.instruction.Insn.{Insn};
ghost use Rattle.bpf_program.specs.Program.{IsSafeProgram, IsProgramFault, IsSafeCode, IsFaultOfCode};
ghost use Rattle.bpf_program.specs.ProgramFault.{of_code, of_flow, of_verify};

use bpf_flow::{Flow, FlowFault};
use bpf_insn::{Code, CodeFault, decode};
use bpf_verify::{Verified, VerifyFault, check, verify};
use refusals::{Fault, Refusal};
use std::alloc::Allocator;
use thiserror::Error;

/// Why a program isn't accepted.
#[derive(Clone, Copy, Debug, PartialEq, Eq, Error)]
pub enum ProgramFault {
    /// The bytes don't encode code.
    #[error("{0}")]
    Code(CodeFault),
    /// A jump doesn't lead forward to an instruction, or the last instruction isn't an exit.
    #[error("{0}")]
    Flow(FlowFault),
    /// The code may get stuck on some segment, as far as the checks can tell.
    #[error("{0}")]
    Verify(VerifyFault),
    #[error("out of memory")]
    Memory,
}

impl From<CodeFault> for ProgramFault {
    ghost from_gives = { λ fault given. given ≡ of_code fault };

    fn from(fault: CodeFault) -> ProgramFault {
        match fault {
            // Running out of memory is one variant, whichever step it happens in.
            CodeFault::Memory => ProgramFault::Memory,
            fault => ProgramFault::Code(fault),
        }
    }
}

impl From<FlowFault> for ProgramFault {
    ghost from_gives = { λ fault given. given ≡ of_flow fault };

    fn from(fault: FlowFault) -> ProgramFault {
        ProgramFault::Flow(fault)
    }
}

impl From<VerifyFault> for ProgramFault {
    ghost from_gives = { λ fault given. given ≡ of_verify fault };

    fn from(fault: VerifyFault) -> ProgramFault {
        match fault {
            VerifyFault::Memory => ProgramFault::Memory,
            fault => ProgramFault::Verify(fault),
        }
    }
}

impl Fault for ProgramFault {
    ghost use Rattle.bpf_program.specs.ProgramFault.{refusal};

    ghost refusal_of = { refusal };

    fn refusal(&self) -> Refusal {
        match self {
            ProgramFault::Code(fault) => fault.refusal(),
            ProgramFault::Flow(fault) => fault.refusal(),
            ProgramFault::Verify(fault) => fault.refusal(),
            ProgramFault::Memory => Refusal::memory(),
        }
    }
}

/// Accepts a program for `bpf_machine::run`, or refuses it. Its bytes are checked first, and then its code, as in `accept_code`. The result keeps the
/// allocator, but nothing of `program`.
#[tactic(auto, using(crate::proofs::VerdictLemmas::refused_by_code, crate::proofs::VerdictLemmas::refused_for_memory))]
pub fn accept<A: Allocator + Copy>(alloc: A, program: &[u8]) -> Result<Verified<A>, ProgramFault>
    ensures ok { IfOk result (λ verified. IsSafeProgram program.now verified.code) }
    ensures err { IfErr result (IsProgramFault program.now) }
    // A program with safe code is refused only if memory runs out.
    ensures only { (code : List Insn) → IsSafeProgram program.now code → IfErr result (λ fault. fault ≡ ProgramFault.Memory) }
{
    let code = decode(alloc, program)?;
    accept_code(alloc, code)
}

/// Returns the verdict of [`accept_code`] without keeping anything of the code, for a caller that doesn't run it.
pub fn check_code<A: Allocator + Copy>(alloc: A, code: Code<A>) -> Result<(), ProgramFault>
    ensures ok { OnOk result (IsSafeCode code) }
    ensures err { IfErr result (IsFaultOfCode code) }
    ensures only { IsSafeCode code → IfErr result (λ fault. fault ≡ ProgramFault.Memory) }
{
    let flow = Flow::of(code)?;
    check(alloc, &flow)?;
    Ok(())
}

/// Returns the verdict of [`accept`] without keeping anything of the program, for a caller that doesn't run it.
#[tactic(auto, using(crate::proofs::VerdictLemmas::refused_by_code, crate::proofs::VerdictLemmas::refused_for_memory))]
pub fn check_program<A: Allocator + Copy>(alloc: A, program: &[u8]) -> Result<(), ProgramFault>
    ensures ok { OnOk result ((code : List Insn) × IsSafeProgram program.now code) }
    ensures err { IfErr result (IsProgramFault program.now) }
    ensures only { (code : List Insn) → IsSafeProgram program.now code → IfErr result (λ fault. fault ≡ ProgramFault.Memory) }
{
    let code = decode(alloc, program)?;
    check_code(alloc, code)
}

/// Accepts code or refuses it. Its jumps and its end are checked first, and then what its instructions do. A caller can decode a program and free its
/// bytes before this call, so that they aren't held during verification.
pub fn accept_code<A: Allocator + Copy>(
    alloc: A,
    code: Code<A>,
) -> Result<Verified<A>, ProgramFault>
    ensures ok { IfOk result (λ verified. (verified.code ≡ code) × IsSafeCode code) }
    ensures err { IfErr result (IsFaultOfCode code) }
    // Safe code is refused only if memory runs out.
    ensures only { IsSafeCode code → IfErr result (λ fault. fault ≡ ProgramFault.Memory) }
{
    let flow = Flow::of(code)?;
    let verified = verify(alloc, flow)?;
    Ok(verified)
}
