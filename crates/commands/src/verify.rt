//! `verify`: checks whether a program is accepted.
ghost use Rattle.commands.specs.Command.{CarriesOut};
ghost use Rattle.commands.specs.Failure.{status};
ghost use Rattle.commands.specs.declared.request.Request.{Request};
ghost use Rattle.bpf_insn.specs.declared.instruction.Insn.{Insn};
ghost use Rattle.bpf_program.specs.Program.{IsSafeProgram, IsProgramFault};
ghost use Rattle.std.specs.Prelude.{◌≢◌, List, OnOk, IfErr};

use crate::failure::{Failure, write};
use bpf_insn::decode;
use bpf_program::{ProgramFault, check_code};
use counted_io::CountedWrite;
use named_files::{Files, read_program_file};
use refusals::Fault;
use std::alloc::Allocator;

/// The arguments of `verify`.
#[derive(Clone, Copy)]
pub struct Verify<'a> {
    /// The program's file.
    pub program: &'a str,
}

impl<'a> Verify<'a> {
    /// Reads the program to its end, and writes that it is accepted if it is.
    pub fn carry_out<A: Allocator + Copy, F: Files, W: CountedWrite>(
        self,
        alloc: A,
        files: &mut F,
        out: &mut W,
    ) -> Result<(), Failure<'a>>
        ensures carried { CarriesOut F.opens (Request.Verify self.entry) result (F.disk files.old) (F.disk files.new)
            (W.writer out.old) (W.writer out.new) }
        ensures usage { IfErr result (λ failure. status failure ≢ 2) }
    {
        let program = match read_program_file(alloc, files, self.program) {
            Ok(program) => program,
            Err(fault) => return Err(Failure::of_program(self.program, fault)),
        };
        match check_owned(alloc, program) {
            Ok(()) => write(out, b"accepted\n"),
            Err(fault) => Err(Failure::Refusal(fault.refusal())),
        }
    }
}

/// Returns the verdict on a program. Frees its bytes before the verifier allocates.
fn check_owned<A: Allocator + Copy>(alloc: A, program: Vec<u8, A>) -> Result<(), ProgramFault>
    ensures ok { OnOk result ((code : List Insn) × IsSafeProgram program.items code) }
    ensures err { IfErr result (IsProgramFault program.items) }
{
    let code = decode(alloc, program.as_slice())?;
    // The bytes and the verifier's states aren't in memory at once.
    drop(program);
    check_code(alloc, code)
}
