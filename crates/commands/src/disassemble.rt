//! `dis`: disassembles instruction words to a program text.
ghost use Rattle.std.specs.Prelude.{◌≢◌, IfErr};
ghost use Rattle.commands.specs.Command.{CarriesOut};
ghost use Rattle.commands.specs.Failure.{status};
ghost use Rattle.commands.specs.declared.request.Request.{Request};

use crate::failure::{Failure, write};
use bpf_text::disassemble_program;
use counted_io::CountedWrite;
use named_files::{Files, read_program_file};
use refusals::Fault;
use std::alloc::Allocator;

/// The arguments of `dis`.
#[derive(Clone, Copy)]
pub struct Disassemble<'a> {
    /// The program's file.
    pub program: &'a str,
}

impl<'a> Disassemble<'a> {
    /// Reads the program to its end and writes its text.
    pub fn carry_out<A: Allocator + Copy, F: Files, W: CountedWrite>(
        self,
        alloc: A,
        files: &mut F,
        out: &mut W,
    ) -> Result<(), Failure<'a>>
        ensures carried { CarriesOut F.opens (Request.Disassemble self.entry) result (F.disk files.old) (F.disk files.new)
            (W.writer out.old) (W.writer out.new) }
        ensures usage { IfErr result (λ failure. status failure ≢ 2) }
    {
        let program = match read_program_file(alloc, files, self.program) {
            Ok(program) => program,
            Err(fault) => return Err(Failure::of_program(self.program, fault)),
        };
        match disassemble_program(alloc, program.as_slice()) {
            Ok(text) => write(out, text.as_bytes()),
            Err(fault) => Err(Failure::Refusal(fault.refusal())),
        }
    }
}
