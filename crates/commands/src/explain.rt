//! `explain`: lists a program with what the verifier knows before each instruction.
ghost use Rattle.std.specs.Prelude.{◌≢◌, IfOk, IfErr};
ghost use Rattle.commands.specs.Command.{CarriesOut};
ghost use Rattle.commands.specs.Explain.{HoldsLines, IsLinesFailure, WritesExplanation};
ghost use Rattle.commands.specs.Failure.{IsUnfailedUnlessUnusable, status};
ghost use Rattle.commands.specs.declared.request.Request.{Request};

use crate::assemble::SOURCE_END;
use crate::failure::{Failure, write};
use bpf_explain::{Explanation, explain};
use counted_io::CountedWrite;
use listing_lines::lines_too_long;
use named_files::{Files, read_program_file, read_short_file};
use refusals::Fault;
use std::alloc::Allocator;

/// The arguments of `explain`.
#[derive(Clone, Copy)]
pub struct Explain<'a> {
    /// The program's file.
    pub program: &'a str,
    /// The file of source lines, each of the form `place TAB text`, if one is given.
    pub lines: Option<&'a str>,
}

impl<'a> Explain<'a> {
    /// Reads the program and the source lines to their ends and writes the listing, up to the refused instruction if there is one. Of a program whose
    /// bytes or jumps are refused, it writes the words around the refused one.
    pub fn carry_out<A: Allocator + Copy, F: Files, W: CountedWrite>(
        self,
        alloc: A,
        files: &mut F,
        out: &mut W,
    ) -> Result<(), Failure<'a>>
        ensures carried { CarriesOut F.opens (Request.Explain self.entry) result (F.disk files.old) (F.disk files.new)
            (W.writer out.old) (W.writer out.new) }
        ensures usage { IfErr result (λ failure. status failure ≢ 2) }
    {
        let program = match read_program_file(alloc, files, self.program) {
            Ok(program) => program,
            Err(fault) => return Err(Failure::of_program(self.program, fault)),
        };
        let places = match read_lines_file(alloc, files, self.lines) {
            Ok(places) => places,
            Err(failure) => return Err(failure),
        };
        match explain(alloc, program.as_slice(), places.as_slice()) {
            Ok(explanation) => write_explanation(explanation, out),
            Err(fault) => Err(Failure::Refusal(fault.refusal())),
        }
    }
}

/// Reads the file of source lines to its end, up to the limit of its length. Returns no bytes if none is given.
fn read_lines_file<'a, A: Allocator, F: Files>(
    alloc: A,
    files: &mut F,
    name: Option<&'a str>,
) -> Result<Vec<u8, A>, Failure<'a>>
    ensures hold { IfOk result (λ file. HoldsLines (F.disk files.old).known name.entry file.items) }
    ensures err { IfErr result (IsLinesFailure F.opens name.entry (F.disk files.old) (F.disk files.new)) }
    ensures counts { IsUnfailedUnlessUnusable result (F.disk files.old) (F.disk files.new) }
{
    let Some(name) = name else {
        return Ok(Vec::new(alloc));
    };
    match read_short_file(alloc, files, name, SOURCE_END) {
        Ok(Some(file)) => Ok(file),
        Ok(None) => Err(Failure::Refusal(lines_too_long())),
        Err(fault) => Err(Failure::of_file(name, fault)),
    }
}

/// Writes the text. Fails with the verdict's refusal if the program is refused.
fn write_explanation<'a, A: Allocator, W: CountedWrite>(
    explanation: Explanation<A>,
    out: &mut W,
) -> Result<(), Failure<'a>>
    ensures { WritesExplanation explanation.text.items explanation.verdict result (W.writer out.old) (W.writer out.new) }
{
    // The listing comes before the refusal, so a failed write gives status 3.
    match write(out, explanation.text.as_slice()) {
        Ok(()) => {}
        Err(failure) => return Err(failure),
    }
    match explanation.verdict {
        Ok(()) => Ok(()),
        Err(fault) => Err(Failure::Refusal(fault.refusal())),
    }
}
