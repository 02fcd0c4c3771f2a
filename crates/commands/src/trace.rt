//! `trace`: runs a program on one segment of a county.
ghost use Rattle.commands.specs.Command.{CarriesOut};
ghost use Rattle.commands.specs.Failure.{IsUnchangedOnUsage};
ghost use Rattle.commands.specs.declared.request.Request.{Request};
ghost use Rattle.std.specs.Prelude.{◌≡◌, ◌≤◌, ◌+◌, ◌∷◌, ◌++◌, [], decimal, length, MatchOption};
ghost use Rattle.tl_segments.specs.County.{county_readers};
ghost use Rattle.commands.specs.Trace.{IsTraceResult, HasNoLine, IsSegmentOfLine, outcome_line};

use crate::failure::{Failure, write};
use crate::inputs::{Inputs, open_inputs};
use arrayvec::ArrayString;
use bpf_insn::decode;
use bpf_meaning::{Outcome, trace};
use counted_io::{CountedRead, CountedWrite};
use itoa::Buffer;
use named_files::{Files, close_county};
use refusals::Fault;
use std::alloc::Allocator;
use tl_segments::{County, CountyFiles, Segment};

/// The arguments of `trace`.
#[derive(Clone, Copy)]
pub struct Trace<'a> {
    /// The program's file.
    pub program: &'a str,
    /// The folder of the county files.
    pub data: &'a str,
    /// The segment's line in the type 1 file, counted from 1. It need not exist.
    pub line: u64,
    /// The maximum number of steps.
    pub limit: u64,
    /// The county's code, five digits: the state, then the county within it.
    pub code: &'a str,
}

impl<'a> Trace<'a> {
    /// Opens the program and then the county's files, reads the program and then the county to their ends, and writes the outcome.
    pub fn carry_out<A: Allocator + Copy, F: Files, W: CountedWrite>(
        self,
        alloc: A,
        files: &mut F,
        out: &mut W,
    ) -> Result<(), Failure<'a>>
        ensures carried { CarriesOut F.opens (Request.Trace self.entry) result (F.disk files.old) (F.disk files.new)
            (W.writer out.old) (W.writer out.new) }
        ensures usage { IsUnchangedOnUsage result out.old out.new }
    {
        let inputs = match open_inputs(alloc, files, self.program, self.data, self.code, false) {
            Ok(inputs) => inputs,
            Err(failure) => return Err(failure),
        };
        let Inputs {
            program,
            mut county,
        } = inputs;
        let traced = self.outcome(alloc, program.as_slice(), &mut county);
        close_county(files, self.data, self.code, county);
        match traced {
            Ok(outcome) => write(out, outcome_line(outcome).as_bytes()),
            Err(failure) => Err(failure),
        }
    }

    /// Runs the program on the segment and returns the outcome. The program need not be accepted by the verifier.
    fn outcome<A: Allocator + Copy, R: CountedRead>(
        self,
        alloc: A,
        program: &[u8],
        inputs: &mut CountyFiles<R>,
    ) -> Result<Outcome, Failure<'a>>
        ensures ends { IsTraceResult self.entry program.now (county_readers R.reader inputs.old)
            (county_readers R.reader inputs.new) result }
    {
        // Decoded but not verified, to show what a refused program does.
        let code = match decode(alloc, program) {
            Ok(code) => code,
            Err(fault) => return Err(Failure::Refusal(fault.refusal())),
        };
        // The whole county, whichever the line, so that `trace` refuses the files of types 1, 4, 5 and 6 that `run` refuses.
        let county = match inputs.load(alloc) {
            Ok(county) => county,
            Err(fault) => return Err(Failure::Refusal(fault.refusal())),
        };
        match segment_of_line(&county, self.line) {
            Some(segment) => Ok(trace(&code, segment, self.limit)),
            None => Err(Failure::NoLine { line: self.line }),
        }
    }
}

/// Returns the segment on a line of type 1, counted from 1.
fn segment_of_line<A: Allocator>(county: &County<A>, line: u64) -> Option<&Segment<A>>
    ensures { MatchOption result (HasNoLine county.now line) (λ segment. IsSegmentOfLine county.now line segment.now) }
{
    let place = usize::try_from(line.checked_sub(1)?).ok()?;
    county.segments().get(place)
}

/// Returns the text that is written for an outcome, with its end of line.
fn outcome_line(outcome: Outcome) -> ArrayString<64>
    ensures { result.bytes ≡ outcome_line outcome }
{
    match outcome {
        Outcome::Running => {
            let mut text = ArrayString::new();
            text.push_str("running\n");
            text
        }
        Outcome::Exit { answer, score } => numbers_line("exit ", answer, " score ", score),
        Outcome::Stuck { place, cause } => {
            numbers_line(
                "stuck place ",
                place as u64,
                " cause ",
                u64::from(cause.refusal().number().unwrap_or(0)),
            )
        }
    }
}

/// Returns two numbers, each after its name, and the end of the line.
fn numbers_line(first_name: &str, first: u64, second_name: &str, second: u64) -> ArrayString<64>
    requires { length first_name.now + length second_name.now ≤ 23 }
    ensures { result.bytes ≡ first_name.now ++ decimal first ++ second_name.now ++ decimal second ++ 10 ∷ [] }
{
    let mut text = ArrayString::new();
    text.push_str(first_name);
    text.push_str(Buffer::new().format(first));
    text.push_str(second_name);
    text.push_str(Buffer::new().format(second));
    text.push_str("\n");
    text
}
