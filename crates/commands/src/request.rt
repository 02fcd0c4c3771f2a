//! A request, its execution, and its exit status.
//!
//! Flushes are counted, so a status of 0 means that one succeeded after everything was written.
ghost use Rattle.std.specs.Prelude.{◌≡◌, ◌≢◌, ◌≤◌, ◌⊎◌};
ghost use Rattle.commands.specs.Command.{CarriesOut, Ends, FailsFlush, IsDone, IsFlushed, ReportsMissingLine, IsOutOfMemory, IsRefusal, IsUnusable};
ghost use Rattle.commands.specs.Failure.{IsUnchangedOnUsage, status};
ghost use Rattle.named_files.specs.Files.{KeepsCounts};

use crate::assemble::Assemble;
use crate::compile::Compile;
use crate::disassemble::Disassemble;
use crate::explain::Explain;
use crate::failure::{DONE, Failure, USAGE};
use crate::flushing::FlushedWrite;
use crate::geocode_batch::GeocodeBatch;
use crate::geocoder::Geocode;
use crate::run::Run;
use crate::select::Select;
use crate::trace::Trace;
use crate::verify::Verify;
use counted_io::CountedWrite;
use named_files::Files;
use std::alloc::Allocator;

/// A command and its arguments.
#[derive(Drop)]
pub enum Request<'a> {
    Run(Run<'a>),
    Trace(Trace<'a>),
    Geocode(Geocode<'a>),
    GeocodeBatch(GeocodeBatch<'a>),
    Verify(Verify<'a>),
    Explain(Explain<'a>),
    Assemble(Assemble<'a>),
    Disassemble(Disassemble<'a>),
    Compile(Compile<'a>),
    Select(Select<'a>),
}

impl<'a> Request<'a> {
    /// Carries out the request, reports any failure on `errors`, and returns the exit status.
    ///
    /// 0 means success, even if no row was selected; 1 refused; 2 a line that the file doesn't have; 3 a file or an output that can't be used, or
    /// a source that isn't UTF-8; 4 out of memory. Except for 2, `out` is flushed before anything is reported. If the flush of a command that failed
    /// otherwise fails too, both are reported and the status is 3. A failed write to `errors` changes nothing.
    pub fn answer<A: Allocator + Copy, F: Files, W: FlushedWrite, E: CountedWrite>(
        self,
        alloc: A,
        files: &mut F,
        out: &mut W,
        errors: &mut E,
    ) -> u8
        ensures at_most { result ≤ 4 }
        ensures done { result ≡ 0 → IsDone self.entry (F.disk files.old).known (W.writer out.old) (W.writer out.new) }
        ensures refused { result ≡ 1 → IsRefusal self.entry (F.disk files.old).known (W.writer out.old) (W.writer out.new)
            (E.writer errors.old) (E.writer errors.new) }
        ensures usage { result ≡ 2 → ReportsMissingLine self.entry (F.disk files.old).known (E.writer errors.old) (E.writer errors.new) }
        ensures untouched { result ≡ 2 → out.new ≡ out.old }
        ensures unusable { result ≡ 3 → IsUnusable F.opens self.entry (F.disk files.old) (F.disk files.new) (W.writer out.old) (W.writer out.new)
            (E.writer errors.old) (E.writer errors.new) }
        ensures memory { result ≡ 4 → IsOutOfMemory self.entry (F.disk files.old).known (W.writer out.old) (W.writer out.new)
            (E.writer errors.old) (E.writer errors.new) }
        ensures flushed { result ≢ 2 → (W.writer out.new).counts.flushes ≢ (W.writer out.old).counts.flushes }
        // Nothing was written after the flush.
        ensures flushed_last { result ≢ 2 → result ≢ 3 → W.is_flushed out.new }
        // No failed open or read is ignored.
        ensures opens { result ≢ 3 → (F.disk files.new).failed_opens ≡ (F.disk files.old).failed_opens }
        ensures reads { result ≢ 3 → KeepsCounts (F.disk files.old).failed_reads (F.disk files.new).failed_reads }
    {
        match self.carry_out(alloc, files, out) {
            Ok(()) => flush(out, errors),
            // A usage error leaves the output alone.
            Err(failure) if failure.status() == USAGE => {
                failure.report(errors);
                USAGE
            }
            Err(failure) => end_failed(&failure, out, errors),
        }
    }

    /// Reads the requested files and writes the result.
    fn carry_out<A: Allocator + Copy, F: Files, W: CountedWrite>(
        self,
        alloc: A,
        files: &mut F,
        out: &mut W,
    ) -> Result<(), Failure<'a>>
        ensures carried { CarriesOut F.opens self.entry result (F.disk files.old) (F.disk files.new) (W.writer out.old) (W.writer out.new) }
        ensures usage { IsUnchangedOnUsage result out.old out.new }
    {
        match self {
            Request::Run(run) => run.carry_out(alloc, files, out),
            Request::Trace(trace) => trace.carry_out(alloc, files, out),
            Request::Geocode(geocode) => geocode.carry_out(alloc, files, out),
            Request::GeocodeBatch(batch) => batch.carry_out(alloc, files, out),
            Request::Verify(verify) => verify.carry_out(alloc, files, out),
            Request::Explain(explain) => explain.carry_out(alloc, files, out),
            Request::Assemble(assemble) => assemble.carry_out(alloc, files, out),
            Request::Disassemble(disassemble) => disassemble.carry_out(alloc, files, out),
            Request::Compile(compile) => compile.carry_out(alloc, files, out),
            Request::Select(select) => select.carry_out(alloc, files, out),
        }
    }
}

/// Flushes the output of a completed command and returns its exit status.
fn flush<W: FlushedWrite, E: CountedWrite>(out: &mut W, errors: &mut E) -> u8
    ensures status { (result ≡ 0) ⊎ (result ≡ 3) }
    ensures done { result ≡ 0 → IsFlushed (W.writer out.old) (W.writer out.new) }
    ensures failed { result ≡ 3 → FailsFlush (W.writer out.old) (W.writer out.new) (E.writer errors.old) (E.writer errors.new) }
    ensures flushed { (W.writer out.new).counts.flushes ≢ (W.writer out.old).counts.flushes }
    ensures flushed_last { result ≡ 0 → W.is_flushed out.new }
{
    match out.flush_last() {
        Ok(()) => DONE,
        Err(error) => {
            let failure = Failure::Output(error);
            failure.report(errors);
            failure.status()
        }
    }
}

/// Flushes the output of a command that failed, other than by a usage error, and then reports the failure. Reports a failed flush after it, unless a
/// write has failed, which is reported already. Returns the exit status.
fn end_failed<W: FlushedWrite, E: CountedWrite>(
    failure: &Failure<'_>,
    out: &mut W,
    errors: &mut E,
) -> u8
    requires { status failure.now ≢ 2 }
    ensures ends { Ends failure.now result (W.writer out.old) (W.writer out.new) (E.writer errors.old) (E.writer errors.new) }
    ensures flushed { (W.writer out.new).counts.flushes ≢ (W.writer out.old).counts.flushes }
    ensures flushed_last { result ≢ 3 → W.is_flushed out.new }
{
    let flushed = out.flush_last();
    failure.report(errors);
    match flushed {
        Ok(()) => failure.status(),
        Err(error) => match failure {
            Failure::Write(_) => failure.status(),
            _ => {
                let failure = Failure::Output(error);
                failure.report(errors);
                failure.status()
            }
        },
    }
}
