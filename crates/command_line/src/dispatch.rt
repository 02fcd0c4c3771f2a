//! A command, from its arguments to its exit status.
//!
//! It isn't named `command`, because a module can't share a name with an item beside it.
ghost use Rattle.std.specs.Prelude.{◌≡◌, ◌≢◌, ◌≤◌, ◌⊎◌};
ghost use Rattle.clap.specs.Walk.{texts};
ghost use Rattle.commands.specs.Command.{IsDone, IsOutOfMemory, IsRefusal, IsUnusable, ReportsMissingLine};
ghost use Rattle.commands.specs.Failure.{ReportsMemory};
ghost use Rattle.named_files.specs.Files.{KeepsCounts};
ghost use Rattle.commands.specs.declared.request.Request.{Request};
ghost use Rattle.command_line.specs.Request.{HasNoRequest, IsRequestOf};

use crate::arguments::read_request;
use commands::FlushedWrite;
use counted_io::CountedWrite;
use named_files::Files;
use std::alloc::Global;

/// Carries out what the arguments after the program's name request, and returns the exit status.
///
/// 0 means success, even if no row was selected; 1 refused; 2 usage, including a call for help and a line that the file doesn't have; 3 a file or
/// an output that can't be used, or a source that isn't UTF-8; 4 out of memory. Except for 2, and for arguments that ran out of memory, a flush
/// of `out` has been attempted. Diagnostics go to `errors`; a failed write to it changes nothing.
pub fn command<F: Files, W: FlushedWrite, E: CountedWrite>(
    alloc: Global,
    arguments: &[&str],
    files: &mut F,
    out: &mut W,
    errors: &mut E,
) -> u8
    ensures at_most { result ≤ 4 }
    ensures done { result ≡ 0 → (request : Request) × IsRequestOf (texts arguments.now) request × IsDone request (F.disk files.old).known
        (W.writer out.old) (W.writer out.new) }
    ensures refused { result ≡ 1 → (request : Request) × IsRequestOf (texts arguments.now) request × IsRefusal request (F.disk files.old).known
        (W.writer out.old) (W.writer out.new)
        (E.writer errors.old) (E.writer errors.new) }
    ensures usage { result ≡ 2 → HasNoRequest (texts arguments.now)
        ⊎ ((request : Request) × IsRequestOf (texts arguments.now) request × ReportsMissingLine request (F.disk files.old).known
        (E.writer errors.old) (E.writer errors.new)) }
    ensures untouched { result ≡ 2 → out.new ≡ out.old }
    ensures unusable { result ≡ 3 → (request : Request) × IsRequestOf (texts arguments.now) request × IsUnusable F.opens request
        (F.disk files.old) (F.disk files.new)
        (W.writer out.old) (W.writer out.new)
        (E.writer errors.old) (E.writer errors.new) }
    // Nothing is written if reading the arguments runs out of memory.
    ensures memory { result ≡ 4
        → ((out.new ≡ out.old) × ReportsMemory (E.writer errors.old) (E.writer errors.new))
        ⊎ ((request : Request) × IsRequestOf (texts arguments.now) request × IsOutOfMemory request (F.disk files.old).known
        (W.writer out.old) (W.writer out.new)
        (E.writer errors.old) (E.writer errors.new)) }
    // Nothing was written after the flush.
    ensures flushed_last { (result ≡ 0) ⊎ (result ≡ 1) → W.is_flushed out.new }
    // No failed open or read is ignored.
    ensures opens { result ≢ 3 → (F.disk files.new).failed_opens ≡ (F.disk files.old).failed_opens }
    ensures reads { result ≢ 3 → KeepsCounts (F.disk files.old).failed_reads (F.disk files.new).failed_reads }
{
    match read_request(alloc, arguments) {
        Ok(request) => request.answer(alloc, files, out, errors),
        Err(fault) => {
            fault.report(errors);
            fault.status()
        }
    }
}
