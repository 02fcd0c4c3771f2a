//! The program: extracts the street segments that a BPF program selects, finds house numbers, and verifies and converts programs.
#![tactic(auto)]

mod progress;
mod serving;

ghost use Rattle.std.specs.Prelude.{◌≡◌, ◌⊎◌, IfErr, IfOk};
ghost use Rattle.std.specs.Process.{exit_status};
ghost use Rattle.clap.specs.Walk.{texts};
ghost use Rattle.command_line.specs.declared.fault.ArgumentsFault.TheVariants.{Memory, NotUtf8};
ghost use Rattle.extractd.specs.Outcome.{Answers, AnswersToOutput, EndsProcess, EndsSo, ServesIfRequested};

use command_line::{ArgumentsFault, Subcommand, command, read_serve};
use counted_io::{CountedWrite, Counting};
use named_files::SystemFiles;
use progress::{ProgressOutput, terminal_start};
use serving::serve;
use std::io::{BufWriter, Write};
use std::process::ExitCode;
use std::{env, io};

// The size of the pieces in which rows are written to the system.
const OUTPUT_BUFFER: usize = 65536;

// The prover takes no contract of `main`: that of `run` is the program's.
fn main(rt: HostRuntime) -> ExitCode {
    run(&rt)
}

/// Carries out what the arguments after the program's name request, reports any failure on standard error, and returns the exit status.
fn run(rt: &HostRuntime) -> ExitCode
    ensures { EndsProcess (exit_status result) }
{
    let mut errors = Counting::new(rt.stderr());
    match start(rt, &mut errors) {
        Ok(status) => ExitCode::from(status),
        Err(fault) => {
            fault.report(&mut errors);
            ExitCode::from(fault.status())
        }
    }
}

/// Reads the arguments after the program's name, carries out what they request, and returns the exit status.
fn start<E: CountedWrite>(rt: &HostRuntime, errors: &mut E) -> Result<u8, ArgumentsFault<'static>>
    ensures ok { IfOk result (λ status. EndsSo status (E.writer errors.old) (E.writer errors.new)) }
    ensures err { IfErr result (λ fault. ((fault ≡ Memory) ⊎ (fault ≡ NotUtf8)) × (errors.new ≡ errors.old)) }
{
    let given: Vec<String> = env::args(rt)?.skip(1).collect(rt.alloc())?;
    let arguments: Vec<&str> = given
        .iter()
        .map(|argument| argument.as_str())
        .collect(rt.alloc())?;
    let arguments = arguments.as_slice();
    // All but `serve` runs `command`, so its contract and tests are about what a user starts.
    match arguments.first().and_then(|name| Subcommand::named(name)) {
        Some(Subcommand::Serve) => Ok(start_server(rt, arguments, errors)),
        subcommand => run_command(rt, subcommand, arguments, errors),
    }
}

/// Reads the arguments of `serve`, serves until a fault occurs, and returns the exit status.
fn start_server<E: CountedWrite>(rt: &HostRuntime, arguments: &[&str], errors: &mut E) -> u8
    ensures { ServesIfRequested (texts arguments.now) result (E.writer errors.old) (E.writer errors.new) }
{
    match read_serve(rt.alloc(), arguments) {
        Ok(options) => serve(rt, &options, errors),
        Err(fault) => {
            fault.report(errors);
            fault.status()
        }
    }
}

/// Opens the output, carries out a command over the system's files, and returns the exit status. On a terminal, `geocode-batch` shows how far it is.
fn run_command<E: CountedWrite>(
    rt: &HostRuntime,
    subcommand: Option<Subcommand>,
    arguments: &[&str],
    errors: &mut E,
) -> Result<u8, ArgumentsFault<'static>>
    ensures ok { IfOk result (λ status. AnswersToOutput (texts arguments.now) status (E.writer errors.old) (E.writer errors.new)) }
    ensures err { IfErr result (λ fault. (fault ≡ Memory) × (errors.new ≡ errors.old)) }
{
    // Before the arguments are read, which `command` does.
    let out = BufWriter::with_capacity(rt.alloc(), OUTPUT_BUFFER, io::writer(rt)).map_err(
        |_error| ArgumentsFault::Memory,
    )?;
    let start = match subcommand {
        Some(Subcommand::GeocodeBatch) => terminal_start(rt),
        _ => None,
    };
    Ok(match start {
        Some(start) => {
            let out = ProgressOutput::new(rt, start, out);
            command_to(rt, arguments, &mut Counting::new(out), errors)
        }
        None => command_to(rt, arguments, &mut Counting::new(out), errors),
    })
}

/// Carries out a command over the system's files, and returns the exit status.
fn command_to<W: CountedWrite, E: CountedWrite>(
    rt: &HostRuntime,
    arguments: &[&str],
    out: &mut W,
    errors: &mut E,
) -> u8
    ensures answers { Answers (texts arguments.now) result (W.writer out.old) (W.writer out.new) (E.writer errors.old) (E.writer errors.new) }
    ensures untouched { result ≡ 2 → out.new ≡ out.old }
{
    command(
        rt.alloc(),
        arguments,
        &mut SystemFiles::new(rt),
        out,
        errors,
    )
}
