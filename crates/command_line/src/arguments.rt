//! The arguments of a command line, and what they request.
//!
//! What a command takes, its help and the request that it makes are in one module below. Arguments are data (`Declaration`), from which this module
//! builds clap's commands, so a new command is a row of `Subcommand` and a module.

// The end of a help text, after its examples.
macro_rules! help_end {
    ($examples:literal) => {
        concat!(
            $examples,
            "\n\nExit status:\n",
            "  0  success, even if no row was selected\n",
            "  1  refused\n",
            "  2  usage\n",
            "  3  a file or output that can't be used\n",
            "  4  out of memory\n\n",
            "extractd 1.1.0",
        )
    };
}

mod assemble;
mod compile;
mod disassemble;
mod explain;
mod geocode_batch;
mod geocoder;
mod run;
mod select;
mod serve;
mod subcommand;
mod trace;
mod verify;

ghost use Rattle.std.specs.Prelude.{◌≡◌, ◌≢◌, IfErr, IfOk, MatchResult, [], map};
ghost use Rattle.clap.specs.Faults.{fault_of};
ghost use Rattle.clap.specs.Simple.{app_of};
ghost use Rattle.clap.specs.Values.{kind_of};
ghost use Rattle.clap.specs.Walk.{texts};
ghost use Rattle.clap.specs.declared.error.kind.ErrorKind.TheVariants as usage_kind;
ghost use Rattle.command_line.specs.Arguments.{Takes, arguments_of as rules_of, name_of, program, rule};
ghost use Rattle.command_line.specs.Request.{AreMatchesOf, IsNamedRequest, IsRequest, IsRequestOf, IsServeOf};
ghost use Rattle.command_line.specs.Values.{ReadsUnlessMemory, rows_in};
ghost use Rattle.command_line.specs.declared.fault.ArgumentsFault.TheVariants as ArgumentsFault;

use crate::argument::Declaration;
use crate::fault::ArgumentsFault;
use crate::serve::Serve;
use clap::error::ErrorKind;
use clap::{ArgMatches, Command, Error};
use commands::Request;
use counted_io::Counting;
use reports::DiagnosticLine;
use std::alloc::{AllocError, Global};
pub use subcommand::Subcommand;

/// Reads the arguments, after the program's name, of a command over files. Public for tests of arguments.
pub fn read_request<'a>(
    alloc: Global,
    arguments: &'a [&'a str],
) -> Result<Request<'a>, ArgumentsFault<'a>>
    ensures { ReadsUnlessMemory (IsRequestOf (texts arguments.now)) result }
{
    let matches = parse(alloc, arguments)?;
    match matches.subcommand() {
        Some((name, matches)) => named_request(alloc, name, matches),
        None => Err(ArgumentsFault::Missing("COMMAND")),
    }
}

/// Reads the arguments, after the program's name, of `serve`.
pub fn read_serve<'a>(
    alloc: Global,
    arguments: &'a [&'a str],
) -> Result<Serve<'a>, ArgumentsFault<'a>>
    ensures { ReadsUnlessMemory (IsServeOf (texts arguments.now)) result }
{
    let matches = parse(alloc, arguments)?;
    match matches.subcommand_matches(Subcommand::Serve.name()) {
        Some(matches) => serve::request(alloc, matches),
        None => Err(ArgumentsFault::Missing("COMMAND")),
    }
}

/// Matches arguments with those that the commands take.
fn parse<'a>(alloc: Global, arguments: &'a [&'a str]) -> Result<ArgMatches<'a>, ArgumentsFault<'a>>
    ensures { MatchResult result (AreMatchesOf (texts arguments.now))
        (λ fault. fault ≢ ArgumentsFault.Memory → fault_of program (texts arguments.now) ≢ []) }
{
    match program_command(alloc)?.try_get_matches_from(arguments) {
        Ok(matches) => Ok(matches),
        Err(error) => Err(ArgumentsFault::from(with_escapes(alloc, arguments, error)?)),
    }
}

/// Returns the error of arguments that are refused by `error`, with the control characters in its text escaped.
///
/// clap puts arguments into its text as they are, so the escaped arguments are parsed once more.
fn with_escapes<'a>(
    alloc: Global,
    arguments: &[&str],
    error: Error,
) -> Result<Error, ArgumentsFault<'a>>
    ensures same { kind_of error ≡ usage_kind.OutOfMemory → IfOk result (λ echoed. kind_of echoed ≡ usage_kind.OutOfMemory) }
    ensures memory { IfErr result (λ fault. fault ≡ ArgumentsFault.Memory) }
{
    if let ErrorKind::OutOfMemory = error.kind() {
        return Ok(error);
    }
    let mut words = Vec::new(alloc);
    for argument in arguments {
        words.push(escape(alloc, argument)?)?;
    }
    match program_command(alloc)?.try_get_matches_from(words.as_slice()) {
        Ok(_matches) => Ok(error),
        Err(error) => Ok(error),
    }
}

/// Returns an argument with its control characters escaped.
fn escape<'a>(alloc: Global, argument: &str) -> Result<String, ArgumentsFault<'a>>
    ensures { IfErr result (λ fault. fault ≡ ArgumentsFault.Memory) }
{
    let mut bytes = Counting::new(Vec::new(alloc));
    if DiagnosticLine::new(&mut bytes).echo(argument).is_err() {
        return Err(ArgumentsFault::Memory);
    }
    Ok(String::from_utf8_lossy(alloc, bytes.get_ref().as_slice())?)
}

/// Returns the request of the command with this name.
fn named_request<'a>(
    alloc: Global,
    name: &str,
    matches: &ArgMatches<'a>,
) -> Result<Request<'a>, ArgumentsFault<'a>>
    ensures { ReadsUnlessMemory (IsNamedRequest name.now (rows_in matches.now)) result }
{
    match Subcommand::named(name) {
        Some(subcommand) => request(alloc, subcommand, matches),
        None => Err(ArgumentsFault::Missing("COMMAND")),
    }
}

/// Returns the request that the arguments of a command make.
fn request<'a>(
    alloc: Global,
    subcommand: Subcommand,
    matches: &ArgMatches<'a>,
) -> Result<Request<'a>, ArgumentsFault<'a>>
    ensures { ReadsUnlessMemory (IsRequest subcommand (rows_in matches.now)) result }
{
    match subcommand {
        Subcommand::Select => Ok(Request::Select(select::request(alloc, matches)?)),
        Subcommand::Compile => Ok(Request::Compile(compile::request(alloc, matches)?)),
        Subcommand::Run => Ok(Request::Run(run::request(alloc, matches)?)),
        Subcommand::Trace => Ok(Request::Trace(trace::request(matches)?)),
        Subcommand::Geocode => Ok(Request::Geocode(geocoder::request(alloc, matches)?)),
        Subcommand::GeocodeBatch => Ok(Request::GeocodeBatch(geocode_batch::request(
            alloc, matches,
        )?)),
        Subcommand::Verify => Ok(Request::Verify(verify::request(matches)?)),
        Subcommand::Explain => Ok(Request::Explain(explain::request(matches)?)),
        Subcommand::Assemble => Ok(Request::Assemble(assemble::request(matches)?)),
        Subcommand::Disassemble => Ok(Request::Disassemble(disassemble::request(matches)?)),
        Subcommand::Serve => {
            // A fault in its arguments comes first.
            let _serve = serve::request(alloc, matches)?;
            Err(ArgumentsFault::Serve)
        }
    }
}

/// Returns the program and its commands for the argument parser.
fn program_command<'a>(alloc: Global) -> Result<Command<'a>, AllocError>
    ensures { IfOk result (λ command. app_of command ≡ program) }
{
    let mut program = Command::new(alloc, "extractd")
        .bin_name("extractd")?
        .about(
            "Selects TIGER/Line street segments by a filter or a BPF program, finds house numbers, verifies and converts programs, and does so over HTTP",
        )
        .version("1.1.0")
        .after_help(help_end!(
            "Examples:
  extractd select --where \"CFCC LIKE 'A4%' AND ZIPL = 36067\" --data tiger 01001 > rows.tsv
  extractd compile --filter street.cql2 > street.bpf
  extractd run --program street.bpf --data tiger 01001 > rows.tsv
  extractd trace --program street.bpf --data tiger --line 12 --limit 4096 01001
  extractd geocode --data tiger --number 151 --name main --zip 36067 01001
  extractd geocode-batch --addresses addresses.csv --data tiger 01001 > places.csv
  extractd verify --program street.bpf
  extractd explain --program street.bpf
  extractd asm --source street.s > street.bpf
  extractd dis --program street.bpf
  extractd serve --data tiger --port 8080 01001"
        ))
        .no_binary_name(true)
        .disable_help_subcommand(true)
        .subcommand_required(true);
    for subcommand in Subcommand::ALL {
        program = program.subcommand(command_of(alloc, subcommand)?)?;
    }
    Ok(program)
}

/// Returns a command for the argument parser.
fn command_of<'a>(alloc: Global, subcommand: Subcommand) -> Result<Command<'a>, AllocError>
    ensures { IfOk result (Takes (name_of subcommand) (rules_of subcommand)) }
{
    let declaration = declaration_of(subcommand);
    let name: &'a str = subcommand.name();
    let about: &'a str = declaration.about;
    let after_help: &'a str = declaration.after_help;
    let mut command = Command::new(alloc, name)
        .about(about)
        .after_help(after_help);
    for argument in declaration.arguments {
        command = command.arg(argument.arg(alloc))?;
    }
    Ok(command)
}

/// Returns what a command is for the argument parser.
fn declaration_of(subcommand: Subcommand) -> Declaration
    ensures { map rule result.arguments.now ≡ rules_of subcommand }
{
    match subcommand {
        Subcommand::Select => select::declaration(),
        Subcommand::Compile => compile::declaration(),
        Subcommand::Run => run::declaration(),
        Subcommand::Trace => trace::declaration(),
        Subcommand::Geocode => geocoder::declaration(),
        Subcommand::GeocodeBatch => geocode_batch::declaration(),
        Subcommand::Verify => verify::declaration(),
        Subcommand::Explain => explain::declaration(),
        Subcommand::Assemble => assemble::declaration(),
        Subcommand::Disassemble => disassemble::declaration(),
        Subcommand::Serve => serve::declaration(),
    }
}
