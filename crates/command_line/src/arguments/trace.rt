//! The arguments of `trace`.
ghost use Rattle.std.specs.Prelude.{◌≡◌, map};
ghost use Rattle.command_line.specs.Arguments.{arguments_of, rule};
ghost use Rattle.command_line.specs.Request.{IsTrace};
ghost use Rattle.command_line.specs.Values.{Reads, rows_in};
ghost use Rattle.command_line.specs.declared.arguments.subcommand.Subcommand.TheVariants as Subcommand;

use crate::argument::{COUNTY, DATA, Declaration, PROGRAM};
use crate::fault::ArgumentsFault;
use crate::options::{code, number, value};
use clap::ArgMatches;
use commands::Trace;

/// Returns what the command is for the argument parser.
pub fn declaration() -> Declaration
    ensures { map rule result.arguments.now ≡ arguments_of Subcommand.Trace }
{
    Declaration {
        about: "Runs a program on one segment, step by step, even one that run would refuse",
        after_help: help_end!(
            "Output:
  exit R0 score S        the program ended
  stuck place P cause N  it gets stuck at this place; N is the refusal's number
  running                the limit was reached

Example:
  extractd trace --program street.bpf --data tiger --line 12 --limit 4096 01001"
        ),
        arguments: &[
            PROGRAM,
            DATA,
            argument!(Required "line" "N": "The segment's line in the type 1 file, counted from 1"),
            argument!(Required "limit" "L": "The maximum number of steps"),
            COUNTY,
        ],
    }
}

// The maximum number of digits of a number, so that each is below 2^64.
const MAX_ARGUMENT_DIGITS: usize = 19;

/// Returns the request that the matched arguments make.
pub fn request<'a>(matches: &ArgMatches<'a>) -> Result<Trace<'a>, ArgumentsFault<'a>>
    ensures { Reads (IsTrace (rows_in matches.now)) result }
{
    Ok(Trace {
        program: value(matches, "program")?,
        data: value(matches, "data")?,
        line: number(matches, "line", MAX_ARGUMENT_DIGITS)?,
        limit: number(matches, "limit", MAX_ARGUMENT_DIGITS)?,
        code: code(matches)?,
    })
}
