//! The arguments of `dis`.
ghost use Rattle.std.specs.Prelude.{◌≡◌, map};
ghost use Rattle.command_line.specs.Arguments.{arguments_of, rule};
ghost use Rattle.command_line.specs.Request.{IsDisassemble};
ghost use Rattle.command_line.specs.Values.{Reads, rows_in};
ghost use Rattle.command_line.specs.declared.arguments.subcommand.Subcommand.TheVariants as Subcommand;

use crate::argument::{Declaration, PROGRAM};
use crate::fault::ArgumentsFault;
use crate::options::value;
use clap::ArgMatches;
use commands::Disassemble;

/// Returns what the command is for the argument parser.
pub fn declaration() -> Declaration
    ensures { map rule result.arguments.now ≡ arguments_of Subcommand.Disassemble }
{
    Declaration {
        about: "Disassembles a program into text",
        after_help: help_end!("Example:\n  extractd dis --program street.bpf"),
        arguments: &[PROGRAM],
    }
}

/// Returns the request that the matched arguments make.
pub fn request<'a>(matches: &ArgMatches<'a>) -> Result<Disassemble<'a>, ArgumentsFault<'a>>
    ensures { Reads (IsDisassemble (rows_in matches.now)) result }
{
    Ok(Disassemble {
        program: value(matches, "program")?,
    })
}
