//! The arguments of `asm`.
ghost use Rattle.std.specs.Prelude.{◌≡◌, map};
ghost use Rattle.command_line.specs.Arguments.{arguments_of, rule};
ghost use Rattle.command_line.specs.Request.{IsAssemble};
ghost use Rattle.command_line.specs.Values.{Reads, rows_in};
ghost use Rattle.command_line.specs.declared.arguments.subcommand.Subcommand.TheVariants as Subcommand;

use crate::argument::Declaration;
use crate::fault::ArgumentsFault;
use crate::options::value;
use clap::ArgMatches;
use commands::Assemble;

/// Returns what the command is for the argument parser.
pub fn declaration() -> Declaration
    ensures { map rule result.arguments.now ≡ arguments_of Subcommand.Assemble }
{
    Declaration {
        about: "Assembles a program's text into BPF instruction words",
        after_help: help_end!("Example:\n  extractd asm --source street.s > street.bpf"),
        arguments: &[argument!(Required "source" "FILE": "The program, as text")],
    }
}

/// Returns the request that the matched arguments make.
pub fn request<'a>(matches: &ArgMatches<'a>) -> Result<Assemble<'a>, ArgumentsFault<'a>>
    ensures { Reads (IsAssemble (rows_in matches.now)) result }
{
    Ok(Assemble {
        source: value(matches, "source")?,
    })
}
