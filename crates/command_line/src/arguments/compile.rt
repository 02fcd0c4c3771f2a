//! The arguments of `compile`.
ghost use Rattle.std.specs.Prelude.{◌≡◌, map};
ghost use Rattle.command_line.specs.Arguments.{arguments_of, rule};
ghost use Rattle.command_line.specs.Request.{IsCompile};
ghost use Rattle.command_line.specs.Values.{Reads, rows_in};
ghost use Rattle.command_line.specs.declared.arguments.subcommand.Subcommand.TheVariants as Subcommand;

use crate::argument::{Declaration, LANGUAGE, SCORE};
use crate::fault::ArgumentsFault;
use crate::options::{file, filter_options};
use clap::ArgMatches;
use commands::Compile;
use std::alloc::Global;

/// Returns what the command is for the argument parser.
pub fn declaration() -> Declaration
    ensures { map rule result.arguments.now ≡ arguments_of Subcommand.Compile }
{
    Declaration {
        about: "Writes the BPF program of a filter",
        after_help: help_end!(
            "Examples:
  echo \"CFCC LIKE 'A4%' AND ZIPL = 36067\" | extractd compile --filter - > street.bpf
  echo '{\"op\":\"=\",\"args\":[{\"property\":\"ZIPL\"},36067]}' | extractd compile --filter - --filter-lang cql2-json > zip.bpf"
        ),
        arguments: &[
            argument!(Required "filter" "FILE": "The filter, in CQL2; - is the standard input"),
            LANGUAGE,
            SCORE,
        ],
    }
}

/// Returns the request that the matched arguments make.
pub fn request<'a>(
    alloc: Global,
    matches: &ArgMatches<'a>,
) -> Result<Compile<'a>, ArgumentsFault<'a>>
    ensures { Reads (IsCompile (rows_in matches.now)) result }
{
    Ok(Compile {
        filter: file(matches, "filter")?,
        filter_options: filter_options(alloc, matches)?,
    })
}
