//! The arguments of `explain`.
ghost use Rattle.std.specs.Prelude.{◌≡◌, map};
ghost use Rattle.command_line.specs.Arguments.{arguments_of, rule};
ghost use Rattle.command_line.specs.Request.{IsExplain};
ghost use Rattle.command_line.specs.Values.{Reads, rows_in};
ghost use Rattle.command_line.specs.declared.arguments.subcommand.Subcommand.TheVariants as Subcommand;

use crate::argument::{Declaration, PROGRAM};
use crate::fault::ArgumentsFault;
use crate::options::value;
use clap::ArgMatches;
use commands::Explain;

/// Returns what the command is for the argument parser.
pub fn declaration() -> Declaration
    ensures { map rule result.arguments.now ≡ arguments_of Subcommand.Explain }
{
    Declaration {
        about: "Lists a program with what the verifier knows before each instruction",
        after_help: help_end!(
            "Output, up to the end of the program or the instruction that is refused:
  PLACE: INSTRUCTION ; FACTS  what the instruction reads, and what changed since the line above
  ; TEXT                      a source line
  accepted                    at the end, or
  refused: TEXT               the check that failed, in numbers

Example:
  extractd explain --program street.bpf"
        ),
        arguments: &[
            PROGRAM,
            argument!(Optional "lines" "FILE": "Source lines to list between the instructions, each PLACE, a tab and TEXT"),
        ],
    }
}

/// Returns the request that the matched arguments make.
#[tactic(auto, using(crate::proofs::ValueLemmas::first_value_in))]
pub fn request<'a>(matches: &ArgMatches<'a>) -> Result<Explain<'a>, ArgumentsFault<'a>>
    ensures { Reads (IsExplain (rows_in matches.now)) result }
{
    Ok(Explain {
        program: value(matches, "program")?,
        lines: matches.get_str("lines"),
    })
}
