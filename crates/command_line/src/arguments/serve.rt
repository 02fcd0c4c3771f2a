//! The arguments of `serve`.
ghost use Rattle.std.specs.Prelude.{◌≡◌, map};
ghost use Rattle.command_line.specs.Arguments.{arguments_of, rule};
ghost use Rattle.command_line.specs.Request.{IsServe};
ghost use Rattle.command_line.specs.Values.{ReadsUnlessMemory, rows_in};
ghost use Rattle.command_line.specs.declared.arguments.subcommand.Subcommand.TheVariants as Subcommand;

use crate::address::address;
use crate::argument::{COUNTIES, DATA, Declaration};
use crate::fault::ArgumentsFault;
use crate::flags::is_given;
use crate::options::{codes, value};
use crate::serve::Serve;
use clap::ArgMatches;
use std::alloc::Global;

/// Returns what the command is for the argument parser.
pub fn declaration() -> Declaration
    ensures { map rule result.arguments.now ≡ arguments_of Subcommand.Serve }
{
    Declaration {
        about: "Answers requests over HTTP, one connection at a time",
        after_help: help_end!(
            "Output, once it listens:
  listening ADDRESS:PORT

A line of the log: address - - [date] \"method route version\" status length, then the bytes read and the microseconds taken.

It exits, with status 3, only if it can't accept a connection.

Examples:
  extractd serve --data tiger --port 8080 01001
  extractd serve --data tiger --any-port --host ::1 01001"
        ),
        arguments: &[
            DATA,
            argument!(Optional "port" "P": "The port, 1 to 65535"),
            argument!(Flag "any-port" "": "Takes a free port in place of --port; the output has its number"),
            argument!(Optional "host" "ADDRESS":
                "The IP address to listen at: 127.0.0.1 (the default), another one of 127.0.0.0/8, or ::1; any other needs --public"),
            argument!(Flag "public" "": "Allows any --host. The server has no TLS and no authentication: whoever reaches it can use all of it"),
            argument!(Flag "log" "": "Writes a line to standard error for each connection"),
            COUNTIES,
        ],
    }
}

/// Returns the request that the matched arguments make.
pub fn request<'a>(alloc: Global, matches: &ArgMatches<'a>) -> Result<Serve<'a>, ArgumentsFault<'a>>
    ensures { ReadsUnlessMemory (IsServe (rows_in matches.now)) result }
{
    Ok(Serve {
        data: value(matches, "data")?,
        address: address(matches)?,
        log: is_given(matches, "log"),
        codes: codes(alloc, matches)?,
    })
}
