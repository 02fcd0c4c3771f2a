//! The arguments of `geocode-batch`.
ghost use Rattle.std.specs.Prelude.{◌≡◌, map};
ghost use Rattle.command_line.specs.Arguments.{arguments_of, rule};
ghost use Rattle.command_line.specs.Request.{IsGeocodeBatch};
ghost use Rattle.command_line.specs.Values.{ReadsUnlessMemory, rows_in};
ghost use Rattle.command_line.specs.declared.arguments.subcommand.Subcommand.TheVariants as Subcommand;

use crate::argument::{COUNTIES, DATA, Declaration};
use crate::fault::ArgumentsFault;
use crate::flags::is_given;
use crate::options::{codes, file, value};
use clap::ArgMatches;
use commands::GeocodeBatch;
use std::alloc::Global;

/// Returns what the command is for the argument parser.
pub fn declaration() -> Declaration
    ensures { map rule result.arguments.now ≡ arguments_of Subcommand.GeocodeBatch }
{
    Declaration {
        about: "Finds each address of a file",
        after_help: help_end!(
            "Input, CSV with a header: the columns number and name, and optionally id, zip, predir, type and sufdir.

Output, CSV with a header and one line for each match of an address, or one line with the reason why there is none:
  id                              the address's id, or its line if there is no such column
  status                          match, tie (matches in several places) or no_match
  reason                          without a match: no_such_street, no_such_number, other_zip, not_a_number,
                                  name_too_long or missing
  longitude, latitude             in decimal degrees
  tlid, side                      the segment, and L or R
  fedirp, fename, fetype, fedirs  the name of the street
  zip, county                     the ZIP code of the side, and the county's code
  from, to                        the address range

Examples:
  extractd geocode-batch --addresses addresses.csv --data tiger 01001 > places.csv
  extractd geocode-batch --addresses addresses.csv --data tiger --shape 01001 > places.csv"
        ),
        arguments: &[
            argument!(Required "addresses" "FILE": "The addresses, as CSV; - is the standard input"),
            DATA,
            argument!(Flag "shape" "": "Places along the shapes of the segments, from the files of record type 2"),
            COUNTIES,
        ],
    }
}

/// Returns the request that the matched arguments make.
pub fn request<'a>(
    alloc: Global,
    matches: &ArgMatches<'a>,
) -> Result<GeocodeBatch<'a>, ArgumentsFault<'a>>
    ensures { ReadsUnlessMemory (IsGeocodeBatch (rows_in matches.now)) result }
{
    Ok(GeocodeBatch {
        addresses: file(matches, "addresses")?,
        data: value(matches, "data")?,
        shape: is_given(matches, "shape"),
        codes: codes(alloc, matches)?,
        tables: alloc,
    })
}
