//! The arguments of `select`.
ghost use Rattle.std.specs.Prelude.{◌≡◌, map};
ghost use Rattle.command_line.specs.Arguments.{arguments_of, rule};
ghost use Rattle.command_line.specs.Request.{IsSelect};
ghost use Rattle.command_line.specs.Values.{ReadsUnlessMemory, rows_in};
ghost use Rattle.command_line.specs.declared.arguments.subcommand.Subcommand.TheVariants as Subcommand;

use crate::argument::{
    ArgumentKind, COLUMNS, COUNTIES, DATA, Declaration, DeclaredArgument, FORMAT, GEOMETRY,
    LANGUAGE, SCORE,
};
use crate::fault::ArgumentsFault;
use crate::options::{codes, filter_options, layer, value};
use clap::ArgMatches;
use commands::Select;
use std::alloc::Global;

/// Returns what the command is for the argument parser.
pub fn declaration() -> Declaration
    ensures { map rule result.arguments.now ≡ arguments_of Subcommand.Select }
{
    Declaration {
        about: "Writes the rows of the street segments for which a filter is true",
        after_help: help_end!(
            "Output, one line for each segment, as run writes it: county by county, up to the first fault.

Examples:
  extractd select --where \"CFCC LIKE 'A4%' AND ZIPL = 36067\" --data tiger 01001 > rows.tsv
  extractd select --where '{\"op\":\"=\",\"args\":[{\"property\":\"CFCC\"},\"A41\"]}' --filter-lang cql2-json --data tiger 01001 > rows.tsv
  extractd select --where \"CFCC LIKE 'A4%'\" --data tiger --format csv --columns TLID,FENAME --geometry none 01001 > names.csv
  extractd select --where \"CFCC LIKE 'A4%'\" --data tiger --format geojsonseq 01001 | ogr2ogr roads.gpkg '/vsistdin?buffer_limit=-1' -nln roads"
        ),
        arguments: &[
            argument!(Required "where" "TEXT": "The filter, in CQL2"),
            LANGUAGE,
            SCORE,
            DATA,
            FORMAT,
            COLUMNS,
            GEOMETRY,
            COUNTIES,
        ],
    }
}

/// Returns the request that the matched arguments make.
pub fn request<'a>(
    alloc: Global,
    matches: &ArgMatches<'a>,
) -> Result<Select<'a>, ArgumentsFault<'a>>
    ensures { ReadsUnlessMemory (IsSelect (rows_in matches.now)) result }
{
    Ok(Select {
        filter: value(matches, "where")?,
        filter_options: filter_options(alloc, matches)?,
        data: value(matches, "data")?,
        codes: codes(alloc, matches)?,
        layer: layer(alloc, matches)?,
    })
}
