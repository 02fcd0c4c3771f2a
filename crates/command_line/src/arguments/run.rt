//! The arguments of `run`.
ghost use Rattle.std.specs.Prelude.{◌≡◌, map};
ghost use Rattle.command_line.specs.Arguments.{arguments_of, rule};
ghost use Rattle.command_line.specs.Request.{IsRun};
ghost use Rattle.command_line.specs.Values.{ReadsUnlessMemory, rows_in};
ghost use Rattle.command_line.specs.declared.arguments.subcommand.Subcommand.TheVariants as Subcommand;

use crate::argument::{COLUMNS, COUNTY, DATA, Declaration, FORMAT, GEOMETRY, PROGRAM};
use crate::fault::ArgumentsFault;
use crate::options::{code, layer, value};
use clap::ArgMatches;
use commands::Run;
use std::alloc::Global;

/// Returns what the command is for the argument parser.
pub fn declaration() -> Declaration
    ensures { map rule result.arguments.now ≡ arguments_of Subcommand.Run }
{
    Declaration {
        about: "Writes the rows of the segments that a program selects",
        after_help: help_end!(
            "Output, one line for each segment, in the order of the file:
  rows        the score, a tab, and the segment's record of 228 bytes
  csv         the score, the columns, and the geometry as WKT, after a header
  geojsonseq  a GeoJSON feature, as GDAL's driver GeoJSONSeq reads it

Examples:
  extractd run --program street.bpf --data tiger 01001 > rows.tsv
  extractd run --program street.bpf --data tiger --format csv --columns TLID,FENAME --geometry none 01001 > names.csv
  extractd run --program street.bpf --data tiger --format geojsonseq --geometry shape 01001 | ogr2ogr roads.gpkg '/vsistdin?buffer_limit=-1' -nln roads"
        ),
        arguments: &[PROGRAM, DATA, FORMAT, COLUMNS, GEOMETRY, COUNTY],
    }
}

/// Returns the request that the matched arguments make.
pub fn request<'a>(alloc: Global, matches: &ArgMatches<'a>) -> Result<Run<'a>, ArgumentsFault<'a>>
    ensures { ReadsUnlessMemory (IsRun (rows_in matches.now)) result }
{
    Ok(Run {
        program: value(matches, "program")?,
        data: value(matches, "data")?,
        code: code(matches)?,
        layer: layer(alloc, matches)?,
    })
}
