//! The arguments of `geocode`.
ghost use Rattle.std.specs.Prelude.{◌≡◌, ◌≢◌, MatchResult, IsErr, Ok, map};
ghost use Rattle.std.specs.Option.{option_copied};
ghost use Rattle.geocode.specs.Query.{parts_of, query_of};
ghost use Rattle.command_line.specs.Arguments.{arguments_of, rule};
ghost use Rattle.command_line.specs.Request.{IsGeocode};
ghost use Rattle.command_line.specs.Values.{ReadsUnlessMemory, rows_in};
ghost use Rattle.command_line.specs.declared.arguments.subcommand.Subcommand.TheVariants as Subcommand;
ghost use Rattle.command_line.specs.declared.fault.ArgumentsFault.TheVariants as ArgumentsFault;

use crate::argument::{COUNTIES, DATA, Declaration};
use crate::fault::ArgumentsFault;
use crate::options::{codes, value};
use clap::ArgMatches;
use commands::Geocode;
use geocode::{MAX_HOUSE_NUMBER_DIGITS, Query, QueryFault};
use std::alloc::Global;

/// Returns what the command is for the argument parser.
pub fn declaration() -> Declaration
    ensures { map rule result.arguments.now ≡ arguments_of Subcommand.Geocode }
{
    Declaration {
        about: "Finds a house number on the streets with a name",
        after_help: help_end!(
            "Output, one line for each side of a street that has the number:
  TLID, L or R, longitude, latitude  in millionths of a degree, with tabs between; - for an unknown place

Example:
  extractd geocode --data tiger --number 151 --name main --zip 36067 01001"
        ),
        arguments: &[
            DATA,
            argument!(Required "number" "N": "The house number"),
            argument!(Required "name" "TEXT": "The street's name, without its type and direction"),
            argument!(Optional "zip" "Z": "The ZIP Code that the address must have"),
            COUNTIES,
        ],
    }
}

/// Returns the request that the matched arguments make.
#[tactic(auto, using(crate::proofs::ValueLemmas::first_value_in))]
pub fn request<'a>(
    alloc: Global,
    matches: &ArgMatches<'a>,
) -> Result<Geocode<'a>, ArgumentsFault<'a>>
    ensures { ReadsUnlessMemory (IsGeocode (rows_in matches.now)) result }
{
    Ok(Geocode {
        data: value(matches, "data")?,
        query: query(
            value(matches, "number")?,
            value(matches, "name")?,
            matches.get_str("zip"),
        )?,
        codes: codes(alloc, matches)?,
    })
}

/// Returns the query that these options' values make.
fn query<'a>(
    number: &'a str,
    name: &'a str,
    zip: Option<&'a str>,
) -> Result<Query, ArgumentsFault<'a>>
    ensures { MatchResult result
        (λ query. query_of number.now name.now (option_copied zip.entry) ≡ Ok (parts_of query))
        (λ fault. IsErr (query_of number.now name.now (option_copied zip.entry)) × (fault ≢ ArgumentsFault.Memory)) }
{
    match Query::of(number.as_bytes(), name, zip.map(|zip| zip.as_bytes())) {
        Ok(query) => Ok(query),
        Err(QueryFault::Number) => Err(no_number("number", number)),
        Err(QueryFault::Name) => Err(ArgumentsFault::Name(name)),
        Err(QueryFault::Zip) => Err(no_number("zip", zip.unwrap_or(""))),
    }
}

/// Returns the fault for an option whose value isn't 1 to 11 digits.
fn no_number<'a>(name: &'static str, text: &'a str) -> ArgumentsFault<'a>
    ensures { result ≡ ArgumentsFault.Number name.entry MAX_HOUSE_NUMBER_DIGITS text.entry }
{
    ArgumentsFault::Number {
        name,
        most_digits: MAX_HOUSE_NUMBER_DIGITS,
        text,
    }
}
