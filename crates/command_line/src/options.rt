//! The values of arguments that several commands take.
ghost use Rattle.std.specs.Prelude.{◌≡◌, ◌≢◌, ◌≤◌, ◌⊎◌, IfErr, IfOk, IsErr, MatchResult, None, Ok, Some, map, unwrap_or, vec_len};
ghost use Rattle.numerals.specs.declared.numeral.TheConstants.{MAX_NUMBER_DIGITS};
ghost use Rattle.clap.specs.Walk.{first_of};
ghost use Rattle.layers.specs.LayerParts.{parts_of};
ghost use Rattle.command_line.specs.Values.{IsFilterFault, IsLayerFault, code_in, code_of, codes_in, codes_of, file_of, language_of, layer_of};
ghost use Rattle.command_line.specs.Values.{number_of, rows_in, score_of};
ghost use Rattle.command_line.specs.declared.fault.ArgumentsFault.TheVariants as ArgumentsFault;

use crate::fault::{ArgumentsFault, CODE_LIMIT};
use clap::ArgMatches;
use filters::FilterOptions;
use layers::Layer;
use numerals::{are_digits, decimal_value};
use std::alloc::Global;

/// Returns the value of a required argument.
#[tactic(auto, using(crate::proofs::ValueLemmas::first_value_in))]
pub fn value<'a>(
    matches: &ArgMatches<'a>,
    name: &'static str,
) -> Result<&'a str, ArgumentsFault<'a>>
    ensures { MatchResult result (λ text. first_of name.now (rows_in matches.now) ≡ Some text.now)
        (λ fault. (first_of name.now (rows_in matches.now) ≡ None) × (fault ≡ ArgumentsFault.Missing name.entry)) }
{
    matches.get_str(name).ok_or(ArgumentsFault::Missing(name))
}

/// Returns the value of an option, or else the default.
#[tactic(auto, using(crate::proofs::ValueLemmas::first_value_in))]
pub fn value_or<'a>(matches: &ArgMatches<'a>, name: &str, default: &'static str) -> &'a str
    ensures { result.now ≡ unwrap_or (first_of name.now (rows_in matches.now)) default.now }
{
    matches.get_str(name).unwrap_or(default)
}

// So that standard input is a file like any other, with the name that a diagnostic shows.
/// The system's file name for standard input.
const STANDARD_INPUT: &str = "/dev/stdin";

/// Returns the value of a required file name. `-` is standard input.
pub fn file<'a>(matches: &ArgMatches<'a>, name: &'static str) -> Result<&'a str, ArgumentsFault<'a>>
    ensures { MatchResult result (λ file. file_of name.now (rows_in matches.now) ≡ Some file.now)
        (λ fault. (file_of name.now (rows_in matches.now) ≡ None) × (fault ≡ ArgumentsFault.Missing name.entry)) }
{
    match value(matches, name)? {
        "-" => Ok(STANDARD_INPUT),
        name => Ok(name),
    }
}

/// Returns the county's code: five digits.
pub fn code<'a>(matches: &ArgMatches<'a>) -> Result<&'a str, ArgumentsFault<'a>>
    ensures { MatchResult result (λ code. code_of (rows_in matches.now) ≡ Some code.now)
        (λ fault. (code_of (rows_in matches.now) ≡ None) × (fault ≢ ArgumentsFault.Memory)) }
{
    five_digits(value(matches, "code")?)
}

/// Returns the counties' codes: at least one, five digits each.
#[tactic(auto, using(crate::proofs::ValueLemmas::raw_values_in))]
pub fn codes<'a>(
    alloc: Global,
    matches: &ArgMatches<'a>,
) -> Result<Vec<&'a str>, ArgumentsFault<'a>>
    ensures few { IfOk result (λ codes. vec_len codes ≤ CODE_LIMIT) }
    ensures read { MatchResult result (λ codes. codes_of (rows_in matches.now) ≡ Some (map (λ code. code.now) codes.items))
        (λ fault. fault ≢ ArgumentsFault.Memory → codes_of (rows_in matches.now) ≡ None) }
{
    match matches.get_strs("code") {
        Some(given) => counties(alloc, given),
        None => Err(ArgumentsFault::Missing("CODE")),
    }
}

/// Returns a copy of the codes if there is at least one, and each is five digits.
fn counties<'a>(alloc: Global, given: &[&'a str]) -> Result<Vec<&'a str>, ArgumentsFault<'a>>
    ensures few { IfOk result (λ codes. vec_len codes ≤ CODE_LIMIT) }
    ensures read { MatchResult result (λ codes. codes_in (map (λ code. code.now) given.now) ≡ Some (map (λ code. code.now) codes.items))
        (λ fault. fault ≢ ArgumentsFault.Memory → codes_in (map (λ code. code.now) given.now) ≡ None) }
{
    if given.is_empty() {
        return Err(ArgumentsFault::Missing("CODE"));
    }
    if given.len() > CODE_LIMIT {
        return Err(ArgumentsFault::TooManyCodes(given.len()));
    }
    let mut codes = Vec::new(alloc);
    for code in given {
        codes.push(five_digits(code)?)?;
    }
    Ok(codes)
}

fn five_digits<'a>(code: &'a str) -> Result<&'a str, ArgumentsFault<'a>>
    ensures { MatchResult result (λ digits. (digits ≡ code.entry) × (code_in code.now ≡ Some code.now))
        (λ fault. (code_in code.now ≡ None) × (fault ≡ ArgumentsFault.Code code.entry)) }
{
    if code.len() != 5 || !are_digits(code.as_bytes()) {
        return Err(ArgumentsFault::Code(code));
    }
    Ok(code)
}

/// Returns the options for compiling a filter.
#[tactic(auto, using(crate::proofs::ValueLemmas::first_value_in))]
pub fn filter_options<'a>(
    alloc: Global,
    matches: &ArgMatches<'a>,
) -> Result<FilterOptions, ArgumentsFault<'a>>
    ensures value { MatchResult result
        (λ options. (language_of (rows_in matches.now) ≡ Ok options.language) × (score_of (rows_in matches.now) ≡ Ok options.score))
        (λ fault. (IsErr (language_of (rows_in matches.now)) ⊎ IsErr (score_of (rows_in matches.now))) × (fault ≢ ArgumentsFault.Memory)) }
    ensures fault { IfErr result (IsFilterFault (rows_in matches.now)) }
{
    let language = matches.get_str("filter-lang");
    let score = matches.get_str("score");
    Ok(filters::filter_options(alloc, language, score)?)
}

/// Returns the layer of the segments.
#[tactic(auto, using(crate::proofs::ValueLemmas::first_value_in))]
pub fn layer<'a>(alloc: Global, matches: &ArgMatches<'a>) -> Result<Layer, ArgumentsFault<'a>>
    ensures value { MatchResult result (λ layer. layer_of (rows_in matches.now) ≡ Ok (parts_of layer))
        (λ fault. fault ≢ ArgumentsFault.Memory → IsErr (layer_of (rows_in matches.now))) }
    ensures fault { IfErr result (IsLayerFault (rows_in matches.now)) }
{
    let format = matches.get_str("format");
    let columns = matches.get_str("columns");
    let geometry = matches.get_str("geometry");
    Ok(layers::layer_named(alloc, format, columns, geometry)?)
}

/// Returns the value of a required option: a number of 1 to `most_digits` digits.
pub fn number<'a>(
    matches: &ArgMatches<'a>,
    name: &'static str,
    most_digits: usize,
) -> Result<u64, ArgumentsFault<'a>>
    requires few { most_digits ≤ MAX_NUMBER_DIGITS }
    ensures { MatchResult result (λ number. number_of most_digits name.now (rows_in matches.now) ≡ Some number)
        (λ fault. (number_of most_digits name.now (rows_in matches.now) ≡ None) × (fault ≢ ArgumentsFault.Memory)) }
{
    let text = value(matches, name)?;
    decimal_value(text.as_bytes(), most_digits).ok_or(ArgumentsFault::Number {
        name,
        most_digits,
        text,
    })
}
