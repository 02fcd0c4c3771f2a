//! Flags: options without a value.
ghost use Rattle.std.specs.Prelude.{◌≡◌};
ghost use Rattle.command_line.specs.Values.{flag_of, rows_in};

use clap::ArgMatches;

/// Returns whether a flag is given.
///
/// The parser's value of a flag is the text `true` or `false`. `ArgMatches::get_flag` promises nothing of another text, so this compares the text.
#[tactic(auto, using(crate::proofs::ValueLemmas::first_value_in))]
pub fn is_given(matches: &ArgMatches<'_>, name: &str) -> bool
    ensures { result ≡ flag_of name.now (rows_in matches.now) }
{
    match matches.get_str(name) {
        Some(value) => value == "true",
        None => false,
    }
}
