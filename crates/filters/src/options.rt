//! The options of a filter, chosen by names. The command line and HTTP read them by these functions, so both take the same names.
ghost use Rattle.std.specs.Prelude.{◌≡◌, MatchResult, Some, Ok, Err};
ghost use Rattle.std.specs.Option.{option_copied};
ghost use Rattle.filters.specs.Options.{language_named, options_fault, score_named};
ghost use Rattle.filters.specs.OptionsFault.{parts_of};

use crate::filter::{FilterLanguage, FilterOptions};
use crate::options_fault::FilterOptionsFault;
use cql2::{Column, NumericColumn};
use cql2_tokens::column_named;
use std::alloc::Global;

/// Returns the options for compiling a filter, from the values of `filter-lang` and `score`, as far as they are given. The language is looked at first.
pub fn filter_options<'a>(
    filter_alloc: Global,
    language: Option<&'a str>,
    score: Option<&'a str>,
) -> Result<FilterOptions, FilterOptionsFault<'a>>
    ensures { MatchResult result
        (λ options. (language_named (option_copied language.entry) ≡ Ok options.language)
        × (score_named (option_copied score.entry) ≡ Ok options.score))
        (λ fault. options_fault (option_copied language.entry) (option_copied score.entry) ≡ Some (parts_of fault)) }
{
    Ok(FilterOptions {
        language: language_named(language)?,
        score: score_named(score)?,
        filter_alloc,
    })
}

/// Returns the language of this name, by default text.
fn language_named<'a>(name: Option<&'a str>) -> Result<FilterLanguage, FilterOptionsFault<'a>>
    ensures { MatchResult result (λ language. language_named (option_copied name.entry) ≡ Ok language)
        (λ fault. language_named (option_copied name.entry) ≡ Err (parts_of fault)) }
{
    match name {
        None => Ok(FilterLanguage::Text),
        Some("cql2-text") => Ok(FilterLanguage::Text),
        Some("cql2-json") => Ok(FilterLanguage::Json),
        Some(name) => Err(FilterOptionsFault::Language(name)),
    }
}

/// Returns the column of the score, if one is named: one that holds numbers or a coordinate.
fn score_named<'a>(name: Option<&'a str>) -> Result<Option<NumericColumn>, FilterOptionsFault<'a>>
    ensures { MatchResult result (λ score. score_named (option_copied name.entry) ≡ Ok score)
        (λ fault. score_named (option_copied name.entry) ≡ Err (parts_of fault)) }
{
    let Some(name) = name else {
        return Ok(None);
    };
    match column_named(name.as_bytes()) {
        Some(Column::Numeric(column)) => Ok(Some(column)),
        Some(Column::Text(_)) | None => Err(FilterOptionsFault::Score(name)),
    }
}
