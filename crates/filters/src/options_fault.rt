//! Faults in the options of a filter, and the line about each.
ghost use Rattle.counted_io.specs.Writing.{WritesText};
ghost use Rattle.filters.specs.OptionsFault.{line};

use counted_io::{CountedWrite, WriteFault};
use reports::write_broken_rule;

/// Why a filter can't be compiled with the options that are given.
#[derive(Clone, Copy)]
pub enum FilterOptionsFault<'a> {
    /// This isn't the name of a language of filters.
    Language(&'a str),
    /// This isn't the name of a numeric column.
    Score(&'a str),
}

impl FilterOptionsFault<'_> {
    /// Writes the line about the fault, with its line end, or up to the fault of the writer. Nothing is retried, and nothing is flushed.
    pub fn write_line<W: CountedWrite>(self, out: &mut W) -> Result<(), WriteFault>
        ensures { WritesText (line self.entry) result (W.writer out.old) (W.writer out.new) }
    {
        match self {
            FilterOptionsFault::Language(name) => {
                write_broken_rule(out, "filter-lang is cql2-text or cql2-json", name)
            }
            FilterOptionsFault::Score(name) => {
                write_broken_rule(out, "score is a column with numbers", name)
            }
        }
    }
}
