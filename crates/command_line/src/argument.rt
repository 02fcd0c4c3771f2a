//! The arguments of commands, as data.
ghost use Rattle.std.specs.Prelude.{◌≡◌, false};
ghost use Rattle.clap.specs.Walk.{rule_of};
ghost use Rattle.command_line.specs.Arguments.{required_value, rule};

use clap::{Arg, ArgAction};
use std::alloc::Global;

/// What a command is for the argument parser, besides its name.
#[derive(Clone, Copy)]
pub struct Declaration {
    /// What it does, in a line.
    pub about: &'static str,
    /// The rest of its help, after the arguments.
    pub after_help: &'static str,
    pub arguments: &'static [DeclaredArgument],
}

/// An argument of a command.
#[derive(Clone, Copy)]
pub struct DeclaredArgument {
    pub name: &'static str,
    pub kind: ArgumentKind,
    /// What the help calls its value. It shows none for a flag.
    pub value: &'static str,
    pub help: &'static str,
}

/// Whether an argument is an option, and how often it may be given.
#[derive(Clone, Copy)]
pub enum ArgumentKind {
    /// `--name VALUE`, once.
    Required,
    /// `--name VALUE`, at most once.
    Optional,
    /// `--name`, at most once.
    Flag,
    /// `VALUE`, once.
    One,
    /// `VALUE..`, one or more.
    Several,
}

// What several commands take.
pub const DATA: DeclaredArgument =
    argument!(Required "data" "DIR": "The folder of the TIGER/Line 2006 files");

pub const PROGRAM: DeclaredArgument =
    argument!(Required "program" "FILE": "The program, as BPF instruction words");

pub const COUNTY: DeclaredArgument = argument!(One "code" "CODE": "The county, five digits");

pub const COUNTIES: DeclaredArgument =
    argument!(Several "code" "CODE": "The counties, five digits each");

pub const LANGUAGE: DeclaredArgument =
    argument!(Optional "filter-lang" "LANG": "The language of the filter: cql2-text (the default) or cql2-json");

pub const SCORE: DeclaredArgument =
    argument!(Optional "score" "COLUMN": "The column whose number is a row's score, or 0 if it has none");

pub const FORMAT: DeclaredArgument =
    argument!(Optional "format" "FORMAT": "rows (the default), csv, or geojsonseq: a GeoJSON feature on each line");

pub const COLUMNS: DeclaredArgument =
    argument!(Optional "columns" "NAMES": "The columns of csv and geojsonseq, with commas between their names; by default one for each field");

pub const GEOMETRY: DeclaredArgument =
    argument!(Optional "geometry" "GEOMETRY": "The geometry of csv and geojsonseq: none, line (the default), or shape, which needs the type 2 files");

impl DeclaredArgument {
    /// Returns the argument for the argument parser.
    pub fn arg<'a>(self, alloc: Global) -> Arg<'a>
        ensures rule { rule_of result ≡ rule self }
        ensures local { result.global ≡ false }
    {
        match self.kind {
            ArgumentKind::Required => self.required_value(alloc).long(self.name),
            ArgumentKind::Optional => self.required_value(alloc).long(self.name).required(false),
            ArgumentKind::Flag => Arg::new(alloc, self.name)
                .long(self.name)
                .help(self.help)
                .action(ArgAction::SetTrue),
            ArgumentKind::One => self.required_value(alloc),
            ArgumentKind::Several => self
                .required_value(alloc)
                .num_args(1..)
                .action(ArgAction::Append),
        }
    }

    /// Returns an argument that has to be given, with one value.
    fn required_value<'a>(self, alloc: Global) -> Arg<'a>
        ensures rule { rule_of result ≡ required_value self.name.now }
        ensures local { result.global ≡ false }
    {
        Arg::new(alloc, self.name)
            .value_name(self.value)
            .help(self.help)
            .required(true)
            .action(ArgAction::Set)
    }
}
