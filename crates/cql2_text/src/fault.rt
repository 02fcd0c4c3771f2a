//! Why a text is not a filter.
ghost use Rattle.std.specs.Prelude.{◌≡◌};
ghost use Rattle.cql2_text.specs.FilterFaultKind as filter_flaw;
ghost use Rattle.cql2_text.specs.declared.fault.FilterFault.TheVariants.{Memory};

use refusals::{Fault, Refusal};
use std::alloc::{AllocError, AllocFailed};
use thiserror::Error;

/// The construct expected in place of something else. The derived text is for people.
#[derive(Clone, Copy, Debug, PartialEq, Eq, Error)]
pub enum Construct {
    #[error("UTF-8")]
    Utf8,
    #[error("a predicate, TRUE, FALSE or a parenthesis")]
    Predicate,
    #[error("the name of a column")]
    Column,
    #[error("a comparison, LIKE, BETWEEN, IN or IS")]
    Operator,
    #[error("LIKE, BETWEEN or IN")]
    Negatable,
    #[error("NULL")]
    Null,
    #[error("a number")]
    Number,
    #[error("a text in single quotes")]
    Text,
    #[error("CASEI")]
    Casei,
    #[error("ACCENTI")]
    Accenti,
    #[error("BBOX")]
    Bbox,
    #[error("the property geometry")]
    Geometry,
    #[error("POINT, LINESTRING, POLYGON, MULTIPOLYGON or BBOX")]
    Shape,
    #[error("the property geometry or a shape")]
    Operand,
    #[error("BBOX, POLYGON or MULTIPOLYGON")]
    Area,
    #[error("the ring's first point")]
    FirstPoint,
    #[error("AND")]
    And,
    #[error("a comma")]
    Comma,
    #[error("an opening parenthesis")]
    Opening,
    #[error("a closing parenthesis")]
    Closing,
    #[error("AND, OR or the end")]
    End,
    #[error("a character of Latin-1")]
    Character,
    #[error("a character that the backslash makes literal")]
    Escaped,
}

/// A flaw in a filter's text. The derived text is for people.
#[derive(Clone, Copy, Debug, PartialEq, Eq, Error)]
pub enum FilterFaultKind {
    #[error("expected {0}")]
    Syntax(Construct),
    #[error("no column has this name")]
    UnknownColumn,
    #[error("the column isn't of this type")]
    WrongType,
    #[error("CASEI and ACCENTI have to be on both sides, with =, <>, LIKE or IN")]
    Folded,
    #[error("a number doesn't fit")]
    NumberRange,
    #[error("a text is empty, or longer than its column")]
    LongText,
    #[error("parentheses or operators stand in too many others")]
    TooDeep,
    #[error("the text has more than 1,048,576 bytes")]
    TooLong,
    #[error("a shape has more than 1,000 vertices")]
    ManyVertices,
}

/// Why a text is not a filter, or that an allocation failed.
#[derive(Clone, Copy, Debug, PartialEq, Eq, Error)]
pub enum FilterFault {
    #[error("line {line}, column {column}: {flaw}")]
    At {
        /// The line, counted from 1.
        line: u32,
        /// The character in the line, counted from 1.
        column: u32,
        flaw: FilterFaultKind,
    },
    #[error("out of memory")]
    Memory,
}

impl From<AllocError> for FilterFault {
    ghost from_gives = { λ _ fault. fault ≡ Memory };

    fn from(_error: AllocError) -> FilterFault {
        FilterFault::Memory
    }
}

impl<T: Drop> From<AllocFailed<T>> for FilterFault {
    ghost from_gives = { λ _ fault. fault ≡ Memory };

    fn from(_error: AllocFailed<T>) -> FilterFault {
        FilterFault::Memory
    }
}

impl FilterFaultKind {
    /// Returns the flaw as a refusal, without its position.
    pub fn refusal(self) -> Refusal
        ensures { result ≡ filter_flaw.refusal self }
    {
        match self {
            FilterFaultKind::Syntax(_expected) => Refusal::refused(90, "Syntax"),
            FilterFaultKind::UnknownColumn => Refusal::refused(91, "UnknownColumn"),
            FilterFaultKind::WrongType => Refusal::refused(92, "WrongType"),
            FilterFaultKind::Folded => Refusal::refused(92, "WrongType"),
            FilterFaultKind::NumberRange => Refusal::refused(93, "NumberRange"),
            FilterFaultKind::LongText => Refusal::refused(94, "LongText"),
            FilterFaultKind::TooDeep => Refusal::refused(95, "TooDeep"),
            FilterFaultKind::TooLong => Refusal::refused(96, "TooLong"),
            FilterFaultKind::ManyVertices => Refusal::refused(96, "TooLong"),
        }
    }
}

impl Fault for FilterFault {
    ghost use Rattle.cql2_text.specs.FilterFault.{refusal};

    ghost refusal_of = { refusal };

    fn refusal(&self) -> Refusal {
        match *self {
            FilterFault::At { line, column, flaw } => flaw.refusal().at_character(line, column),
            FilterFault::Memory => Refusal::memory(),
        }
    }
}
