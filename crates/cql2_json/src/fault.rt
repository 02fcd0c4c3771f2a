//! Why JSON is not translated.
//!
//! A `JsonFault` is what callers see. A `Flaw` is the same without a JSON pointer: while values are written, the path to the one at fault is the
//! writer's, and only the fault that is returned needs a pointer of its own.
ghost use Rattle.std.specs.Prelude.{◌≡◌};
ghost use Rattle.cql2_json.specs.Form.{admits};
ghost use Rattle.cql2_json.specs.declared.fault.Flaw.TheVariants as flaw;
ghost use Rattle.cql2_json.specs.declared.fault.JsonFault.TheVariants as json_fault;

use std::alloc::{AllocError, AllocFailed, Allocator};
use thiserror::Error;

/// How many values an array has to have. The derived text is for people.
#[derive(Clone, Copy, Debug, PartialEq, Eq, Error)]
pub enum ItemCount {
    #[error("an array")]
    Any,
    #[error("an array of one value")]
    One,
    #[error("an array of two values")]
    Two,
    #[error("an array of three values")]
    Three,
    #[error("an array of four values")]
    Four,
    #[error("an array that is not empty")]
    OneOrMore,
    #[error("an array of two or more values")]
    TwoOrMore,
    #[error("an array of four or more values")]
    FourOrMore,
}

impl ItemCount {
    /// Returns whether an array may have this many values.
    pub(crate) fn admits(self, count: usize) -> bool
        ensures { result ≡ admits self count }
    {
        match self {
            ItemCount::Any => true,
            ItemCount::One => count == 1,
            ItemCount::Two => count == 2,
            ItemCount::Three => count == 3,
            ItemCount::Four => count == 4,
            ItemCount::OneOrMore => count >= 1,
            ItemCount::TwoOrMore => count >= 2,
            ItemCount::FourOrMore => count >= 4,
        }
    }
}

/// The value that is expected in place of another. The derived text is for people.
#[derive(Clone, Copy, Debug, PartialEq, Eq, Error)]
pub enum ExpectedValue {
    #[error("true, false, a number, a string or an object")]
    Expression,
    #[error("an object with op and args, property, bbox, or type and coordinates")]
    Object,
    #[error("the name of an operator or a function")]
    Operator,
    #[error("a name of letters, digits and underscores")]
    Name,
    #[error("a string without control characters")]
    Printable,
    #[error("Point, LineString, Polygon, MultiPoint, MultiLineString or MultiPolygon")]
    Geometry,
    #[error("a number")]
    Number,
    #[error("{0}")]
    Array(ItemCount),
}

/// A flaw in a text that should be JSON. The derived text is for people.
#[derive(Clone, Copy, Debug, PartialEq, Eq, Error)]
pub enum JsonFlaw {
    #[error("expected UTF-8")]
    Utf8,
    #[error("expected JSON")]
    Syntax,
    #[error("the JSON has more than 1,048,576 bytes")]
    TooLong,
}

/// A flaw of a JSON value. The derived text is for people.
#[derive(Clone, Copy, Debug, PartialEq, Eq, Error)]
pub enum ValueFlaw {
    #[error("expected {0}")]
    Expected(ExpectedValue),
    #[error("the text of the filter has more than 1,048,576 bytes")]
    TooLong,
}

/// Why JSON has no translation, or that an allocation failed.
#[derive(Drop)]
pub enum JsonFault<A: Allocator> {
    /// The text isn't JSON.
    Json {
        /// The line, counted from 1.
        line: u32,
        /// The character in the line, counted from 1.
        column: u32,
        flaw: JsonFlaw,
    },
    /// The JSON isn't a filter.
    Value {
        /// The JSON pointer (RFC 6901) to the value at fault.
        pointer: Vec<u8, A>,
        flaw: ValueFlaw,
    },
    Memory,
}

impl<A: Allocator> From<AllocError> for JsonFault<A> {
    ghost from_gives = { λ _ fault. fault ≡ json_fault.Memory };

    fn from(_error: AllocError) -> JsonFault<A> {
        JsonFault::Memory
    }
}

/// Why a value is not written. The path of the writer leads to the value at fault.
#[derive(Clone, Copy, Drop)]
pub(crate) enum Flaw {
    Expected(ExpectedValue),
    TooLong,
    Memory,
}

impl From<AllocError> for Flaw {
    ghost from_gives = { λ _ fault. fault ≡ flaw.Memory };

    fn from(_error: AllocError) -> Flaw {
        Flaw::Memory
    }
}

impl<T: Drop> From<AllocFailed<T>> for Flaw {
    ghost from_gives = { λ _ fault. fault ≡ flaw.Memory };

    fn from(_error: AllocFailed<T>) -> Flaw {
        Flaw::Memory
    }
}
