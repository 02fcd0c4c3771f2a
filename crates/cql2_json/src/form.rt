//! The forms of arrays: what text writes around and between their values, and what these are.
//!
//! Operands, lists and coordinates are all arrays in JSON, so one loop writes them, and their forms say how they differ. A form fixes the kind
//! of each value, so a value is refused before any of it is written.
ghost use Rattle.std.specs.Prelude.{◌≡◌};
ghost use Rattle.cql2_json.specs.Form.{closing, count_of, expected_value, item_kind, opening, separator};

use crate::fault::{ExpectedValue, ItemCount};
use crate::operator::JsonOperator;

/// The form of an array.
#[derive(Clone, Copy)]
pub(crate) enum Form {
    Operands(JsonOperator),
    /// The arguments of a function.
    Arguments,
    /// The values of IN.
    List,
    Box,
    /// A position without parentheses.
    Position,
    Point,
    MultiPoint,
    Line,
    MultiLine,
    /// A closed line.
    Ring,
    Polygon,
    MultiPolygon,
}

/// What a value has to be.
#[derive(Clone, Copy)]
pub(crate) enum ValueKind {
    Expression,
    Number,
    Array(Form),
}

impl ValueKind {
    /// Returns what is expected in place of a value of another kind.
    pub fn expected_value(self) -> ExpectedValue
        ensures { result ≡ expected_value self }
    {
        match self {
            ValueKind::Expression => ExpectedValue::Expression,
            ValueKind::Number => ExpectedValue::Number,
            ValueKind::Array(form) => ExpectedValue::Array(form.count()),
        }
    }
}

impl Form {
    /// Returns the number of values.
    pub fn count(self) -> ItemCount
        ensures { result ≡ count_of self }
    {
        match self {
            Form::Operands(operator) => operator.operand_count(),
            Form::Arguments => ItemCount::Any,
            Form::List | Form::MultiPoint | Form::MultiLine | Form::Polygon | Form::MultiPolygon =>
                { ItemCount::OneOrMore }
            Form::Box => ItemCount::Four,
            Form::Position | Form::Point => ItemCount::Two,
            Form::Line => ItemCount::TwoOrMore,
            Form::Ring => ItemCount::FourOrMore,
        }
    }

    /// Returns the text before the first value.
    pub fn opening(self) -> &'static str
        ensures { result.now ≡ opening self }
    {
        match self {
            Form::Operands(operator) => operator.opening(),
            Form::Box => "BBOX(",
            Form::Position => "",
            _ => "(",
        }
    }

    /// Returns the text before the value at an index.
    pub fn separator(self, index: usize) -> &'static str
        ensures { result.now ≡ separator self index }
    {
        if index == 0 {
            return "";
        }
        match self {
            Form::Operands(operator) => if index == 1 {
                operator.first_separator()
            } else {
                operator.later_separator()
            },
            Form::Position | Form::Point => " ",
            _ => ", ",
        }
    }

    /// Returns the text after the last value.
    pub fn closing(self) -> &'static str
        ensures { result.now ≡ closing self }
    {
        match self {
            Form::Operands(operator) => operator.closing(),
            Form::Position => "",
            _ => ")",
        }
    }

    /// Returns what the value at an index has to be.
    pub fn item(self, index: usize) -> ValueKind
        ensures { result ≡ item_kind self index }
    {
        match self {
            Form::Operands(JsonOperator::In) if index == 1 => ValueKind::Array(Form::List),
            Form::Operands(_) | Form::Arguments | Form::List => ValueKind::Expression,
            Form::Box | Form::Position | Form::Point => ValueKind::Number,
            Form::MultiPoint => ValueKind::Array(Form::Point),
            Form::Line | Form::Ring => ValueKind::Array(Form::Position),
            Form::MultiLine => ValueKind::Array(Form::Line),
            Form::Polygon => ValueKind::Array(Form::Ring),
            Form::MultiPolygon => ValueKind::Array(Form::Polygon),
        }
    }
}
