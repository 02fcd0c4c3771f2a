//! The tokens of a filter's text.
use cql2::{Column, Comparison};

/// A reserved word, in upper or lower case.
#[derive(Clone, Copy)]
pub enum Keyword {
    And,
    Or,
    Not,
    True,
    False,
    Is,
    Null,
    Like,
    Between,
    In,
    Casei,
    Accenti,
    Div,
    /// The property `geometry`.
    Geometry,
    Function(FunctionName),
    Shape(ShapeTag),
}

/// The name of a function.
#[derive(Clone, Copy)]
pub enum FunctionName {
    HasNumber,
    HasName,
    StartsIn,
    Intersects,
    Disjoint,
    Within,
}

/// The word before the coordinates of a shape.
#[derive(Clone, Copy)]
pub enum ShapeTag {
    Point,
    LineString,
    Polygon,
    MultiPolygon,
    Bbox,
}

/// A sign of arithmetic. A minus or a plus before a number is a token of its own.
#[derive(Clone, Copy)]
pub enum Sign {
    Plus,
    Minus,
    Asterisk,
    Percent,
}

/// A number, split into its parts.
#[derive(Clone, Copy)]
pub struct Numeral<'a> {
    pub is_negative: bool,
    /// The digits before the point.
    pub whole: &'a [u8],
    /// The digits after the point; none if there is no point.
    pub decimals: &'a [u8],
}

/// A word, a sign or a literal.
#[derive(Clone, Copy)]
pub enum Token<'a> {
    Keyword(Keyword),
    Column(Column),
    /// A name that no column has.
    UnknownColumn,
    Compared(Comparison),
    Sign(Sign),
    Open,
    Close,
    Comma,
    /// A number without its sign.
    Number(Numeral<'a>),
    /// A string literal, without its quotes.
    Text(&'a [u8]),
}
