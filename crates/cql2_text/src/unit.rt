//! The units of numbers.
ghost use Rattle.std.specs.Prelude.{◌≡◌};
ghost use Rattle.cql2_text.specs.Unit.{allows, is_in, unit_of};

use cql2::{NumericColumn, Operator};

/// The unit of numbers in a filter.
#[derive(Clone, Copy)]
pub(crate) enum Unit {
    Whole,
    /// Millionths of a degree, for coordinates.
    Degrees,
    /// For the bounds of a box. 10¹⁵ are a degree.
    Femtodegrees,
}

impl Unit {
    /// Returns the unit of a comparison, by the first column in it.
    pub fn of(column: Option<NumericColumn>) -> Unit
        ensures { result ≡ unit_of column }
    {
        match column {
            Some(NumericColumn::Coordinate(_column)) => Unit::Degrees,
            _ => Unit::Whole,
        }
    }

    /// Returns whether the column's numbers are in this unit. No column's are in femtodegrees.
    pub fn has(self, column: NumericColumn) -> bool
        ensures { result ≡ is_in self column }
    {
        match (self, column) {
            (Unit::Whole, NumericColumn::Number(_column)) => true,
            (Unit::Degrees, NumericColumn::Coordinate(_column)) => true,
            _ => false,
        }
    }

    /// Returns whether numbers in this unit may be combined so. Coordinates can only be added and subtracted.
    pub fn allows(self, operator: Operator) -> bool
        ensures { result ≡ allows self operator }
    {
        match (self, operator) {
            (Unit::Whole, _) => true,
            (Unit::Degrees, Operator::Add) => true,
            (Unit::Degrees, Operator::Subtract) => true,
            _ => false,
        }
    }
}
