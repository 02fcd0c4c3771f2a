//! The columns of a table.
ghost use Rattle.std.specs.Prelude.{◌≡◌, ◌+◌, ◌<◌, ◌≤◌, [], ◌∷◌, ◌++◌, false, length, map, IfOk, MatchResult, Ok, Err};
ghost use Rattle.std.specs.List.{list_any};
ghost use Rattle.cql2.specs.Column.{places_of};
ghost use Rattle.layers.specs.Columns.{columns_named, is_same, usual_columns, with_column};
ghost use Rattle.tl_records.specs.Layout.{IsWithin};

use crate::columns_fault::ColumnsFault;
use cql2::{COLUMNS, Column, MAX_COLUMNS};
use cql2_tokens::{column_name, column_named};
use std::marker::Model;
use tl_records::{Places, RECORD_LENGTH};

// The last four columns repeat a field.
/// The number of usual columns: those of a table whose columns are not named.
const USUAL_COUNT: usize = MAX_COLUMNS - 4;

/// The width of the widest field, FENAME.
pub(crate) const MAX_FIELD_LENGTH: usize = 30;

/// The columns of a table, at least one. Contracts see them as a list.
#[derive(Drop)]
pub struct Columns {
    // An array, as columns are made without an allocator.
    columns: [Column; MAX_COLUMNS],
    count: usize,
}

impl Model for Columns {
    ghost use Rattle.std.specs.Prelude.{◌<◌, ◌≤◌, List, take};
    ghost use Rattle.cql2.specs.declared.column.Column.{Column};
    ghost use Rattle.cql2.specs.declared.column.TheConstants.{MAX_COLUMNS};

    ghost Value = { List Column };

    ghost view = { λ columns. take columns.count columns.columns };

    ghost invariant = { λ columns. (0 < columns.count) × (columns.count ≤ MAX_COLUMNS) };
}

impl Columns {
    /// Returns the usual columns, one for each field, in the order of the record.
    pub fn usual() -> Columns
        ensures { result ≡ usual_columns }
    {
        Columns {
            columns: COLUMNS,
            count: USUAL_COUNT,
        }
    }

    /// Returns a copy.
    pub fn copied(&self) -> Columns
        ensures { result ≡ self.now }
    {
        Columns {
            columns: self.columns,
            count: self.count,
        }
    }

    /// Returns the columns with these names, in upper or lower case.
    pub fn named(names: &[&str]) -> Result<Columns, ColumnsFault>
        ensures { result ≡ columns_named (map (λ name. name.now) names.now) }
    {
        if names.is_empty() {
            return Err(ColumnsFault::Empty);
        }
        let mut columns = COLUMNS;
        for (count, name) in names.iter().enumerate() {
            columns[count] = next_column(&columns[..count], column_named(name.as_bytes()))?;
        }
        Ok(Columns {
            columns,
            count: names.len(),
        })
    }

    pub(crate) fn as_slice(&self) -> &[Column]
        ensures value { result.now ≡ self.now }
        ensures some { 0 < length self.now }
        ensures few { length self.now ≤ MAX_COLUMNS }
    {
        &self.columns[..self.count]
    }
}

/// Returns the column of a name, which must be known and must not be among those before it.
fn next_column(before: &[Column], column: Option<Column>) -> Result<Column, ColumnsFault>
    ensures new { IfOk result (λ column. list_any (is_same column) before.now ≡ false) }
    ensures value { MatchResult result
        (λ one. with_column before.now column ≡ Ok (before.now ++ one ∷ []))
        (λ fault. with_column before.now column ≡ Err fault) }
{
    let Some(column) = column else {
        return Err(ColumnsFault::Unknown(before.len()));
    };
    if contains(before, column) {
        return Err(ColumnsFault::Repeated(before.len()));
    }
    Ok(column)
}

/// Returns whether a column is among others.
fn contains(columns: &[Column], column: Column) -> bool
    ensures { result ≡ list_any (is_same column) columns.now }
{
    columns.iter().any(|other| is_same(column, *other))
}

/// Returns whether the columns are the same.
#[tactic(auto, unfolding(crate::specs::Columns::is_same))]
fn is_same(column: Column, other: Column) -> bool
    ensures { result ≡ is_same column other }
{
    column_name(column) == column_name(other)
}

/// Returns the positions of a column's fields.
#[tactic(auto, using(crate::proofs::PlaceLemmas::places_within))]
pub(crate) fn places_of(column: Column) -> Places
    ensures value { result ≡ places_of column }
    ensures within { IsWithin result RECORD_LENGTH }
    ensures narrow { result.1 + 1 ≤ result.0 + MAX_FIELD_LENGTH }
{
    column.places()
}
