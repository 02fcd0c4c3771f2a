//! The columns of a file of addresses.
ghost use Rattle.std.specs.Prelude.{◌≡◌};
ghost use Rattle.addresses.specs.Columns.{column_named, columns_of, is_named};
ghost use Rattle.csv.specs.Records.{fields_of};

use crate::fault::AddressFaultKind;
use csv::StringRecord;

/// The indices of the columns in a record, counted from 0.
#[derive(Clone, Copy)]
pub(crate) struct HeaderColumns {
    pub id: Option<usize>,
    pub number: usize,
    pub name: usize,
    pub zip: Option<usize>,
    pub predir: Option<usize>,
    /// The column `type`.
    pub kind: Option<usize>,
    pub sufdir: Option<usize>,
}

impl HeaderColumns {
    /// Finds the columns that a header names. It has to have `number` and `name`.
    pub(crate) fn of(header: &StringRecord) -> Result<HeaderColumns, AddressFaultKind>
        ensures { result ≡ columns_of (fields_of header.now) }
    {
        let number = column_named(header, "number").ok_or(AddressFaultKind::NoNumber)?;
        let name = column_named(header, "name").ok_or(AddressFaultKind::NoName)?;
        Ok(HeaderColumns {
            id: column_named(header, "id"),
            number,
            name,
            zip: column_named(header, "zip"),
            predir: column_named(header, "predir"),
            kind: column_named(header, "type"),
            sufdir: column_named(header, "sufdir"),
        })
    }
}

/// Finds the first column with a name.
fn column_named(header: &StringRecord, name: &str) -> Option<usize>
    ensures { result ≡ column_named name.now (fields_of header.now) }
{
    for column in 0..header.len() {
        if let Some(cell) = header.get(column) {
            if is_named(cell, name) {
                return Some(column);
            }
        }
    }
    None
}

/// Returns whether a cell of the header is this name.
fn is_named(cell: &str, name: &str) -> bool
    ensures { result ≡ is_named name.now cell.now }
{
    cell.trim_ascii().eq_ignore_ascii_case(name)
}
