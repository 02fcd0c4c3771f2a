//! The row that holds an address.
ghost use Rattle.std.specs.Prelude.{◌≡◌, option_map};
ghost use Rattle.addresses.specs.Address.{address_in, cell_in, no_address, parts_of, value_in};
ghost use Rattle.csv.specs.Records.{fields_of};

use crate::columns::HeaderColumns;
use csv::StringRecord;
use std::alloc::Global;

/// An address: a record's cells, without leading and trailing ASCII white space, which only the id keeps. A cell is empty if the file has no such
/// column or the record is too short for it.
#[derive(Clone, Copy, Debug, PartialEq, Eq)]
pub struct Address<'a> {
    /// The line in which the record begins, counted from 1.
    pub line: u64,
    /// The id, or `None` if the file has no column `id`.
    pub id: Option<&'a str>,
    pub number: &'a str,
    pub name: &'a str,
    pub zip: &'a str,
    pub predir: &'a str,
    /// The column `type`.
    pub kind: &'a str,
    pub sufdir: &'a str,
}

/// A row of a file. Its memory is reused for the next row.
#[derive(Drop)]
pub struct AddressRow {
    pub(crate) line: u64,
    pub(crate) columns: HeaderColumns,
    pub(crate) cells: StringRecord,
}

impl AddressRow {
    /// Creates an empty row for [`Addresses::read`](crate::Addresses::read). Doesn't allocate.
    pub fn new(alloc: Global) -> AddressRow
        ensures { address_in result ≡ no_address }
    {
        AddressRow {
            line: 0,
            columns: HeaderColumns {
                id: None,
                number: 0,
                name: 0,
                zip: None,
                predir: None,
                kind: None,
                sufdir: None,
            },
            cells: StringRecord::new(alloc),
        }
    }

    /// Returns the address that was last read.
    pub fn address(&self) -> Address<'_>
        ensures { parts_of result ≡ address_in self.now }
    {
        let columns = self.columns;
        let cells = &self.cells;
        Address {
            line: self.line,
            id: id_in(cells, columns.id),
            number: value_in(cells, Some(columns.number)),
            name: value_in(cells, Some(columns.name)),
            zip: value_in(cells, columns.zip),
            predir: value_in(cells, columns.predir),
            kind: value_in(cells, columns.kind),
            sufdir: value_in(cells, columns.sufdir),
        }
    }
}

/// Returns the untrimmed id, if there is such a column.
fn id_in(cells: &StringRecord, column: Option<usize>) -> Option<&str>
    ensures { option_map (λ id. id.now) result ≡ option_map (cell_in (fields_of cells.now)) column }
{
    match column {
        Some(column) => Some(cell_in(cells, column)),
        None => None,
    }
}

/// Returns the cell in a column, without leading and trailing white space.
fn value_in(cells: &StringRecord, column: Option<usize>) -> &str
    ensures { result.now ≡ value_in (fields_of cells.now) column }
{
    match column {
        Some(column) => cell_in(cells, column).trim_ascii(),
        None => "",
    }
}

fn cell_in(cells: &StringRecord, column: usize) -> &str
    ensures { result.now ≡ cell_in (fields_of cells.now) column }
{
    cells.get(column).unwrap_or("")
}
