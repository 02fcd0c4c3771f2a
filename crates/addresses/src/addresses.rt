//! The addresses of a file, one after the other.
ghost use Rattle.std.specs.Prelude.{◌≡◌, OnErr};
ghost use Rattle.addresses.specs.Address.{address_in};
ghost use Rattle.addresses.specs.Listing.{IsAddressRead, IsHeaderRead, addresses_in, addresses_left};

use crate::columns::HeaderColumns;
use crate::fault::AddressFault;
use crate::row::AddressRow;
use crate::unread::Unread;
use csv::StringRecord;
use std::alloc::Global;

/// The remaining addresses of a file.
///
/// The file is CSV (RFC 4180). Its first record is the header and names the columns: `number` and `name`, and optionally `id`, `zip`, `predir`,
/// `type` and `sufdir`. White space around a column's name and ASCII case are ignored. If several columns have the same name, the first is used.
/// Other columns are ignored, as are empty lines and a byte order mark at the start of the file.
#[derive(Drop)]
pub struct Addresses<'a> {
    columns: HeaderColumns,
    unread: Unread<'a>,
}

impl<'a> Addresses<'a> {
    /// Reads the header of a file, given the file's complete bytes.
    pub fn of(alloc: Global, file: &'a [u8]) -> Result<Addresses<'a>, AddressFault>
        ensures { IsHeaderRead result (addresses_in file.now) }
    {
        let mut unread = Unread::of(alloc, file)?;
        let mut header = StringRecord::new(alloc);
        let Some(line) = unread.next(&mut header)? else {
            return Err(AddressFault::NoHeader);
        };
        match HeaderColumns::of(&header) {
            Ok(columns) => Ok(Addresses { columns, unread }),
            Err(flaw) => Err(AddressFault::At { line, flaw }),
        }
    }

    /// Reads the next address into a row. Returns false after the last one; then, and after a fault, the row's contents are unspecified. A call after
    /// a fault reads the same record again.
    pub fn read(&mut self, row: &mut AddressRow) -> Result<bool, AddressFault>
        ensures next { IsAddressRead result (address_in row.new) (addresses_left self.old) (addresses_left self.new) }
        ensures stays { OnErr result (self.new ≡ self.old) }
    {
        let Some(line) = self.unread.next(&mut row.cells)? else {
            return Ok(false);
        };
        row.line = line;
        row.columns = self.columns;
        Ok(true)
    }
}
