//! The output for a file of addresses.
ghost use Rattle.std.specs.Prelude.{IfErr, IfOk};
ghost use Rattle.address_batch.specs.Output.{IsAddressesFault, IsOutputOf};

use crate::batch::Batch;
use crate::cells::header;
use crate::lines::Lines;
use addresses::{AddressFault, AddressRow, Addresses};
use std::alloc::{Allocator, Global};

impl<A: Allocator + Copy> Batch<'_, A> {
    /// Returns the header and the lines of each address of a CSV file, given the file's complete bytes. CSV records are built in `tables` memory.
    pub fn output(&self, alloc: A, tables: Global, file: &[u8]) -> Result<Vec<u8, A>, AddressFault>
        ensures ok { IfOk result (λ text. IsOutputOf file.now self.now.codes self.now.counties text.items) }
        ensures err { IfErr result (IsAddressesFault file.now) }
    {
        let mut text = Vec::from_slice(alloc, header().as_bytes())?;
        let mut addresses = Addresses::of(tables, file)?;
        let mut row = AddressRow::new(tables);
        let mut lines = Lines::new(tables);
        while addresses.read(&mut row)? {
            self.write_lines(alloc, tables, &row.address(), &mut lines)?;
            text.extend_from_slice(lines.as_bytes())?;
        }
        Ok(text)
    }
}
