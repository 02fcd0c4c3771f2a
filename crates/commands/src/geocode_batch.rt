//! `geocode-batch`: geocodes the addresses in a file over counties.
ghost use Rattle.std.specs.Prelude.{◌≡◌, ◌≢◌, List, IfErr, IfOk, OnOk};
ghost use Rattle.addresses.specs.Address.{AddressParts, address_in, parts_of};
ghost use Rattle.commands.specs.Command.{CarriesOut};
ghost use Rattle.commands.specs.Failure.{status};
ghost use Rattle.commands.specs.GeocodeBatch.{AreAddressesOf, AreLinesIn, IsAddressesFault, WritesBatch, WritesUnlessMemory};
ghost use Rattle.commands.specs.declared.request.Request.{Request};

use crate::counties::load_counties;
use crate::failure::{Failure, write};
use address_batch::{Batch, Lines, header};
use addresses::{Address, AddressFault, AddressRow, Addresses};
use counted_io::CountedWrite;
use named_files::{Files, read_file};
use refusals::{Fault, Refusal};
use std::alloc::{AllocError, Allocator, Global};

/// The arguments of `geocode-batch`.
#[derive(Drop)]
pub struct GeocodeBatch<'a> {
    /// The file of the addresses (CSV).
    pub addresses: &'a str,
    /// The folder of the county files.
    pub data: &'a str,
    /// The counties' codes, five digits each: the state, then the county within it.
    pub codes: Vec<&'a str>,
    /// Whether places are along the shapes of segments, which the counties' files of type 2 have, and not on straight lines.
    pub shape: bool,
    /// The allocator for CSV records, which is part of their type.
    pub tables: Global,
}

impl<'a> GeocodeBatch<'a> {
    /// Reads the file of addresses and the counties, and then writes the header and each address's lines. If places are along shapes, each county's file
    /// of type 2 must exist.
    ///
    /// A file of addresses that has a fault is refused before anything is written.
    pub fn carry_out<A: Allocator + Copy, F: Files, W: CountedWrite>(
        self,
        alloc: A,
        files: &mut F,
        out: &mut W,
    ) -> Result<(), Failure<'a>>
        ensures carried { CarriesOut F.opens (Request.GeocodeBatch self.entry) result (F.disk files.old) (F.disk files.new)
            (W.writer out.old) (W.writer out.new) }
        ensures usage { IfErr result (λ failure. status failure ≢ 2) }
    {
        let file = match read_file(alloc, files, self.addresses) {
            Ok(file) => file,
            Err(fault) => return Err(Failure::of_file(self.addresses, fault)),
        };
        let codes = self.codes.as_slice();
        let counties = match load_counties(alloc, files, self.data, codes, self.shape) {
            Ok(counties) => counties,
            Err(failure) => return Err(failure),
        };
        // After the counties, as I/O comes before verdicts, and before anything is written.
        match check_addresses(self.tables, file.as_slice()) {
            Ok(()) => {}
            Err(fault) => return Err(Failure::of_addresses(fault)),
        }
        let lookup = Lookup {
            batch: Batch::of(alloc, counties.as_slice(), codes)?,
            shape: self.shape,
        };
        write_batch(alloc, self.tables, file.as_slice(), &lookup, out)
    }
}

/// Counties to look for addresses in, and whether places are along the shapes of their segments.
#[derive(Drop)]
struct Lookup<'a, A: Allocator> {
    batch: Batch<'a, A>,
    shape: bool,
}

impl<A: Allocator + Copy> Lookup<'_, A> {
    /// Writes the lines of an address, at least one, in place of the lines that are there.
    fn write_lines(
        &self,
        alloc: A,
        tables: Global,
        address: &Address<'_>,
        lines: &mut Lines,
    ) -> Result<(), AllocError>
        ensures { OnOk result (AreLinesIn self.now.shape self.now.batch.codes self.now.batch.counties (parts_of address.now) lines.new) }
    {
        if self.shape {
            self.batch.write_shaped_lines(alloc, tables, address, lines)
        } else {
            self.batch.write_lines(alloc, tables, address, lines)
        }
    }
}

/// Reads all addresses of a file, or up to its fault.
fn check_addresses(tables: Global, file: &[u8]) -> Result<(), AddressFault>
    ensures ok { IfOk result (λ _. (addresses : List AddressParts) × AreAddressesOf file.now addresses) }
    ensures err { IfErr result (IsAddressesFault file.now) }
{
    let mut addresses = Addresses::of(tables, file)?;
    let mut row = AddressRow::new(tables);
    while addresses.read(&mut row)? {}
    Ok(())
}

/// Writes the header and then each address's lines. The file has no fault.
fn write_batch<'a, A: Allocator + Copy, W: CountedWrite>(
    alloc: A,
    tables: Global,
    file: &[u8],
    lookup: &Lookup<'_, A>,
    out: &mut W,
) -> Result<(), Failure<'a>>
    ensures { (addresses : List AddressParts) → AreAddressesOf file.now addresses
        → WritesBatch (AreLinesIn lookup.now.shape lookup.now.batch.codes lookup.now.batch.counties) addresses result
        (W.writer out.old) (W.writer out.new) }
{
    match write(out, header().as_bytes()) {
        Ok(()) => {}
        Err(failure) => return Err(failure),
    }
    // The file has no fault, so only an allocation can fail here and below.
    let mut addresses = match Addresses::of(tables, file) {
        Ok(addresses) => addresses,
        Err(fault) => return Err(Failure::Refusal(fault.refusal())),
    };
    let mut row = AddressRow::new(tables);
    let mut lines = Lines::new(tables);
    loop {
        match addresses.read(&mut row) {
            Ok(true) => {}
            Ok(false) => return Ok(()),
            Err(fault) => return Err(Failure::Refusal(fault.refusal())),
        }
        match write_row(alloc, tables, lookup, &row, &mut lines, out) {
            Ok(()) => {}
            Err(failure) => return Err(failure),
        }
    }
}

/// Writes the lines for a row's address.
fn write_row<'a, A: Allocator + Copy, W: CountedWrite>(
    alloc: A,
    tables: Global,
    lookup: &Lookup<'_, A>,
    row: &AddressRow,
    lines: &mut Lines,
    out: &mut W,
) -> Result<(), Failure<'a>>
    ensures { WritesUnlessMemory (AreLinesIn lookup.now.shape lookup.now.batch.codes lookup.now.batch.counties (address_in row.now))
        (λ before after. after ≡ before) result (W.writer out.old) (W.writer out.new) }
{
    let address = row.address();
    match lookup.write_lines(alloc, tables, &address, lines) {
        Ok(()) => {}
        Err(_error) => return Err(Failure::Refusal(Refusal::memory())),
    }
    write(out, lines.as_bytes())
}
