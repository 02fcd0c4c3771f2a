//! Addresses looked up in counties.
ghost use Rattle.std.specs.Prelude.{◌≡◌, map, IfOk, OnOk};

use crate::address_query::AddressQuery;
use crate::cells::push_lines;
use crate::lines::Lines;
use crate::lookup::LookupResult;
use crate::shaped::placed_lookup;
use addresses::Address;
use geocode::Gazetteer;
use itoa::Buffer;
use std::alloc::{AllocError, Allocator, Global};
use std::marker::Model;
use tl_segments::County;

/// An index of street names: a batch's own, or one that it borrows.
#[derive(Drop)]
enum GazetteerSource<'a, A: Allocator> {
    Own(Gazetteer<A>),
    Borrowed(&'a Gazetteer<A>),
}

/// Counties to look for addresses in, with their codes and an index of their street names. Contracts see it as a record with the fields `counties`
/// and `codes`.
#[derive(Drop)]
pub struct Batch<'a, A: Allocator> {
    counties: &'a [County<A>],
    codes: &'a [&'a str],
    index: GazetteerSource<'a, A>,
}

impl<'a, A: Allocator> Model for Batch<'a, A> {
    ghost use Rattle.std.specs.Prelude.{map};
    ghost use Rattle.address_batch.specs.Batch.{BatchParts, gazetteer_in};
    ghost use Rattle.geocode.specs.Gazetteer.{IsGazetteerOf};

    ghost Value = { BatchParts };

    ghost view = { λ batch. record { counties = batch.counties.now; codes = map (λ code. code.now) batch.codes.now } };

    ghost invariant = { λ batch. IsGazetteerOf (gazetteer_in batch.index) batch.counties.now };
}

impl<'a, A: Allocator + Copy> Batch<'a, A> {
    ghost use Rattle.addresses.specs.Address.{parts_of};
    ghost use Rattle.geocode.specs.Gazetteer.{IsGazetteerOf};
    ghost use Rattle.address_batch.specs.LookupResult.{lookup_of};
    ghost use Rattle.address_batch.specs.LookupResult as looked_up;
    ghost use Rattle.address_batch.specs.Lines.{id_of, lines_of, lines_with};
    ghost use Rattle.address_batch.specs.ShapedLookup.{AreShapedLines, IsShapedLookup};

    /// Indexes the street names of counties, to look for addresses in them. The codes are in the order of the counties.
    pub fn of(alloc: A, counties: &'a [County<A>], codes: &'a [&'a str]) -> Result<Self, AllocError>
        ensures { IfOk result (λ batch. batch ≡ record { counties = counties.now; codes = map (λ code. code.now) codes.now }) }
    {
        Ok(Batch {
            counties,
            codes,
            index: GazetteerSource::Own(Gazetteer::of(alloc, counties)?),
        })
    }

    /// Looks for addresses in counties whose street names are already indexed. The codes are in the order of the counties.
    pub fn with(
        gazetteer: &'a Gazetteer<A>,
        counties: &'a [County<A>],
        codes: &'a [&'a str],
    ) -> Self
        requires { IsGazetteerOf gazetteer.now counties.now }
        ensures { result ≡ record { counties = counties.now; codes = map (λ code. code.now) codes.now } }
    {
        Batch {
            counties,
            codes,
            index: GazetteerSource::Borrowed(gazetteer),
        }
    }

    /// Writes the lines of an address, at least one, in place of the lines that are there. CSV records are built in `tables` memory.
    pub fn write_lines(
        &self,
        alloc: A,
        tables: Global,
        address: &Address<'_>,
        lines: &mut Lines,
    ) -> Result<(), AllocError>
        ensures { OnOk result (lines.new ≡ lines_of self.now.codes self.now.counties (parts_of address.now)) }
    {
        let lookup = self.lookup(alloc, address)?;
        self.write_lookup(tables, address, &lookup, lines)
    }

    /// Does what [`write_lines`](Self::write_lines) does, but with each match in its place along the shape of its segment.
    pub fn write_shaped_lines(
        &self,
        alloc: A,
        tables: Global,
        address: &Address<'_>,
        lines: &mut Lines,
    ) -> Result<(), AllocError>
        ensures { OnOk result (AreShapedLines self.now.codes self.now.counties (parts_of address.now) lines.new) }
    {
        let lookup = self.shaped_lookup(alloc, address)?;
        self.write_lookup(tables, address, &lookup, lines)
    }

    /// Writes the lines of the answer for an address in place of the lines that are there.
    fn write_lookup(
        &self,
        tables: Global,
        address: &Address<'_>,
        lookup: &LookupResult<'a, A>,
        lines: &mut Lines,
    ) -> Result<(), AllocError>
        ensures { OnOk result (lines.new ≡ lines_with (id_of (parts_of address.now)) self.now.codes (looked_up.parts_of lookup.now)) }
    {
        let mut line = Buffer::new();
        let id = match address.id {
            Some(id) => id,
            None => line.format(address.line),
        };
        lines.clear();
        push_lines(tables, id.as_bytes(), self.codes, lookup, lines)
    }

    /// Looks for an address, and for the places of its matches along the shapes of their segments.
    fn shaped_lookup(
        &self,
        alloc: A,
        address: &Address<'_>,
    ) -> Result<LookupResult<'a, A>, AllocError>
        ensures { IfOk result (λ lookup. IsShapedLookup self.now.counties (parts_of address.now) (looked_up.parts_of lookup)) }
    {
        let address_query = match AddressQuery::of(address) {
            Ok(address_query) => address_query,
            Err(reason) => return Ok(LookupResult::NotFound(reason)),
        };
        let lookup = address_query.lookup(alloc, self.gazetteer(), self.counties)?;
        placed_lookup(alloc, address_query.query.number, &lookup, self.counties)
    }

    /// Looks for an address.
    fn lookup(&self, alloc: A, address: &Address<'_>) -> Result<LookupResult<'a, A>, AllocError>
        ensures { IfOk result (λ lookup. looked_up.parts_of lookup ≡ lookup_of self.now.counties (parts_of address.now)) }
    {
        match AddressQuery::of(address) {
            Ok(address_query) => address_query.lookup(alloc, self.gazetteer(), self.counties),
            Err(reason) => Ok(LookupResult::NotFound(reason)),
        }
    }

    /// Returns the index of the counties' street names.
    fn gazetteer(&self) -> &Gazetteer<A>
        ensures { IsGazetteerOf result.now self.now.counties }
    {
        match &self.index {
            GazetteerSource::Own(gazetteer) => gazetteer,
            GazetteerSource::Borrowed(gazetteer) => gazetteer,
        }
    }
}
