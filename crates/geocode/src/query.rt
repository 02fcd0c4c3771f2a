//! A geocoder's query, parsed from texts.
ghost use Rattle.std.specs.Prelude.{◌≡◌, IfOk, MatchResult, Ok, Err};
ghost use Rattle.std.specs.Option.{option_copied};
ghost use Rattle.geocode.specs.Gazetteer.{IsGazetteerOf};
ghost use Rattle.geocode.specs.Query.{hits_of, house_number, parts_of, query_of, zip_number};

use crate::gazetteer::Gazetteer;
use crate::hit::Hit;
use crate::hits::find;
use crate::name_text::NameText;
use numerals::decimal_value;
use std::alloc::{AllocError, Allocator};
use tl_segments::County;

/// The maximum number of digits in a house number or a ZIP code: the length of an address field.
pub const MAX_HOUSE_NUMBER_DIGITS: usize = 11;

/// A geocoder's query.
#[derive(Drop)]
pub struct Query {
    /// The house number.
    pub number: u64,
    pub name: NameText,
    /// The number of the ZIP code, if the house must be in a particular one.
    pub zip: Option<u64>,
}

/// The text of a query that is invalid.
#[derive(Clone, Copy)]
pub enum QueryFault {
    /// The house number isn't 1 to 11 digits.
    Number,
    /// The name isn't 1 to 30 characters.
    Name,
    /// The ZIP code isn't 1 to 11 digits.
    Zip,
}

impl Query {
    /// Parses a query from these texts, or returns the first of them that is invalid.
    pub fn of(number: &[u8], name: &str, zip: Option<&[u8]>) -> Result<Query, QueryFault>
        ensures { MatchResult result
            (λ query. query_of number.now name.now (option_copied zip.entry) ≡ Ok (parts_of query))
            (λ fault. query_of number.now name.now (option_copied zip.entry) ≡ Err fault) }
    {
        let number = house_number(number).ok_or(QueryFault::Number)?;
        let name = NameText::of(name).ok_or(QueryFault::Name)?;
        let zip = zip_number(zip).ok_or(QueryFault::Zip)?;
        Ok(Query { number, name, zip })
    }

    /// Returns the hits in these counties, in order. It allocates only for hits.
    pub fn find<A: Allocator + Copy>(
        &self,
        alloc: A,
        counties: &[County<A>],
    ) -> Result<Vec<Hit, A>, AllocError>
        ensures { IfOk result (λ hits. hits.items ≡ hits_of (parts_of self.now) counties.now) }
    {
        match self.name.street_name() {
            Some(name) => find(alloc, counties, self.number, name.text, self.zip),
            None => Ok(Vec::new(alloc)),
        }
    }

    /// Returns the same hits as [`find`](Self::find), using the gazetteer of these counties. Allocates only for hits.
    pub fn find_in<A: Allocator + Copy>(
        &self,
        alloc: A,
        gazetteer: &Gazetteer<A>,
        counties: &[County<A>],
    ) -> Result<Vec<Hit, A>, AllocError>
        requires { IsGazetteerOf gazetteer.now counties.now }
        ensures { IfOk result (λ hits. hits.items ≡ hits_of (parts_of self.now) counties.now) }
    {
        match self.name.street_name() {
            Some(name) => gazetteer.find(alloc, counties, self.number, name.text, self.zip),
            None => Ok(Vec::new(alloc)),
        }
    }
}

/// Parses the number of a house or of a ZIP code: digits, without a sign or blanks.
fn house_number(text: &[u8]) -> Option<u64>
    ensures { result ≡ house_number text.now }
{
    decimal_value(text, MAX_HOUSE_NUMBER_DIGITS)
}

/// Parses the number of a ZIP code, if one is given.
fn zip_number(text: Option<&[u8]>) -> Option<Option<u64>>
    ensures { result ≡ zip_number (option_copied text.entry) }
{
    match text {
        Some(text) => house_number(text).map(Some),
        None => Some(None),
    }
}
