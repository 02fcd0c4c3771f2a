//! The question that an address asks.
ghost use Rattle.std.specs.Prelude.{◌≡◌, MatchResult, Ok, Err, option_copied, option_map};
ghost use Rattle.addresses.specs.Address.{parts_of};
ghost use Rattle.address_batch.specs.AddressQuery.{is_missing, address_query_of, reason_of, street_in, zip_of};
ghost use Rattle.address_batch.specs.AddressQuery as address_query;
ghost use Rattle.geocode.specs.Street as looked_for;

use crate::reason::Reason;
use addresses::Address;
use geocode::{Query, QueryFault, Street};

/// A house number on a street, optionally in a ZIP code.
#[derive(Drop)]
pub(crate) struct AddressQuery<'a> {
    pub query: Query,
    pub predir: &'a [u8],
    /// The street's type.
    pub kind: &'a [u8],
    pub sufdir: &'a [u8],
}

impl<'a> AddressQuery<'a> {
    /// Returns the question that an address asks, or why it asks none.
    pub(crate) fn of(address: &Address<'a>) -> Result<AddressQuery<'a>, Reason>
        ensures { MatchResult result
            (λ asked. address_query_of (parts_of address.now) ≡ Ok (address_query.parts_of asked))
            (λ reason. address_query_of (parts_of address.now) ≡ Err reason) }
    {
        if is_missing(address) {
            return Err(Reason::Missing);
        }
        match Query::of(address.number.as_bytes(), address.name, zip_of(address.zip)) {
            Ok(query) => Ok(AddressQuery {
                query,
                predir: address.predir.as_bytes(),
                kind: address.kind.as_bytes(),
                sufdir: address.sufdir.as_bytes(),
            }),
            Err(fault) => Err(reason_of(fault)),
        }
    }

    /// Returns the street, or `None` if no file can have its name.
    pub(crate) fn street(&self) -> Option<Street<'_>>
        ensures { option_map looked_for.parts_of result ≡ street_in (address_query.parts_of self.now) }
    {
        let name = self.query.name.street_name()?;
        Some(Street {
            name,
            predir: self.predir,
            kind: self.kind,
            sufdir: self.sufdir,
        })
    }
}

/// Returns whether the number or the name is missing.
fn is_missing(address: &Address<'_>) -> bool
    ensures { result ≡ is_missing (parts_of address.now) }
{
    address.number.is_empty() || address.name.is_empty()
}

/// Returns the ZIP code, if one is given.
fn zip_of(zip: &str) -> Option<&[u8]>
    ensures { option_copied result ≡ zip_of zip.now }
{
    if zip.is_empty() {
        return None;
    }
    Some(zip.as_bytes())
}

/// Returns the reason that corresponds to a query's fault.
fn reason_of(fault: QueryFault) -> Reason
    ensures { result ≡ reason_of fault }
{
    match fault {
        QueryFault::Number => Reason::NotANumber,
        QueryFault::Name => Reason::NameTooLong,
        QueryFault::Zip => Reason::NotANumber,
    }
}
