//! A house number, and the hit on a side of a range.
ghost use Rattle.std.specs.Prelude.{◌≡◌, length, Some};
ghost use Rattle.geocode.specs.Hits.{has_zip, hit_on};
ghost use Rattle.geocode.specs.Sides.{parts_of};
ghost use Rattle.tl_fields.specs.Number.{number_of};
ghost use Rattle.tl_records.specs.Layout.{field_at};
ghost use Rattle.tl_records.specs.declared.layout.TheConstants.Type1.{TLID};
ghost use Rattle.tl_segments.specs.Range.{fields_of};

use crate::hit::{Hit, Side};
use crate::measure::place_on;
use crate::sides::SideFields;
use tl_fields::number as number_of;
use tl_segments::{RECORD_LENGTH, Range, lies_on};

/// The house number searched for and, if the house must be in a particular ZIP code, the number of that code.
#[derive(Clone, Copy)]
pub(crate) struct House {
    pub number: u64,
    pub zip: Option<u64>,
}

/// Returns the hit on a side of a range of a segment with this type 1 record and this TLID number, if the house is on it.
pub(crate) fn hit_on(
    house: House,
    tlid: u64,
    bytes: &[u8],
    range: Range<'_>,
    side: Side,
) -> Option<Hit>
    requires bytes { length bytes.now ≡ RECORD_LENGTH }
    requires tlid { number_of (field_at TLID bytes.now) ≡ Some tlid }
    ensures { result ≡ hit_on house bytes.now (fields_of range.entry) side }
{
    let fields = SideFields::of(range, side);
    if !lies_on(house.number, fields.from, fields.to) || !has_zip(house.zip, fields.zip) {
        return None;
    }
    let place = place_on(house.number, bytes, fields);
    Some(Hit { tlid, side, place })
}

/// Returns whether a side's ZIP code has the wanted number, if one is wanted.
fn has_zip(wanted: Option<u64>, zip: &[u8]) -> bool
    ensures { result ≡ has_zip wanted zip.now }
{
    wanted.is_none() || number_of(zip) == wanted
}
