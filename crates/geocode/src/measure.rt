//! Where a house number lies along a street segment.
ghost use Rattle.std.specs.Prelude.{◌≡◌, ◌^◌, ◌*◌, ◌<◌, ◌≤◌, ◌*ℤ◌, int_div, nat_abs, length, IfSome, IsTrue};
ghost use Rattle.geocode.specs.Measure.{IsMeasure, IsNear, coordinate_along, place_at, place_on, measure_on};
ghost use Rattle.geocode.specs.Sides.{parts_of};
ghost use Rattle.tl_records.specs.Layout.{IsWithin};
ghost use Rattle.tl_segments.specs.Range.{lies_on};

use crate::sides::SideFields;
use linear_referencing::{Place, interpolate};
use tl_fields::{coordinate, number as number_of};
use tl_records::{Places, Type1};
use tl_segments::RECORD_LENGTH;

/// A house number, and the numbers of the FR and TO addresses of the side that it lies on.
#[derive(Clone, Copy)]
pub(crate) struct Measure {
    pub number: u64,
    pub from: u64,
    pub to: u64,
}

/// Returns the place of a house number on the side of a segment with this type 1 record.
pub(crate) fn place_on(number: u64, bytes: &[u8], side: SideFields<'_>) -> Option<Place>
    requires bytes { length bytes.now ≡ RECORD_LENGTH }
    requires side { IsTrue (lies_on number side.from.now side.to.now) }
    ensures { result ≡ place_on number bytes.now (parts_of side.entry) }
{
    let from = place_at(Type1::FRLONG, Type1::FRLAT, bytes)?;
    let to = place_at(Type1::TOLONG, Type1::TOLAT, bytes)?;
    let measure = measure_on(number, side)?;
    Some(Place {
        longitude: coordinate_along(from.longitude, to.longitude, measure),
        latitude: coordinate_along(from.latitude, to.latitude, measure),
    })
}

/// Returns the place whose longitude and latitude are in these columns of a type 1 record.
pub(crate) fn place_at(longitude: Places, latitude: Places, bytes: &[u8]) -> Option<Place>
    requires longitude { IsWithin longitude (length bytes.now) }
    requires latitude { IsWithin latitude (length bytes.now) }
    ensures value { result ≡ place_at longitude latitude bytes.now }
    ensures near { IfSome result IsNear }
{
    Some(Place {
        longitude: coordinate(longitude.of(bytes))?,
        latitude: coordinate(latitude.of(bytes))?,
    })
}

pub(crate) fn measure_on(number: u64, side: SideFields<'_>) -> Option<Measure>
    requires { IsTrue (lies_on number side.from.now side.to.now) }
    ensures value { result ≡ measure_on number (parts_of side.entry) }
    ensures between { IfSome result IsMeasure }
{
    Some(Measure {
        number,
        from: number_of(side.from)?,
        to: number_of(side.to)?,
    })
}

/// Returns the coordinate as far from `from` to `to` as the house is along its side.
fn coordinate_along(from: i64, to: i64, measure: Measure) -> i64
    requires from { nat_abs from < 10 ^ 9 }
    requires to { nat_abs to < 10 ^ 9 }
    requires measure { IsMeasure measure }
    ensures { result ≡ coordinate_along from to measure }
{
    if measure.from == measure.to {
        return from;
    }
    // A coordinate times a house number needs more than 64 bits.
    let length = i128::from(to) - i128::from(from);
    let offset = i128::from(measure.number) - i128::from(measure.from);
    let total = i128::from(measure.to) - i128::from(measure.from);
    from + interpolate(length, offset, total)
}
