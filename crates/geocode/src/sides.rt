//! The sides of an address range.
ghost use Rattle.std.specs.Prelude.{◌≡◌};
ghost use Rattle.geocode.specs.Sides.{parts_of, side_of};
ghost use Rattle.tl_segments.specs.Range.{fields_of};

use crate::hit::Side;
use tl_segments::Range;

/// The borrowed fields of a range that belong to one side: the addresses at its ends and its ZIP code.
#[derive(Clone, Copy)]
pub(crate) struct SideFields<'a> {
    pub from: &'a [u8],
    pub to: &'a [u8],
    pub zip: &'a [u8],
}

impl<'a> SideFields<'a> {
    pub(crate) fn of(range: Range<'a>, side: Side) -> Self
        ensures { parts_of result ≡ side_of (fields_of range.entry) side }
    {
        match side {
            Side::Left => SideFields {
                from: range.fraddl,
                to: range.toaddl,
                zip: range.zipl,
            },
            Side::Right => SideFields {
                from: range.fraddr,
                to: range.toaddr,
                zip: range.zipr,
            },
        }
    }
}
