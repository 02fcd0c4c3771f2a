//! Address ranges of street segments.
ghost use Rattle.std.specs.Prelude.{◌≡◌, length};
ghost use Rattle.tl_segments.specs.Range.{AreBytes, HasFieldLengths, IsRange, fields_of, lies_on, own_range};
ghost use Rattle.tl_segments.specs.declared.range.RangeFields.{RangeFields};

use tl_fields::number;
use tl_records::{RECORD_LENGTH, Type1};

/// The length of an address in bytes, including blanks.
pub const ADDRESS_LENGTH: usize = 11;

/// The length of a ZIP code in bytes.
pub const ZIP_LENGTH: usize = 5;

/// An address range: the fields of record type 1 or 6, under their names there. FR and TO are the ends of a side; L is the left side, R the right. An
/// unknown end is blank.
#[derive(Clone, Copy)]
pub struct Range<'a> {
    pub fraddl: &'a [u8],
    pub toaddl: &'a [u8],
    pub fraddr: &'a [u8],
    pub toaddr: &'a [u8],
    pub zipl: &'a [u8],
    pub zipr: &'a [u8],
}

/// The owned fields of an address range.
#[derive(Clone, Copy)]
pub(crate) struct RangeFields {
    fraddl: [u8; ADDRESS_LENGTH],
    toaddl: [u8; ADDRESS_LENGTH],
    fraddr: [u8; ADDRESS_LENGTH],
    toaddr: [u8; ADDRESS_LENGTH],
    zipl: [u8; ZIP_LENGTH],
    zipr: [u8; ZIP_LENGTH],
}

impl RangeFields {
    /// Copies the fields.
    pub(crate) fn of(range: Range<'_>) -> Self
        requires { HasFieldLengths (fields_of range) }
        ensures value { result ≡ fields_of range.entry }
        ensures fields { IsRange result }
    {
        RangeFields {
            fraddl: copy_of(range.fraddl),
            toaddl: copy_of(range.toaddl),
            fraddr: copy_of(range.fraddr),
            toaddr: copy_of(range.toaddr),
            zipl: copy_of(range.zipl),
            zipr: copy_of(range.zipr),
        }
    }

    /// Borrows the fields.
    pub(crate) fn as_range(&self) -> Range<'_>
        ensures value { fields_of result ≡ self.now }
        ensures lengths { HasFieldLengths (fields_of result) }
    {
        Range {
            fraddl: &self.fraddl,
            toaddl: &self.toaddl,
            fraddr: &self.fraddr,
            toaddr: &self.toaddr,
            zipl: &self.zipl,
            zipr: &self.zipr,
        }
    }
}

/// Copies the bytes into an array.
pub(crate) fn copy_of<const N: usize>(bytes: &[u8]) -> [u8; N]
    requires { length bytes.now ≡ N }
    ensures value { result ≡ bytes.now }
    ensures bytes { AreBytes N result }
{
    *bytes.first_chunk().unwrap()
}

/// Returns the range in a type 1 record itself.
pub(crate) fn own_range(line: &[u8]) -> Range<'_>
    requires { length line.now ≡ RECORD_LENGTH }
    ensures value { fields_of result ≡ own_range line.now }
    ensures fields { IsRange (fields_of result) }
{
    Range {
        fraddl: Type1::FRADDL.of(line),
        toaddl: Type1::TOADDL.of(line),
        fraddr: Type1::FRADDR.of(line),
        toaddr: Type1::TOADDR.of(line),
        zipl: Type1::ZIPL.of(line),
        zipr: Type1::ZIPR.of(line),
    }
}

/// Returns whether a house number lies on a side of a street with these FR and TO addresses. Both must have a number, and `n` must lie between them,
/// inclusive, in either order. If both are even or both are odd, `n` must be too.
pub fn lies_on(n: u64, fr: &[u8], to: &[u8]) -> bool
    ensures { result ≡ lies_on n fr.now to.now }
{
    let (Some(from), Some(to)) = (number(fr), number(to)) else {
        return false;
    };
    let is_between = from.min(to) <= n && n <= from.max(to);
    let matches_parity = from % 2 != to % 2 || n % 2 == from % 2;
    is_between && matches_parity
}
