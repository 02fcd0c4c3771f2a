//! The table of record types (TIGER/Line 2006, record layouts): the layout of their lines, and the columns of their fields.
//!
//! One row for each record type, so that reading, checking and naming the fields of a line is the same code for all of them. Columns are those of the
//! Bureau's documentation, counted from 1 with both ends inclusive, so that a row can be compared with the page that it is from.
//!
//! A record type is a type, not a value, so nothing is decided at run time and a record is always of one type. The layout says which field must have
//! a number, since a line without it belongs to nothing, and whether the sequence number has to be one, as only in type 2 the order of lines matters.
//!
//! Always: each field is within the length of its line, which the contracts of `Places` require and the laws of this crate state column by column. A
//! field that isn't here (the flags of imputed addresses, for instance) is carried with its record, and has no name.
ghost use Rattle.std.proofs.Common.{lit≤};
ghost use Rattle.std.specs.Prelude.{◌≡◌, ◌+◌, ◌-◌, ◌≤◌, length, is_some, IfSome};
ghost use Rattle.tl_fields.specs.Number.{number_of};
ghost use Rattle.tl_records.specs.Layout.{IsWithin, field_at, latitude, longitude, type1, type2, type4, type5, type6};

use crate::fault::LineFaultKind;
use tl_fields::{field, has_number};

/// The first and last column of a field in its line, like Beg and End in the record layouts: counted from 1, both inclusive.
#[derive(Clone, Copy, PartialEq, Eq)]
pub struct Places(pub usize, pub usize);

impl Places {
    /// Returns the field in these columns of a line.
    #[inline]
    pub fn of(self, line: &[u8]) -> &[u8]
        requires { IsWithin self (length line.now) }
        ensures value { result.now ≡ field_at self line.now }
        ensures len { length result.now ≡ self.1 + 1 - self.0 }
    {
        field(line, self.0, self.1)
    }

    /// Returns whether the field in these columns of a line has a number.
    #[inline]
    pub fn has_number(self, line: &[u8]) -> bool
        requires { IsWithin self (length line.now) }
        ensures { result ≡ is_some (number_of (field_at self line.now)) }
    {
        has_number(line, self.0, self.1)
    }
}

/// The layout of a record type's lines.
#[derive(Clone, Copy, PartialEq, Eq)]
pub struct Layout {
    /// The length of a line in bytes, without its terminator.
    pub length: usize,
    /// The first byte of a line.
    pub tag: u8,
    /// The field that must have a number in each line.
    pub number: Places,
    /// The flaw of a line in which that field has no number.
    pub without_number: LineFaultKind,
    /// The field for the line's sequence number, if it must have a number too.
    pub sequence: Option<Places>,
}

/// A record type.
pub trait RecordType {
    ghost use Rattle.tl_records.specs.declared.layout.Layout.{Layout};

    ghost LAYOUT: { Layout };

    ghost number_is_within: { IsWithin LAYOUT.number LAYOUT.length };

    ghost sequence_is_within: { IfSome LAYOUT.sequence (λ places. IsWithin places LAYOUT.length) };

    /// The layout of its lines.
    const LAYOUT: Layout;
}

/// The length of a type 1 record in bytes, without its line terminator (TIGER/Line 2006, record type 1).
pub const RECORD_LENGTH: usize = 228;

/// Record type 1: a street segment's own record.
pub struct Type1;

impl RecordType for Type1 {
    ghost LAYOUT = { type1 };

    ghost number_is_within = { (lit≤ tt, lit≤ tt, lit≤ tt) };

    ghost sequence_is_within = { tt };

    const LAYOUT: Layout = Layout {
        length: RECORD_LENGTH,
        tag: b'1',
        number: Type1::TLID,
        without_number: LineFaultKind::BadTlid,
        sequence: None,
    };
}

impl Type1 {
    /// The record type, always `1`.
    pub const RT: Places = Places(1, 1);
    /// The version number.
    pub const VERSION: Places = Places(2, 5);
    /// The TIGER/Line ID, the permanent number of the segment.
    pub const TLID: Places = Places(6, 15);
    /// The single-side source code.
    pub const SIDE1: Places = Places(16, 16);
    /// The linear segment source code.
    pub const SOURCE: Places = Places(17, 17);
    /// The direction before the feature's name.
    pub const FEDIRP: Places = Places(18, 19);
    /// The feature's name.
    pub const FENAME: Places = Places(20, 49);
    /// The feature's type.
    pub const FETYPE: Places = Places(50, 53);
    /// The direction after the feature's name.
    pub const FEDIRS: Places = Places(54, 55);
    /// The census feature class code.
    pub const CFCC: Places = Places(56, 58);
    /// The start address on the left.
    pub const FRADDL: Places = Places(59, 69);
    /// The end address on the left.
    pub const TOADDL: Places = Places(70, 80);
    /// The start address on the right.
    pub const FRADDR: Places = Places(81, 91);
    /// The end address on the right.
    pub const TOADDR: Places = Places(92, 102);
    /// The ZIP Code on the left.
    pub const ZIPL: Places = Places(107, 111);
    /// The ZIP Code on the right.
    pub const ZIPR: Places = Places(112, 116);
    /// The FIPS state code on the left.
    pub const STATEL: Places = Places(131, 132);
    /// The FIPS state code on the right.
    pub const STATER: Places = Places(133, 134);
    /// The FIPS county code on the left.
    pub const COUNTYL: Places = Places(135, 137);
    /// The FIPS county code on the right.
    pub const COUNTYR: Places = Places(138, 140);
    /// The FIPS 55 code of the county subdivision on the left.
    pub const COUSUBL: Places = Places(141, 145);
    /// The FIPS 55 code of the county subdivision on the right.
    pub const COUSUBR: Places = Places(146, 150);
    /// The FIPS 55 code of the place on the left.
    pub const PLACEL: Places = Places(161, 165);
    /// The FIPS 55 code of the place on the right.
    pub const PLACER: Places = Places(166, 170);
    /// The census tract code on the left.
    pub const TRACTL: Places = Places(171, 176);
    /// The census tract code on the right.
    pub const TRACTR: Places = Places(177, 182);
    /// The census block number on the left.
    pub const BLOCKL: Places = Places(183, 186);
    /// The census block number on the right.
    pub const BLOCKR: Places = Places(187, 190);
    /// The longitude of the start.
    pub const FRLONG: Places = Places(191, 200);
    /// The latitude of the start.
    pub const FRLAT: Places = Places(201, 209);
    /// The longitude of the end.
    pub const TOLONG: Places = Places(210, 219);
    /// The latitude of the end.
    pub const TOLAT: Places = Places(220, 228);
}

/// Record type 2: points of a segment's shape.
pub struct Type2;

impl RecordType for Type2 {
    ghost LAYOUT = { type2 };

    ghost number_is_within = { (lit≤ tt, lit≤ tt, lit≤ tt) };

    ghost sequence_is_within = { (lit≤ tt, lit≤ tt, lit≤ tt) };

    const LAYOUT: Layout = Layout {
        length: 208,
        tag: b'2',
        number: Type2::TLID,
        without_number: LineFaultKind::BadTlid,
        sequence: Some(Type2::RTSQ),
    };
}

impl Type2 {
    /// The record type, always `2`.
    pub const RT: Places = Places(1, 1);
    /// The version number.
    pub const VERSION: Places = Places(2, 5);
    /// The TIGER/Line ID of the segment.
    pub const TLID: Places = Places(6, 15);
    /// The number of the record among those of the segment.
    pub const RTSQ: Places = Places(16, 18);
    /// How many points a line has room for.
    pub const POINTS: usize = 10;

    /// Returns the columns of the longitude of point `n`, counted from 1: LONG1 to LONG10.
    #[inline]
    pub fn longitude(n: usize) -> Places
        requires first { 1 ≤ n }
        requires last { n ≤ Type2.POINTS }
        ensures value { result ≡ longitude n }
        ensures within { IsWithin result type2.length }
    {
        Places(19 * n, 19 * n + 9)
    }

    /// Returns the columns of the latitude of point `n`, counted from 1: LAT1 to LAT10.
    #[inline]
    pub fn latitude(n: usize) -> Places
        requires first { 1 ≤ n }
        requires last { n ≤ Type2.POINTS }
        ensures value { result ≡ latitude n }
        ensures within { IsWithin result type2.length }
    {
        Places(19 * n + 10, 19 * n + 18)
    }
}

/// Record type 4: the numbers of a segment's alternate names.
pub struct Type4;

impl RecordType for Type4 {
    ghost LAYOUT = { type4 };

    ghost number_is_within = { (lit≤ tt, lit≤ tt, lit≤ tt) };

    ghost sequence_is_within = { tt };

    const LAYOUT: Layout = Layout {
        length: 58,
        tag: b'4',
        number: Type4::TLID,
        without_number: LineFaultKind::BadTlid,
        sequence: None,
    };
}

impl Type4 {
    /// The record type, always `4`.
    pub const RT: Places = Places(1, 1);
    /// The version number.
    pub const VERSION: Places = Places(2, 5);
    /// The TIGER/Line ID of the segment.
    pub const TLID: Places = Places(6, 15);
    /// The number of the record among those of the segment.
    pub const RTSQ: Places = Places(16, 18);
    /// The number of the first alternate name.
    pub const FEAT1: Places = Places(19, 26);
    /// The number of the second alternate name.
    pub const FEAT2: Places = Places(27, 34);
    /// The number of the third alternate name.
    pub const FEAT3: Places = Places(35, 42);
    /// The number of the fourth alternate name.
    pub const FEAT4: Places = Places(43, 50);
    /// The number of the fifth alternate name.
    pub const FEAT5: Places = Places(51, 58);
}

/// Record type 5: a feature's name, by its number.
pub struct Type5;

impl RecordType for Type5 {
    ghost LAYOUT = { type5 };

    ghost number_is_within = { (lit≤ tt, lit≤ tt, lit≤ tt) };

    ghost sequence_is_within = { tt };

    const LAYOUT: Layout = Layout {
        length: 56,
        tag: b'5',
        number: Type5::FEAT,
        without_number: LineFaultKind::BadFeature,
        sequence: None,
    };
}

impl Type5 {
    /// The record type, always `5`.
    pub const RT: Places = Places(1, 1);
    /// The version number.
    pub const VERSION: Places = Places(2, 5);
    /// The number of the feature's name.
    pub const FEAT: Places = Places(11, 18);
    /// The direction before the feature's name.
    pub const FEDIRP: Places = Places(19, 20);
    /// The feature's name.
    pub const FENAME: Places = Places(21, 50);
    /// The feature's type.
    pub const FETYPE: Places = Places(51, 54);
    /// The direction after the feature's name.
    pub const FEDIRS: Places = Places(55, 56);
}

/// Record type 6: a further address range of a segment.
pub struct Type6;

impl RecordType for Type6 {
    ghost LAYOUT = { type6 };

    ghost number_is_within = { (lit≤ tt, lit≤ tt, lit≤ tt) };

    ghost sequence_is_within = { tt };

    const LAYOUT: Layout = Layout {
        length: 76,
        tag: b'6',
        number: Type6::TLID,
        without_number: LineFaultKind::BadTlid,
        sequence: None,
    };
}

impl Type6 {
    /// The record type, always `6`.
    pub const RT: Places = Places(1, 1);
    /// The version number.
    pub const VERSION: Places = Places(2, 5);
    /// The TIGER/Line ID of the segment.
    pub const TLID: Places = Places(6, 15);
    /// The number of the record among those of the segment.
    pub const RTSQ: Places = Places(16, 18);
    /// The start address on the left.
    pub const FRADDL: Places = Places(19, 29);
    /// The end address on the left.
    pub const TOADDL: Places = Places(30, 40);
    /// The start address on the right.
    pub const FRADDR: Places = Places(41, 51);
    /// The end address on the right.
    pub const TOADDR: Places = Places(52, 62);
    /// The ZIP Code on the left.
    pub const ZIPL: Places = Places(67, 71);
    /// The ZIP Code on the right.
    pub const ZIPR: Places = Places(72, 76);
}
