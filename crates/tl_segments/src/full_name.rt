//! Full names of street segments.
ghost use Rattle.std.specs.Prelude.{◌≡◌, length};
ghost use Rattle.tl_segments.specs.FullName.{HasNameLengths, IsFullName, full_name_of, own_full_name};

use crate::name::NAME_LENGTH;
use crate::range::copy_of;
use tl_records::{RECORD_LENGTH, Type1};

/// The length of FEDIRP and of FEDIRS, including trailing blanks.
pub const DIRECTION_LENGTH: usize = 2;

/// The length of FETYPE, including trailing blanks.
pub const TYPE_LENGTH: usize = 4;

/// A borrowed complete street name: the fields of record type 1 or 5, under their names there. FEDIRP is the prefix direction (`N`, `SE`), FETYPE the
/// feature type (`St`, `Ave`) and FEDIRS the suffix direction. A field that the name doesn't have is blank.
#[derive(Clone, Copy)]
pub struct FullName<'a> {
    pub fedirp: &'a [u8],
    pub fename: &'a [u8],
    pub fetype: &'a [u8],
    pub fedirs: &'a [u8],
}

/// The owned fields of a complete street name.
#[derive(Clone, Copy)]
pub(crate) struct FullNameFields {
    fedirp: [u8; DIRECTION_LENGTH],
    fename: [u8; NAME_LENGTH],
    fetype: [u8; TYPE_LENGTH],
    fedirs: [u8; DIRECTION_LENGTH],
}

impl FullNameFields {
    /// Copies the fields.
    #[inline(always)]
    pub(crate) fn of(name: FullName<'_>) -> Self
        requires { HasNameLengths (full_name_of name) }
        ensures value { result ≡ full_name_of name.entry }
        ensures fields { IsFullName result }
    {
        FullNameFields {
            fedirp: copy_of(name.fedirp),
            fename: copy_of(name.fename),
            fetype: copy_of(name.fetype),
            fedirs: copy_of(name.fedirs),
        }
    }

    /// Returns the name without its affixes.
    #[inline(always)]
    pub(crate) fn fename(&self) -> &[u8; NAME_LENGTH]
        ensures { result.now ≡ self.now.fename }
    {
        &self.fename
    }

    /// Borrows the fields.
    #[inline(always)]
    pub(crate) fn as_full_name(&self) -> FullName<'_>
        ensures value { full_name_of result ≡ self.now }
        ensures lengths { HasNameLengths (full_name_of result) }
    {
        FullName {
            fedirp: &self.fedirp,
            fename: &self.fename,
            fetype: &self.fetype,
            fedirs: &self.fedirs,
        }
    }
}

/// Returns the full name in a type 1 record.
pub(crate) fn own_full_name(line: &[u8]) -> FullName<'_>
    requires { length line.now ≡ RECORD_LENGTH }
    ensures value { full_name_of result ≡ own_full_name line.now }
    ensures fields { IsFullName (full_name_of result) }
{
    FullName {
        fedirp: Type1::FEDIRP.of(line),
        fename: Type1::FENAME.of(line),
        fetype: Type1::FETYPE.of(line),
        fedirs: Type1::FEDIRS.of(line),
    }
}
