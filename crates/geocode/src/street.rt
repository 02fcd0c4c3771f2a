//! Streets, as a search names them.
ghost use Rattle.std.specs.Prelude.{◌≡◌, ◌≤◌, length, option_map};
ghost use Rattle.geocode.specs.Hits.{has_name};
ghost use Rattle.geocode.specs.Matches.{IsOnByName};
ghost use Rattle.geocode.specs.Street.{agrees, fits, name_on, parts_of};
ghost use Rattle.tl_segments.specs.FullName.{HasNameLengths, full_name_of};
ghost use Rattle.tl_segments.specs.Name.{name_equals};
ghost use Rattle.tl_segments.specs.declared.name.TheConstants.{NAME_LENGTH};

use crate::street_name::StreetName;
use std::alloc::Allocator;
use tl_fields::blank;
use tl_segments::{FullName, NAME_LENGTH, Segment, name_equals};

/// The street searched for: its name, and the directions and type that the matching name must have. An empty or blank direction or type matches any.
#[derive(Clone, Copy)]
pub struct Street<'a> {
    pub name: StreetName<'a>,
    /// The direction before the name, as FEDIRP has it.
    pub predir: &'a [u8],
    /// The street's type, as FETYPE has it.
    pub kind: &'a [u8],
    /// The direction after the name, as FEDIRS has it.
    pub sufdir: &'a [u8],
}

impl Street<'_> {
    /// Returns the first full name of the segment that is the street's.
    pub(crate) fn name_on<'s, A: Allocator>(self, segment: &'s Segment<A>) -> Option<FullName<'s>>
        ensures value { option_map full_name_of result ≡ name_on (parts_of self.entry) segment.now }
        ensures by_name { IsOnByName (parts_of self.entry) segment.now }
    {
        // Most segments don't have the name. Comparing names alone is faster than making full names.
        if has_name(self.name.text, segment) {
            return self.first_fitting(segment);
        }
        None
    }

    /// Returns the first full name of the segment that fits.
    fn first_fitting<'s, A: Allocator>(self, segment: &'s Segment<A>) -> Option<FullName<'s>>
        ensures value { option_map full_name_of result ≡ name_on (parts_of self.entry) segment.now }
        ensures by_name { IsOnByName (parts_of self.entry) segment.now }
    {
        for n in 0..=segment.names() {
            if let Some(name) = segment.full_name(n) {
                if self.fits(name) {
                    return Some(name);
                }
            }
        }
        None
    }

    /// Returns whether a full name is the street's.
    fn fits(self, name: FullName<'_>) -> bool
        requires { HasNameLengths (full_name_of name) }
        ensures { result ≡ fits (parts_of self.entry) (full_name_of name.entry) }
    {
        // As the Bureau abbreviates types and directions. With synonyms, a wrong guess would be a wrong place.
        name_equals(name.fename, self.name.text)
            && agrees(self.predir, name.fedirp)
            && agrees(self.kind, name.fetype)
            && agrees(self.sufdir, name.fedirs)
    }
}

/// Returns whether some name of the segment equals this one.
fn has_name<A: Allocator>(name: &[u8], segment: &Segment<A>) -> bool
    requires some { 1 ≤ length name.now }
    requires few { length name.now ≤ NAME_LENGTH }
    ensures { result ≡ has_name name.now segment.now }
{
    for n in 0..=segment.names() {
        if let Some(named) = segment.name(n) {
            if name_equals(named, name) {
                return true;
            }
        }
    }
    false
}

/// Returns whether a field equals the wanted text, or none is wanted.
fn agrees(wanted: &[u8], field: &[u8]) -> bool
    ensures { result ≡ agrees wanted.now field.now }
{
    blank(wanted) || equals(field, wanted)
}

/// Returns whether a field is the text followed by blanks, ignoring ASCII case.
fn equals(field: &[u8], text: &[u8]) -> bool
    ensures { result ≡ name_equals field.now text.now }
{
    if text.len() > field.len() {
        return false;
    }
    let (front, rest) = field.split_at(text.len());
    front.eq_ignore_ascii_case(text) && blank(rest)
}
