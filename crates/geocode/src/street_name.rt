//! Street names, as a search names them.
ghost use Rattle.std.specs.Prelude.{◌≡◌, ◌≤◌, length, option_map};
ghost use Rattle.tl_segments.specs.declared.name.TheConstants.{NAME_LENGTH};
ghost use Rattle.geocode.specs.StreetName.{street_name};

use tl_segments::NAME_LENGTH;

/// The name of the street searched for, without its type and direction: 1 to 30 bytes.
#[derive(Clone, Copy)]
pub struct StreetName<'a> {
    pub text: &'a [u8],
    ghost some: { 1 ≤ length text.now },
    ghost few: { length text.now ≤ NAME_LENGTH },
}

impl<'a> StreetName<'a> {
    /// Returns a text as a name, if its length is valid.
    pub fn of(text: &'a [u8]) -> Option<StreetName<'a>>
        ensures { option_map (λ name. name.text.now) result ≡ street_name text.now }
    {
        if text.is_empty() || text.len() > NAME_LENGTH {
            return None;
        }
        Some(StreetName { text })
    }
}
