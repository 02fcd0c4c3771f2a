//! Texts as names of streets to look for.
ghost use Rattle.std.specs.Prelude.{◌≡◌, option_map};
ghost use Rattle.geocode.specs.NameText.{name_text};

use crate::latin_1::{characters, latin_1};
use crate::street_name::StreetName;
use arrayvec::ArrayVec;
use std::marker::Model;
use tl_segments::NAME_LENGTH;

/// A text as the name of a street to look for: 1 to 30 characters. Contracts see it as its bytes in Latin-1, if Latin-1 has all its characters.
#[derive(Drop)]
pub struct NameText {
    bytes: Option<ArrayVec<u8, NAME_LENGTH>>,
}

impl Model for NameText {
    ghost use Rattle.std.specs.Prelude.{◌≤◌, ℕ, IfSome, List, Option, length, option_map};

    ghost Value = { Option (List ℕ) };

    ghost view = { λ name. option_map (λ bytes. bytes.items) name.bytes };

    ghost invariant = { λ name. IfSome name.bytes (λ bytes. 1 ≤ length bytes.items) };
}

impl NameText {
    /// Returns a text as a name, if its length is valid.
    pub fn of(text: &str) -> Option<NameText>
        ensures { result ≡ name_text text.now }
    {
        // Characters, as names come in UTF-8 and the files have Latin-1.
        let length = characters(text);
        if length == 0 || length > NAME_LENGTH {
            return None;
        }
        // That no file can have the name is an answer, and no fault of the query.
        let bytes = latin_1(text);
        Some(NameText { bytes })
    }

    /// Returns the name in Latin-1, or `None` if no file can have it.
    pub fn street_name(&self) -> Option<StreetName<'_>>
        ensures { option_map (λ name. name.text.now) result ≡ self.now }
    {
        StreetName::of(self.bytes.as_ref()?)
    }
}
