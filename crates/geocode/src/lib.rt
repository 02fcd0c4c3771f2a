//! Places of house numbers: which segments of a county have a street's name and a house number on one side, and where along them it lies.
#![tactic(auto)]

mod candidates;
mod findings;
mod gazetteer;
mod hit;
mod hits;
mod house;
mod latin_1;
pub mod laws;
mod matching;
mod matching_segment;
mod measure;
mod name_hash;
mod name_index;
mod name_text;
mod query;
mod search;
mod shape_place;
mod sides;
mod span;
mod street;
mod street_name;

pub use gazetteer::Gazetteer;
pub use hit::{Hit, LINE_LENGTH, Side, hit_lines};
pub use hits::find;
pub use latin_1::push_utf8;
pub use linear_referencing::Place;
pub use matching::Match;
pub use name_text::NameText;
pub use query::{MAX_HOUSE_NUMBER_DIGITS, Query, QueryFault};
pub use street::Street;
pub use street_name::StreetName;
