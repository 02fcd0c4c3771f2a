//! Places on lines of several points, by their distance from the start (linear referencing).
#![tactic(auto)]

mod interpolation;
pub mod laws;
mod length;
mod place;

pub use interpolation::interpolate;
pub use place::{Place, Share, place_along};
