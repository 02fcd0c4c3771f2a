//! Numbers in ASCII digits: decimal numerals, and coordinates as decimal degrees.
#![tactic(auto)]

mod coordinate;
pub mod laws;
mod numeral;

pub use coordinate::{DEGREES_LENGTH, degrees};
pub use numeral::{MAX_NUMBER_DIGITS, are_digits, decimal_value};
