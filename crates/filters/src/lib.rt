//! Filters in a language, compiled to programs, and why a text without one is refused.
#![tactic(auto)]

mod failure;
mod filter;
mod options;
mod options_fault;

pub use failure::{FilterFailure, PIECE_COUNT};
pub use filter::{FilterLanguage, FilterOptions};
pub use options::filter_options;
pub use options_fault::FilterOptionsFault;
