//! Refusals: each fault as one row of data, and its line of text.
#![tactic(auto)]

mod fault;
mod refusal;

pub use fault::Fault;
pub use refusal::{Class, Position, Refusal};
