//! Translating filters from the JSON encoding of OGC CQL2 (21-065r2) to its Text encoding.
#![tactic(auto)]

mod fault;
mod form;
mod geometry_type;
pub mod laws;
mod members;
mod operator;
mod pointer;
mod position;
mod quoted;
mod translation;
mod value;
mod writer;

pub use fault::{ExpectedValue, ItemCount, JsonFault, JsonFlaw, ValueFlaw};
pub use translation::{MAX_LENGTH, pointer_at, translate};
