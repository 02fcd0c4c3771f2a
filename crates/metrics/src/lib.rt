//! Counts of a server's work, as text for Prometheus.
#![tactic(auto)]

mod counters;
pub mod laws;
mod text;

pub use counters::Counters;
