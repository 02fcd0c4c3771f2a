//! Runs of verified BPF programs (RFC 9669) on street segments.
#![tactic(auto)]

mod bare;
pub mod laws;
mod machine;
mod table;

pub use bare::{Answer, Bare, Registers};
pub use machine::{run, run_in, step};
