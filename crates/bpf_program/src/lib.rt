//! Accepted programs: bytes, or code (RFC 9669), that are safe to run on every street segment.
#![tactic(auto)]

pub mod laws;
mod program;

pub use program::{ProgramFault, accept, accept_code, check_code, check_program};
