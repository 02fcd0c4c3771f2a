//! Listings of programs that show what the verifier knows before each instruction, and why a program is refused.
#![tactic(auto)]

mod access;
mod arithmetic;
mod explanation;
mod failure;
pub mod laws;
mod listing;
mod reach;

pub use explanation::{ExplainFault, Explanation, explain};
pub use listing_lines::{LinesFault, SourceLineFaultKind};
