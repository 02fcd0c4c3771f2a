//! Lines for people: texts, and what the user gave with its control characters escaped.
#![tactic(auto)]

mod diagnostic_line;
mod escape;
mod piece;
mod rule;

pub use diagnostic_line::DiagnosticLine;
pub use piece::{Piece, write_report};
pub use rule::write_broken_rule;
