//! Excerpts of programs whose bytes or jumps are refused: the words around the refused one, with the reason.
#![tactic(auto)]

mod excerpt;
mod listed;
mod reading;
mod reason;

pub use excerpt::WORDS_AROUND;
pub use listed::{list_code_fault, list_flow_fault};
