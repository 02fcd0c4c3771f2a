//! Lines of source code, each with the place in the program that it belongs to.
#![tactic(auto)]

pub mod laws;
mod source_lines;

pub use source_lines::{
    LinesFault, MAX_PLACE, PlacedLine, SourceLineFaultKind, SourceLines, lines_too_long,
    push_source,
};
