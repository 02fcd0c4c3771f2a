//! Extracts: the street segments (TIGER/Line 2006) that a BPF program (RFC 9669) selects, as rows or in another format.
#![tactic(auto)]

mod extractor;
mod fault;
mod formatting;
mod row_buffer;
mod rows;

pub use bpf_program::{ProgramFault, accept};
pub use extractor::{extract, extract_verified_in, write_segments};
pub use fault::ExtractFault;
pub use formatting::Format;
pub use row_buffer::{MAX_ROW_LENGTH, RowBuffer};
pub use rows::{row, row_text};
