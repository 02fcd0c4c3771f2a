//! Codes of programs given as text.
use bpf_insn::{Code, decode};
use fixtures::{TableFault, program};
use std::alloc::Global;

/// Returns the code of a program given as text. The text and the code must be valid.
pub fn code_of(alloc: Global, text: &str) -> Result<Code<Global>, TableFault> {
    let bytes = program(alloc, text)?;
    decode(alloc, &bytes).map_err(|_| TableFault::Word)
}
