//! BPF programs as text: the disassembler, and both directions on bytes.
#![tactic(auto)]

mod conversion;
mod disassembler;
mod fault;

pub use bpf_assembler::{TextFault, TextFaultKind, assemble, laws, text_too_long};
pub use conversion::{assemble_source, disassemble_program};
pub use disassembler::{disassemble, push_instruction};
pub use fault::SourceFault;
