//! The assembler: program text to code.
#![tactic(auto)]

mod assembler;
mod fault;
pub mod laws;
mod mnemonic_form;
mod number;
mod operand;
mod statement;
mod text_lines;
mod words;

pub use assembler::assemble;
pub use fault::{TextFault, TextFaultKind, text_too_long};
pub use mnemonic_form::MnemonicForm;
pub use operand::register_name;
pub use text_lines::first_line;
