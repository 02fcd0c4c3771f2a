//! The notes of a listing: what is known before an instruction, as text.
#![tactic(auto)]

mod facts;
pub mod laws;
mod notation;
mod reads;

pub use facts::{note, push_facts, push_instruction_line};
pub use notation::{Part, push_fact, push_kind};
pub use reads::{Bytes, bytes_from, helper_of, lent_bytes, registers_read, slots_read};
